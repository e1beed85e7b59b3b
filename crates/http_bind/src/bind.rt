//! The connections of an HTTP server: bytes come in, requests come out, replies are written.

ghost use Rattle.std.specs.Prelude.{◌≡◌, ◌≤◌, ◌<◌, ◌++◌, ◌⊎◌, ℕ, [], length, position, Some, None, false, not, ◌==◌, option_map, unwrap_or, IfOk, IfSome, IsSome, if◌then◌else◌};
ghost use Rattle.http_bind.specs.Slots.{nothing_held, with_held, without_wait_of, with_wait, is_idle};
ghost use Rattle.http_bind.specs.Looking.{room_size};
ghost use Rattle.http_bind.specs.Shown.{TakesAt, MayLend, Lends, SettlesAt, waits_after};

use crate::looking::HeldFront;
use crate::owed::Owed;
use crate::slot::ConnectionSlot;
use crate::waits::{Wait, Waits};
use crate::writing::{
    HEAD_BYTES, WORD_BYTES, fault_word, payload, put_answer, put_status_head, put_woken,
};
use crate::{HttpNext, HttpOut};
use http_wire::CONTINUE;
use servient_base::{ConnectionId, Target, put_bytes};
use std::alloc::Global;
use std::marker::Model;
use thing_ops::{NoMemory, Outcome};

/// The most connections that may be open.
const CONNECTIONS: usize = 64;

/// The most bytes that the query and the body of a request have together.
pub const ROOM: usize = 24576;

/// The connections of an HTTP server, numbered from 0 to 63. Contracts see what is held of each, and which requests
/// wait (`Slots` of specs/Slots.antt). A connection is given up by `ended`, by the reply to a message that asks for it,
/// by the reply to a fault, and by `next` where bytes came behind a request that waits. Moments are milliseconds, and
/// may fall.
#[derive(Drop)]
pub struct HttpBind {
    alloc: Global,
    slots: Vec<ConnectionSlot>,
    waits: Waits,
}

impl Model for HttpBind {
    ghost use Rattle.http_bind.specs.Slots.{Slots};

    ghost Value = { Slots };

    ghost use Rattle.http_bind.specs.Slots.{IsSound};

    ghost view = { λ b. record { places = b.slots.items; waits = b.waits } };

    ghost invariant = { λ b. IsSound (record { places = b.slots.items; waits = b.waits }) };
}

impl HttpBind {
    ghost use Rattle.http_bind.specs.Replying.{fault_word as word_of_fault, reply_head, status_head, fault_body};
    ghost use Rattle.http_bind.specs.Streams.{Streams, Opened, Ended, Lengthened, Answers, Wakes, Continues, Refuses, IsIdle, NoneIdle, none_open, woken_by, oldest_for, oldest_late};
    ghost use Rattle.http_bind.specs.Slots.{StandsFor, Leads, OthersStay, IsSound, HasRoom, IsBounded, IsOpen, IsOwed, IsWaiting, longest_piece, longest_text, left_at, sent_in};
    ghost use Rattle.http_bind.specs.Given.{Gives, LeavesLess};

    /// No connection is open. All memory but that for paths is taken here.
    pub fn new(alloc: Global) -> Result<HttpBind, NoMemory>
        ensures { IfOk result (λ b. StandsFor b none_open) }
    {
        let slots = free_slots(alloc)?;
        let waits = Waits::new(alloc)?;
        Ok(HttpBind {
            alloc,
            slots,
            waits,
        })
    }

    /// Of each connection no more bytes are held than may be, and each request that waits is of a connection of its own,
    /// which is open and owed a reply. This always holds, and the call does nothing.
    pub fn always_sound(&self)
        ensures { IsSound self.now }
    {
        // A field is read, since the prover knows there what always holds.
        let _slots = &self.slots;
    }

    /// A connection is opened; what was held of an earlier one of this number is given up.
    pub fn opened(&mut self, c: ConnectionId, now: u64)
        requires { c < 64 }
        ensures leads { Leads (Opened c now) self.old self.new }
        ensures room { HasRoom c self.new }
        ensures others { OthersStay c self.old self.new }
    {
        self.slots[c as usize].open(now);
        self.waits.remove(c);
    }

    /// Bytes came on a connection; where it isn't open nothing happens. There is room for them once `next` was `Idle`.
    pub fn bytes(&mut self, c: ConnectionId, piece: &[u8], now: u64)
        requires connection { c < 64 }
        requires length { length piece.now ≤ longest_piece }
        requires room { HasRoom c self.old }
        ensures leads { Leads (Lengthened c piece.now now) self.old self.new }
        ensures bound { IsBounded c self.new }
        ensures others { OthersStay c self.old self.new }
    {
        self.slots[c as usize].append(piece, now);
    }

    /// A connection isn't open any more: its peer ended it, or it is closed. Nobody waits on it any more.
    pub fn ended(&mut self, c: ConnectionId)
        requires { c < 64 }
        ensures leads { Leads (Ended c) self.old self.new }
        ensures held { self.new ≡ with_held c None (without_wait_of c self.old) }
        ensures room { HasRoom c self.new }
        ensures others { OthersStay c self.old self.new }
    {
        self.slots[c as usize].free();
        self.waits.remove(c);
    }

    /// Says what to do next on a connection. A message is taken, also where its path is out of memory. The query and the
    /// body of a request are written into `room` and lent from there, because a caller would know nothing of `self` if
    /// a result that owns a path were lent from it (docs/DECISIONS.md, "What the kit can't give"). Each message
    /// leaves less to take, so a connection is dry after finitely many calls.
    pub fn next<'a>(&mut self, c: ConnectionId, room: &'a mut [u8]) -> HttpNext<'a>
        requires connection { c < 64 }
        requires room { ROOM ≤ length room.old }
        ensures gives { Gives c result self.old self.new }
        ensures less { LeavesLess result (left_at c self.old) (left_at c self.new) }
        ensures others { OthersStay c self.old self.new }
    {
        let found = take(&mut self.slots, &mut self.waits, c, self.alloc, room);
        lend(found, room)
    }

    /// The request that was taken last from a connection waits, or it is replied to. The head of a reply is in `out`; its
    /// payload is the outcome's text, or its word in `word`. Both are the caller's, so that a reply takes no memory.
    pub fn answered<'a>(
        &mut self,
        c: ConnectionId,
        outcome: &'a Outcome,
        now: u64,
        out: &'a mut [u8; HEAD_BYTES],
        word: &'a mut [u8; WORD_BYTES],
    ) -> HttpOut<'a>
        requires connection { c < 64 }
        requires owed { IsOwed c self.old }
        ensures leads { Leads (Answers c outcome.now now (sent_in result)) self.old self.new }
        ensures head { result.head.now ≡ unwrap_or (reply_head result.close outcome.now) [] }
        ensures left { left_at c self.new ≤ left_at c self.old }
        ensures room { HasRoom c self.old → HasRoom c self.new }
        ensures others { OthersStay c self.old self.new }
    {
        match outcome {
            Outcome::Wait(target) => {
                self.begin_wait(c, *target, now);
                HttpOut::of_a_wait()
            }
            _ => {
                let owed = self.take_owed(c, now);
                let payload = payload(outcome, word);
                let length = put_answer(outcome, payload.len(), owed.closes, out);
                let body: &[u8] = if owed.bodiless { &[] } else { payload };
                HttpOut {
                    head: &out[..length],
                    body,
                    close: owed.closes,
                    waits: false,
                }
            }
        }
    }

    /// The reply to a request that waits: with the text that was emitted, or without one, if there was none for 60
    /// seconds. Its head is in `out`.
    pub fn woken<'a>(
        &mut self,
        c: ConnectionId,
        text: Option<&'a [u8]>,
        now: u64,
        out: &'a mut [u8; HEAD_BYTES],
    ) -> HttpOut<'a>
        requires waits { IsWaiting c self.old }
        requires text { IfSome text (λ t. length t.now ≤ longest_text) }
        ensures leads { Leads (Wakes c (option_map (λ t. t.now) text.entry) now (result.head.now ++ result.body.now) result.close) self.old self.new }
        ensures sent { result.waits ≡ false }
        ensures head { Some result.head.now ≡ reply_head result.close (woken_by (option_map (λ t. t.now) text.entry)) }
        ensures left { left_at c self.new ≤ left_at c self.old }
        ensures room { HasRoom c self.old → HasRoom c self.new }
        ensures fewer { length self.new.waits < length self.old.waits }
        ensures others { OthersStay c self.old self.new }
    {
        // Called so that the proof knows that who waits is owed a reply.
        self.always_sound();
        let owed = self.take_owed(c, now);
        let length = put_woken(text, owed.closes, out);
        let body = if owed.bodiless { &[] } else { text_of(text) };
        HttpOut {
            head: &out[..length],
            body,
            close: owed.closes,
            waits: false,
        }
    }

    /// The 100 reply, where the status is 100, or the reply to a fault with this status. Its head is in `out` and its
    /// word in `word`.
    pub fn refused<'a>(
        &mut self,
        c: ConnectionId,
        status: u16,
        out: &'a mut [u8; HEAD_BYTES],
        word: &'a mut [u8; WORD_BYTES],
    ) -> HttpOut<'a>
        requires connection { c < 64 }
        requires status { (status ≡ 100) ⊎ IsSome (word_of_fault status) }
        ensures continues { status ≡ 100 → Leads (Continues (result.head.now ++ result.body.now)) self.old self.new }
        ensures refuses { IsSome (word_of_fault status) → Leads (Refuses c status (result.head.now ++ result.body.now)) self.old self.new }
        ensures head { result.head.now ≡ status_head status }
        ensures body { result.body.now ≡ fault_body status }
        ensures close { result.close ≡ not (status == 100) }
        ensures left { left_at c self.new ≤ (if status == 100 then left_at c self.old else 0) }
        ensures others { OthersStay c self.old self.new }
    {
        self.free_unless(c, status == CONTINUE);
        let length = put_status_head(status, out);
        let end = put_bytes(word, 0, fault_word(status));
        HttpOut {
            head: &out[..length],
            body: &word[..end],
            close: status != CONTINUE,
            waits: false,
        }
    }

    /// The connection that waits longest for an emission of this target.
    pub fn waiting(&self, target: Target) -> Option<ConnectionId>
        ensures first { result ≡ oldest_for target self.now.waits }
        ensures waits { (c : ℕ) → result ≡ Some c → IsWaiting c self.now }
        ensures bound { (c : ℕ) → result ≡ Some c → c < 64 }
    {
        self.waits.oldest_for(target)
    }

    /// The connection that waits longest, of those that have waited for 60,000 ms or longer.
    pub fn late(&self, now: u64) -> Option<ConnectionId>
        ensures first { result ≡ oldest_late now self.now.waits }
        ensures waits { (c : ℕ) → result ≡ Some c → IsWaiting c self.now }
        ensures bound { (c : ℕ) → result ≡ Some c → c < 64 }
    {
        self.waits.oldest_late(now)
    }

    /// The lowest connection that is owed no reply and whose last activity (its opening, bytes, or a reply) was 120,000
    /// ms ago or longer.
    pub fn idle(&self, now: u64) -> Option<ConnectionId>
        ensures idle { (c : ℕ) → result ≡ Some c → (s : Streams) → StandsFor self.now s → IsIdle c now s }
        ensures none { result ≡ None → (s : Streams) → StandsFor self.now s → NoneIdle now s }
        ensures bound { (c : ℕ) → result ≡ Some c → c < 64 }
        ensures open { (c : ℕ) → result ≡ Some c → IsOpen c self.now }
    {
        match first_idle(self.slots.as_slice(), now) {
            Some(place) => Some(place as ConnectionId),
            None => None,
        }
    }

    /// The request that was taken last from a connection waits for an emission of a target. An earlier wait of the
    /// connection goes first, so that it waits once at most.
    fn begin_wait(&mut self, c: ConnectionId, target: Target, now: u64)
        requires { IsOwed c self.old }
        ensures { self.new ≡ with_wait c target now self.old }
    {
        self.waits.remove(c);
        self.waits.push(Wait {
            connection: c,
            target,
            since: now,
        });
    }

    /// The request that was taken last from a connection is replied to, and waits no longer if it did. Returns what was
    /// owed to it.
    fn take_owed(&mut self, c: ConnectionId, now: u64) -> Owed
        requires { IsOwed c self.old }
        ensures { SettlesAt c now self.old result self.new }
    {
        self.waits.remove(c);
        self.slots[c as usize].take_owed(now)
    }

    /// Gives up a connection that doesn't go on.
    fn free_unless(&mut self, c: ConnectionId, goes_on: bool)
        requires { c < 64 }
        ensures { self.new ≡ (if goes_on then self.old else with_held c None (without_wait_of c self.old)) }
    {
        if !goes_on {
            self.slots[c as usize].free();
            self.waits.remove(c);
        }
    }
}

/// The place of the first connection that is idle. It is a function, since the search proves
/// `position` in a function alone.
fn first_idle(slots: &[ConnectionSlot], now: u64) -> Option<usize>
    ensures first { result ≡ position (is_idle now) slots.now }
    ensures bound { IfSome result (λ place. place < length slots.now) }
{
    slots.iter().position(|slot| slot.is_idle(now))
}

/// The text that is sent to a request that waited; nothing, where there is none.
fn text_of(text: Option<&[u8]>) -> &[u8]
    ensures { result.now ≡ unwrap_or (option_map (λ t. t.now) text.entry) [] }
{
    match text {
        Some(text) => text,
        None => &[],
    }
}

/// The room for the query and the body of a request, which `next` asks for.
pub fn new_room(alloc: Global) -> Result<Vec<u8>, NoMemory>
    ensures { IfOk result (λ room. length room.items ≡ ROOM) }
{
    vec![in alloc; 0u8; ROOM]
}

/// A slot for each connection.
fn free_slots(alloc: Global) -> Result<Vec<ConnectionSlot>, NoMemory>
    ensures { IfOk result (λ slots. slots.items ≡ nothing_held) }
{
    let mut slots = Vec::with_capacity(alloc, CONNECTIONS)?;
    // Each is made anew, since a slot holds memory and has no copy.
    for _slot in 0..CONNECTIONS {
        slots.push(ConnectionSlot::new(alloc)?)?;
    }
    Ok(slots)
}

/// Takes what is at the front of a connection. The query and the body of a request are written into `room`; a request
/// that waits and was interrupted waits no longer.
fn take(
    slots: &mut Vec<ConnectionSlot>,
    waits: &mut Waits,
    c: ConnectionId,
    alloc: Global,
    room: &mut [u8],
) -> HeldFront
    requires connection { c < length slots.old.items }
    requires room { room_size ≤ length room.old }
    ensures taken { TakesAt c slots.old.items result slots.new.items room.new }
    ensures waits { waits.new ≡ waits_after result c waits.old }
{
    let found = slots[c as usize].next(alloc, room);
    if matches!(found, HeldFront::Interrupted) {
        waits.remove(c);
    }
    found
}

/// Gives what was found, with the query and the body of a request, which lie in `room`.
fn lend(found: HeldFront, room: &[u8]) -> HttpNext<'_>
    requires { MayLend found room.now }
    ensures { Lends found room.now result }
{
    match found {
        HeldFront::Nothing => HttpNext::Idle,
        HeldFront::Interrupted => HttpNext::Close,
        HeldFront::Continue => HttpNext::Continue,
        HeldFront::Fault(status) => HttpNext::Refuse(status),
        HeldFront::Message(_, None) => HttpNext::Memory,
        HeldFront::Message(_, Some(parts)) => HttpNext::Ask(parts.request_in(room)),
    }
}
