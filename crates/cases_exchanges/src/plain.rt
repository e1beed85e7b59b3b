//! A table of exchanges as a plain list, with the contract of `Exchanges` of `coap_exchange`, by a walk over all that
//! live.

ghost use Rattle.std.specs.Prelude.{◌≡◌, ◌≤◌, ◌+◌, ◌++◌, ℕ, map, filter, find, not, length, IfOk, vec_capacity};
ghost use Rattle.coap_exchange.specs.Admission.{lives};
ghost use Rattle.slot_lists.specs.Counts.{once_below};
ghost use Rattle.cases_exchanges.specs.Plain.{arrival_of, is_of, times_free};
ghost use Rattle.coap_msg.specs.declared.message.Type4.TheVariants.{Con, Non};

use crate::entry::Entry;
use coap_exchange::{Met, NoMemory};
use coap_msg::{BoundedBytes, Endpoint, LONGEST_MESSAGE, RequestType, Type4};
use std::alloc::Global;
use std::marker::Model;

/// The exchanges of a server. Contracts see the number that may live, the last moment that was handed in, and the
/// exchanges that live then with their replies (`Table` of specs/Table.antt).
///
/// Entries are in the order in which their requests were admitted. Replies have fixed places, by slot, so that a call
/// moves entries alone.
#[derive(Drop)]
pub struct PlainExchanges {
    capacity: u32,
    moment: u64,
    entries: Vec<Entry>,
    free: Vec<u32>,
    replies: Vec<Option<BoundedBytes<LONGEST_MESSAGE>>>,
}

impl Model for PlainExchanges {
    ghost use Rattle.coap_exchange.specs.Table.{Table};

    ghost Value = { Table };

    ghost use Rattle.cases_exchanges.specs.Plain.{table_of, IsKept};

    ghost view = { table_of };

    ghost invariant = { IsKept };
}

impl PlainExchanges {
    ghost use Rattle.std.specs.Prelude.{◌⊎◌, ℕ};
    ghost use Rattle.coap_msg.specs.declared.message.RequestType.{RequestType};
    ghost use Rattle.coap_msg.specs.Requests.{request_type};
    ghost use Rattle.coap_exchange.specs.Table.{empty_table, at_moment, Meets, IsAwaited, HasReply, HoldsReply, with_reply, FindsDuplicated, Admits};

    /// A table in which `capacity` exchanges may live. All its memory is taken here.
    pub fn new(alloc: Global, capacity: u32) -> Result<PlainExchanges, NoMemory>
        requires least { 16 ≤ capacity }
        requires most { capacity ≤ 65536 }
        ensures { IfOk result (λ x. x ≡ empty_table capacity) }
    {
        let entries = Vec::with_capacity(alloc, capacity as usize)?;
        let free = all_slots(alloc, capacity)?;
        let replies = no_replies(alloc, capacity)?;
        Ok(PlainExchanges {
            capacity,
            moment: 0,
            entries,
            free,
            replies,
        })
    }

    /// Judges a request that came at the moment `now`, in milliseconds. Only a request that is `Fresh` makes a new
    /// exchange.
    pub fn meet(&mut self, from: Endpoint, id: u16, kind: Type4, now: u64) -> Met
        requires kind { (kind ≡ Con) ⊎ (kind ≡ Non) }
        requires now { self.old.moment ≤ now }
        ensures met { Meets (at_moment now self.old) (record { moment = now; from = from; id = id; kind = request_type kind }) result self.new }
        ensures moment { self.new.moment ≡ now }

        // The uses of the slots.
        ensures awaited { (slot : ℕ) → result ≡ Met.Fresh slot → IsAwaited slot self.new }
        ensures kept { (slot : ℕ) → result ≡ Met.Repeat (Some slot) → HasReply slot self.new }
    {
        self.advance_to(now);
        self.judge(from, id, RequestType::of(kind))
    }

    /// Keeps the reply to the request that got this slot.
    pub fn keep(&mut self, slot: u32, reply: &[u8])
        requires slot { IsAwaited slot self.old }
        requires length { length reply.now ≤ LONGEST_MESSAGE }
        ensures { self.new ≡ with_reply slot reply.now self.old }
    {
        self.replies[slot as usize] = Some(BoundedBytes::of(reply));
    }

    /// The reply that is kept in this slot.
    pub fn reply(&self, slot: u32) -> &[u8]
        requires { HasReply slot self.now }
        ensures ok { HoldsReply slot result.now self.now }
        ensures bound { length result.now ≤ LONGEST_MESSAGE }
    {
        match &self.replies[slot as usize] {
            Some(reply) => reply.as_bytes(),
            None => &[],
        }
    }

    /// Moves on to the moment `now`, and gives up the exchanges that don't live then.
    fn advance_to(&mut self, now: u64)
        requires { self.old.moment ≤ now }
        ensures { self.new ≡ at_moment now self.old }
    {
        free_slots(&mut self.free, self.entries.as_slice(), now);
        keep_living(&mut self.entries, now);
        self.moment = now;
    }

    /// Judges a request that came now.
    fn judge(&mut self, from: Endpoint, id: u16, kind: RequestType) -> Met
        ensures { Meets self.old (record { moment = self.old.moment; from = from; id = id; kind = kind }) result self.new }
    {
        if let Some(kept) = self.duplicated(from, id) {
            return Met::Repeat(kept);
        }
        match self.admit(from, id, kind) {
            Some(slot) => Met::Fresh(slot),
            None => Met::Full,
        }
    }

    /// The slot of the reply to the exchange of this endpoint and message ID, where one was kept, if that exchange
    /// lives.
    fn duplicated(&self, from: Endpoint, id: u16) -> Option<Option<u32>>
        ensures { (kind : RequestType) → FindsDuplicated self.now (record { moment = self.now.moment; from = from; id = id; kind = kind }) result }
    {
        let entry = entry_of(self.entries.as_slice(), from, id)?;
        match &self.replies[entry.slot as usize] {
            Some(_) => Some(Some(entry.slot)),
            None => Some(None),
        }
    }

    /// Makes an exchange of a request that came now, and returns its slot, if there is room.
    fn admit(&mut self, from: Endpoint, id: u16, kind: RequestType) -> Option<u32>
        ensures { Admits self.old (record { moment = self.old.moment; from = from; id = id; kind = kind }) result self.new }
    {
        let slot = self.free.pop()?;
        self.replies[slot as usize] = None;
        let moment = self.moment;
        self.entries
            .push(Entry {
                moment,
                from,
                id,
                kind,
                slot,
            })
            .unwrap();
        Some(slot)
    }
}

/// The entry of this endpoint and message ID.
fn entry_of(entries: &[Entry], from: Endpoint, id: u16) -> Option<Entry>
    ensures { result ≡ find (is_of from id) entries.now }
{
    for entry in entries {
        if entry.is_of(from, id) {
            return Some(*entry);
        }
    }
    None
}

/// The slots below the capacity, all of them free.
fn all_slots(alloc: Global, capacity: u32) -> Result<Vec<u32>, NoMemory>
    ensures slots { IfOk result (λ free. (s : ℕ) → times_free s free.items ≡ once_below s capacity) }
    ensures count { IfOk result (λ free. length free.items ≡ capacity) }
    ensures room { IfOk result (λ free. capacity ≤ vec_capacity free) }
{
    let mut free = Vec::with_capacity(alloc, capacity as usize)?;
    for slot in 0..capacity {
        free.push(slot)?;
    }
    Ok(free)
}

/// A place for the reply of each slot.
fn no_replies(
    alloc: Global,
    capacity: u32,
) -> Result<Vec<Option<BoundedBytes<LONGEST_MESSAGE>>>, NoMemory>
    ensures { IfOk result (λ replies. length replies.items ≡ capacity) }
{
    let mut replies = Vec::with_capacity(alloc, capacity as usize)?;
    for _slot in 0..capacity {
        replies.push(None)?;
    }
    Ok(replies)
}

/// Leaves out the entries that don't live.
fn keep_living(entries: &mut Vec<Entry>, now: u64)
    ensures items { entries.new.items ≡ filter (λ e. lives now (arrival_of e)) entries.old.items }
    ensures room { vec_capacity entries.new ≡ vec_capacity entries.old }
{
    entries.retain(|entry| entry.lives(now));
}

/// Puts the slots of the entries that don't live among the free ones, for which there is room.
fn free_slots(free: &mut Vec<u32>, entries: &[Entry], now: u64)
    requires { length free.old.items + length entries.now ≤ vec_capacity free.old }
    ensures slots { free.new.items ≡ free.old.items ++ map (λ e. e.slot) (filter (λ e. not (lives now (arrival_of e))) entries.now) }
    ensures room { vec_capacity free.old ≤ vec_capacity free.new }
{
    for entry in entries {
        if !entry.lives(now) {
            free.push(entry.slot).unwrap();
        }
    }
}
