//! The table of exchanges: the requests that were admitted and live, with the replies that were kept.

ghost use Rattle.std.specs.Prelude.{◌≡◌, ◌≤◌, ℕ, length, IfOk};
ghost use Rattle.coap_msg.specs.declared.message.Type4.TheVariants.{Con, Non};

use crate::entry::{Entry, list_of};
use crate::slots::{FREE, all_free, no_entries, no_replies, slot_of};
use crate::{ExchangeSlot, Met, NoMemory};
use coap_msg::{BoundedBytes, Endpoint, LONGEST_MESSAGE, RequestType, Type4, bucket_of};
use slot_lists::SlotLists;
use std::alloc::Global;
use std::marker::Model;

/// The one list of `order`.
const ALL: u32 = 0;

/// The exchanges of a server. Contracts see the number that may live, the last moment that was handed in, and the
/// exchanges that live then with their replies (`Table` of specs/Table.antt).
///
/// Each exchange has a slot, in which its entry and its reply have fixed places. A slot is in the list of the free ones
/// or in that of its kind (`kinds`); while it lives also in one bucket, by endpoint and message ID, and in the list of
/// all in order of admission, which contracts see and the lists by kind don't give where moments are equal. So a call
/// looks into one bucket, and gives up the exchanges that are over from the front of the lists by kind.
#[derive(Drop)]
pub struct Exchanges {
    capacity: u32,
    moment: u64,
    entries: Vec<Entry>,
    replies: Vec<Option<BoundedBytes<LONGEST_MESSAGE>>>,
    // Links are apart from the entries, in three values, because a call of one of them leaves the others as they are by
    // their types alone.
    kinds: SlotLists,
    // As many as there are slots.
    buckets: SlotLists,
    order: SlotLists,
}

impl Model for Exchanges {
    ghost use Rattle.coap_exchange.specs.Table.{Table};

    ghost Value = { Table };

    ghost use Rattle.coap_exchange.specs.Kept.{table_of, IsKept};

    ghost view = { table_of };

    ghost invariant = { IsKept };
}

impl Exchanges {
    ghost use Rattle.std.specs.Prelude.{◌⊎◌, ℕ, Some, None};
    ghost use Rattle.coap_msg.specs.declared.message.RequestType.{RequestType};
    ghost use Rattle.coap_msg.specs.Requests.{request_type};
    ghost use Rattle.coap_exchange.specs.Table.{Exchange, empty_table, at_moment, duplicated_exchange, exchange_in, Meets, IsAwaited, HasReply, HoldsReply, with_reply, FindsDuplicated, Admits};
    ghost use Rattle.coap_exchange.specs.Kept.{without_exchange, AllLive, FindsOver};

    /// A table in which `capacity` exchanges may live. All its memory is taken here.
    pub fn new(alloc: Global, capacity: u32) -> Result<Exchanges, NoMemory>
        requires least { 16 ≤ capacity }
        requires most { capacity ≤ 65536 }
        ensures { IfOk result (λ x. x ≡ empty_table capacity) }
    {
        let entries = no_entries(alloc, capacity)?;
        let replies = no_replies(alloc, capacity)?;
        let kinds = all_free(alloc, capacity)?;
        let buckets = SlotLists::new(alloc, capacity, capacity)?;
        let order = SlotLists::new(alloc, capacity, 1)?;
        Ok(Exchanges {
            capacity,
            moment: 0,
            entries,
            replies,
            kinds,
            buckets,
            order,
        })
    }

    /// Judges a request that came at the moment `now`, in milliseconds. Only a request that is `Fresh` makes a new
    /// exchange.
    pub fn meet(&mut self, from: Endpoint, id: u16, kind: Type4, now: u64) -> Met
        requires kind { (kind ≡ Con) ⊎ (kind ≡ Non) }
        requires now { self.old.moment ≤ now }
        ensures met { Meets (at_moment now self.old) (record { moment = now; from = from; id = id; kind = request_type kind }) result self.new }
        ensures moment { self.new.moment ≡ now }

        // The uses of the slots.
        ensures awaited { (slot : ℕ) → result ≡ Met.Fresh slot → IsAwaited slot self.new }
        ensures kept { (slot : ℕ) → result ≡ Met.Repeat (Some slot) → HasReply slot self.new }
    {
        let kind = RequestType::of(kind);
        self.advance_to(now);
        if let Some(kept) = self.duplicated(from, id) {
            return Met::Repeat(kept);
        }
        match self.admit(from, id, kind) {
            Some(slot) => Met::Fresh(slot),
            None => Met::Full,
        }
    }

    /// Keeps the reply to the request that got this slot.
    pub fn keep(&mut self, slot: ExchangeSlot, reply: &[u8])
        requires slot { IsAwaited slot self.old }
        requires length { length reply.now ≤ LONGEST_MESSAGE }
        ensures { self.new ≡ with_reply slot reply.now self.old }
    {
        self.replies[slot as usize] = Some(BoundedBytes::of(reply));
    }

    /// The reply that is kept in this slot.
    pub fn reply(&self, slot: ExchangeSlot) -> &[u8]
        requires { HasReply slot self.now }
        ensures ok { HoldsReply slot result.now self.now }
        ensures bound { length result.now ≤ LONGEST_MESSAGE }
    {
        match &self.replies[slot as usize] {
            Some(reply) => reply.as_bytes(),
            // Not met, since the slot has a reply.
            None => &[],
        }
    }

    /// Moves on to the moment `now`, and gives up the exchanges that don't live then. It is a function of its own, because
    /// the type's invariant has to hold again before the next call.
    fn advance_to(&mut self, now: u64)
        requires { self.old.moment ≤ now }
        ensures { self.new ≡ at_moment now self.old }
    {
        self.give_up_over(RequestType::Confirmable, now);
        self.give_up_over(RequestType::NonConfirmable, now);
        self.moment = now;
    }

    /// Gives up the exchanges of a kind that don't live at the moment `now`.
    fn give_up_over(&mut self, kind: RequestType, now: u64)
        ensures same { at_moment now self.new ≡ at_moment now self.old }
        ensures moment { self.new.moment ≡ self.old.moment }
        ensures live { AllLive now kind self.new }
        ensures others { (other : RequestType) → AllLive now other self.old → AllLive now other self.new }
    {
        while let Some(slot) = self.oldest_over(kind, now) {
            self.give_up(slot);
        }
    }

    /// The slot of the oldest exchange of a kind, if it doesn't live at the moment `now`. As none lives longer than a
    /// later one of its kind, all live where that does.
    fn oldest_over(&self, kind: RequestType, now: u64) -> Option<ExchangeSlot>
        ensures { FindsOver now kind self.now result }
    {
        let slot = self.kinds.first(list_of(kind))?;
        if self.entries[slot as usize].lives(now) {
            None
        } else {
            Some(slot)
        }
    }

    /// Gives up the exchange in a slot.
    fn give_up(&mut self, slot: ExchangeSlot)
        requires { (e : Exchange) × (exchange_in slot self.old ≡ Some e) }
        ensures { self.new ≡ without_exchange slot self.old }
    {
        let entry = self.entries[slot as usize];
        self.kinds.remove(list_of(entry.kind), slot);
        self.kinds.push_back(FREE, slot);
        self.buckets
            .remove(bucket_of(entry.from, entry.id, self.capacity), slot);
        self.order.remove(ALL, slot);
    }

    /// The slot of the reply to the exchange of this endpoint and message ID, where one was kept, if that exchange
    /// lives.
    fn duplicated(&self, from: Endpoint, id: u16) -> Option<Option<ExchangeSlot>>
        ensures { (kind : RequestType) → FindsDuplicated self.now (record { moment = self.now.moment; from = from; id = id; kind = kind }) result }
    {
        let bucket = bucket_of(from, id, self.capacity);
        let slot = slot_of(&self.buckets, bucket, &self.entries, from, id)?;
        match &self.replies[slot as usize] {
            Some(_) => Some(Some(slot)),
            None => Some(None),
        }
    }

    /// Makes an exchange of a request that came now and is no duplicate, and returns its slot, if there is room.
    fn admit(&mut self, from: Endpoint, id: u16, kind: RequestType) -> Option<ExchangeSlot>
        requires { duplicated_exchange (record { moment = self.old.moment; from = from; id = id; kind = kind }) self.old ≡ None }
        ensures { Admits self.old (record { moment = self.old.moment; from = from; id = id; kind = kind }) result self.new }
    {
        let slot = self.kinds.first(FREE)?;
        self.replies[slot as usize] = None;
        self.entries[slot as usize] = Entry {
            moment: self.moment,
            from,
            id,
            kind,
        };
        self.kinds.remove(FREE, slot);
        self.kinds.push_back(list_of(kind), slot);
        self.buckets
            .push_back(bucket_of(from, id, self.capacity), slot);
        self.order.push_back(ALL, slot);
        Some(slot)
    }
}
