//! The observers in their slots.

use crate::buckets::target_bucket;
use crate::notice::Notice;
use crate::observer::{Observer, SoughtObserver};
use crate::walks::{
    FREE, ORDERS, USED, due_slot, mark, next_due, pair_slot, sendable_slot, wanted_slot,
};
use coap_msg::{Endpoint, LONGEST_TOKEN, bucket_of};
use servient_base::{NoMemory, Target};
use slot_lists::SlotLists;
use std::alloc::Global;
use std::marker::Model;

/// Observers in slots. Contracts see those that are there in order of registration, each with its slot (`Places` of
/// specs/Places.antt). A slot is linked by its index: with an observer it is in the list of all (`USED` of `order`), in
/// that of its target's bucket and in that of its endpoint's; without one it is in the list of the free slots (`FREE`
/// of `order`), and keeps its last observer. So a call about one target or one endpoint looks at one bucket.
#[derive(Drop)]
pub struct ObserverSlots {
    capacity: u32,
    observers: Vec<Observer>,
    order: SlotLists,
    // As many as there are slots, as well as those of the endpoints.
    targets: SlotLists,
    endpoints: SlotLists,
}

impl Model for ObserverSlots {
    ghost use Rattle.coap_observe.specs.Places.{Places};

    ghost Value = { Places };

    ghost use Rattle.coap_observe.specs.Kept.{places_of, IsKept};

    ghost view = { places_of };

    ghost invariant = { IsKept };
}

impl ObserverSlots {
    ghost use Rattle.std.specs.Prelude.{◌≡◌, ◌≤◌, ◌<◌, ℕ, true, false, length, IfOk};
    ghost use Rattle.std.specs.List.{list_any};
    ghost use Rattle.coap_observe.specs.Places.{Place, none_placed, observers_in, IsAt, IsUsed, with_change, with_changes, without_slot, IsAdded, Finds, FindsFirst, is_wanted, sent_once_more, IsSentOnceMore};
    ghost use Rattle.coap_observe.specs.Watching.{newcomer, replaced, acknowledged, marked, notified, where_so, is_of_target, is_pair, is_due, is_sendable, is_given_up, next_sequence, IsNotification, IsSendable};

    /// Slots for at most `capacity` observers, all free. All memory is taken here.
    pub fn new(alloc: Global, capacity: u32) -> Result<ObserverSlots, NoMemory>
        requires { 1 ≤ capacity }
        ensures { IfOk result (λ t. t ≡ none_placed capacity) }
    {
        let observers = no_observers(alloc, capacity)?;
        let order = all_free(alloc, capacity)?;
        let targets = SlotLists::new(alloc, capacity, capacity)?;
        let endpoints = SlotLists::new(alloc, capacity, capacity)?;
        Ok(ObserverSlots {
            capacity,
            observers,
            order,
            targets,
            endpoints,
        })
    }

    /// The slot of the observer of this endpoint and token.
    pub fn pair_slot(&self, from: Endpoint, token: &[u8]) -> Option<u32>
        ensures { Finds (is_pair from token.now) self.now result }
    {
        let bucket = bucket_of(from, 0, self.capacity);
        pair_slot(&self.endpoints, bucket, &self.observers, from, token)
    }

    /// The slot of an observer of this endpoint that is wanted.
    pub fn wanted_slot(&self, from: Endpoint, wanted: SoughtObserver) -> Option<u32>
        ensures { Finds (is_wanted from wanted) self.now result }
    {
        let bucket = bucket_of(from, 0, self.capacity);
        wanted_slot(&self.endpoints, bucket, &self.observers, from, wanted)
    }

    /// Whether an observer of this endpoint has a value to be sent.
    pub fn has_marked(&self, from: Endpoint) -> bool
        ensures { result ≡ list_any (is_wanted from SoughtObserver.Marked) (observers_in self.now) }
    {
        self.wanted_slot(from, SoughtObserver::Marked).is_some()
    }

    /// The slot of the first observer whose notification is due.
    pub fn due_slot(&self, now: u64) -> Option<u32>
        ensures { FindsFirst (is_due now) self.now result }
    {
        due_slot(&self.order, &self.observers, now)
    }

    /// The slot of the first observer that has a value to be sent and whose endpoint acknowledged all.
    pub fn sendable_slot(&self) -> Option<u32>
        ensures { FindsFirst (is_sendable (observers_in self.now)) self.now result }
    {
        sendable_slot(&self.order, &self.endpoints, &self.observers, self.capacity)
    }

    /// A moment before which no notification is due.
    pub fn next_due(&self) -> u64
        ensures { (now : ℕ) → now < result → list_any (is_due now) (observers_in self.now) ≡ false }
    {
        next_due(&self.order, &self.observers)
    }

    /// The observer in a slot.
    pub fn observer(&self, slot: u32) -> &Observer
        requires { IsUsed slot self.now }
        ensures { (p : Place) → IsAt slot p self.now → result.now ≡ p.observer }
    {
        &self.observers[slot as usize]
    }

    /// Puts an observer of this endpoint and token, for a target, behind the others, and says whether there was room.
    pub fn add(&mut self, from: Endpoint, token: &[u8], target: Target) -> bool
        requires { length token.now ≤ LONGEST_TOKEN }
        ensures { IsAdded (newcomer from token.now target) self.old result self.new }
    {
        match self.order.first(FREE) {
            Some(slot) => {
                self.observers[slot as usize] = Observer::new(from, token, target);
                self.order.remove(FREE, slot);
                self.order.push_back(USED, slot);
                self.targets
                    .push_back(target_bucket(target, self.capacity), slot);
                self.endpoints
                    .push_back(bucket_of(from, 0, self.capacity), slot);
                true
            }
            None => false,
        }
    }

    /// Takes the observer in a slot away.
    pub fn remove(&mut self, slot: u32)
        requires { IsUsed slot self.old }
        ensures { self.new ≡ without_slot slot self.old }
    {
        let target = self.observers[slot as usize].target;
        let from = self.observers[slot as usize].from;
        self.targets
            .remove(target_bucket(target, self.capacity), slot);
        self.endpoints
            .remove(bucket_of(from, 0, self.capacity), slot);
        self.order.remove(USED, slot);
        self.order.push_back(FREE, slot);
    }

    /// The observer in a slot registers anew, for this target. It keeps its place among all, and moves to the list of
    /// the target's bucket.
    pub fn replace(&mut self, slot: u32, target: Target)
        requires { IsUsed slot self.old }
        ensures { self.new ≡ with_change slot (replaced target) self.old }
    {
        let left = target_bucket(self.observers[slot as usize].target, self.capacity);
        let taken = target_bucket(target, self.capacity);
        self.observers[slot as usize].replace(target);
        move_slot(&mut self.targets, left, taken, slot);
    }

    /// The observers of a target are to be notified.
    pub fn mark(&mut self, target: Target)
        ensures { self.new ≡ with_changes (where_so (is_of_target target) marked) self.old }
    {
        let bucket = target_bucket(target, self.capacity);
        // A slice, since a vector that is lent loses its length in a loop.
        mark(&self.targets, bucket, self.observers.as_mut_slice(), target);
    }

    /// The notification to the observer in a slot is acknowledged.
    pub fn acknowledge(&mut self, slot: u32)
        requires { IsUsed slot self.old }
        ensures { self.new ≡ with_change slot acknowledged self.old }
    {
        self.observers[slot as usize].acknowledge();
    }

    /// The notification to the observer in a slot is sent again now, or a new message with this message ID in place of
    /// it.
    pub fn send_again(&mut self, slot: u32, now: u64, id: u16) -> Notice
        requires slot { IsUsed slot self.old }
        requires served { (p : Place) → IsAt slot p self.old → is_given_up p.observer ≡ false }
        ensures changed { self.new ≡ with_change slot (sent_once_more now id) self.old }
        ensures notice { (p : Place) → IsAt slot p self.old → IsSentOnceMore id p.observer result }
        ensures waits { (p : Place) → IsAt slot p self.old → is_due now (sent_once_more now id p.observer) ≡ false }
        ensures bounds { IsSendable result }
    {
        self.observers[slot as usize].send_again(now, id)
    }

    /// The last value is sent to the observer in a slot now, with this message ID.
    pub fn send_first(&mut self, slot: u32, now: u64, id: u16) -> Notice
        requires { IsUsed slot self.old }
        ensures changed { self.new ≡ with_change slot (notified now id) self.old }
        ensures notice { (p : Place) → IsAt slot p self.old → IsNotification p.observer id (next_sequence p.observer.sequence) true result }
        ensures waits { (p : Place) → IsAt slot p self.old → is_due now (notified now id p.observer) ≡ false }
        ensures bounds { IsSendable result }
    {
        self.observers[slot as usize].send_first(now, id)
    }
}

ghost use Rattle.std.specs.Prelude.{◌≡◌, ◌<◌, [], ℕ, true, IfOk, length};
ghost use Rattle.slot_lists.specs.Lists.{list_at, is_among, IsInNone};
ghost use Rattle.slot_lists.specs.Counts.{times_in, once_below};
ghost use Rattle.coap_observe.specs.Kept.{pushed_at, without_at};

/// A slot goes from one list to the end of another.
fn move_slot(lists: &mut SlotLists, left: u32, taken: u32, slot: u32)
    requires left { left < length lists.old.lists }
    requires taken { taken < length lists.old.lists }
    requires slot { slot < lists.old.capacity }
    requires there { is_among slot (list_at left lists.old) ≡ true }
    requires apart { IsInNone slot (without_at left slot lists.old) }
    ensures { lists.new ≡ pushed_at taken slot (without_at left slot lists.old) }
{
    lists.remove(left, slot);
    lists.push_back(taken, slot);
}

/// The order of all, with all slots below the capacity free.
fn all_free(alloc: Global, capacity: u32) -> Result<SlotLists, NoMemory>
    ensures capacity { IfOk result (λ order. order.capacity ≡ capacity) }
    ensures lists { IfOk result (λ order. length order.lists ≡ 2) }
    ensures slots { IfOk result (λ order. (s : ℕ) → times_in s (list_at 1 order) ≡ once_below s capacity) }
    ensures count { IfOk result (λ order. length (list_at 1 order) ≡ capacity) }
    ensures used { IfOk result (λ order. list_at 0 order ≡ []) }
{
    let mut order = SlotLists::new(alloc, capacity, ORDERS)?;
    for slot in 0..capacity {
        order.push_back(FREE, slot);
    }
    Ok(order)
}

/// The contents of slots that were never used.
fn no_observers(alloc: Global, capacity: u32) -> Result<Vec<Observer>, NoMemory>
    ensures { IfOk result (λ observers. length observers.items ≡ capacity) }
{
    // Pushed one by one, since an observer can't be copied.
    let mut observers = Vec::with_capacity(alloc, capacity as usize)?;
    for _slot in 0..capacity {
        observers.push(Observer::new(Endpoint { host: 0, port: 0 }, &[], 0))?;
    }
    Ok(observers)
}
