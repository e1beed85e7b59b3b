//! Walks along lists of slots: searches among observers, and changes of them.

ghost use Rattle.std.specs.Prelude.{◌≡◌, ◌≤◌, ◌<◌, false, ℕ, find, length};
ghost use Rattle.std.specs.List.{list_any};
ghost use Rattle.slot_lists.specs.Lists.{list_at};
ghost use Rattle.coap_observe.specs.Kept.{observer_at, changed_among, is_busy_at, is_sendable_at};
ghost use Rattle.coap_observe.specs.Places.{is_wanted};
ghost use Rattle.coap_observe.specs.Watching.{where_so, marked, is_of_target, is_pair, is_due};

use crate::observer::{Observer, SoughtObserver};
use coap_msg::{Endpoint, bucket_of};
use servient_base::Target;
use slot_lists::SlotLists;

/// The list, in the order of all, of the slots that have an observer, in the order of registration.
pub const USED: u32 = 0;

/// The list beside it of the free slots.
pub const FREE: u32 = 1;

/// The number of lists in the order of all.
pub const ORDERS: u32 = 2;

/// The first slot of a list whose observer is the one of this endpoint and token.
pub fn pair_slot(
    lists: &SlotLists,
    list: u32,
    observers: &[Observer],
    from: Endpoint,
    token: &[u8],
) -> Option<u32>
    requires list { list < length lists.now.lists }
    requires observers { lists.now.capacity ≤ length observers.now }
    ensures { result ≡ find (λ slot. is_pair from token.now (observer_at observers.now slot)) (list_at list lists.now) }
{
    // A loop and not an iterator, since each slot of a list names the one after it.
    let mut current = lists.first(list);
    while let Some(slot) = current {
        if observers[slot as usize].is_pair(from, token) {
            return Some(slot);
        }
        current = lists.after(slot);
    }
    None
}

/// The first slot of a list whose observer is of this endpoint and wanted.
pub fn wanted_slot(
    lists: &SlotLists,
    list: u32,
    observers: &[Observer],
    from: Endpoint,
    wanted: SoughtObserver,
) -> Option<u32>
    requires list { list < length lists.now.lists }
    requires observers { lists.now.capacity ≤ length observers.now }
    ensures { result ≡ find (λ slot. is_wanted from wanted (observer_at observers.now slot)) (list_at list lists.now) }
{
    let mut current = lists.first(list);
    while let Some(slot) = current {
        if observers[slot as usize].is_wanted(from, wanted) {
            return Some(slot);
        }
        current = lists.after(slot);
    }
    None
}

/// The first slot in the order of registration whose observer's notification is due.
pub fn due_slot(order: &SlotLists, observers: &[Observer], now: u64) -> Option<u32>
    requires list { 0 < length order.now.lists }
    requires observers { order.now.capacity ≤ length observers.now }
    ensures { result ≡ find (λ slot. is_due now (observer_at observers.now slot)) (list_at 0 order.now) }
{
    let mut current = order.first(USED);
    while let Some(slot) = current {
        if observers[slot as usize].is_due(now) {
            return Some(slot);
        }
        current = order.after(slot);
    }
    None
}

/// The first slot in the order of registration whose observer has a value to be sent and whose endpoint acknowledged
/// all.
pub fn sendable_slot(
    order: &SlotLists,
    endpoints: &SlotLists,
    observers: &[Observer],
    count: u32,
) -> Option<u32>
    requires list { 0 < length order.now.lists }
    requires observers { order.now.capacity ≤ length observers.now }
    requires some { 0 < count }
    requires buckets { length endpoints.now.lists ≡ count }
    requires endpoints { endpoints.now.capacity ≤ length observers.now }
    ensures { result ≡ find (λ slot. is_sendable_at endpoints.now observers.now count (observer_at observers.now slot)) (list_at 0 order.now) }
{
    let mut current = order.first(USED);
    while let Some(slot) = current {
        if is_sendable(endpoints, observers, slot, count) {
            return Some(slot);
        }
        current = order.after(slot);
    }
    None
}

/// Whether the observer in a slot has a value to be sent and its endpoint acknowledged all.
fn is_sendable(endpoints: &SlotLists, observers: &[Observer], slot: u32, count: u32) -> bool
    requires slot { slot < length observers.now }
    requires some { 0 < count }
    requires buckets { length endpoints.now.lists ≡ count }
    requires endpoints { endpoints.now.capacity ≤ length observers.now }
    ensures { result ≡ is_sendable_at endpoints.now observers.now count (observer_at observers.now slot) }
{
    let observer = &observers[slot as usize];
    observer.is_marked && !is_busy(endpoints, observers, observer.from, count)
}

/// Whether a notification to an endpoint isn't acknowledged.
fn is_busy(endpoints: &SlotLists, observers: &[Observer], from: Endpoint, count: u32) -> bool
    requires some { 0 < count }
    requires buckets { length endpoints.now.lists ≡ count }
    requires endpoints { endpoints.now.capacity ≤ length observers.now }
    ensures { result ≡ is_busy_at endpoints.now observers.now count from }
{
    let bucket = bucket_of(from, 0, count);
    wanted_slot(
        endpoints,
        bucket,
        observers,
        from,
        SoughtObserver::Unacknowledged,
    )
    .is_some()
}

/// A moment before which no notification is due.
pub fn next_due(order: &SlotLists, observers: &[Observer]) -> u64
    requires list { 0 < length order.now.lists }
    requires observers { order.now.capacity ≤ length observers.now }
    ensures { (now : ℕ) → now < result → list_any (λ slot. is_due now (observer_at observers.now slot)) (list_at 0 order.now) ≡ false }
{
    let mut moment = u64::MAX;
    let mut current = order.first(USED);
    while let Some(slot) = current {
        moment = moment.min(observers[slot as usize].due_from());
        current = order.after(slot);
    }
    moment
}

/// The observers of a list are to be notified, if they observe this target.
pub fn mark(lists: &SlotLists, list: u32, observers: &mut [Observer], target: Target)
    requires list { list < length lists.now.lists }
    requires observers { lists.now.capacity ≤ length observers.old }
    ensures length { length observers.new ≡ length observers.old }
    ensures each { (slot : ℕ) → observer_at observers.new slot ≡ changed_among (list_at list lists.now) (where_so (is_of_target target) marked) slot (observer_at observers.old slot) }
{
    let mut current = lists.first(list);
    while let Some(slot) = current {
        observers[slot as usize].mark_if(target);
        current = lists.after(slot);
    }
}
