//! The contents and the lists of slots, as a table begins, and the search in a bucket.

ghost use Rattle.std.specs.Prelude.{◌≡◌, ◌≤◌, ◌<◌, ◌+◌, [], ℕ, IfOk, find, length, replicate};
ghost use Rattle.slot_lists.specs.Lists.{list_at, Lists};
ghost use Rattle.coap_exchange.specs.Slots.{entry_at, is_of, no_entry};
ghost use Rattle.slot_lists.specs.Counts.{once_below, times_in};

use crate::entry::Entry;
use crate::{ExchangeSlot, NoMemory};
use coap_msg::{BoundedBytes, Endpoint, LONGEST_MESSAGE, RequestType};
use slot_lists::SlotLists;
use std::alloc::Global;

/// The number of lists by kind: that of the free slots, and one for each kind of request.
const KINDS: u32 = 3;

/// The list, among those by kind, of the free slots.
pub const FREE: u32 = 0;

/// The lists by kind, with all slots below the capacity free.
pub fn all_free(alloc: Global, capacity: u32) -> Result<SlotLists, NoMemory>
    ensures capacity { IfOk result (λ kinds. kinds.capacity ≡ capacity) }
    ensures lists { IfOk result (λ kinds. length kinds.lists ≡ 3) }
    ensures slots { IfOk result (λ kinds. (s : ℕ) → times_in s (list_at 0 kinds) ≡ once_below s capacity) }
    ensures count { IfOk result (λ kinds. length (list_at 0 kinds) ≡ capacity) }
    ensures others { IfOk result (λ kinds. (i : ℕ) → 1 ≤ i → list_at i kinds ≡ []) }
{
    let mut kinds = SlotLists::new(alloc, capacity, KINDS)?;
    for slot in 0..capacity {
        kinds.push_back(FREE, slot);
    }
    Ok(kinds)
}

/// An entry for each slot.
pub fn no_entries(alloc: Global, capacity: u32) -> Result<Vec<Entry>, NoMemory>
    ensures { IfOk result (λ entries. length entries.items ≡ capacity) }
{
    let entry = Entry {
        moment: 0,
        from: Endpoint { host: 0, port: 0 },
        id: 0,
        kind: RequestType::Confirmable,
    };
    Ok(vec![in alloc; entry; capacity as usize]?)
}

/// A place for the reply of each slot.
pub fn no_replies(
    alloc: Global,
    capacity: u32,
) -> Result<Vec<Option<BoundedBytes<LONGEST_MESSAGE>>>, NoMemory>
    ensures { IfOk result (λ replies. length replies.items ≡ capacity) }
{
    let mut replies = Vec::with_capacity(alloc, capacity as usize)?;
    for _slot in 0..capacity {
        replies.push(None)?;
    }
    Ok(replies)
}

/// The slot, among those of a bucket, of the entry of this endpoint and message ID.
pub fn slot_of(
    buckets: &SlotLists,
    bucket: u32,
    entries: &[Entry],
    from: Endpoint,
    id: u16,
) -> Option<ExchangeSlot>
    requires bucket { bucket < length buckets.now.lists }
    requires entries { buckets.now.capacity ≤ length entries.now }
    ensures { result ≡ find (λ slot. is_of from id (entry_at entries.now slot)) (list_at bucket buckets.now) }
{
    // A loop and not an iterator, since each slot of a list names the one after it.
    let mut current = buckets.first(bucket);
    while let Some(slot) = current {
        if entries[slot as usize].is_of(from, id) {
            return Some(slot);
        }
        current = buckets.after(slot);
    }
    None
}
