//! Lists of slots that are linked by index. A slot is a number below a capacity, by which its owner keeps a record of
//! its own in a vector. A slot is in at most one list of a `SlotLists`, and goes into it, out of it and is found
//! next to its neighbours in constant time. No call but the first takes memory.
//! Contracts see the lists and nothing of the links (`Lists` of `specs/Lists.antt`). Slots that should be in several
//! lists at once get several `SlotLists`: these are values of their own, so what one does leaves the others as they
//! are.
//!
//! ```
//! use slot_lists::SlotLists;
//!
//! let mut lists = SlotLists::new(alloc, 16, 2)?;
//! lists.push_back(1, 7);
//! lists.push_back(1, 3);
//! lists.remove(1, 7);
//! // Now list 1 is the slot 3 alone, and list 0 has none.
//! ```
#![tactic(auto)]

mod link;
mod lists;

pub use lists::SlotLists;
pub use servient_base::NoMemory;
