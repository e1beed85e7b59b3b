//! The lists of slots.

ghost use Rattle.std.specs.Prelude.{◌≡◌, ◌<◌, ◌≤◌, ◌∷◌, [], ◌++◌, ℕ, IfOk, IfSome, length, true, false, replicate};
ghost use Rattle.slot_lists.specs.Links.{with_next, with_previous};

use crate::NoMemory;
use crate::link::{Ends, SlotLink};
use std::alloc::Global;
use std::marker::Model;

/// Some number of lists of slots, each slot in at most one of them. Contracts see the capacity, which all slots are
/// below, and the lists (`Lists` of specs/Lists.antt). A list is named by its index.
#[derive(Drop)]
pub struct SlotLists {
    links: Vec<SlotLink>,
    ends: Vec<Ends>,
}

impl Model for SlotLists {
    ghost use Rattle.slot_lists.specs.Lists.{Lists};

    ghost Value = { Lists };

    ghost use Rattle.slot_lists.specs.Links.{lists_of, IsLinked};

    ghost view = { lists_of };

    ghost invariant = { IsLinked };
}

impl SlotLists {
    ghost use Rattle.std.specs.Prelude.{ℕ};
    ghost use Rattle.std.specs.List.{list_any};
    ghost use Rattle.slot_lists.specs.Lists.{empty_lists, list_at, is_among, IsIn, IsInNone, with_list, without, first_of, from_slot};

    /// `count` empty lists of slots below the capacity. All memory is taken here.
    pub fn new(alloc: Global, capacity: u32, count: u32) -> Result<SlotLists, NoMemory>
        ensures { IfOk result (λ x. x ≡ empty_lists capacity count) }
    {
        let links = no_links(alloc, capacity)?;
        let ends = no_ends(alloc, count)?;
        Ok(SlotLists { links, ends })
    }

    /// Puts a slot that is in none of the lists at the end of a list.
    pub fn push_back(&mut self, list: u32, slot: u32)
        requires list { list < length self.old.lists }
        requires slot { slot < self.old.capacity }
        requires apart { IsInNone slot self.old }
        ensures { self.new ≡ with_list list (list_at list self.old ++ slot ∷ []) self.old }
    {
        let ends = self.ends[list as usize];
        self.links[slot as usize] = SlotLink {
            previous: ends.last,
            next: None,
        };
        set_next(&mut self.links, ends.last, Some(slot));
        self.ends[list as usize] = Ends {
            first: Some(ends.first.unwrap_or(slot)),
            last: Some(slot),
        };
    }

    /// Takes a slot out of the list that it is in.
    pub fn remove(&mut self, list: u32, slot: u32)
        requires list { list < length self.old.lists }
        requires slot { is_among slot (list_at list self.old) ≡ true }
        ensures { self.new ≡ with_list list (without slot (list_at list self.old)) self.old }
    {
        let link = self.links[slot as usize];
        set_next(&mut self.links, link.previous, link.next);
        set_previous(&mut self.links, link.next, link.previous);
        let ends = self.ends[list as usize];
        self.ends[list as usize] = ends.without(link);
    }

    /// The first slot of a list.
    pub fn first(&self, list: u32) -> Option<u32>
        requires { list < length self.now.lists }
        ensures first { result ≡ first_of (list_at list self.now) }
        ensures member { IfSome result (IsIn list self.now) }
    {
        self.ends[list as usize].first
    }

    /// The slot after another one, in the list that has this.
    pub fn after(&self, slot: u32) -> Option<u32>
        requires { slot < self.now.capacity }
        ensures after { (list : ℕ) → is_among slot (list_at list self.now) ≡ true → from_slot (Some slot) (list_at list self.now) ≡ slot ∷ from_slot result (list_at list self.now) }
        ensures member { (list : ℕ) → is_among slot (list_at list self.now) ≡ true → IfSome result (IsIn list self.now) }
    {
        self.links[slot as usize].next
    }
}

/// Links of slots that are in no list.
fn no_links(alloc: Global, capacity: u32) -> Result<Vec<SlotLink>, NoMemory>
    ensures { IfOk result (λ links. links.items ≡ replicate capacity (record { previous = None; next = None })) }
{
    let link = SlotLink {
        previous: None,
        next: None,
    };
    Ok(vec![in alloc; link; capacity as usize]?)
}

/// Ends of empty lists.
fn no_ends(alloc: Global, count: u32) -> Result<Vec<Ends>, NoMemory>
    ensures { IfOk result (λ ends. ends.items ≡ replicate count (record { first = None; last = None })) }
{
    let none = Ends {
        first: None,
        last: None,
    };
    Ok(vec![in alloc; none; count as usize]?)
}

/// Lets another slot come after this one, if there is this one.
fn set_next(links: &mut Vec<SlotLink>, slot: Option<u32>, next: Option<u32>)
    requires { IfSome slot (λ s. s < length links.old.items) }
    ensures { links.new.items ≡ with_next slot next links.old.items }
{
    if let Some(slot) = slot {
        links[slot as usize].next = next;
    }
}

/// Lets another slot come before this one, if there is this one.
fn set_previous(links: &mut Vec<SlotLink>, slot: Option<u32>, previous: Option<u32>)
    requires { IfSome slot (λ s. s < length links.old.items) }
    ensures { links.new.items ≡ with_previous slot previous links.old.items }
{
    if let Some(slot) = slot {
        links[slot as usize].previous = previous;
    }
}
