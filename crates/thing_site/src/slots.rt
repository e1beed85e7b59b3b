//! The handlers of affordances, as a configuration lists them.

ghost use Rattle.std.specs.Prelude.{◌≡◌, ◌++◌, [], ◌∷◌, OnErr, OnOk};

use servient_base::NoMemory;
use std::alloc::Global;
use std::marker::Model;
use wot_json::Text;

/// The slots of affordances, each by the segment of its Thing and the pointer to the affordance (RFC 6901), as
/// `/properties/status`. An entry that names no affordance is ignored, and of several that name one the first counts.
/// Contracts see the list of segments, pointers and slots.
#[derive(Debug, Drop)]
pub struct Slots {
    list: Vec<(Text, Text, usize)>,
}

impl Model for Slots {
    ghost use Rattle.std.specs.Prelude.{List, ℕ};

    ghost Value = { List (List ℕ × List ℕ × ℕ) };

    ghost view = { λ s. s.list.items };
}

impl Slots {
    ghost use Rattle.thing_site.specs.Site.{slot_named};

    /// No slots.
    pub fn new(alloc: Global) -> Self
        ensures { result ≡ [] }
    {
        Slots {
            list: Vec::new(alloc),
        }
    }

    /// Gives an affordance a slot, after the others.
    pub fn push(&mut self, segment: Text, pointer: Text, slot: usize) -> Result<(), NoMemory>
        ensures ok { OnOk result (self.new ≡ self.old ++ (segment, pointer, slot) ∷ []) }
        ensures unchanged { OnErr result (self.new ≡ self.old) }
    {
        self.list.push((segment, pointer, slot))?;
        Ok(())
    }

    /// The entries in order, each the segment of a Thing, a pointer and a slot.
    pub fn as_slice(&self) -> &[(Text, Text, usize)]
        ensures { result.now ≡ self.now }
    {
        self.list.as_slice()
    }

    /// The slot of the first entry for this affordance.
    pub fn slot_of(&self, segment: &str, pointer: &str) -> Option<usize>
        ensures { result ≡ slot_named segment.now pointer.now self.now }
    {
        slot_in(self.list.as_slice(), segment, pointer)
    }
}

ghost use Rattle.thing_site.specs.Site.{slot_named as slot_named_in};

/// The slot of the first of these entries that is for this affordance.
fn slot_in(entries: &[(Text, Text, usize)], segment: &str, pointer: &str) -> Option<usize>
    ensures { result ≡ slot_named_in segment.now pointer.now entries.now }
{
    for (named, place, slot) in entries {
        if segment == named.as_str() && pointer == place.as_str() {
            return Some(*slot);
        }
    }
    None
}
