//! Affordances with the slots that they are given, before these are judged.

ghost use Rattle.std.specs.Prelude.{◌≡◌, map, IfOk};
ghost use Rattle.thing_site.specs.Site.{pointer_of as pointer_to, wanted_by};

use crate::Slots;
use servient_base::NoMemory;
use std::alloc::Global;
use wot_json::{Text, below};
use wot_terms::{Affordance, Kind};

/// An affordance that needs a handler.
#[derive(Debug, Drop)]
pub struct Wanted {
    /// The segment of its Thing.
    pub segment: Text,
    /// The pointer to it in the Thing's description.
    pub pointer: Text,
    pub kind: Kind,
    /// The slot that it is given.
    pub slot: Option<usize>,
}

/// The affordances of a Thing with the slots that they are given, in order.
pub fn wanted_all(
    alloc: Global,
    slots: &Slots,
    segment: &str,
    affordances: &[Affordance],
) -> Result<Vec<Wanted>, NoMemory>
    ensures { IfOk result (λ w. w.items ≡ map (wanted_by slots.now segment.now) affordances.now) }
{
    let mut all = Vec::with_capacity(alloc, affordances.len())?;
    for affordance in affordances {
        all.push(wanted_one(alloc, slots, segment, affordance)?)?;
    }
    Ok(all)
}

/// An affordance of a Thing with the slot that it is given.
fn wanted_one(
    alloc: Global,
    slots: &Slots,
    segment: &str,
    affordance: &Affordance,
) -> Result<Wanted, NoMemory>
    ensures { IfOk result (λ w. w ≡ wanted_by slots.now segment.now affordance.now) }
{
    let pointer = pointer_of(alloc, affordance)?;
    let slot = slots.slot_of(segment, pointer.as_str());
    Ok(Wanted {
        segment: Text::copy_of(alloc, segment)?,
        pointer,
        kind: affordance.kind,
        slot,
    })
}

/// The pointer to an affordance in its description, as `/properties/status`.
pub fn pointer_of(alloc: Global, affordance: &Affordance) -> Result<Text, NoMemory>
    ensures { IfOk result (λ p. p ≡ pointer_to affordance.now) }
{
    let holder = below(alloc, "", affordance.kind.holder())?;
    below(alloc, holder.as_str(), affordance.name.as_str())
}
