//! The affordances that may emit, each with the place of its last value.

ghost use Rattle.std.specs.Prelude.{◌≡◌, [], ◌∷◌, ◌++◌, map, IfOk, OnOk};
ghost use Rattle.std.specs.List.{filter};
ghost use Rattle.thing_site.specs.Site.{emitters_of, emitters_of_thing, is_emitter as is_emitter_of};
ghost use Rattle.thing_state.specs.State.{silent};

use crate::state::LastValue;
use servient_base::NoMemory;
use std::alloc::Global;
use thing_site::{HeldThing, Spot, is_emitter};

/// The affordances that may emit, with no value yet: each observable property and each event, in the order of Things
/// and affordances.
pub fn silent_all(alloc: Global, things: &[HeldThing]) -> Result<Vec<LastValue>, NoMemory>
    ensures { IfOk result (λ last. last.items ≡ map silent (emitters_of things.now)) }
{
    let mut last = Vec::new(alloc);
    for thing in things {
        push_silent(alloc, &mut last, thing)?;
    }
    Ok(last)
}

/// Puts those at the end that may emit among the affordances of a Thing.
fn push_silent(alloc: Global, last: &mut Vec<LastValue>, thing: &HeldThing) -> Result<(), NoMemory>
    ensures { OnOk result (last.new.items ≡ last.old.items ++ map silent (emitters_of_thing thing.now)) }
{
    for index in 0..thing.len() {
        // A match and not `let .. else`, since the proof needs that there is no such affordance.
        let spot = match thing.spot(index) {
            Some(spot) => spot,
            None => return Ok(()),
        };
        push_if_emitter(alloc, last, &spot)?;
    }
    Ok(())
}

/// Puts an affordance at the end, where it may emit.
fn push_if_emitter(
    alloc: Global,
    last: &mut Vec<LastValue>,
    spot: &Spot<'_>,
) -> Result<(), NoMemory>
    ensures { OnOk result (last.new.items ≡ last.old.items ++ map silent (filter is_emitter_of (spot.now ∷ []))) }
{
    if is_emitter(spot) {
        last.push(LastValue::silent(alloc, spot.slot())?)?;
    }
    Ok(())
}
