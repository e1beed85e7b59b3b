//! The properties, each with the version that it has before anything was seen of it.

ghost use Rattle.std.specs.Prelude.{◌≡◌, [], ◌∷◌, ◌++◌, map, IfOk, OnOk};
ghost use Rattle.std.specs.List.{filter};
ghost use Rattle.wot_terms.specs.declared.kind.Kind.TheVariants as kind;
ghost use Rattle.thing_site.specs.Site.{of_kind, those_of};
ghost use Rattle.thing_state.specs.State.{properties_of, unseen};

use crate::version::Version;
use servient_base::NoMemory;
use std::alloc::Global;
use thing_site::{HeldThing, Spot, is_kind};
use wot_terms::Kind;

/// All properties, in the order of Things and names, in a run that leaves out the versions up to `left_out`.
pub fn unseen_all(
    alloc: Global,
    things: &[HeldThing],
    left_out: u32,
) -> Result<Vec<Version>, NoMemory>
    ensures { IfOk result (λ versions. versions.items ≡ map (unseen left_out) (properties_of things.now)) }
{
    let mut versions = Vec::new(alloc);
    for thing in things {
        push_unseen(alloc, &mut versions, thing, left_out)?;
    }
    Ok(versions)
}

/// Puts the properties of a Thing at the end.
fn push_unseen(
    alloc: Global,
    versions: &mut Vec<Version>,
    thing: &HeldThing,
    left_out: u32,
) -> Result<(), NoMemory>
    ensures { OnOk result (versions.new.items ≡ versions.old.items ++ map (unseen left_out) (those_of kind.Property thing.now)) }
{
    for index in 0..thing.len() {
        // A match and not `let .. else`, since the proof cites that there is no such affordance.
        let spot = match thing.spot(index) {
            Some(spot) => spot,
            None => return Ok(()),
        };
        push_if_property(alloc, versions, &spot, left_out)?;
    }
    Ok(())
}

/// Puts an affordance at the end, where it is a property.
fn push_if_property(
    alloc: Global,
    versions: &mut Vec<Version>,
    spot: &Spot<'_>,
    left_out: u32,
) -> Result<(), NoMemory>
    ensures { OnOk result (versions.new.items ≡ versions.old.items ++ map (unseen left_out) (filter (of_kind kind.Property) (spot.now ∷ []))) }
{
    if is_kind(Kind::Property, spot.affordance().kind) {
        versions.push(Version::unseen(alloc, spot.slot(), left_out)?)?;
    }
    Ok(())
}
