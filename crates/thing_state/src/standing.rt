//! The place of a request's path: that of an invocation only where there is one of this id.

ghost use Rattle.std.specs.Prelude.{◌≡◌, ◌==◌, Some, None, if◌then◌else◌, option_map};
ghost use Rattle.thing_state.specs.Places as spec;
ghost use Rattle.thing_state.specs.State.{invocation_named as invocation_of};
ghost use Rattle.thing_state.specs.Ids.{IdsRise};

use crate::state::{Invocation, place_by_id};
use thing_handler::Slot;
use thing_ops::Segments;
use thing_site::{IndexedThings, Resource, place_at};

/// The place of a path among Things, where it leads anywhere and there are these invocations.
pub fn place_of<'a>(
    things: &'a IndexedThings,
    invocations: &[Invocation],
    path: &Segments,
) -> Option<Resource<'a>>
    requires { IdsRise invocations.now }
    ensures { result ≡ spec.place_of path.now things.now invocations.now }
{
    let place = place_at(things, path)?;
    match place {
        Resource::Invocation(spot, id) => match invocation_in(invocations, spot.slot(), id) {
            Some(_) => Some(Resource::Invocation(spot, id)),
            None => None,
        },
        Resource::Description(_)
        | Resource::AllProperties(_)
        | Resource::Property(_)
        | Resource::Observed(_)
        | Resource::Action(_)
        | Resource::Event(_)
        | Resource::Subscribed(_) => Some(place),
    }
}

/// The invocation of this id under the action in this slot, found by binary search, since the ids rise; its slot is
/// compared afterwards.
pub fn invocation_in(invocations: &[Invocation], slot: Slot, id: u32) -> Option<&Invocation>
    requires { IdsRise invocations.now }
    ensures { option_map (λ i. i.now) result ≡ invocation_of slot id invocations.now }
{
    match place_by_id(invocations, id) {
        Some(index) => of_slot(&invocations[index], slot),
        None => None,
    }
}

/// An invocation, where its action is in this slot.
fn of_slot(invocation: &Invocation, slot: Slot) -> Option<&Invocation>
    ensures { option_map (λ i. i.now) result ≡ (if invocation.now.slot == slot then Some invocation.now else None) }
{
    if invocation.slot() == slot {
        Some(invocation)
    } else {
        None
    }
}
