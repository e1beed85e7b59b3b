//! Giving the affordances of Things their handlers.

ghost use Rattle.std.specs.Prelude.{◌≡◌, ◌++◌, ◌<◌, ◌^◌, List, ℕ, [], ◌∷◌, map, Some, MatchResult, IfOk, IfErr, IfSome, OnOk, option_and_then, option_map, slice_get};
ghost use Rattle.std.specs.List.{AllByRecursion};
ghost use Rattle.wot_json.specs.Meaning.{json_of};
ghost use Rattle.wot_terms.specs.Faults.{IsValid};
ghost use Rattle.wot_terms.specs.ThingLists.{kept_thing, kept_things};
ghost use Rattle.thing_site.specs.Site.{is_among as is_among_those, expose_faults};
ghost use Rattle.thing_site.specs.Exposing.{kinds_of, slot_or_0, ArePlaced, HaveFault, HaveNoFault, IsFirst, IsJudged, IsPlaced};

use crate::wanted::{Wanted, wanted_all};
use crate::{ExposeFault, HeldThing, NoMemory, Slots};
use std::alloc::Global;
use thing_handler::{Handlers, Kind, Slot};
use wot_json::{Text, copy, tree_is_well_formed};
use wot_terms::{Description, Thing};

/// Gives the affordances of Things their handlers, in order.
pub fn place_all<R: Handlers>(
    alloc: Global,
    rack: &R,
    slots: &Slots,
    things: &[Thing],
) -> Result<Vec<HeldThing>, ExposeFault>
    requires { AllByRecursion (λ t. IsValid (json_of t.tree)) things.now }
    ensures { MatchResult result
        (λ held. ArePlaced (kinds_of (R.slots rack.now)) slots.now (kept_things things.now) held.items)
        (λ fault. IsFirst (expose_faults (kinds_of (R.slots rack.now)) slots.now (kept_things things.now)) fault) }
{
    let mut held = Vec::new(alloc);
    let mut earlier = Vec::new(alloc);
    for thing in things {
        let one = place(alloc, rack, slots, thing, &mut earlier)?;
        push_thing(&mut held, one)?;
    }
    Ok(held)
}

/// Puts a Thing at the end.
fn push_thing(held: &mut Vec<HeldThing>, one: HeldThing) -> Result<(), NoMemory>
    ensures { OnOk result (held.new.items ≡ held.old.items ++ one ∷ []) }
{
    held.push(one)?;
    Ok(())
}

/// Gives the affordances of a Thing their handlers, where earlier ones have these slots, and puts their slots after
/// those.
fn place<R: Handlers>(
    alloc: Global,
    rack: &R,
    slots: &Slots,
    thing: &Thing,
    earlier: &mut Vec<Slot>,
) -> Result<HeldThing, ExposeFault>
    requires { IsValid (json_of thing.now.tree) }
    ensures { IsPlaced (kinds_of (R.slots rack.now)) slots.now (kept_thing thing.now) earlier.old.items earlier.new.items result }
{
    let affordances = Description::of(alloc, &thing.tree)?;
    // For the proof: the names of its members rise, and so its affordances do.
    tree_is_well_formed(&thing.tree);
    let wanted = wanted_all(
        alloc,
        slots,
        thing.segment.as_str(),
        affordances.affordances(),
    )?;
    let slots = judge_all(alloc, rack, wanted, earlier)?;
    let segment = Text::copy_of(alloc, thing.segment.as_str())?;
    let tree = copy(alloc, &thing.tree)?;
    Ok(HeldThing::of(segment, tree, affordances, slots))
}

/// The slots of affordances none of which has a fault, where earlier ones have these slots, and puts them after those.
fn judge_all<R: Handlers>(
    alloc: Global,
    rack: &R,
    wanted: Vec<Wanted>,
    earlier: &mut Vec<Slot>,
) -> Result<Vec<Slot>, ExposeFault>
    ensures slots { IfOk result (λ slots. slots.items ≡ map slot_or_0 wanted.items) }
    ensures ok { OnOk result (HaveNoFault (kinds_of (R.slots rack.now)) earlier.old.items earlier.new.items wanted.items) }
    ensures fault { IfErr result (λ fault. HaveFault (kinds_of (R.slots rack.now)) earlier.old.items wanted.items fault) }
{
    let mut slots = Vec::with_capacity(alloc, wanted.len())?;
    for one in wanted {
        let slot = judge(rack, earlier.as_slice(), one)?;
        push_slot(&mut slots, slot)?;
        push_slot(earlier, slot)?;
    }
    Ok(slots)
}

/// Puts a slot at the end.
fn push_slot(slots: &mut Vec<Slot>, slot: Slot) -> Result<(), NoMemory>
    ensures { OnOk result (slots.new.items ≡ slots.old.items ++ slot ∷ []) }
{
    slots.push(slot)?;
    Ok(())
}

/// The slot of an affordance, where earlier ones have these slots, or its fault.
fn judge<R: Handlers>(rack: &R, earlier: &[Slot], wanted: Wanted) -> Result<Slot, ExposeFault>
    ensures { IsJudged (kinds_of (R.slots rack.now)) earlier.now wanted result }
{
    let Wanted {
        segment,
        pointer,
        kind,
        slot,
    } = wanted;
    match handler_at(rack, slot) {
        None => Err(ExposeFault::NoSlot(segment, pointer)),
        Some((slot, found)) => {
            if found != kind {
                Err(ExposeFault::KindDiffers(segment, pointer))
            } else if is_among(earlier, slot) {
                Err(ExposeFault::SlotTwice(segment, pointer))
            } else {
                Ok(slot)
            }
        }
    }
}

/// A slot of the rack, and the kind of the handler in it.
pub fn handler_at<R: Handlers>(rack: &R, slot: Option<usize>) -> Option<(Slot, Kind)>
    ensures kind { option_map (λ h. h.1) result ≡ option_and_then (slice_get (kinds_of (R.slots rack.now))) slot }
    ensures slot { IfSome result (λ h. slot ≡ Some h.0) }
{
    let slot = slot?;
    if slot < rack.len() {
        Some((slot as Slot, rack.kind(slot)))
    } else {
        None
    }
}

/// The slot is among these.
fn is_among(earlier: &[Slot], slot: Slot) -> bool
    ensures { result ≡ is_among_those earlier.now (Some slot) }
{
    for other in earlier {
        if *other == slot {
            return true;
        }
    }
    false
}
