//! The acts that requests ask for, each done with its calls of handlers.

ghost use Rattle.std.specs.Prelude.{◌≡◌, ◌≤◌, length, map, option_map, IfSome};
ghost use Rattle.wot_json.specs.Json.{text_of as text_of_value};
ghost use Rattle.thing_ops.specs.Requests.{request_seen};
ghost use Rattle.thing_state.specs.State.{last_of};
ghost use Rattle.thing_core.specs.Thing.{event_outcome, Performs};
ghost use Rattle.thing_site.specs.Refusals.{longest_value};
ghost use Rattle.thing_core.specs.Performing.{affordances_of_act, AllStand, InputsFit, IsOrMemory, MakesDone, MayBeDone, OrMemory};

use crate::admitting::Task;
use crate::invoking::{cancel, invoke, prepare, query};
use crate::reading::{read, read_all};
use crate::writing::write_each;
use servient_base::Target;
use std::alloc::Global;
use thing_handler::Handlers;
use thing_ops::{Outcome, Request};
use thing_site::{HeldThing, ThingAct};
use thing_state::{LastValue, Machine};
use wot_json::{Bytes, text_of};

/// Does an act.
pub fn act<R: Handlers>(
    alloc: Global,
    task: Task<'_>,
    request: &Request<'_>,
    machine: &mut Machine,
    rack: &mut R,
) -> Outcome
    requires slots { AllStand (length (R.slots rack.old)) (affordances_of_act task.act) }
    requires inputs { InputsFit (length (R.slots rack.old)) task.inputs.items }
    requires state { MayBeDone task.act machine.old.state }
    ensures { MakesDone (OrMemory (Performs task.entry.act (request_seen request.now) task.entry.inputs.items)) result machine.old machine.new (R.slots rack.old) (R.slots rack.new) }
{
    let Task { act, inputs } = task;
    match act {
        ThingAct::Describes(thing) => describe(alloc, thing.thing(), request.accept.td),
        ThingAct::ReadsAll(thing) => read_all(alloc, thing.thing(), machine, rack),
        ThingAct::Reads(spot) => read(alloc, spot, &request.conditions, machine, rack),
        ThingAct::WritesMany(_) => write_each(inputs, machine, rack),
        ThingAct::Writes(_) => write_each(inputs, machine, rack),
        ThingAct::Invokes(spot) => match prepare(alloc, &request.path, machine.next_invocation()) {
            Ok(prepared) => invoke(spot, inputs, prepared, machine, rack),
            Err(_) => Outcome::Memory,
        },
        ThingAct::Queries(spot, id) => query(alloc, spot, id, machine, rack),
        ThingAct::Cancels(spot, id) => cancel(spot, id, machine, rack),
        ThingAct::ReadsEvent(spot) => {
            let event = spot.slot();
            last_emission(alloc, machine.last(), event)
        }
        ThingAct::Waits(spot) => {
            let target = spot.slot();
            Outcome::Wait(target)
        }
    }
}

/// A description as it is sent.
fn describe(alloc: Global, thing: &HeldThing, td: bool) -> Outcome
    ensures { IsOrMemory (Outcome.Description (text_of_value thing.now.description) td) result }
{
    match text_of(alloc, thing.description()) {
        Ok(text) => Outcome::Description(text, td),
        Err(_) => Outcome::Memory,
    }
}

/// The last emission of an event.
fn last_emission(alloc: Global, last: &[LastValue], target: Target) -> Outcome
    ensures { IsOrMemory (event_outcome (last_of target last.now)) result }
{
    match last_in(last, target) {
        Some(text) => match Bytes::copy_of(alloc, text) {
            Ok(text) => Outcome::Content { text, tag: None },
            Err(_) => Outcome::Memory,
        },
        None => Outcome::Empty,
    }
}

/// The text of the last emission of this target, among these.
pub fn last_in(last: &[LastValue], target: Target) -> Option<&[u8]>
    ensures text { option_map (λ t. t.now) result ≡ last_of target last.now }
    ensures length { IfSome result (λ t. length t.now ≤ longest_value) }
{
    for latest in last {
        if latest.target() == target {
            return latest.text();
        }
    }
    None
}
