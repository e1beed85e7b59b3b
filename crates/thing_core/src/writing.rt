//! Writes of properties: of one, or of several of a Thing.

ghost use Rattle.std.specs.Prelude.{◌≡◌, ◌≤◌, ◌<◌, ◌+◌, ◌++◌, [], length, map};
ghost use Rattle.wot_json.specs.Json.{text_of};
ghost use Rattle.thing_state.specs.State.{last_after, versions_after};
ghost use Rattle.thing_state.specs.Course.{HasRoom};
ghost use Rattle.thing_site.specs.Refusals.{longest_value};
ghost use Rattle.thing_core.specs.Thing.{WritesEach};
ghost use Rattle.thing_core.specs.Performing.{emissions_of_text, InputsFit, MakesDone, OrMemory, WritesOne};

use thing_handler::{Answer, CallKind, Handlers};
use thing_ops::Outcome;
use thing_site::{Input, Spot};
use thing_state::{Machine, call, failure};

/// Writes values to properties, one after another, until one isn't done. Room for the emissions is taken before the
/// first call, so that each write that is done can be emitted.
pub fn write_each<R: Handlers>(
    inputs: Vec<Input<'_>>,
    machine: &mut Machine,
    rack: &mut R,
) -> Outcome
    requires { InputsFit (length (R.slots rack.old)) inputs.items }
    ensures { MakesDone (OrMemory (WritesEach inputs.entry.items [])) result machine.old machine.new (R.slots rack.old) (R.slots rack.new) }
{
    match machine.reserve(inputs.len()) {
        Ok(()) => {}
        Err(_) => return Outcome::Memory,
    }
    for input in inputs {
        match write_one(input, machine, rack) {
            None => {}
            Some(outcome) => return outcome,
        }
    }
    Outcome::Changed
}

/// Writes a value to a property, which emits it if it is observable; or the outcome where it isn't done.
fn write_one<R: Handlers>(input: Input<'_>, machine: &mut Machine, rack: &mut R) -> Option<Outcome>
    requires slot { input.affordance.slot < length (R.slots rack.old) }
    requires text { length (text_of input.value) ≤ longest_value }
    requires room { 0 < machine.old.room }
    ensures written { WritesOne input.entry result machine.old machine.new (R.slots rack.old) (R.slots rack.new) }
    ensures room { machine.old.room ≤ machine.new.room + 1 }
    ensures slots { length (R.slots rack.new) ≡ length (R.slots rack.old) }
{
    let (spot, value, text) = input.into_parts();
    let answer = match call(machine, rack, spot.slot(), &CallKind::Write(value)) {
        Ok(answer) => answer,
        Err(outcome) => return Some(outcome),
    };
    match &answer {
        Answer::Done => {
            keep_written(&spot, text.as_slice(), machine);
            None
        }
        Answer::Value(_)
        | Answer::Started
        | Answer::Running
        | Answer::Finished(_)
        | Answer::Cancelled
        | Answer::Quiet
        | Answer::Fired(_)
        | Answer::Refused(_)
        | Answer::DeviceFault(_) => Some(failure(&answer)),
    }
}

/// The text of what was written to a property is seen, and the property emits it if it is observable.
fn keep_written(spot: &Spot<'_>, text: &[u8], machine: &mut Machine)
    requires text { length text.now ≤ longest_value }
    requires room { 0 < machine.old.room }
    requires versions { HasRoom machine.old.state }
    ensures state { machine.new.state ≡ record machine.old.state {
      versions = versions_after spot.now.slot text.now machine.old.state.versions;
      last = last_after (emissions_of_text spot.now text.now) machine.old.state.last;
    } }
    ensures pending { machine.new.pending ≡ machine.old.pending ++ map (λ e. e.target) (emissions_of_text spot.now text.now) }
    ensures room { machine.old.room ≤ machine.new.room + 1 }
{
    let _version = machine.see(spot.slot(), text);
    if spot.affordance().observable {
        machine.emit(spot.slot(), text);
    }
}
