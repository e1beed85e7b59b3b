//! Calls of handlers: an answer, or the outcome of the request; and the outcome of an answer that is no success, said
//! once.

ghost use Rattle.std.specs.Prelude.{◌≡◌, ◌<◌, length, true, false, MatchOption};
ghost use Rattle.wot_json.specs.Json.{json_text};
ghost use Rattle.wot_json.specs.Meaning.{json_of};
ghost use Rattle.thing_state.specs.Calls.{failure_of, gives, IsTaken, CallsFor, ComesAs, IsFired};

use crate::machine::Machine;
use thing_handler::{Answer, CallKind, Handlers, Slot};
use thing_ops::Outcome;
use thing_site::{LONGEST_VALUE, is_accepted};
use wot_json::{Tree, write};
use wot_schema::Schema;

/// Calls the handler in a slot: its answer; else the outcome of the request, where the handler is out of memory or the
/// run has no number left for a turn.
pub fn call<R: Handlers>(
    machine: &mut Machine,
    rack: &mut R,
    slot: Slot,
    what: &CallKind,
) -> Result<Answer, Outcome>
    requires { slot < length (R.slots rack.old) }
    ensures { CallsFor (λ called. ComesAs called result) slot what.now machine.old machine.new (R.slots rack.old) (R.slots rack.new) }
{
    let number = machine.turns;
    if number == machine.most_turns() {
        return Err(Outcome::CallsUsed);
    }
    let answer = rack.call(slot as usize, number, what)?;
    machine.turns += 1;
    Ok(answer)
}

/// The outcome of a request whose device answers so, where that isn't a success: a refusal and a fault of the device
/// as they are; any other answer is one that it mustn't give.
pub fn failure(answer: &Answer) -> Outcome
    ensures { result ≡ failure_of (gives answer.now) }
{
    match answer {
        Answer::Refused(number) => Outcome::Refused(*number),
        Answer::DeviceFault(number) => Outcome::DeviceFault(*number),
        Answer::Value(_)
        | Answer::Done
        | Answer::Started
        | Answer::Running
        | Answer::Finished(_)
        | Answer::Cancelled
        | Answer::Quiet
        | Answer::Fired(_) => Outcome::BadAnswer,
    }
}

/// The value that an event came about with, where the answer to a poll says that it did.
pub fn fired(answer: Answer) -> Option<Tree>
    ensures { IsFired (gives answer) result }
{
    match answer {
        Answer::Fired(value) => Some(value),
        Answer::Value(_)
        | Answer::Done
        | Answer::Started
        | Answer::Running
        | Answer::Finished(_)
        | Answer::Cancelled
        | Answer::Quiet
        | Answer::Refused(_)
        | Answer::DeviceFault(_) => None,
    }
}

/// The text of a value of a device, where the value is taken. The room is lent, so that no memory is taken after a
/// call.
pub fn taken_text<'a>(
    schema: &Option<Schema>,
    value: &Tree,
    out: &'a mut [u8; LONGEST_VALUE],
) -> Option<&'a [u8]>
    ensures { MatchOption result (¬ (IsTaken schema.now (json_of value.now)))
        (λ text. IsTaken schema.now (json_of value.now) × (text.now ≡ json_text value.now)) }
{
    if !is_accepted(schema, value) {
        return None;
    }
    match write(value, out) {
        Some(count) => Some(&out[..count]),
        None => None,
    }
}
