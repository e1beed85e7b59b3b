//! The end of a command whose operation on another Thing wasn't done: the line that says its outcome.

ghost use Rattle.std.specs.Prelude.{◌≡◌, ◌++◌, IfOk, OnOk};
ghost use Rattle.servient_cli.specs.Consuming.{line_after, outcome_text, status_text};

use command_stages::Ending;
use network_consumer::{Consumed, ConsumedOutcome, Status};
use servient_script::put_number;
use std::alloc::Global;
use wot_json::{Bytes, NoMemory};

/// The ending of an operation that had this outcome, and wasn't done.
pub fn undone(alloc: Global, outcome: ConsumedOutcome) -> Result<Ending, NoMemory>
    ensures { IfOk result (λ e. (e.status ≡ 10) × (e.text ≡ line_after (Consumed.Other outcome))) }
{
    let mut text = Bytes::copy_of(alloc, b"outcome ")?;
    put_outcome(&mut text, outcome)?;
    text.extend(b"\n")?;
    Ok(Ending { status: 10, text })
}

/// Puts an outcome at the end.
fn put_outcome(text: &mut Bytes, outcome: ConsumedOutcome) -> Result<(), NoMemory>
    ensures { OnOk result (text.new ≡ text.old ++ outcome_text outcome) }
{
    match outcome {
        ConsumedOutcome::Input => text.extend(b"input"),
        ConsumedOutcome::Output => text.extend(b"output"),
        ConsumedOutcome::Malformed => text.extend(b"malformed"),
        ConsumedOutcome::Long => text.extend(b"long"),
        ConsumedOutcome::Closed => text.extend(b"closed"),
        ConsumedOutcome::Reset => text.extend(b"reset"),
        ConsumedOutcome::Stopped => text.extend(b"stopped"),
        ConsumedOutcome::Status(Status::Http(number)) => put_number(text, number),
        ConsumedOutcome::Status(Status::Coap(code)) => put_code(text, code),
    }
}

/// Puts a code at the end: its class, and its detail as two digits.
fn put_code(text: &mut Bytes, code: u8) -> Result<(), NoMemory>
    ensures { OnOk result (text.new ≡ text.old ++ status_text (Status.Coap code)) }
{
    put_number(text, code / 32)?;
    text.extend(b".")?;
    put_number(text, code % 32 / 10)?;
    put_number(text, code % 32 % 10)
}
