//! Printing an answer, and the end that it brings.

ghost use Rattle.std.specs.Prelude.{◌≡◌, []};
ghost use Rattle.servient_outside.specs.Network.{NetSeen};
ghost use Rattle.servient_outside.specs.Out.{OutShows};
ghost use Rattle.network_consumer.specs.Deeds.{printed, printed_lines, put_of, sight, text_in, Shows};
ghost use Rattle.network_consumer.specs.Answers.{Closes};

use crate::Consumed;
use crate::answers::Verdict;
use servient_outside::{Out, Put};

/// Prints the payload of an answer, or the lines of its links, and says what ends by it.
pub fn close<O: Out>(verdict: Verdict, out: &mut O) -> Consumed
    ensures { (n : NetSeen) → Shows (λ deeds. Closes verdict deeds result)
        (sight n (O.seen out.old)) (sight n (O.seen out.new)) (put_of result) }
{
    match verdict {
        Verdict::Payload(payload) => match print(payload.as_slice(), out) {
            Put::Done => Consumed::Done,
            Put::Failed => Consumed::Unprinted,
        },
        Verdict::Lines(lines) => match print_lines(lines.as_slice(), out) {
            Put::Done => Consumed::Done,
            Put::Failed => Consumed::Unprinted,
        },
        Verdict::Outcome(outcome) => Consumed::Other(outcome),
        Verdict::NoMemory => Consumed::NoMemory,
    }
}

/// Prints a payload and a line feed, where it isn't empty.
#[tactic(auto, using(crate::proofs::DeedLaws::prints_whole, crate::proofs::DeedLaws::prints_nothing))]
fn print<O: Out>(payload: &[u8], out: &mut O) -> Put
    ensures prints { OutShows (O.seen out.old) (O.seen out.new) result (text_in (printed payload.now)) }
    ensures empty { payload.now ≡ [] → result ≡ Put.Done }
{
    if payload.is_empty() {
        return Put::Done;
    }
    match out.put(payload) {
        Put::Done => out.put(b"\n"),
        Put::Failed => Put::Failed,
    }
}

/// Prints lines, where there are any.
fn print_lines<O: Out>(lines: &[u8], out: &mut O) -> Put
    ensures prints { OutShows (O.seen out.old) (O.seen out.new) result (text_in (printed_lines lines.now)) }
    ensures empty { lines.now ≡ [] → result ≡ Put.Done }
{
    if lines.is_empty() {
        return Put::Done;
    }
    out.put(lines)
}
