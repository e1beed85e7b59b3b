//! Operations on a Thing, with a network in memory.
//!
//! ```text
//! given JSON                                  members of a description, beside those that each has to have
//! OPERATION NAME VALUE | EVENT | EVENT => ..  the acts, what is printed and how it ends; `-` for no value
//! ```
//!
//! `OPERATION*N` awaits N values. A value is written as bytes are, so that one may be long. The events are those of
//! `network.rt`; the first connection that is dialled has the number 0, and every host is found at host1.

ghost use Rattle.std.specs.Prelude.{IsTrue};
ghost use Rattle.wot_json.specs.Meaning.{json_of};
ghost use Rattle.wot_terms.specs.Faults.{IsValid};
ghost use Rattle.wot_consumer.specs.Operations.{is_consumed};
ghost use Rattle.network_consumer.specs.Answers.{CanBeAsked};
ghost use Rattle.network_consumer.specs.Asking.{IsChoice};

use crate::asking::put_sent;
use crate::descriptions::{description_of, op_of, value_of};
use crate::network::network_of;
use cases_notation::{bytes_of, number, put as put_bytes};
use network_consumer::{Consumed, ConsumedOutcome, Status, ThingOperation, consume};
use servient_outside::{Act, Calls, OutMemory};
use std::alloc::{AllocError, Global};
use std::fmt::Write;
use wot_consumer::{ChooseFault, Chosen, choose};
use wot_json::Tree;
use wot_terms::Op;

/// The most bytes of output that are kept.
pub const MOST_OUTPUT: usize = 131_072;

/// Writes an act.
fn put_act(text: &mut String, act: &Act) -> Result<(), AllocError> {
    match act {
        Act::Dialled(host, port, _) => write!(text, "dials {}:{port}, ", host.as_str()),
        Act::Looked(host, port, _) => write!(text, "looks up {}:{port}, ", host.as_str()),
        Act::Sent(_, bytes) => write!(text, "sends {} bytes, ", bytes.len()),
        Act::Datagram(_, bytes) => {
            put_sent(text, bytes.as_slice())?;
            text.push_str(", ")
        }
        _ => text.push_str("does something else, "),
    }
}

/// Writes the acts that were done.
fn put_acts(text: &mut String, acts: &[Act]) -> Result<(), AllocError> {
    for act in acts {
        put_act(text, act)?;
    }
    Ok(())
}

/// Writes what was printed.
fn put_printed(text: &mut String, printed: &[u8]) -> Result<(), AllocError> {
    if printed.is_empty() {
        return Ok(());
    }
    text.push_str("prints ")?;
    put_bytes(text, printed)?;
    text.push_str(", ")
}

/// Writes how it ended.
fn put_consumed(text: &mut String, consumed: Consumed) -> Result<(), AllocError> {
    match consumed {
        Consumed::Done => text.push_str("done"),
        Consumed::Other(ConsumedOutcome::Status(Status::Http(status))) => write!(text, "{status}"),
        Consumed::Other(ConsumedOutcome::Status(Status::Coap(code))) => {
            write!(text, "{}.{:02}", code / 32, code % 32)
        }
        Consumed::NoMemory => Err(AllocError),
        other => write!(text, "{other:?}"),
    }
}

/// Writes what was done, what was printed and how it ended.
pub fn put_done(
    text: &mut String,
    acts: &[Act],
    printed: &[u8],
    consumed: Consumed,
) -> Result<(), AllocError> {
    put_acts(text, acts)?;
    put_printed(text, printed)?;
    put_consumed(text, consumed)
}

/// Does an operation by what was chosen for it, and writes what was done and how it ended.
fn put_operation(
    text: &mut String,
    alloc: Global,
    operation: &ThingOperation<'_>,
    chosen: &Chosen,
    words: &str,
) -> Result<(), AllocError>
    requires asked { CanBeAsked operation.now }
    requires choice { IsChoice operation.now chosen.now }
{
    let mut net = network_of(alloc, words)?;
    let mut out = OutMemory::new(alloc, MOST_OUTPUT, Calls::new(alloc))?;
    let consumed = consume(alloc, operation, chosen, &mut net, &mut out);
    put_done(text, net.acts(), out.written(), consumed)
}

/// The value handed in, in words: the last field before the events.
fn value_in(words: &str) -> &str {
    let (given, _events) = words.split_once(" | ").unwrap_or((words, ""));
    given.splitn(3, ' ').last().unwrap_or("-")
}

/// The number of values that are awaited.
fn count_in(words: &str) -> u32 {
    let word = words.split(' ').next().unwrap_or("");
    match word.split_once('*') {
        Some((_operation, count)) => u32::try_from(number(Some(count))).unwrap_or(1),
        None => 1,
    }
}

/// An operation that is asked of a Thing.
#[derive(Drop)]
struct Asked {
    tree: Tree,
    op: Op,
    input: Option<Tree>,
}

/// Writes what comes of an operation, where a form is chosen for it.
fn put_asked<'a>(
    text: &mut String,
    alloc: Global,
    asked: &'a Asked,
    words: &'a str,
) -> Result<(), AllocError>
    requires valid { IsValid (json_of asked.now.tree) }
    requires consumed { IsTrue (is_consumed asked.now.op) }
{
    let tree = &asked.tree;
    let name = words.split(' ').nth(1).unwrap_or("");
    let input = asked.input.as_ref();
    let operation = ThingOperation {
        tree,
        op: asked.op,
        name,
        input,
        count: count_in(words),
    };
    match choose(alloc, operation.tree, operation.op, operation.name, None) {
        Ok(chosen) => put_operation(text, alloc, &operation, &chosen, words),
        Err(ChooseFault::NoMemory) => Err(AllocError),
        Err(fault) => write!(text, "{fault}"),
    }
}

/// Writes what comes of a row over a description.
fn put_row(
    text: &mut String,
    alloc: Global,
    tree: Tree,
    op: Op,
    words: &str,
) -> Result<(), AllocError>
    requires valid { IsValid (json_of tree) }
    requires consumed { IsTrue (is_consumed op) }
{
    let bytes = bytes_of(alloc, value_in(words))?;
    let input = value_of(alloc, bytes.as_slice())?;
    let asked = Asked { tree, op, input };
    put_asked(text, alloc, &asked, words)
}

/// The operation of a row.
fn operation_in(words: &str) -> &str {
    let word = words.split(' ').next().unwrap_or("");
    word.split('*').next().unwrap_or("")
}

/// Writes what comes of a row over the description with these members.
pub fn put(text: &mut String, alloc: Global, members: &str, given: &str) -> Result<(), AllocError> {
    let op = op_of(operation_in(given));
    match (description_of(alloc, members)?, op) {
        (Some(tree), Some(op)) => put_row(text, alloc, tree, op, given),
        _ => text.push_str("no valid description, or no such operation"),
    }
}
