//! The lines of the log of a run.

ghost use Rattle.std.specs.Prelude.{◌≡◌};
ghost use Rattle.servient_script.specs.Print.{answer_text, call_text, in_slot, text_if_any, turn_line};
ghost use Rattle.turn_lines.specs.Buffer.{buffered_of, HasPut};
ghost use Rattle.turn_lines.specs.Lines.{is_quiet as is_quiet_answer, log_line, logged_turn, serving_line};

use crate::buffer::LineBuffer;
use crate::tree_text::put_tree;
use servient_outside::Out;
use thing_handler::{Answer, CallKind, Turn};
use wot_json::Tree;

/// A turn of a step, as the log says it.
#[derive(Clone, Copy)]
pub struct LoggedTurn<'a> {
    /// The moment of the step's event, in milliseconds.
    pub moment: u64,
    /// The slot of the handler that was called.
    pub slot: usize,
    pub turn: &'a Turn,
}

/// The numbers of the first line.
#[derive(Clone, Copy)]
pub struct Heading<'a> {
    /// The base of what is served by HTTP, and that by CoAP, as the plan has them.
    pub http: &'a str,
    pub coap: &'a str,
    /// The number of Things.
    pub things: usize,
}

/// Puts the first line.
pub fn put_heading<O: Out>(lines: &mut LineBuffer, out: &mut O, heading: Heading<'_>)
    ensures { HasPut (serving_line heading.entry.http.now heading.entry.coap.now heading.entry.things)
        (buffered_of lines.old) (buffered_of lines.new) (O.seen out.old) (O.seen out.new) }
{
    lines.push(out, b"serving ");
    lines.push(out, heading.http.as_bytes());
    lines.push(out, b" ");
    lines.push(out, heading.coap.as_bytes());
    lines.push(out, b" ");
    lines.push_number(out, heading.things);
    lines.push(out, b"\n");
}

/// Puts the line of a turn, but none of a poll that found nothing.
pub fn put_line<O: Out>(lines: &mut LineBuffer, out: &mut O, logged: LoggedTurn<'_>)
    ensures { HasPut (logged_turn logged.entry.moment (in_slot logged.entry.slot logged.entry.turn.now))
        (buffered_of lines.old) (buffered_of lines.new) (O.seen out.old) (O.seen out.new) }
{
    if is_quiet(&logged.turn.answer) {
        return;
    }
    lines.push_number(out, logged.moment);
    lines.push(out, b" ");
    put_turn(lines, out, logged.slot, logged.turn);
}

/// A poll found nothing.
fn is_quiet(answer: &Answer) -> bool
    ensures { result ≡ is_quiet_answer answer.now }
{
    match answer {
        Answer::Quiet => true,
        Answer::Value(_) => false,
        Answer::Done => false,
        Answer::Started => false,
        Answer::Running => false,
        Answer::Finished(_) => false,
        Answer::Cancelled => false,
        Answer::Fired(_) => false,
        Answer::Refused(_) => false,
        Answer::DeviceFault(_) => false,
    }
}

/// Puts the line of a turn as a replay prints it.
fn put_turn<O: Out>(lines: &mut LineBuffer, out: &mut O, slot: usize, turn: &Turn)
    ensures { HasPut (turn_line (in_slot slot turn.now)) (buffered_of lines.old) (buffered_of lines.new) (O.seen out.old) (O.seen out.new) }
{
    lines.push(out, b"turn ");
    lines.push_number(out, turn.number);
    lines.push(out, b" ");
    lines.push_number(out, slot);
    lines.push(out, b" ");
    put_call(lines, out, &turn.what);
    lines.push(out, b" = ");
    put_answer(lines, out, &turn.answer);
    lines.push(out, b"\n");
}

/// Puts the call of a handler.
fn put_call<O: Out>(lines: &mut LineBuffer, out: &mut O, what: &CallKind)
    ensures { HasPut (call_text what.now) (buffered_of lines.old) (buffered_of lines.new) (O.seen out.old) (O.seen out.new) }
{
    match what {
        CallKind::Read => lines.push(out, b"read"),
        CallKind::Write(tree) => {
            lines.push(out, b"write ");
            put_tree(tree, lines, out);
        }
        CallKind::Invoke(id, input) => {
            lines.push(out, b"invoke ");
            lines.push_number(out, *id);
            lines.push(out, b" ");
            put_if_any(lines, out, input);
        }
        CallKind::Query(id) => {
            lines.push(out, b"query ");
            lines.push_number(out, *id);
        }
        CallKind::Cancel(id) => {
            lines.push(out, b"cancel ");
            lines.push_number(out, *id);
        }
        CallKind::Poll => lines.push(out, b"poll"),
    }
}

/// Puts the answer of a handler.
fn put_answer<O: Out>(lines: &mut LineBuffer, out: &mut O, answer: &Answer)
    ensures { HasPut (answer_text answer.now) (buffered_of lines.old) (buffered_of lines.new) (O.seen out.old) (O.seen out.new) }
{
    match answer {
        Answer::Value(tree) => {
            lines.push(out, b"value ");
            put_tree(tree, lines, out);
        }
        Answer::Done => lines.push(out, b"done"),
        Answer::Started => lines.push(out, b"started"),
        Answer::Running => lines.push(out, b"running"),
        Answer::Finished(output) => {
            lines.push(out, b"finished ");
            put_if_any(lines, out, output);
        }
        Answer::Cancelled => lines.push(out, b"cancelled"),
        Answer::Quiet => lines.push(out, b"quiet"),
        Answer::Fired(tree) => {
            lines.push(out, b"fired ");
            put_tree(tree, lines, out);
        }
        Answer::Refused(number) => {
            lines.push(out, b"refused ");
            lines.push_number(out, *number);
        }
        Answer::DeviceFault(number) => {
            lines.push(out, b"fault ");
            lines.push_number(out, *number);
        }
    }
}

/// Puts the text of a value, or `-` where there is none.
fn put_if_any<O: Out>(lines: &mut LineBuffer, out: &mut O, value: &Option<Tree>)
    ensures { HasPut (text_if_any value.now) (buffered_of lines.old) (buffered_of lines.new) (O.seen out.old) (O.seen out.new) }
{
    match value {
        Some(tree) => put_tree(tree, lines, out),
        None => lines.push(out, b"-"),
    }
}
