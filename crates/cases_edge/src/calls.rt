//! Calls of handlers and their answers, in the words of docs/REFERENCE.md ("Scripts and the print").

use cases_notation::{number, put as put_bytes};
use std::alloc::{AllocError, Global};
use std::fmt::Write;
use thing_handler::{Answer, CallKind};
use wot_json::{Tree, read, text_of};

/// The value of a JSON text; none where it is none, as `-`.
pub fn tree_of(alloc: Global, text: &str) -> Option<Tree> {
    read(alloc, text.as_bytes()).ok()
}

/// An id.
fn id_of(text: &str) -> u32 {
    u32::try_from(number(Some(text))).unwrap_or(0)
}

/// A call of an invocation.
fn invoke_of(alloc: Global, rest: &str) -> CallKind {
    let (id, input) = rest.split_once(' ').unwrap_or((rest, "-"));
    CallKind::Invoke(id_of(id), tree_of(alloc, input))
}

/// The call of these words.
pub fn call_of(alloc: Global, words: &str) -> CallKind {
    let (word, rest) = words.split_once(' ').unwrap_or((words, ""));
    match word {
        "write" => CallKind::Write(tree_of(alloc, rest).unwrap_or(Tree::Null)),
        "invoke" => invoke_of(alloc, rest),
        "query" => CallKind::Query(id_of(rest)),
        "cancel" => CallKind::Cancel(id_of(rest)),
        "poll" => CallKind::Poll,
        _ => CallKind::Read,
    }
}

/// The answer of a word with a value.
fn answer_with(word: &str, value: Tree) -> Answer {
    match word {
        "value" => Answer::Value(value),
        "fired" => Answer::Fired(value),
        _ => Answer::Finished(Some(value)),
    }
}

/// A number that a refusal or a fault names.
fn number_of(text: &str) -> u16 {
    u16::try_from(number(Some(text))).unwrap_or(0)
}

/// The answer of these words.
pub fn answer_of(alloc: Global, words: &str) -> Answer {
    let (word, rest) = words.split_once(' ').unwrap_or((words, ""));
    match word {
        "done" => Answer::Done,
        "started" => Answer::Started,
        "running" => Answer::Running,
        "cancelled" => Answer::Cancelled,
        "quiet" => Answer::Quiet,
        "refused" => Answer::Refused(number_of(rest)),
        "fault" => Answer::DeviceFault(number_of(rest)),
        _ => match tree_of(alloc, rest) {
            Some(value) => answer_with(word, value),
            None => Answer::Finished(None),
        },
    }
}

/// Writes a value after a word.
fn put_tree(text: &mut String, alloc: Global, word: &str, value: &Tree) -> Result<(), AllocError> {
    text.push_str(word)?;
    put_bytes(text, text_of(alloc, value)?.as_slice())
}

/// The same of a value that may be absent.
fn put_any(
    text: &mut String,
    alloc: Global,
    word: &str,
    value: Option<&Tree>,
) -> Result<(), AllocError> {
    match value {
        Some(value) => put_tree(text, alloc, word, value),
        None => {
            text.push_str(word)?;
            text.push_str("-")
        }
    }
}

/// Writes a call.
pub fn put_call(text: &mut String, alloc: Global, call: &CallKind) -> Result<(), AllocError> {
    match call {
        CallKind::Read => text.push_str("read"),
        CallKind::Write(value) => put_tree(text, alloc, "write ", value),
        CallKind::Invoke(id, input) => {
            write!(text, "invoke {id} ")?;
            put_any(text, alloc, "", input.as_ref())
        }
        CallKind::Query(id) => write!(text, "query {id}"),
        CallKind::Cancel(id) => write!(text, "cancel {id}"),
        CallKind::Poll => text.push_str("poll"),
    }
}

/// Writes an answer.
pub fn put_answer(text: &mut String, alloc: Global, answer: &Answer) -> Result<(), AllocError> {
    match answer {
        Answer::Value(value) => put_tree(text, alloc, "value ", value),
        Answer::Done => text.push_str("done"),
        Answer::Started => text.push_str("started"),
        Answer::Running => text.push_str("running"),
        Answer::Finished(value) => put_any(text, alloc, "finished ", value.as_ref()),
        Answer::Cancelled => text.push_str("cancelled"),
        Answer::Quiet => text.push_str("quiet"),
        Answer::Fired(value) => put_tree(text, alloc, "fired ", value),
        Answer::Refused(reason) => write!(text, "refused {reason}"),
        Answer::DeviceFault(reason) => write!(text, "fault {reason}"),
    }
}
