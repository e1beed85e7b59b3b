//! Scripts that are read: the events of each, or the line that is refused. A row of `faults` is a fault, and its text.

use cases_notation::{bytes_of, put};
use servient_cli::{Script, ScriptFault};
use servient_outside::{EventWithBytes, Events};
use std::alloc::{AllocError, Global};
use std::fmt::Write;

/// The most bytes that a script may have.
pub const LONGEST_SCRIPT: usize = 16_777_216;

/// Writes an event and its bytes.
fn put_event(text: &mut String, event: &EventWithBytes) -> Result<(), AllocError> {
    write!(text, "; {} {:?} ", event.event.moment, event.event.what)?;
    put(text, event.bytes.as_slice())
}

/// Writes events.
fn put_events(text: &mut String, events: &Events) -> Result<(), AllocError> {
    text.push_str("read")?;
    for place in 0..events.len() {
        put_event(text, events.at(place))?;
    }
    Ok(())
}

/// Writes the events that a script is read as.
fn put_script(text: &mut String, alloc: Global, script: &[u8]) -> Result<(), AllocError> {
    if script.len() > LONGEST_SCRIPT {
        return text.push_str("too long to be read");
    }
    match Script::read(alloc, script) {
        Ok(script) => put_events(text, &script.into_events()),
        Err(fault) => write!(text, "{fault}"),
    }
}

/// Writes the text of the fault of these words.
fn put_fault(text: &mut String, given: &str) -> Result<(), AllocError> {
    let fault = match given.strip_prefix("line ") {
        Some(line) => ScriptFault::Line(line.parse::<u32>().unwrap_or(0)),
        None => ScriptFault::NoMemory,
    };
    write!(text, "{fault}")
}

/// Writes what comes of a row.
///
/// # Errors
///
/// Out of memory alone.
pub fn put_row(
    text: &mut String,
    alloc: Global,
    table: &str,
    given: &str,
) -> Result<(), AllocError> {
    match table {
        "scripts" => put_script(text, alloc, bytes_of(alloc, given)?.as_slice()),
        _ => put_fault(text, given),
    }
}
