//! Each byte in one place of a link text.

use crate::reading::put_read;
use cases_notation::{bytes_of, put_digits};
use std::alloc::{AllocError, Global};

/// Bytes one after another of which the same comes.
#[derive(Drop)]
struct Run {
    first: u8,
    outcome: String,
}

/// The outcome of a text with this byte in the place of `@`.
fn outcome_of(alloc: Global, before: &[u8], byte: u8, after: &[u8]) -> Result<String, AllocError> {
    let mut bytes = Vec::new(alloc);
    bytes.extend_from_slice(before)?;
    bytes.push(byte)?;
    bytes.extend_from_slice(after)?;
    let mut text = String::new(alloc);
    put_read(&mut text, alloc, bytes.as_slice(), Some(byte))?;
    Ok(text)
}

/// Writes a run that ends with this byte.
fn put_run(text: &mut String, run: &Run, last: u8) -> Result<(), AllocError> {
    if run.first > 0 {
        text.push_str("; ")?;
    }
    put_digits(text, &[run.first])?;
    if run.first < last {
        text.push_str("-")?;
        put_digits(text, &[last])?;
    }
    text.push_str(" ")?;
    text.push_str(run.outcome.as_str())
}

/// Writes what comes for each byte.
fn put_runs(
    text: &mut String,
    alloc: Global,
    before: &[u8],
    after: &[u8],
) -> Result<(), AllocError> {
    let mut run = Run {
        first: 0,
        outcome: outcome_of(alloc, before, 0, after)?,
    };
    for byte in 1..=255 {
        let outcome = outcome_of(alloc, before, byte, after)?;
        if outcome.as_str() != run.outcome.as_str() {
            put_run(text, &run, byte - 1)?;
            run = Run {
                first: byte,
                outcome,
            };
        }
    }
    put_run(text, &run, 255)
}

/// Writes what comes for each byte in the place of `@`.
pub fn put_bytes_tried(text: &mut String, alloc: Global, given: &str) -> Result<(), AllocError> {
    let (before, after) = given.split_once('@').unwrap_or((given, ""));
    let before = bytes_of(alloc, before)?;
    let after = bytes_of(alloc, after)?;
    put_runs(text, alloc, before.as_slice(), after.as_slice())
}
