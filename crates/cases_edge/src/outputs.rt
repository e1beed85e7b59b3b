//! Outputs in memory: a line `room N`, lines `fails N` with the calls that fail; and steps: `put BYTES`, and the bytes
//! that are written then.

use crate::lines::{fails_of, size_of};
use cases_notation::{bytes_of, put_rows, put_runs};
use servient_outside::{Out, OutMemory};
use std::alloc::{AllocError, Global};
use std::fmt::Write;

/// The room of the line `room N`.
fn room_of(history: &str) -> usize {
    for line in history.lines() {
        if let Some(digits) = line.strip_prefix("room ") {
            return size_of(Some(digits));
        }
    }
    0
}

/// Puts a piece.
fn put_piece(text: &mut String, out: &mut OutMemory, piece: &[u8]) -> Result<(), AllocError> {
    write!(text, "{:?}, ", out.put(piece))?;
    put_runs(text, out.written())
}

/// Does a step.
fn put_step(
    text: &mut String,
    alloc: Global,
    out: &mut OutMemory,
    step: &str,
) -> Result<(), AllocError> {
    let piece = bytes_of(alloc, step.strip_prefix("put ").unwrap_or("-"))?;
    put_piece(text, out, piece.as_slice())
}

pub fn put(text: &mut String, alloc: Global, history: &str) -> Result<(), AllocError> {
    let mut out = OutMemory::new(alloc, room_of(history), fails_of(alloc, history)?)?;
    put_rows(
        text,
        history,
        |text, step| put_step(text, alloc, &mut out, step),
    )
}
