//! Request targets: bytes, their paths, and the places at which their queries begin.

use cases_notation::put_plain_runs;
use http_wire::{TargetFault, segments};
use std::alloc::{AllocError, Global};
use std::fmt::Write;
use thing_ops::Segments;

/// A segment in brackets.
fn put_segment(text: &mut String, segment: &[u8]) -> Result<(), AllocError> {
    text.push_str("[")?;
    put_plain_runs(text, segment)?;
    text.push_str("]")
}

/// Writes a path, `-` where it has no segments.
pub fn put_path(text: &mut String, path: &Segments) -> Result<(), AllocError> {
    if path.is_empty() {
        return text.push_str("-");
    }
    for index in 0..path.len() {
        put_segment(text, path.get(index).unwrap_or(b"nothing"))?;
    }
    Ok(())
}

/// Writes a path, and the place at which the query begins.
fn put_found(text: &mut String, path: &Segments, place: usize) -> Result<(), AllocError> {
    put_path(text, path)?;
    write!(text, " query at {place}")
}

pub fn put(text: &mut String, alloc: Global, bytes: &[u8]) -> Result<(), AllocError> {
    match segments(alloc, bytes) {
        Ok((path, place)) => put_found(text, &path, place),
        Err(TargetFault::NoMemory) => Err(AllocError),
        Err(fault) => write!(text, "{fault:?}"),
    }
}
