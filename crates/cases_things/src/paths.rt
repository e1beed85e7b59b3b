//! Paths: `/lamp//on` are the segments `lamp`, an empty one and `on`, as bytes in text; `/` is one
//! empty segment, and `-` none.

ghost use Rattle.std.specs.Prelude.{◌<◌};

use cases_notation::{bytes_of, number, put};
use std::alloc::{AllocError, Global};
use std::fmt::Write;
use thing_ops::Segments;

/// The path of a text.
///
/// # Errors
///
/// Out of memory alone.
pub fn path_of(alloc: Global, text: &str) -> Result<Segments, AllocError> {
    let mut path = Segments::new(alloc);
    for segment in text.split('/').skip(1) {
        path.push(bytes_of(alloc, segment)?.as_slice())?;
    }
    Ok(path)
}

/// Writes a segment, or that there is none.
fn put_segment(text: &mut String, segment: Option<&[u8]>) -> Result<(), AllocError> {
    match segment {
        Some([]) => Ok(()),
        Some(bytes) => put(text, bytes),
        None => text.push_str("none"),
    }
}

/// Writes a path.
///
/// # Errors
///
/// Out of memory alone.
pub fn put_path(text: &mut String, path: &Segments) -> Result<(), AllocError> {
    if path.is_empty() {
        return text.push_str("-");
    }
    for index in 0..path.len() {
        text.push_str("/")?;
        put_segment(text, path.get(index))?;
    }
    Ok(())
}

/// Puts bytes after the last segment, if there is one.
fn extend(path: &mut Segments, bytes: &[u8]) -> Result<(), AllocError> {
    if path.is_empty() {
        return Ok(());
    }
    path.extend_last(bytes)
}

/// Does a step on a path.
fn take(path: &mut Segments, alloc: Global, step: &str) -> Result<(), AllocError> {
    let (word, rest) = step.split_once(' ').unwrap_or((step, ""));
    match word {
        "push" => path.push(bytes_of(alloc, rest)?.as_slice()),
        "extend" => extend(path, bytes_of(alloc, rest)?.as_slice()),
        _ => Ok(()),
    }
}

/// A path with room for n bytes, if the first step says so.
fn begun(alloc: Global, steps: &str) -> Result<Segments, AllocError> {
    match steps.split_once("; ") {
        Some((first, _steps)) if first.starts_with("room ") => {
            let room = number(first.strip_prefix("room "));
            Segments::with_capacity(alloc, usize::try_from(room).unwrap_or(0))
        }
        _ => Ok(Segments::new(alloc)),
    }
}

/// Writes the path after these steps, the number of its segments, and the one after its last.
///
/// # Errors
///
/// Out of memory alone.
pub fn put_steps(text: &mut String, alloc: Global, steps: &str) -> Result<(), AllocError> {
    let mut path = begun(alloc, steps)?;
    for step in steps.split("; ") {
        take(&mut path, alloc, step)?;
    }
    write!(text, "{}: ", path.len())?;
    put_path(text, &path)?;
    text.push_str(", then ")?;
    put_segment(text, path.get(path.len()))
}
