//! A case that is run for each way to cut a stream of bytes. `cut once TEXT` cuts it at each place into two pieces, and
//! `cut twice TEXT` at each pair of places into three, of which none is empty; at the end of a line `{1}`, `{2}` and
//! `{3}` stand for the pieces. The outcome of the first way is written, and that of each other way only if it is
//! another.

use crate::sessions::put_result;
use cases_notation::{bytes_of, put_digits};
use std::alloc::{AllocError, Global};
use std::fmt::Write;

/// The pieces of a stream.
type Pieces<'a> = [&'a [u8]; 3];

/// A case, and the cases without a command before it.
#[derive(Clone, Copy)]
struct Given<'a> {
    shared: &'a str,
    block: &'a str,
}

/// Writes a piece, each byte by its number.
fn put_piece(text: &mut String, front: &str, piece: &[u8]) -> Result<(), AllocError> {
    text.push_str(front)?;
    for byte in piece {
        text.push_str("\\x")?;
        put_digits(text, &[*byte])?;
    }
    Ok(())
}

/// Writes a line with the piece that it names.
fn put_filled(text: &mut String, line: &str, pieces: &Pieces<'_>) -> Result<(), AllocError> {
    let [first, second, third] = pieces;
    if let Some(front) = line.strip_suffix("{1}") {
        put_piece(text, front, first)
    } else if let Some(front) = line.strip_suffix("{2}") {
        put_piece(text, front, second)
    } else if let Some(front) = line.strip_suffix("{3}") {
        put_piece(text, front, third)
    } else {
        text.push_str(line)
    }
}

/// The lines of a case with these pieces.
fn filled(alloc: Global, block: &str, pieces: &Pieces<'_>) -> Result<String, AllocError> {
    let mut text = String::new(alloc);
    for line in block.lines() {
        put_filled(&mut text, line, pieces)?;
        text.push_str("\n")?;
    }
    Ok(text)
}

/// The outcome of a case with these pieces.
fn shown(alloc: Global, given: Given<'_>, pieces: &Pieces<'_>) -> Result<String, AllocError> {
    let lines = filled(alloc, given.block, pieces)?;
    let mut text = String::new(alloc);
    put_result(&mut text, alloc, given.shared, lines.as_str())?;
    Ok(text)
}

/// Writes the outcome of a case with these pieces, if it is another than the first.
fn put_way(
    text: &mut String,
    alloc: Global,
    given: Given<'_>,
    pieces: &Pieces<'_>,
    first: &mut String,
) -> Result<(), AllocError> {
    let shown = shown(alloc, given, pieces)?;
    if first.is_empty() {
        first.push_str(shown.as_str())?;
        return text.push_str(shown.as_str());
    }
    if first.as_str() == shown.as_str() {
        return Ok(());
    }
    let [one, two, three] = pieces;
    write!(
        text,
        "cut into {}, {} and {} bytes:\n{shown}",
        one.len(),
        two.len(),
        three.len()
    )
}

/// The same of each way to cut at one place.
fn put_once(
    text: &mut String,
    alloc: Global,
    given: Given<'_>,
    stream: &[u8],
) -> Result<(), AllocError> {
    let mut first = String::new(alloc);
    for place in 1..stream.len() {
        let pieces = [&stream[..place], &stream[place..], b"".as_slice()];
        put_way(text, alloc, given, &pieces, &mut first)?;
    }
    Ok(())
}

/// The same of each way to cut at two places, of which this is the last.
fn put_twice_at(
    text: &mut String,
    alloc: Global,
    given: Given<'_>,
    halves: (&[u8], &[u8]),
    first: &mut String,
) -> Result<(), AllocError> {
    let (front, back) = halves;
    for place in 1..front.len() {
        let pieces = [&front[..place], &front[place..], back];
        put_way(text, alloc, given, &pieces, first)?;
    }
    Ok(())
}

/// The same of each way to cut at two places.
fn put_twice(
    text: &mut String,
    alloc: Global,
    given: Given<'_>,
    stream: &[u8],
) -> Result<(), AllocError> {
    let mut first = String::new(alloc);
    for place in 2..stream.len() {
        let halves = (&stream[..place], &stream[place..]);
        put_twice_at(text, alloc, given, halves, &mut first)?;
    }
    Ok(())
}

/// Writes the outcomes of a case whose stream is cut in these words.
///
/// # Errors
///
/// Out of memory alone.
pub fn put_cuts(
    text: &mut String,
    alloc: Global,
    shared: &str,
    block: &str,
    cut: &str,
) -> Result<(), AllocError> {
    let given = Given { shared, block };
    let (times, written) = cut.split_once(' ').unwrap_or(("once", ""));
    let stream = bytes_of(alloc, written)?;
    match times {
        "once" => put_once(text, alloc, given, stream.as_slice()),
        "twice" => put_twice(text, alloc, given, stream.as_slice()),
        _ => text.push_str("no such cut\n"),
    }
}
