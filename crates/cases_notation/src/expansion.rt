//! Texts that are too long to be written out: `repeat(N,TEXT)` stands for the text N times, and `repeat(A..B,TEXT)`
//! once for each number from A on and below B. In it as many `$` as there are in a row stand for the number, with as
//! many digits at least.

use std::alloc::{AllocError, Global};
use std::fmt::Write;

/// Writes a number with zeros before it, up to this many digits; nothing where there are to be none.
fn put_number(whole: &mut String, number: usize, width: usize) -> Result<(), AllocError> {
    if width == 0 {
        return Ok(());
    }
    write!(whole, "{number:0width$}")
}

/// Writes a text in which a row of this mark stands for a number.
fn put_numbered(
    whole: &mut String,
    text: &str,
    mark: char,
    number: usize,
) -> Result<(), AllocError> {
    let mut width = 0usize;
    for (place, piece) in text.split(mark).enumerate() {
        if place > 0 {
            width = width.saturating_add(1);
        }
        if !piece.is_empty() {
            put_number(whole, number, width)?;
            width = 0;
            whole.push_str(piece)?;
        }
    }
    put_number(whole, number, width)
}

/// A number in decimal digits, 0 for others.
pub fn size_of(digits: &str) -> usize {
    digits.parse::<usize>().unwrap_or(0)
}

/// Writes a text for each number of a range.
fn put_repeated(whole: &mut String, range: &str, text: &str) -> Result<(), AllocError> {
    let (from, to) = range.split_once("..").unwrap_or(("0", range));
    for number in size_of(from)..size_of(to) {
        put_numbered(whole, text, '$', number)?;
    }
    Ok(())
}

/// Writes a text with its repeats written out.
fn put_expanded(whole: &mut String, text: &str) -> Result<(), AllocError> {
    for (place, part) in text.split("repeat(").enumerate() {
        if place == 0 {
            whole.push_str(part)?;
        } else {
            let (repeat, behind) = part.split_once(')').unwrap_or((part, ""));
            let (range, repeated) = repeat.split_once(',').unwrap_or(("0", ""));
            put_repeated(whole, range, repeated)?;
            whole.push_str(behind)?;
        }
    }
    Ok(())
}

/// A text with its repeats written out.
pub fn expanded(alloc: Global, text: &str) -> Result<String, AllocError> {
    let mut whole = String::new(alloc);
    put_expanded(&mut whole, text)?;
    Ok(whole)
}

/// A text in which a row of this mark stands for a number.
pub fn numbered(
    alloc: Global,
    text: &str,
    mark: char,
    number: usize,
) -> Result<String, AllocError> {
    let mut whole = String::new(alloc);
    put_numbered(&mut whole, text, mark, number)?;
    Ok(whole)
}

/// Writes what came: as it was to come, if that means the same with its repeats written out.
pub fn put_came(
    text: &mut String,
    alloc: Global,
    wanted: &str,
    said: &str,
) -> Result<(), AllocError> {
    if wanted.contains("repeat(") {
        let whole = expanded(alloc, wanted)?;
        return text.push_str(if whole.as_str() == said { wanted } else { said });
    }
    text.push_str(said)
}
