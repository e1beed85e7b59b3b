//! Cases one after another. A case without a command is read after the lines of each later case of its file.

use crate::case::Case;
use crate::{cuts, running};
use cases_notation::put_histories;
use std::alloc::{AllocError, Global};

/// Writes the lines of a case, up to its command; without one, all of them.
pub fn put_given(text: &mut String, block: &str) -> Result<(), AllocError> {
    for line in block.lines() {
        text.push_str(line)?;
        text.push_str("\n")?;
        if line.starts_with('$') {
            break;
        }
    }
    Ok(())
}

/// Takes the lines of a case, up to the words of its command, if it has one.
fn take<'a>(case: &mut Case, block: &'a str) -> Result<Option<&'a str>, AllocError> {
    for line in block.lines() {
        if let Some(words) = line.strip_prefix("$") {
            return Ok(Some(words));
        }
        case.take(line)?;
    }
    Ok(None)
}

/// Writes what comes of the command of a case.
///
/// # Errors
///
/// Out of memory alone.
pub fn put_result(
    text: &mut String,
    alloc: Global,
    shared: &str,
    block: &str,
) -> Result<(), AllocError> {
    let mut case = Case::new(alloc);
    let words = take(&mut case, block)?.unwrap_or("");
    take(&mut case, shared)?;
    running::put_shown(text, alloc, &mut case, words)
}

/// The line that says how the streams of a case are cut, if it has one.
fn cut_of(block: &str) -> Option<&str> {
    for line in block.lines() {
        if let Some(cut) = line.strip_prefix("cut ") {
            return Some(cut);
        }
    }
    None
}

/// Writes a case and what comes of it.
fn put_case(
    text: &mut String,
    alloc: Global,
    shared: &mut String,
    block: &str,
) -> Result<(), AllocError> {
    put_given(text, block)?;
    if !block.starts_with('$') && !block.contains("\n$") {
        shared.push_str(block)?;
        return shared.push_str("\n");
    }
    match cut_of(block) {
        Some(cut) => cuts::put_cuts(text, alloc, shared.as_str(), block, cut),
        None => put_result(text, alloc, shared.as_str(), block),
    }
}

/// Writes the cases of a file, each with what comes of it.
///
/// # Errors
///
/// Out of memory alone.
pub fn put_cases(text: &mut String, alloc: Global, cases: &str) -> Result<(), AllocError> {
    let mut shared = String::new(alloc);
    put_histories(
        text,
        cases,
        |text, block| put_case(text, alloc, &mut shared, block),
    )
}
