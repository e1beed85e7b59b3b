//! The checks of the rows of a schedule, by the turns of the devices and the bytes alone. For a row that meets the
//! premises (no other ask that could disturb it was made from 200,000 ms before it on) there is printed the number of
//! turns that made its content:
//!
//! - of a row that writes: the turns that write the number in the joined payloads to the status, or fade with it;
//! - of a row that reads the status of an invocation: the turns that queried it and whose answer is in the joined
//!   payloads, or begins with them where the row has no last block;
//! - of a row that reads another path no handler is called: whether the joined payloads are its text.
//!
//! And of each number that was asked for there is one turn at most.

use crate::asks::{acts, number_of, turns_with};
use crate::played::{Played, acted_with};
use crate::rows::{Row, rows_of};
use crate::steps::{Step, Way, steps_of};
use cases_notation::put;
use std::alloc::{AllocError, Global};
use std::fmt::Write;
use thing_handler::{Answer, CallKind, Turn};
use wot_json::Tree;

/// The number that is said by the digits of a payload.
fn number_in(alloc: Global, payload: &[u8]) -> Result<i64, AllocError> {
    let mut digits = Vec::new(alloc);
    for byte in payload.iter() {
        if byte.is_ascii_digit() {
            digits.push(*byte)?;
        }
    }
    Ok(number_of(digits.as_slice()))
}

/// The number of turns that write this number or fade with it.
fn acts_with(played: &Played<'_>, number: i64) -> usize {
    turns_with(played.status, number).saturating_add(turns_with(played.fade, number))
}

/// The status of an invocation after an answer to a query, as the servient says it.
fn status_after(alloc: Global, id: u32, answer: &Answer) -> Result<Option<String>, AllocError> {
    let mut text = String::from_str(alloc, "{\"id\":")?;
    match answer {
        Answer::Running => write!(text, "{id},\"status\":\"running\"")?,
        Answer::Finished(Some(Tree::Int(output))) => {
            write!(text, "{id},\"output\":{output},\"status\":\"completed\"")?;
        }
        _ => return Ok(None),
    }
    text.push_str("}")?;
    Ok(Some(text))
}

/// The status of an invocation after a turn, if that queried it.
fn status_by(alloc: Global, turn: &Turn) -> Result<Option<String>, AllocError> {
    match &turn.what {
        CallKind::Query(id) => status_after(alloc, *id, &turn.answer),
        _ => Ok(None),
    }
}

/// Whether the joined payloads of a row are this text, or the beginning of it where the last block is missing.
fn is_of(row: &Row, text: &str) -> bool {
    let joined = row.joined.as_slice();
    if row.is_whole {
        return text.as_bytes() == joined;
    }
    match text.as_bytes().get(..joined.len()) {
        Some(begin) => begin == joined,
        None => false,
    }
}

/// The number of turns that queried the status that was read in a row.
fn queries_of(alloc: Global, played: &Played<'_>, row: &Row) -> Result<usize, AllocError> {
    let mut count: usize = 0;
    for turn in played.fade {
        if let Some(text) = status_by(alloc, turn)? {
            if is_of(row, text.as_str()) {
                count = count.saturating_add(1);
            }
        }
    }
    Ok(count)
}

/// The text that a line gives of a path, if it does: `text PATH TEXT`.
fn text_in<'a>(line: &'a str, path: &[u8]) -> Option<&'a str> {
    let given = line.strip_prefix("text ")?;
    let (named, text) = given.split_once(' ')?;
    if named.as_bytes() == path {
        Some(text)
    } else {
        None
    }
}

/// The text of a path, if these lines give one.
fn text_of<'a>(lines: &'a str, path: &[u8]) -> Option<&'a str> {
    for line in lines.lines() {
        if let Some(text) = text_in(line, path) {
            return Some(text);
        }
    }
    None
}

/// Writes the check of a row that meets the premises. The text is lent, since a function pays at each early exit for
/// what it owns.
fn put_found(
    text: &mut String,
    alloc: Global,
    lines: &str,
    played: &Played<'_>,
    row: &Row,
) -> Result<(), AllocError> {
    if row.way == Way::Written {
        let number = number_in(alloc, row.joined.as_slice())?;
        return write!(text, "{number} by {} turns", acts_with(played, number));
    }
    match text_of(lines, row.path.as_slice()) {
        Some(wanted) if is_of(row, wanted) => text.push_str("its text"),
        Some(_) => text.push_str("another text"),
        None => write!(text, "by {} turns", queries_of(alloc, played, row)?),
    }
}

/// Writes a row and its check.
fn put_row(
    text: &mut String,
    alloc: Global,
    lines: &str,
    played: &Played<'_>,
    row: &Row,
) -> Result<(), AllocError> {
    put(text, row.path.as_slice())?;
    let way = match row.way {
        Way::Read => "read",
        Way::Written => "written",
    };
    write!(text, " {way} in {}: ", row.count)?;
    if !row.is_alone {
        return text.push_str("not alone");
    }
    put_found(text, alloc, lines, played, row)?;
    if !row.is_whole {
        text.push_str(" so far")?;
    }
    Ok(())
}

/// Whether each of these turns is the only one with its number.
fn are_single(played: &Played<'_>, turns: &[Turn]) -> bool {
    for turn in turns {
        if let Some(number) = acted_with(turn) {
            if acts_with(played, number) != 1 {
                return false;
            }
        }
    }
    true
}

/// The number of rows that met the premises and ended with the last block, and of their schedules.
#[derive(Clone, Copy)]
pub struct Tally {
    reads: usize,
    writes: usize,
    with_reads: usize,
    with_writes: usize,
    schedules: usize,
    datagrams: usize,
    asks: usize,
    acts: usize,
}

/// None yet.
pub const NONE: Tally = Tally {
    reads: 0,
    writes: 0,
    with_reads: 0,
    with_writes: 0,
    schedules: 0,
    datagrams: 0,
    asks: 0,
    acts: 0,
};

/// The number of these rows that met the premises, went this way and ended with the last block.
fn ended(rows: &[Row], way: Way) -> usize {
    let mut count: usize = 0;
    for row in rows {
        if row.way == way && row.is_whole && row.is_alone {
            count = count.saturating_add(1);
        }
    }
    count
}

/// Counts a schedule.
fn add(tally: &mut Tally, played: &Played<'_>, steps: &[Step<'_>], rows: &[Row]) {
    let reads = ended(rows, Way::Read);
    let writes = ended(rows, Way::Written);
    tally.reads = tally.reads.saturating_add(reads);
    tally.writes = tally.writes.saturating_add(writes);
    tally.with_reads = tally.with_reads.saturating_add(reads.min(1));
    tally.with_writes = tally.with_writes.saturating_add(writes.min(1));
    tally.schedules = tally.schedules.saturating_add(1);
    tally.datagrams = tally.datagrams.saturating_add(played.world.sent.len());
    tally.asks = tally.asks.saturating_add(steps.len());
    tally.acts = tally.acts.saturating_add(acts(played));
}

/// A file of schedules, which gives the texts of paths, and the number of rows in it so far.
#[derive(Drop)]
pub struct Book<'a> {
    pub lines: &'a str,
    pub tally: Tally,
}

/// Writes the checks of the rows of a schedule.
pub fn put_joined(
    text: &mut String,
    alloc: Global,
    played: &Played<'_>,
    book: &mut Book<'_>,
) -> Result<(), AllocError> {
    let steps = steps_of(alloc, played.world)?;
    let rows = rows_of(alloc, steps.as_slice())?;
    add(&mut book.tally, played, steps.as_slice(), rows.as_slice());
    if !are_single(played, played.status) || !are_single(played, played.fade) {
        return text.push_str("there are acts that were made twice");
    }
    if rows.is_empty() {
        return text.push_str("no row");
    }
    for (index, row) in rows.iter().enumerate() {
        if index > 0 {
            text.push_str(", ")?;
        }
        put_row(text, alloc, book.lines, played, row)?;
    }
    Ok(())
}

/// Writes the numbers of rows and schedules.
pub fn put_tally(text: &mut String, tally: &Tally) -> Result<(), AllocError> {
    writeln!(
        text,
        "rows that end and meet the premises: {} of reads in {} schedules, {} of writes in {} schedules",
        tally.reads, tally.with_reads, tally.writes, tally.with_writes
    )?;
    writeln!(
        text,
        "in all: {} schedules, {} datagrams, {} asks, {} acts",
        tally.schedules, tally.datagrams, tally.asks, tally.acts
    )
}
