//! Rows of block-wise asks: GETs without Observe of one path for the blocks 0, 1 and so on of one size, each answered
//! with 2.05, each but the last with M; or PUTs or POSTs of one code and path with such blocks, each but the last
//! answered with 2.31, and the last with another code of class 2.

use crate::steps::{Answer, Step, Way};
use coap_msg::{Block, CONTENT, CONTINUE};
use std::alloc::{AllocError, Global};

/// The milliseconds before a row in which no other ask may be made that could disturb it.
const APART: u64 = 200_000;

/// A row.
#[derive(Drop)]
pub struct Row {
    pub way: Way,
    /// The path, with a slash before each segment.
    pub path: Vec<u8>,
    /// The number of asks that it has.
    pub count: usize,
    /// The payloads in their order: of the answers, or of the asks.
    pub joined: Vec<u8>,
    /// Whether it ends with the last block.
    pub is_whole: bool,
    /// Whether no other ask could disturb it.
    pub is_alone: bool,
}

/// Whether an ask could disturb a row that begins with `first`: one of its path, and of its code where it writes.
fn disturbs(way: Way, first: &Step<'_>, other: &Step<'_>) -> bool {
    first.path.as_slice() == other.path.as_slice() && (way == Way::Read || first.code == other.code)
}

/// Whether an ask has the block of this number, of a row of this size.
fn has_block(way: Way, size: u8, step: &Step<'_>, number: usize) -> bool {
    match step.block {
        Some((found, block)) => {
            found == way && block.szx == size && block.number as usize == number
        }
        None => false,
    }
}

/// Whether an answer says that more blocks follow.
fn says_more(answer: &Answer<'_>) -> bool {
    match answer.block {
        Some(block) => block.more,
        None => false,
    }
}

/// Whether a row goes on after this answer.
fn goes_on(way: Way, answer: &Answer<'_>) -> bool {
    match way {
        Way::Read => answer.code == CONTENT && says_more(answer),
        Way::Written => answer.code == CONTINUE,
    }
}

/// Whether a row ends with this answer.
fn ends_with(way: Way, answer: &Answer<'_>) -> bool {
    match way {
        Way::Read => answer.code == CONTENT && !says_more(answer),
        Way::Written => answer.code / 32 == 2 && answer.code != CONTINUE,
    }
}

/// Whether no ask before the one of this place could disturb a row that begins there.
fn is_apart(steps: &[Step<'_>], way: Way, first: &Step<'_>, place: usize) -> bool {
    for (index, other) in steps.iter().enumerate() {
        if index < place
            && disturbs(way, first, other)
            && other.first.saturating_add(APART) >= first.first
        {
            return false;
        }
    }
    true
}

/// The part that an ask adds to the payloads of a row.
fn part_of<'a>(way: Way, step: &Step<'a>, answer: &Answer<'a>) -> &'a [u8] {
    match way {
        Way::Read => answer.payload,
        Way::Written => step.payload,
    }
}

/// Takes an ask into a row, if it is its next one and was answered so; says whether others may follow it.
fn take(row: &mut Row, size: u8, step: &Step<'_>) -> Result<bool, AllocError> {
    if !has_block(row.way, size, step, row.count) {
        return Ok(false);
    }
    let answer = match &step.answer {
        Some(answer) => answer,
        None => return Ok(false),
    };
    let is_last = ends_with(row.way, answer);
    if !is_last && !goes_on(row.way, answer) {
        return Ok(false);
    }
    row.joined
        .extend_from_slice(part_of(row.way, step, answer))?;
    row.count = row.count.saturating_add(1);
    row.is_whole = is_last;
    Ok(!is_last)
}

/// Goes through the asks from the beginning of a row on, as far as it goes.
fn go(
    row: &mut Row,
    size: u8,
    steps: &[Step<'_>],
    first: &Step<'_>,
    place: usize,
) -> Result<(), AllocError> {
    for (index, step) in steps.iter().enumerate() {
        if index >= place && disturbs(row.way, first, step) && !take(row, size, step)? {
            return Ok(());
        }
    }
    Ok(())
}

/// The row that begins with the ask of this place, if one does.
fn row_at(
    alloc: Global,
    steps: &[Step<'_>],
    first: &Step<'_>,
    place: usize,
) -> Result<Option<Row>, AllocError> {
    let (way, block): (Way, Block) = match first.block {
        Some((way, block)) => (way, block),
        None => return Ok(None),
    };
    if block.number != 0 {
        return Ok(None);
    }
    let mut row = Row {
        way,
        path: Vec::from_slice(alloc, first.path.as_slice())?,
        count: 0,
        joined: Vec::new(alloc),
        is_whole: false,
        is_alone: is_apart(steps, way, first, place),
    };
    go(&mut row, block.szx, steps, first, place)?;
    if row.count == 0 || (way == Way::Written && !row.is_whole) {
        return Ok(None);
    }
    Ok(Some(row))
}

/// All rows, each as long as it goes, in the order of their first asks.
pub fn rows_of(alloc: Global, steps: &[Step<'_>]) -> Result<Vec<Row>, AllocError> {
    let mut rows = Vec::new(alloc);
    for (place, first) in steps.iter().enumerate() {
        if let Some(row) = row_at(alloc, steps, first, place)? {
            rows.push(row)?;
        }
    }
    Ok(rows)
}
