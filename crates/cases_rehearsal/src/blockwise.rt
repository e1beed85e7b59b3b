//! Schedules of block-wise asks, a line each, and the checks of their rows (`joined.rt`). They are written as those of
//! `schedules.rt`; `text PATH TEXT` gives the text of a path.

use crate::joined::{Book, NONE, put_joined, put_tally};
use crate::lamp::{FADE, STATUS, world_of};
use crate::played::Played;
use crate::schedules::moves_of;
use cases_notation::{put_given, put_words};
use servient_rehearsal::Moves;
use std::alloc::{AllocError, Global};
use thing_handler::{Handler, Handlers, Rack, SHIPPED_SLOTS, shipped_in};

/// Writes the checks of moves with these devices. The rack is lent, since a function pays at each early exit for what
/// it owns.
fn put_played<R: Handlers>(
    text: &mut String,
    alloc: Global,
    rack: &mut R,
    moves: &Moves,
    book: &mut Book<'_>,
) -> Result<(), AllocError> {
    let world = world_of(alloc, rack, moves)?;
    if rack.len() <= FADE {
        return text.push_str("the rack is too small");
    }
    let played = Played {
        moves,
        world: &world,
        status: rack.turns(STATUS),
        fade: rack.turns(FADE),
    };
    put_joined(text, alloc, &played, book)
}

/// Writes the checks of moves.
fn put_moves(
    text: &mut String,
    alloc: Global,
    moves: &Moves,
    book: &mut Book<'_>,
) -> Result<(), AllocError> {
    let mut list: Vec<Box<dyn Handler>> = Vec::new(alloc);
    for slot in 0..SHIPPED_SLOTS {
        list.push(Box::new(alloc, shipped_in(alloc, slot))?)?;
    }
    let mut rack = Rack::new(alloc, list);
    put_played(text, alloc, &mut rack, moves, book)
}

/// Writes a schedule and its checks.
fn put_schedule(
    text: &mut String,
    alloc: Global,
    given: &str,
    book: &mut Book<'_>,
) -> Result<(), AllocError> {
    put_given(text, given)?;
    let moves = moves_of(alloc, given)?;
    put_moves(text, alloc, &moves, book)?;
    text.push_str("\n")
}

/// Writes schedules with the checks of each, and the number of rows.
pub fn put(text: &mut String, alloc: Global, lines: &str) -> Result<(), AllocError> {
    let mut book = Book { lines, tally: NONE };
    for line in lines.lines() {
        if line.starts_with("#") || line.starts_with("text ") {
            put_words(text, line)?;
        } else if let Some((given, _wanted)) = line.split_once(" => ") {
            put_schedule(text, alloc, given, &mut book)?;
        }
    }
    put_tally(text, &book.tally)
}
