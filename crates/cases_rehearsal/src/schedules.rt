//! Schedules, a line each, and the checks of them. In a schedule `; ` stands between the moves, and besides those of a
//! case there are
//!
//! - `write N`, `fade N`: the client asks to write N to the lamp's status, or to fade with it;
//! - `observe`, `cancel`: the client asks for the status with Observe 0 or 1;
//! - `http N`: a connection is opened, N is written to the status on it, and it ends;
//! - `deliver I I ..`: these datagrams come, one after another.

use crate::checking::put_checked;
use crate::kinds::{self, Kinds, NOTHING};
use crate::lamp::{FADE, STATUS, world_of};
use crate::played::Played;
use crate::reading::push_move;
use crate::totals::{self, NONE, Totals};
use cases_notation::{put_given, put_words};
use servient_rehearsal::Moves;
use std::alloc::{AllocError, Global};
use std::fmt::Write;
use thing_handler::{Handler, Handlers, Rack, SHIPPED_SLOTS, shipped_in};

/// Puts the moves of `deliver` at the end.
fn push_deliveries(moves: &mut Moves, alloc: Global, numbers: &str) -> Result<(), AllocError> {
    for number in numbers.split(' ') {
        let mut line = String::from_str(alloc, "deliver ")?;
        line.push_str(number)?;
        let _is_move = push_move(moves, alloc, line.as_str())?;
    }
    Ok(())
}

/// Puts the moves of `http` at the end.
fn push_http(moves: &mut Moves, alloc: Global, value: &str) -> Result<(), AllocError> {
    let _is_move = push_move(moves, alloc, "open 0")?;
    let mut line = String::from_str(alloc, "bytes 0 PUT /lamp/properties/status HTTP/1.1")?;
    write!(
        line,
        "\\r\\nHost: h\\r\\nContent-Length: {}\\r\\n\\r\\n{value}",
        value.len()
    )?;
    let _is_move = push_move(moves, alloc, line.as_str())?;
    let _is_move = push_move(moves, alloc, "end 0")?;
    Ok(())
}

/// Puts an ask with a number at the end.
fn push_ask(moves: &mut Moves, alloc: Global, asked: &str, number: &str) -> Result<(), AllocError> {
    let mut line = String::from_str(alloc, asked)?;
    line.push_str(number)?;
    let _is_move = push_move(moves, alloc, line.as_str())?;
    Ok(())
}

/// Puts the moves of these words at the end.
fn push_words(moves: &mut Moves, alloc: Global, words: &str) -> Result<(), AllocError> {
    let (word, rest) = words.split_once(' ').unwrap_or((words, ""));
    match word {
        "write" => push_ask(
            moves,
            alloc,
            "ask PUT /lamp/properties/status Content-Format=50 ",
            rest,
        ),
        "fade" => push_ask(
            moves,
            alloc,
            "ask POST /lamp/actions/fade Content-Format=50 ",
            rest,
        ),
        "observe" => push_ask(moves, alloc, "observe GET /lamp/properties/status", rest),
        "cancel" => push_ask(moves, alloc, "unobserve GET /lamp/properties/status", rest),
        "http" => push_http(moves, alloc, rest),
        "deliver" => push_deliveries(moves, alloc, rest),
        _ => push_ask(moves, alloc, words, ""),
    }
}

/// The moves of a line.
pub fn moves_of(alloc: Global, line: &str) -> Result<Moves, AllocError> {
    let mut moves = Vec::new(alloc);
    for words in line.split("; ") {
        push_words(&mut moves, alloc, words)?;
    }
    Ok(moves)
}

/// The kinds of events that came about in schedules, and the totals.
#[derive(Drop)]
pub struct Tally {
    kinds: Kinds,
    totals: Totals,
}

/// Writes the verdict on moves with these devices. The rack is lent, since a function pays at each early exit for what
/// it owns.
fn put_played<R: Handlers>(
    text: &mut String,
    alloc: Global,
    rack: &mut R,
    moves: &Moves,
    tally: &mut Tally,
) -> Result<(), AllocError> {
    let world = world_of(alloc, rack, moves)?;
    if rack.len() <= FADE {
        return text.push_str("the rack is too small");
    }
    let played = Played {
        moves,
        world: &world,
        status: rack.turns(STATUS),
        fade: rack.turns(FADE),
    };
    kinds::note(&mut tally.kinds, &played);
    totals::add(&mut tally.totals, &played);
    put_checked(text, &played)
}

/// Writes the verdict on moves.
fn put_moves(
    text: &mut String,
    alloc: Global,
    moves: &Moves,
    tally: &mut Tally,
) -> Result<(), AllocError> {
    let mut list: Vec<Box<dyn Handler>> = Vec::new(alloc);
    for slot in 0..SHIPPED_SLOTS {
        list.push(Box::new(alloc, shipped_in(alloc, slot))?)?;
    }
    let mut rack = Rack::new(alloc, list);
    put_played(text, alloc, &mut rack, moves, tally)
}

/// Writes a schedule and the verdict on it.
fn put_schedule(
    text: &mut String,
    alloc: Global,
    given: &str,
    tally: &mut Tally,
) -> Result<(), AllocError> {
    put_given(text, given)?;
    let moves = moves_of(alloc, given)?;
    put_moves(text, alloc, &moves, tally)?;
    text.push_str("\n")
}

/// Writes schedules with the verdict on each, the kinds of events that came about in them, and the totals.
pub fn put(text: &mut String, alloc: Global, lines: &str) -> Result<(), AllocError> {
    let mut tally = Tally {
        kinds: NOTHING,
        totals: NONE,
    };
    for line in lines.lines() {
        if line.starts_with("#") {
            put_words(text, line)?;
        }
        if let Some((given, _wanted)) = line.split_once(" => ") {
            put_schedule(text, alloc, given, &mut tally)?;
        }
    }
    kinds::put(text, &tally.kinds)?;
    totals::put(text, &tally.totals)
}
