//! Cases: moves, and their whole outcome.

use crate::lamp::world_of;
use crate::reading::push_move;
use crate::showing::{is_shown, put_turns, put_world};
use cases_notation::put_words;
use servient_rehearsal::Moves;
use std::alloc::{AllocError, Global};
use thing_handler::{Handler, Handlers, Rack, SHIPPED_SLOTS, shipped_in};

/// Writes the outcome of moves with these devices. The rack is lent, since a function pays at each early exit for what
/// it owns.
fn put_rehearsed<R: Handlers>(
    text: &mut String,
    alloc: Global,
    rack: &mut R,
    moves: &Moves,
) -> Result<(), AllocError> {
    let world = world_of(alloc, rack, moves)?;
    put_world(text, &world)?;
    put_turns(text, rack)
}

/// Writes the outcome of moves.
fn put_moves(text: &mut String, alloc: Global, moves: &Moves) -> Result<(), AllocError> {
    let mut list: Vec<Box<dyn Handler>> = Vec::new(alloc);
    for slot in 0..SHIPPED_SLOTS {
        list.push(Box::new(alloc, shipped_in(alloc, slot))?)?;
    }
    let mut rack = Rack::new(alloc, list);
    put_rehearsed(text, alloc, &mut rack, moves)
}

/// Writes a case and its outcome.
pub fn put_case(text: &mut String, alloc: Global, lines: &str) -> Result<(), AllocError> {
    let mut moves = Vec::new(alloc);
    for line in lines.lines() {
        if !is_shown(line) {
            let _is_move = push_move(&mut moves, alloc, line)?;
            put_words(text, line)?;
        }
    }
    put_moves(text, alloc, &moves)
}
