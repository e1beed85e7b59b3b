//! Handlers in a rack: lines `slot ..` with the handlers, by slots from 0; and steps: `kinds` of all slots, a call of a
//! slot (the turns are counted from 0), or the `turns` of a slot so far.

use crate::calls::{call_of, put_answer, put_call};
use crate::devices::{Device, devices_of};
use crate::lines::size_of;
use cases_notation::put_rows;
use std::alloc::{AllocError, Global};
use std::fmt::Write;
use thing_handler::{CallKind, Handler, Handlers, Rack, Turn};

/// The kinds of all slots.
fn put_kinds(text: &mut String, rack: &Rack) -> Result<(), AllocError> {
    for slot in 0..rack.len() {
        let comma = if slot > 0 { ", " } else { "" };
        write!(text, "{comma}{:?}", rack.kind(slot))?;
    }
    Ok(())
}

/// A turn.
fn put_turn(text: &mut String, alloc: Global, turn: &Turn) -> Result<(), AllocError> {
    write!(text, "{} ", turn.number)?;
    put_call(text, alloc, &turn.what)?;
    text.push_str(" = ")?;
    put_answer(text, alloc, &turn.answer)
}

/// Turns, with `; ` between them; `-` where there are none.
fn put_turns(text: &mut String, alloc: Global, turns: &[Turn]) -> Result<(), AllocError> {
    if turns.is_empty() {
        return text.push_str("-");
    }
    for (index, turn) in turns.iter().enumerate() {
        if index > 0 {
            text.push_str("; ")?;
        }
        put_turn(text, alloc, turn)?;
    }
    Ok(())
}

/// The turns of a slot.
fn put_turns_of(
    text: &mut String,
    alloc: Global,
    rack: &Rack,
    slot: usize,
) -> Result<(), AllocError> {
    if slot >= rack.len() {
        return text.push_str("no such slot");
    }
    put_turns(text, alloc, rack.turns(slot))
}

/// The answer of a slot to a call.
fn put_called(
    text: &mut String,
    alloc: Global,
    rack: &mut Rack,
    slot: usize,
    turn: &Call,
) -> Result<(), AllocError> {
    if slot >= rack.len() {
        return text.push_str("no such slot");
    }
    let answer = rack.call(slot, turn.number, &turn.what)?;
    put_answer(text, alloc, &answer)
}

/// A call, and the number of its turn.
#[derive(Drop)]
struct Call {
    number: u64,
    what: CallKind,
}

/// Does a step. A call takes the number of the next turn.
fn put_step(
    text: &mut String,
    alloc: Global,
    rack: &mut Rack,
    step: &str,
    next: &mut u64,
) -> Result<(), AllocError> {
    let (word, rest) = step.split_once(' ').unwrap_or((step, ""));
    match word {
        "kinds" => put_kinds(text, rack),
        "turns" => put_turns_of(text, alloc, rack, size_of(Some(rest))),
        _ => {
            let call = Call {
                number: *next,
                what: call_of(alloc, rest),
            };
            *next = next.saturating_add(1);
            put_called(text, alloc, rack, size_of(Some(word)), &call)
        }
    }
}

/// Writes steps with their outcomes.
fn put_steps(
    text: &mut String,
    alloc: Global,
    rack: &mut Rack,
    history: &str,
) -> Result<(), AllocError> {
    let mut next = 0;
    put_rows(
        text,
        history,
        |text, step| put_step(text, alloc, rack, step, &mut next),
    )
}

/// Goes through a history with these handlers.
fn put_with(
    text: &mut String,
    alloc: Global,
    devices: Vec<Device>,
    history: &str,
) -> Result<(), AllocError> {
    let mut list: Vec<Box<dyn Handler>> = Vec::new(alloc);
    for device in devices {
        match device {
            Device::InMemory(handler) => list.push(Box::new(alloc, handler)?)?,
            Device::Scripted(handler) => list.push(Box::new(alloc, handler)?)?,
        }
    }
    if list.len() > 64 {
        return text.push_str("too many slots");
    }
    let mut rack = Rack::new(alloc, list);
    put_steps(text, alloc, &mut rack, history)
}

pub fn put(text: &mut String, alloc: Global, history: &str) -> Result<(), AllocError> {
    put_with(text, alloc, devices_of(alloc, history)?, history)
}
