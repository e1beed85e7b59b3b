//! Handlers in words: `cell VALUE`, `job TURNS`, `pulse PERIOD`, `shipped SLOT`, or `scripted KIND` and answers with
//! `; ` between them.

use crate::calls::{answer_of, tree_of};
use crate::lines::size_of;
use cases_notation::number;
use std::alloc::{AllocError, Global};
use thing_handler::{Answer, Cell, Job, Kind, Pulse, SHIPPED_SLOTS, Scripted, Shipped, shipped_in};
use wot_json::Tree;

/// A handler.
#[derive(Drop)]
pub enum Device {
    InMemory(Shipped),
    Scripted(Scripted),
}

/// A number of turns or polls.
fn count_of(text: &str) -> u32 {
    u32::try_from(number(Some(text))).unwrap_or(0)
}

/// The kind of a word.
fn kind_of(word: &str) -> Kind {
    match word {
        "property" => Kind::Property,
        "action" => Kind::Action,
        _ => Kind::Event,
    }
}

/// Answers with `; ` between them; none where there are no words.
fn answers_of(alloc: Global, words: &str) -> Result<Vec<Answer>, AllocError> {
    let mut answers = Vec::new(alloc);
    if words.is_empty() {
        return Ok(answers);
    }
    for answer in words.split("; ") {
        answers.push(answer_of(alloc, answer))?;
    }
    Ok(answers)
}

/// A handler that answers from a list.
fn scripted_of(alloc: Global, rest: &str) -> Result<Device, AllocError> {
    let (kind, list) = rest.split_once(' ').unwrap_or((rest, ""));
    let answers = answers_of(alloc, list)?;
    Ok(Device::Scripted(Scripted::new(alloc, kind_of(kind), answers)))
}

/// The shipped handler of a slot.
fn shipped_of(alloc: Global, rest: &str) -> Device {
    let slot = size_of(Some(rest));
    if slot < SHIPPED_SLOTS {
        Device::InMemory(shipped_in(alloc, slot))
    } else {
        Device::InMemory(Shipped::Job(Job::new(alloc, 0)))
    }
}

/// The handler of these words.
pub fn device_of(alloc: Global, words: &str) -> Result<Device, AllocError> {
    let (word, rest) = words.split_once(' ').unwrap_or((words, ""));
    match word {
        "cell" => Ok(Device::InMemory(Shipped::Cell(Cell::new(
            alloc,
            tree_of(alloc, rest).unwrap_or(Tree::Null),
        )))),
        "job" => Ok(Device::InMemory(Shipped::Job(Job::new(alloc, count_of(rest))))),
        "pulse" => Ok(Device::InMemory(Shipped::Pulse(Pulse::new(alloc, count_of(rest).max(1))))),
        "shipped" => Ok(shipped_of(alloc, rest)),
        _ => scripted_of(alloc, rest),
    }
}

/// The handlers of the lines `slot ..`.
pub fn devices_of(alloc: Global, history: &str) -> Result<Vec<Device>, AllocError> {
    let mut devices = Vec::new(alloc);
    for line in history.lines() {
        if let Some(words) = line.strip_prefix("slot ") {
            devices.push(device_of(alloc, words)?)?;
        }
    }
    Ok(devices)
}
