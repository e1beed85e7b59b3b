//! Histories of a directory whose entries have times. Each step begins with its moment, in milliseconds of a clock that
//! began at 2000-02-29T00:00:00Z:
//!
//! ```text
//! put ID MEMBERS         puts a description under an id: new, old, or the fault
//! create MEMBERS         the id that it gets, or the fault
//! patch ID JSON          done, or the fault
//! remove ID              the same
//! times ID               the registration information of the description, or none
//! get ID                 the text of the description, or none
//! list OFFSET LIMIT      the text of the list
//! fill N                 creates as many without further members: the id of the last
//! ```
//!
//! The members come after those of a valid description; of several of one name the last counts. After an empty line the
//! directory is a new one.

use crate::registrations::{moment, put_tree};
use cases_notation::put_rows;
use cases_values::{described, tree_of};
use std::alloc::{AllocError, Global};
use std::fmt::Write;
use std::str;
use wot_registry::{RegFault, Registry};

/// The moment at which the clock began: 2000-02-29T00:00:00Z.
const EPOCH: u64 = 951_782_400_000;
/// Writes the answer of a call without a value. The text is lent, since a function pays at each early exit for what it
/// owns.
fn put_done(text: &mut String, outcome: Result<(), RegFault>) -> Result<(), AllocError> {
    match outcome {
        Ok(()) => text.push_str("done"),
        Err(fault) => write!(text, "{fault}"),
    }
}

fn put_put(
    text: &mut String,
    alloc: Global,
    registry: &mut Registry,
    now: &str,
    rest: &str,
) -> Result<(), AllocError> {
    let (id, members) = rest.split_once(' ').unwrap_or((rest, ""));
    let tree = described(alloc, members)?;
    match registry.put(id, tree, moment(now)) {
        Ok(true) => text.push_str("new"),
        Ok(false) => text.push_str("old"),
        Err(fault) => write!(text, "{fault}"),
    }
}

fn put_create(
    text: &mut String,
    alloc: Global,
    registry: &mut Registry,
    now: &str,
    members: &str,
) -> Result<(), AllocError> {
    let tree = described(alloc, members)?;
    match registry.create(tree, moment(now)) {
        Ok(id) => text.push_str(id.as_str()),
        Err(fault) => write!(text, "{fault}"),
    }
}

fn put_patch(
    text: &mut String,
    alloc: Global,
    registry: &mut Registry,
    now: &str,
    rest: &str,
) -> Result<(), AllocError> {
    let (id, patch) = rest.split_once(' ').unwrap_or((rest, "{}"));
    let patch = tree_of(alloc, patch)?;
    put_done(text, registry.patch(id, &patch, moment(now)))
}

/// Writes the registration information of a description.
fn put_times(
    text: &mut String,
    alloc: Global,
    registry: &mut Registry,
    now: &str,
    id: &str,
) -> Result<(), AllocError> {
    match registry.get(id, moment(now))? {
        Some(tree) => match tree.member("registration") {
            Some(times) => put_tree(text, alloc, times),
            None => text.push_str("no times"),
        },
        None => text.push_str("none"),
    }
}

fn put_get(
    text: &mut String,
    alloc: Global,
    registry: &mut Registry,
    now: &str,
    id: &str,
) -> Result<(), AllocError> {
    match registry.get(id, moment(now))? {
        Some(tree) => put_tree(text, alloc, &tree),
        None => text.push_str("none"),
    }
}

fn put_list(
    text: &mut String,
    registry: &mut Registry,
    now: &str,
    rest: &str,
) -> Result<(), AllocError> {
    let (offset, limit) = rest.split_once(' ').unwrap_or((rest, "1"));
    let offset = offset.parse::<u32>().unwrap_or(0);
    let limit = limit.parse::<u32>().unwrap_or(1);
    let bytes = registry.list(offset, limit, moment(now))?;
    text.push_str(str::from_utf8(bytes.as_slice()).unwrap_or("no text"))
}

fn put_filled(
    text: &mut String,
    alloc: Global,
    registry: &mut Registry,
    now: &str,
    count: &str,
) -> Result<(), AllocError> {
    let count = count.parse::<u32>().unwrap_or(1);
    for _entry in 1..count {
        let tree = described(alloc, "")?;
        if registry.create(tree, moment(now)).is_err() {
            return text.push_str("refused");
        }
    }
    put_create(text, alloc, registry, now, "")
}

/// Writes what comes of a step.
fn put_step(
    text: &mut String,
    alloc: Global,
    registry: &mut Registry,
    step: &str,
) -> Result<(), AllocError> {
    let (now, call) = step.split_once(' ').unwrap_or((step, ""));
    let (word, rest) = call.split_once(' ').unwrap_or((call, ""));
    match word {
        "put" => put_put(text, alloc, registry, now, rest),
        "create" => put_create(text, alloc, registry, now, rest),
        "patch" => put_patch(text, alloc, registry, now, rest),
        "remove" => put_done(text, registry.remove(rest, moment(now))),
        "times" => put_times(text, alloc, registry, now, rest),
        "get" => put_get(text, alloc, registry, now, rest),
        "list" => put_list(text, registry, now, rest),
        "fill" => put_filled(text, alloc, registry, now, rest),
        _ => text.push_str("no such step"),
    }
}

/// Writes a history, each step with what comes of it.
pub fn put_history(text: &mut String, alloc: Global, history: &str) -> Result<(), AllocError> {
    let mut registry = Registry::new(alloc, EPOCH);
    put_rows(
        text,
        history,
        |text, step| put_step(text, alloc, &mut registry, step),
    )
}
