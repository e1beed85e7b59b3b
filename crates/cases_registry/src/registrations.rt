//! Rows on registration information: the time to live that a description asks for, the rest of it, and the times that
//! are said.

ghost use Rattle.std.specs.Prelude.{◌≤◌};
ghost use Rattle.wot_registry.specs.Times.{last_moment};

use cases_values::tree_of;
use std::alloc::{AllocError, Global};
use std::fmt::Write;
use std::str;
use wot_json::{Tree, text_of};
use wot_registry::{Times, asked_ttl, patched_from, show, without_registration};

/// The last moment of a clock.
const LAST_MOMENT: u64 = 1_000_000_000_000_000;
/// The latest beginning of a clock.
const LATEST_EPOCH: u64 = 253_402_300_799_999;

/// Writes a tree.
pub fn put_tree(text: &mut String, alloc: Global, tree: &Tree) -> Result<(), AllocError> {
    let bytes = text_of(alloc, tree)?;
    text.push_str(str::from_utf8(bytes.as_slice()).unwrap_or("no text"))
}

/// Writes a time to live.
fn put_ttl(text: &mut String, ttl: Option<u32>) -> Result<(), AllocError> {
    match ttl {
        Some(seconds) => write!(text, "{seconds} "),
        None => text.push_str("none "),
    }
}

/// `JSON`: the time to live that it asks for, if it is one, and the description that is kept of it.
pub fn put_asked(text: &mut String, alloc: Global, given: &str) -> Result<(), AllocError> {
    let tree = tree_of(alloc, given)?;
    match asked_ttl(&tree) {
        Ok(ttl) => put_ttl(text, ttl)?,
        Err(fault) => return write!(text, "{fault}"),
    }
    put_tree(text, alloc, &without_registration(tree))
}

/// A time to live as it is written.
fn ttl_of(written: &str) -> Option<u32> {
    written.parse::<u32>().ok()
}

/// A moment as it is written.
pub fn moment(written: &str) -> u64
    ensures { result ≤ last_moment }
{
    written.parse::<u64>().unwrap_or(0).min(LAST_MOMENT)
}

/// The times of an entry that was created at a moment, and changed at another where that is given.
fn times_of(created: &str, modified: &str, ttl: &str) -> Times {
    let first = Times::changed(moment(created), ttl_of(ttl), None);
    match modified {
        "-" => first,
        _ => Times::changed(moment(modified), ttl_of(ttl), Some(&first)),
    }
}

/// `EPOCH CREATED MODIFIED TTL JSON`: the description as it is given out, and as a patch is applied to it. Where
/// `MODIFIED` is `-` the entry wasn't changed, and where `TTL` is it has no time to live.
pub fn put_shown(text: &mut String, alloc: Global, given: &str) -> Result<(), AllocError> {
    let (epoch, given) = given.split_once(' ').unwrap_or(("", given));
    let (created, given) = given.split_once(' ').unwrap_or(("", given));
    let (modified, given) = given.split_once(' ').unwrap_or(("", given));
    let (ttl, given) = given.split_once(' ').unwrap_or(("", given));
    let times = times_of(created, modified, ttl);
    let tree = tree_of(alloc, given)?;
    put_given_out(text, alloc, moment(epoch), &times, &tree)?;
    text.push_str(" ")?;
    let patched = patched_from(alloc, ttl_of(ttl), &tree)?;
    put_tree(text, alloc, &patched)
}

/// Writes a description as it is given out.
fn put_given_out(
    text: &mut String,
    alloc: Global,
    epoch: u64,
    times: &Times,
    tree: &Tree,
) -> Result<(), AllocError> {
    let shown = show(alloc, epoch.min(LATEST_EPOCH), Some(times), tree)?;
    put_tree(text, alloc, &shown)
}
