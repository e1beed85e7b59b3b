//! Histories of a directory:
//!
//! ```text
//! put ID MEMBERS         puts a description under an id: new, old, or the fault
//! create MEMBERS         the id that it gets, or the fault
//! patch ID JSON          done, or the fault
//! remove ID              the same
//! title ID               the title of the description, or none
//! get ID                 the text of the description, or none
//! list OFFSET LIMIT      the text of the list
//! fill N                 creates as many without further members: the id of the last
//! ```
//!
//! Ids are bytes in text, `-` for the empty one. The members come after those of a valid description; of several of one
//! name the last counts.

ghost use Rattle.std.specs.Prelude.{◌≤◌};

use cases_notation::{bytes_of, number, put, put_rows};
use cases_values::{described, tree_of};
use std::alloc::{AllocError, Global};
use std::fmt::Write;
use std::str;
use wot_directory::{DirFault, Directory};
use wot_json::{Tree, text_of};

/// The id of these bytes in text.
fn id_of(alloc: Global, written: &str) -> Result<String, AllocError> {
    let bytes = bytes_of(alloc, written)?;
    String::from_str(alloc, str::from_utf8(bytes.as_slice()).unwrap_or("no text"))
}

/// Writes the answer of a call without a value. The text is lent, since a function pays at each early exit for what it
/// owns.
fn put_done(text: &mut String, outcome: Result<(), DirFault>) -> Result<(), AllocError> {
    match outcome {
        Ok(()) => text.push_str("done"),
        Err(fault) => write!(text, "{fault}"),
    }
}

fn put_put(
    text: &mut String,
    alloc: Global,
    directory: &mut Directory,
    rest: &str,
) -> Result<(), AllocError> {
    let (id, members) = rest.split_once(' ').unwrap_or((rest, ""));
    let id = id_of(alloc, id)?;
    match directory.put(id.as_str(), described(alloc, members)?) {
        Ok(true) => text.push_str("new"),
        Ok(false) => text.push_str("old"),
        Err(fault) => write!(text, "{fault}"),
    }
}

fn put_create(
    text: &mut String,
    alloc: Global,
    directory: &mut Directory,
    members: &str,
) -> Result<(), AllocError> {
    match directory.create(described(alloc, members)?) {
        Ok(id) => put(text, id.as_str().as_bytes()),
        Err(fault) => write!(text, "{fault}"),
    }
}

fn put_patch(
    text: &mut String,
    alloc: Global,
    directory: &mut Directory,
    rest: &str,
) -> Result<(), AllocError> {
    let (id, patch) = rest.split_once(' ').unwrap_or((rest, "{}"));
    let id = id_of(alloc, id)?;
    let patch = tree_of(alloc, patch)?;
    put_done(text, directory.patch(id.as_str(), &patch))
}

fn put_remove(
    text: &mut String,
    alloc: Global,
    directory: &mut Directory,
    id: &str,
) -> Result<(), AllocError> {
    let id = id_of(alloc, id)?;
    put_done(text, directory.remove(id.as_str()))
}

/// Writes the title of a description.
fn put_title(
    text: &mut String,
    alloc: Global,
    directory: &Directory,
    id: &str,
) -> Result<(), AllocError> {
    let id = id_of(alloc, id)?;
    match directory.get(id.as_str()) {
        Some(tree) => match tree.member("title") {
            Some(Tree::Text(title)) => put(text, title.as_str().as_bytes()),
            _ => text.push_str("no title"),
        },
        None => text.push_str("none"),
    }
}

fn put_get(
    text: &mut String,
    alloc: Global,
    directory: &Directory,
    id: &str,
) -> Result<(), AllocError> {
    let id = id_of(alloc, id)?;
    match directory.get(id.as_str()) {
        Some(tree) => put(text, text_of(alloc, tree)?.as_slice()),
        None => text.push_str("none"),
    }
}

fn put_list(text: &mut String, directory: &Directory, rest: &str) -> Result<(), AllocError> {
    let (offset, limit) = rest.split_once(' ').unwrap_or((rest, "1"));
    let offset = offset.parse::<u32>().unwrap_or(0);
    let limit = limit.parse::<u32>().unwrap_or(1);
    if limit == 0 {
        return text.push_str("no limit");
    }
    put(text, directory.list(offset, limit)?.as_slice())
}

fn put_filled(
    text: &mut String,
    alloc: Global,
    directory: &mut Directory,
    count: &str,
) -> Result<(), AllocError> {
    let count = number(Some(count));
    for _entry in 1..count {
        if directory.create(described(alloc, "")?).is_err() {
            return text.push_str("refused");
        }
    }
    put_create(text, alloc, directory, "")
}

/// Writes what comes of a step.
fn put_step(
    text: &mut String,
    alloc: Global,
    directory: &mut Directory,
    step: &str,
) -> Result<(), AllocError> {
    let (word, rest) = step.split_once(' ').unwrap_or((step, ""));
    match word {
        "put" => put_put(text, alloc, directory, rest),
        "create" => put_create(text, alloc, directory, rest),
        "patch" => put_patch(text, alloc, directory, rest),
        "remove" => put_remove(text, alloc, directory, rest),
        "title" => put_title(text, alloc, directory, rest),
        "get" => put_get(text, alloc, directory, rest),
        "list" => put_list(text, directory, rest),
        "fill" => put_filled(text, alloc, directory, rest),
        _ => text.push_str("no such step"),
    }
}

/// Writes a history, each step with what comes of it.
///
/// # Errors
///
/// Out of memory alone.
pub fn put_history(text: &mut String, alloc: Global, block: &str) -> Result<(), AllocError> {
    let mut directory = Directory::new(alloc);
    put_rows(
        text,
        block,
        |text, step| put_step(text, alloc, &mut directory, step),
    )
}
