//! JSON texts: the trees that are read from them, and how trees and texts are written.
//!
//! ```text
//! json_texts   TEXT => TEXT or fault       what is written of what is read
//! json_bytes   BYTES => BYTES or fault     the same of bytes in the notation of `cases_notation`
//! quotations   BYTES => BYTES, N           the JSON text of a text, and its length, which is answered from there on
//! json_rooms   N JSON => N BYTES           what is written into a room of N bytes `-`, and how many
//! ```

use cases_notation::{bytes_of, put};
use std::alloc::{AllocError, Global};
use std::fmt::Write;
use std::str;
use wot_json::{Tree, quoted, quoted_length, read, text_of, write};

/// The largest room that a row may ask for.
const LARGEST_ROOM: usize = 4_096;

/// Writes the text of a tree.
pub fn put_tree(said: &mut String, alloc: Global, tree: &Tree) -> Result<(), AllocError> {
    let bytes = text_of(alloc, tree)?;
    said.push_str(str::from_utf8(bytes.as_slice()).unwrap_or("no text"))
}

/// Writes what is read from a JSON text, or the fault.
pub fn put_read(said: &mut String, alloc: Global, bytes: &[u8]) -> Result<(), AllocError> {
    match read(alloc, bytes) {
        Ok(tree) => put_tree(said, alloc, &tree),
        Err(fault) => write!(said, "{fault}"),
    }
}

/// Writes the bytes of a tree's text.
fn put_tree_bytes(said: &mut String, alloc: Global, tree: &Tree) -> Result<(), AllocError> {
    put(said, text_of(alloc, tree)?.as_slice())
}

/// Writes the bytes of what is read from bytes, or the fault.
fn put_read_bytes(said: &mut String, alloc: Global, bytes: &[u8]) -> Result<(), AllocError> {
    match read(alloc, bytes) {
        Ok(tree) => put_tree_bytes(said, alloc, &tree),
        Err(fault) => write!(said, "{fault}"),
    }
}

/// The same of bytes as they are written down.
pub fn put_bytes(said: &mut String, alloc: Global, given: &str) -> Result<(), AllocError> {
    put_read_bytes(said, alloc, bytes_of(alloc, given)?.as_slice())
}

/// Writes a length, if it is what is answered where it is the most and not where the most is less.
fn put_length(said: &mut String, text: &str, length: usize) -> Result<(), AllocError> {
    match quoted_length(text, length.saturating_sub(1)) {
        Some(length) => write!(said, ", {length} although there is less room"),
        None => match quoted_length(text, length) {
            Some(length) => write!(said, ", {length}"),
            None => said.push_str(", no length"),
        },
    }
}

/// Writes the JSON text of a text, and its length.
fn put_quoted(said: &mut String, alloc: Global, text: &str) -> Result<(), AllocError> {
    let bytes = quoted(alloc, text)?;
    put(said, bytes.as_slice())?;
    put_length(said, text, bytes.len())
}

/// The same of a text as it is written down.
pub fn put_quotation(said: &mut String, alloc: Global, given: &str) -> Result<(), AllocError> {
    let bytes = bytes_of(alloc, given)?;
    put_quoted(
        said,
        alloc,
        str::from_utf8(bytes.as_slice()).unwrap_or("no text"),
    )
}

/// Writes what is written into a room of this size.
fn put_room(said: &mut String, alloc: Global, tree: &Tree, size: usize) -> Result<(), AllocError> {
    let mut room = vec![in alloc; b'-'; size]?;
    match write(tree, room.as_mut_slice()) {
        Some(count) => {
            write!(said, "{count} ")?;
            put(said, room.as_slice())
        }
        None => said.push_str("no room"),
    }
}

/// The same of a row.
pub fn put_written(said: &mut String, alloc: Global, given: &str) -> Result<(), AllocError> {
    let (size, text) = given.split_once(' ').unwrap_or((given, ""));
    let size = size.parse::<usize>().unwrap_or(0);
    match read(alloc, text.as_bytes()) {
        Ok(tree) => put_room(said, alloc, &tree, size.min(LARGEST_ROOM)),
        Err(fault) => write!(said, "{fault}"),
    }
}
