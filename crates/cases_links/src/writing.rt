//! Links, and the text that is written for them.

use crate::notation::push_links;
use cases_notation::{number, put};
use core_links::{Links, write};
use std::alloc::{AllocError, Global};
use std::fmt::Write;

/// The most bytes of room in a row.
const MOST_ROOM: u64 = 1000;

/// The byte that fills a room before.
const BEFORE: u8 = b'#';

/// A room of this size.
fn room_of(alloc: Global, size: u64) -> Result<Vec<u8>, AllocError> {
    let mut room = Vec::new(alloc);
    for _place in 0..size.min(MOST_ROOM) {
        room.push(BEFORE)?;
    }
    Ok(room)
}

/// Writes links into a room, and then what came of it.
fn put_written(text: &mut String, links: &Links, room: &mut [u8]) -> Result<(), AllocError> {
    match write(links, room) {
        None => text.push_str("none"),
        Some(length) => {
            write!(text, "{length} ")?;
            put(text, room)
        }
    }
}

/// Writes the text of links.
pub fn put_writing(text: &mut String, alloc: Global, given: &str) -> Result<(), AllocError> {
    let (size, rest) = given.split_once(' ').unwrap_or((given, ""));
    let mut room = room_of(alloc, number(Some(size)))?;
    let mut links = Links::new(alloc);
    push_links(&mut links, alloc, rest)?;
    put_written(text, &links, room.as_mut_slice())
}
