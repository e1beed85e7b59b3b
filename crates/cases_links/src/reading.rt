//! Link texts: their links, or the length of the longest prefix that some link text begins with.

use crate::notation::put_links;
use cases_notation::bytes_of;
use core_links::{LinkFault, read};
use std::alloc::{AllocError, Global};
use std::fmt::Write;

/// The most bytes that are read: fewer than 2 ^ 32.
const MOST: usize = 1_000_000;

/// Reads bytes, and writes what comes of it.
pub fn put_read(
    text: &mut String,
    alloc: Global,
    bytes: &[u8],
    tried: Option<u8>,
) -> Result<(), AllocError> {
    if bytes.len() > MOST {
        return text.push_str("too long for a row");
    }
    match read(alloc, bytes) {
        Ok(links) => put_links(text, &links, tried),
        Err(LinkFault::At(length)) => write!(text, "At({length})"),
        Err(LinkFault::NoMemory) => Err(AllocError),
    }
}

/// Writes what a link text says.
pub fn put_reading(text: &mut String, alloc: Global, given: &str) -> Result<(), AllocError> {
    let bytes = bytes_of(alloc, given)?;
    put_read(text, alloc, bytes.as_slice(), None)
}
