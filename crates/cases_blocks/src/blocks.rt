//! Values of Block options: `read BYTES`, and the block that they say; `write NUMBER more|last SZX`, and the bytes that
//! are written.

use crate::fields::{block_of, put_block};
use cases_notation::{bytes_of, put_rows, put_runs};
use coap_msg::{Block, read_block, write_block};
use std::alloc::{AllocError, Global};

/// Writes the block that is read.
fn put_read(text: &mut String, block: Option<Block>) -> Result<(), AllocError> {
    match block {
        Some(block) => put_block(text, block),
        None => text.push_str("none"),
    }
}

/// Writes the bytes that are written, after as many bytes of another kind.
fn put_written(text: &mut String, given: &str) -> Result<(), AllocError> {
    let mut fields = given.split(' ').skip(1);
    let number = fields.next();
    let more = fields.next();
    match block_of(number, more, fields.next()) {
        Some(block) => {
            let mut room = [b'?'; 3];
            let size = write_block(block, &mut room);
            put_runs(text, room.get(..size).unwrap_or(&[]))
        }
        None => text.push_str("no block"),
    }
}

/// Writes the result of a row.
fn put_row(text: &mut String, alloc: Global, given: &str) -> Result<(), AllocError> {
    match given.strip_prefix("read ") {
        Some(bytes) => put_read(text, read_block(bytes_of(alloc, bytes)?.as_slice())),
        None => put_written(text, given),
    }
}

/// The rows of the table.
pub fn put(text: &mut String, alloc: Global, rows: &str) -> Result<(), AllocError> {
    put_rows(text, rows, |text, given| put_row(text, alloc, given))
}
