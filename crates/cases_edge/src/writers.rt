//! Outputs over a writer: a row is `vector` or `room N` and pieces with `; ` between them; the answer to each, and the
//! bytes that are then in the vector, or at the front of a slice of n bytes.

use crate::lines::size_of;
use cases_notation::{bytes_of, put_rows, put_runs};
use servient_edge::{Out, OutReal};
use std::alloc::{AllocError, Global};
use std::fmt::Write;

/// Puts a piece.
fn put_piece(
    text: &mut String,
    alloc: Global,
    out: &mut impl Out,
    piece: &str,
) -> Result<(), AllocError> {
    let piece = bytes_of(alloc, piece)?;
    write!(text, "{:?}, ", out.put(piece.as_slice()))
}

/// Puts pieces.
fn put_pieces(
    text: &mut String,
    alloc: Global,
    out: &mut impl Out,
    pieces: &str,
) -> Result<(), AllocError> {
    for piece in pieces.split("; ") {
        put_piece(text, alloc, out, piece)?;
    }
    Ok(())
}

/// Puts pieces to a vector.
fn put_vector(text: &mut String, alloc: Global, pieces: &str) -> Result<(), AllocError> {
    let mut bytes = Vec::new(alloc);
    put_pieces(text, alloc, &mut OutReal::new(&mut bytes), pieces)?;
    put_runs(text, bytes.as_slice())
}

/// Puts pieces to a slice.
fn put_slice(text: &mut String, alloc: Global, words: &str) -> Result<(), AllocError> {
    let (size, pieces) = words.split_once(' ').unwrap_or((words, "-"));
    let mut bytes = vec![in alloc; b'.'; size_of(Some(size))]?;
    put_pieces(text, alloc, &mut OutReal::new(bytes.as_mut_slice()), pieces)?;
    put_runs(text, bytes.as_slice())
}

/// Does a row.
fn put_row(text: &mut String, alloc: Global, row: &str) -> Result<(), AllocError> {
    let (word, words) = row.split_once(' ').unwrap_or((row, "-"));
    match word {
        "vector" => put_vector(text, alloc, words),
        _ => put_slice(text, alloc, words),
    }
}

pub fn put(text: &mut String, alloc: Global, history: &str) -> Result<(), AllocError> {
    put_rows(text, history, |text, row| put_row(text, alloc, row))
}
