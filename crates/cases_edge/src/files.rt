//! Files in memory: lines `file NAME BYTES` with the files, lines `fails N` with the calls that fail; and steps:
//! `read NAME LIMIT`, or `reads` for the reads so far.

use crate::lines::{fails_of, size_of};
use cases_notation::{bytes_of, put_rows, put_runs};
use servient_outside::{FileRead, Files, FilesMemory, Got, Held, HeldFile};
use std::alloc::{AllocError, Global};
use std::fmt::Write;
use wot_json::{Bytes, Text};

/// The file of a name and of bytes in words.
fn file_of(alloc: Global, words: &str) -> Result<HeldFile, AllocError> {
    let (name, bytes) = words.split_once(' ').unwrap_or((words, "-"));
    let bytes = bytes_of(alloc, bytes)?;
    Ok(HeldFile {
        name: Text::copy_of(alloc, name)?,
        bytes: Bytes::copy_of(alloc, bytes.as_slice())?,
    })
}

/// The files of the lines `file ..`.
fn held_of(alloc: Global, history: &str) -> Result<Held, AllocError> {
    let mut held = Held::new(alloc);
    for line in history.lines() {
        if let Some(words) = line.strip_prefix("file ") {
            held.push(file_of(alloc, words)?)?;
        }
    }
    Ok(held)
}

/// The answer of a read.
pub fn put_got(text: &mut String, got: Got, bytes: &[u8]) -> Result<(), AllocError> {
    write!(text, "{got:?}")?;
    if got == Got::Whole {
        text.push_str(" ")?;
        return put_runs(text, bytes);
    }
    if bytes.is_empty() {
        return Ok(());
    }
    text.push_str(", but with bytes")
}

/// Reads a file.
pub fn put_read(
    text: &mut String,
    alloc: Global,
    files: &mut impl Files,
    words: &str,
) -> Result<(), AllocError> {
    let (name, limit) = words.split_once(' ').unwrap_or((words, ""));
    let mut into = Bytes::new(alloc);
    let got = files.read(alloc, name, size_of(Some(limit)), &mut into);
    put_got(text, got, into.as_slice())
}

/// The reads so far.
fn put_reads(text: &mut String, reads: &[FileRead]) -> Result<(), AllocError> {
    for (index, read) in reads.iter().enumerate() {
        let comma = if index > 0 { ", " } else { "" };
        write!(text, "{comma}{} {}", read.name.as_str(), read.limit)?;
    }
    Ok(())
}

/// Does a step.
fn put_step(
    text: &mut String,
    alloc: Global,
    files: &mut FilesMemory,
    step: &str,
) -> Result<(), AllocError> {
    match step.split_once(' ') {
        Some((_read, words)) => put_read(text, alloc, files, words),
        None => put_reads(text, files.reads()),
    }
}

pub fn put(text: &mut String, alloc: Global, history: &str) -> Result<(), AllocError> {
    let mut files = FilesMemory::new(alloc, held_of(alloc, history)?, fails_of(alloc, history)?)?;
    put_rows(
        text,
        history,
        |text, step| put_step(text, alloc, &mut files, step),
    )
}
