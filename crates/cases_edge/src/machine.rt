//! Files of the machine, which lie in the folder that the program runs in: `write NAME BYTES` writes one there,
//! `read NAME LIMIT` reads one as the product does.

use crate::files::put_read;
use cases_notation::{bytes_of, put_given, put_words};
use servient_edge::FilesReal;
use std::{fs, io};

/// Writes a file of bytes in words.
fn put_written(text: &mut String, rt: &HostRuntime, words: &str) -> io::Result<()> {
    let (name, bytes) = words.split_once(' ').unwrap_or((words, "-"));
    let bytes = bytes_of(rt.alloc(), bytes)?;
    fs::write(rt, name, bytes.as_slice())?;
    Ok(text.push_str("written")?)
}

/// Does a step.
fn put_step(
    text: &mut String,
    rt: &HostRuntime,
    files: &mut FilesReal<HostRuntime>,
    step: &str,
) -> io::Result<()> {
    put_given(text, step)?;
    let (word, words) = step.split_once(' ').unwrap_or((step, ""));
    match word {
        "write" => put_written(text, rt, words)?,
        _ => put_read(text, rt.alloc(), files, words)?,
    }
    Ok(text.push_str("\n")?)
}

/// Goes through the steps.
fn put(text: &mut String, rt: &HostRuntime, lines: &str) -> io::Result<()> {
    let mut files = FilesReal::new(rt.clone()?);
    for line in lines.lines() {
        match line.split_once(" => ") {
            Some((step, _wanted)) => put_step(text, rt, &mut files, step)?,
            None => put_words(text, line)?,
        }
    }
    Ok(())
}

/// Prints the lines of the file `machine` with what comes of the steps.
pub fn print(rt: &HostRuntime) -> io::Result<()> {
    let lines = fs::read_to_string(rt, "machine")?;
    let mut text = String::new(rt.alloc());
    put(&mut text, rt, lines.as_str())?;
    rt.print(text)
}
