//! The files of a program of cases: their rows and histories, and the print of each file with what comes of it.
//!
//! A row is what is given, ` => `, and what is to come of it. A program writes each row with what does come of it, and
//! each other line as it is: so it prints its files, if all is right. In some files the rows between two empty lines are
//! the steps of a history.
//!
//! All output goes to one text, which is lent, since a function pays in proof at each early exit for what it owns. The
//! errors are out of memory alone, but where a file is read and printed.

use std::alloc::{AllocError, Global};
use std::{env, fs, io};

/// A row, and the text that it is about: that of the last line `given TEXT` before it.
#[derive(Clone, Copy)]
pub struct Row<'a> {
    /// The text that the row is about, empty where no line before it says one.
    pub about: &'a str,
    /// What is given.
    pub given: &'a str,
    /// What is to come of it.
    pub wanted: &'a str,
}

/// Writes a line that is no row as it is.
pub fn put_words(text: &mut String, line: &str) -> Result<(), AllocError> {
    text.push_str(line)?;
    text.push_str("\n")
}

/// Writes a row up to what comes of it.
pub fn put_given(text: &mut String, given: &str) -> Result<(), AllocError> {
    text.push_str(given)?;
    text.push_str(" => ")
}

/// Writes each row with what `put_outcome` writes of what is given in it, and each other line as it is.
pub fn put_rows<F: FnMut(&mut String, &str) -> Result<(), AllocError>>(
    text: &mut String,
    lines: &str,
    mut put_outcome: F,
) -> Result<(), AllocError>
    requires { F.IsAlwaysCallable put_outcome }
{
    for line in lines.lines() {
        match line.split_once(" => ") {
            Some((given, _wanted)) => {
                put_given(text, given)?;
                put_outcome(text, given)?;
            }
            None => text.push_str(line)?,
        }
        text.push_str("\n")?;
    }
    Ok(())
}

/// Writes each row with what `put_outcome` writes of it and of what it is about, and each other line as it is.
pub fn put_rows_about<F: FnMut(&mut String, Row<'_>) -> Result<(), AllocError>>(
    text: &mut String,
    lines: &str,
    mut put_outcome: F,
) -> Result<(), AllocError>
    requires { F.IsAlwaysCallable put_outcome }
{
    let mut about = "";
    for line in lines.lines() {
        about = line.strip_prefix("given ").unwrap_or(about);
        if let Some((given, wanted)) = line.split_once(" => ") {
            put_given(text, given)?;
            put_outcome(
                text,
                Row {
                    about,
                    given,
                    wanted,
                },
            )?;
        } else {
            text.push_str(line)?;
        }
        text.push_str("\n")?;
    }
    Ok(())
}

/// Writes what `put_history` writes of each history, with an empty line between two.
pub fn put_histories<F: FnMut(&mut String, &str) -> Result<(), AllocError>>(
    text: &mut String,
    lines: &str,
    mut put_history: F,
) -> Result<(), AllocError>
    requires { F.IsAlwaysCallable put_history }
{
    for (index, history) in lines.split("\n\n").enumerate() {
        if index > 0 {
            text.push_str("\n")?;
        }
        put_history(text, history)?;
    }
    Ok(())
}

/// What `put_file` writes of a file, as a text of its own.
fn page<F: Fn(&mut String, Global, &str, &str) -> Result<(), AllocError>>(
    alloc: Global,
    name: &str,
    lines: &str,
    put_file: &F,
) -> Result<String, AllocError>
    requires { F.IsAlwaysCallable put_file.now }
{
    let mut text = String::new(alloc);
    put_file(&mut text, alloc, name, lines)?;
    Ok(text)
}

/// Prints what `put_file` writes of the name and the lines of the file of this name.
///
/// # Errors
///
/// A file that can't be read, output that can't be written, and out of memory.
pub fn print_file<F: Fn(&mut String, Global, &str, &str) -> Result<(), AllocError>>(
    rt: &HostRuntime,
    name: &str,
    put_file: &F,
) -> io::Result<()>
    requires { F.IsAlwaysCallable put_file.now }
{
    let lines = fs::read_to_string(rt, name)?;
    rt.print(page(rt.alloc(), name, lines.as_str(), put_file)?)
}

/// Prints each file that a word of the program names, as `print_file` does.
///
/// # Errors
///
/// As `print_file`, and words that can't be read.
pub fn print_files<F: Fn(&mut String, Global, &str, &str) -> Result<(), AllocError>>(
    rt: &HostRuntime,
    put_file: F,
) -> io::Result<()>
    requires { F.IsAlwaysCallable put_file }
{
    for name in env::args(rt)?.skip(1) {
        print_file(rt, name.as_str(), &put_file)?;
    }
    Ok(())
}
