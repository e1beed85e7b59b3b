//! Tables of the times of a directory's entries. Each word names a file of cases, whose rows are an input, ` => `, and
//! its outcome.
//!
//! ```text
//! dates       MILLISECONDS => the text of the date and time that lies so many after the start of 1970
//! asked       JSON => the time to live that a description asks for or the fault, and what is kept of it
//! shown       EPOCH CREATED MODIFIED TTL JSON => a description as it is given out, and as a patch is applied to it
//! histories   MOMENT CALL => what it answers, where the calls up to an empty line are those of one directory
//! ```
//!
//! The program prints each row with its real outcome, and each other line as it is, so that it prints its files, if all
//! is right.
#![tactic(auto)]

mod histories;
mod registrations;

use cases_notation::{print_files, put_histories, put_rows};
use std::alloc::{AllocError, Global};
use std::io;
use wot_registry::date_text;

/// Writes the text of the date and time that a number of milliseconds names.
fn put_date(text: &mut String, alloc: Global, given: &str) -> Result<(), AllocError> {
    match given.parse::<u64>() {
        Ok(milliseconds) => text.push_str(date_text(alloc, milliseconds)?.as_str()),
        Err(_) => text.push_str("no number"),
    }
}

/// Writes what comes of a row of this table.
fn put_row(text: &mut String, alloc: Global, table: &str, given: &str) -> Result<(), AllocError> {
    match table {
        "dates" => put_date(text, alloc, given),
        "asked" => registrations::put_asked(text, alloc, given),
        "shown" => registrations::put_shown(text, alloc, given),
        _ => text.push_str("no such table"),
    }
}

/// Writes a file with what comes of it.
fn put_file(text: &mut String, alloc: Global, table: &str, lines: &str) -> Result<(), AllocError> {
    match table {
        "histories" => {
            put_histories(
                text,
                lines,
                |text, history| histories::put_history(text, alloc, history),
            )
        }
        _ => put_rows(
            text,
            lines,
            |text, given| put_row(text, alloc, table, given),
        ),
    }
}

fn main(rt: HostRuntime) -> io::Result<()> {
    print_files(&rt, put_file)
}
