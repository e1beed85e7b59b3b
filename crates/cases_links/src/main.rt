//! Tables of link texts. Each word names a file of cases, whose rows are what is given, ` => `, and what comes of it. Bytes
//! are written as `cases_notation` says.
//!
//! ```text
//! reading   TEXT => its links, or At(N)
//! bytes     TEXT with `@` => what comes for each byte from 0 to 255 in place of `@`, in hexadecimal digits and runs
//!           that are alike; the byte itself is shown as `@`
//! writing   ROOM LINKS => the length of their text and what the room then holds, or `none`
//! ```
//!
//! Links are `link TARGET`, and after it for each parameter `param NAME` or `param NAME value VALUE`. The program prints
//! each row with what does come of it, and each other line as it is: so it prints its files, if all is right.
#![tactic(auto)]

mod notation;
mod reading;
mod tried;
mod writing;

use cases_notation::{print_files, put_rows};
use std::alloc::{AllocError, Global};
use std::io;

/// Writes what comes of what is given in a row.
fn put_outcome(
    text: &mut String,
    alloc: Global,
    table: &str,
    given: &str,
) -> Result<(), AllocError> {
    match table {
        "reading" => reading::put_reading(text, alloc, given),
        "bytes" => tried::put_bytes_tried(text, alloc, given),
        _ => writing::put_writing(text, alloc, given),
    }
}

/// Writes the rows of a table, each with what comes of it.
fn put_file(text: &mut String, alloc: Global, table: &str, lines: &str) -> Result<(), AllocError> {
    put_rows(
        text,
        lines,
        |text, given| put_outcome(text, alloc, table, given),
    )
}

fn main(rt: HostRuntime) -> io::Result<()> {
    print_files(&rt, put_file)
}
