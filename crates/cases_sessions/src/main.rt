//! Sessions of the servient on files, a network and devices in memory. Each word names a file. `scripts` and `faults`
//! are files of rows: an input, ` => `, and its outcome. The others have cases, which are separated by empty lines;
//! `case.rt` has the lines of a case. The program prints each case with the print of its command, its acts on the
//! network, and the status that it ends with, so that it prints its files, if all is right.
#![tactic(auto)]

mod acts;
mod case;
mod crowded;
mod cuts;
mod running;
mod scripts;
mod sessions;
mod spelling;

use cases_notation::{print_files, put_rows};
use std::alloc::{AllocError, Global};
use std::io;

/// Writes the cases of the file of this name, with their results.
fn put_file(text: &mut String, alloc: Global, name: &str, lines: &str) -> Result<(), AllocError> {
    match name {
        "scripts" | "faults" => {
            put_rows(
                text,
                lines,
                |text, given| scripts::put_row(text, alloc, name, given),
            )
        }
        _ => sessions::put_cases(text, alloc, lines),
    }
}

fn main(rt: HostRuntime) -> io::Result<()> {
    print_files(&rt, put_file)
}
