//! Tables of devices behind files. Each word names a file of cases. In `entries` a row is a list of devices, ` => `,
//! and its entries. In `devices` the lines between two empty lines are a history of one device:
//!
//! ```text
//! file NAME CONTENT          a file; in a content `\n` is a line end
//! reading CONTENT            what the next read gives, in place of a file
//! absent                     the next read finds no file
//! fails N                    the call of this number fails, reads and writes counted together from 1
//! property NAME AS           the device, with `json` or `text` for AS; also `action` and `event`
//! running A STATUS AS CANCEL an action that runs on, with its file and its status, and a file that cancels or none
//! memory JSON                a property in memory that begins with this value
//! slot N                     the device of this slot where no entry has it
//! read, poll                 a call, and its answer
//! write JSON, invoke [JSON]  a call with a value, and its answer; the ids of invocations are 1, 2 ..
//! query [ID], cancel [ID]    a call of the invocation of this id, or of 1, and its answer
//! content NAME               what the file holds
//! calls                      the calls of files since the last such step, but for those that a `reading` gave
//! ```
//!
//! The program prints each step with its real outcome, and each other line as it is, so that it prints its files, if
//! all is right.
#![tactic(auto)]

mod entries;
mod history;
mod readings;

use cases_notation::{print_files, put_histories, put_rows};
use std::alloc::{AllocError, Global};
use std::io;

/// Writes the cases of the file of this name, with their results.
fn put_file(text: &mut String, alloc: Global, table: &str, lines: &str) -> Result<(), AllocError> {
    match table {
        "entries" => put_rows(
            text,
            lines,
            |text, given| entries::put_entries(text, alloc, given),
        ),
        _ => put_histories(
            text,
            lines,
            |text, history| history::put_history(text, alloc, history),
        ),
    }
}

fn main(rt: HostRuntime) -> io::Result<()> {
    print_files(&rt, put_file)
}
