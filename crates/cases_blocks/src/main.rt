//! Tables of block-wise transfer (RFC 7959): the values of Block options, the bodies of responses that are kept, the
//! bodies of requests that are joined, and the bodies that a client joins. Each argument names a file: the table of
//! that name.
//!
//! A row is an input, ` => `, and its result. The program prints each row with the result that comes, and each other
//! line as it is: so it prints its files, if all is right. The rows of `blocks` stand alone. In the others rows are
//! steps of a history, which begins at the top and anew after each empty line.
#![tactic(auto)]

mod blocks;
mod bodies;
mod fields;
mod parts;
mod transfers;

use cases_notation::{print_files, put_histories};
use std::alloc::{AllocError, Global};
use std::io;

/// Writes the histories of a table.
fn put_file(text: &mut String, alloc: Global, table: &str, lines: &str) -> Result<(), AllocError> {
    put_histories(text, lines, |text, history| match table {
        "bodies" => bodies::put(text, alloc, history),
        "parts" => parts::put(text, alloc, history),
        "transfers" => transfers::put(text, alloc, history),
        _ => blocks::put(text, alloc, history),
    })
}

fn main(rt: HostRuntime) -> io::Result<()> {
    print_files(&rt, put_file)
}
