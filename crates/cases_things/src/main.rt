//! Tables of Things: routes, verbs, outcomes, the directory, and Things as they are exposed. Each word names a file. A
//! row is an input, ` => `, and its outcome; in `directory`, `exposing`, `acts` and `tags` the rows between two empty lines are
//! a history, one after another on the same directory or the same Things. The program prints each row with its real
//! outcome, and each other line as it is, so that it prints its files, if all is right.
#![tactic(auto)]

mod asking;
mod case;
mod directory;
mod exposing;
mod histories;
mod outcomes;
mod paths;
mod routes;

use cases_notation::{print_files, put_histories, put_rows};
use std::alloc::{AllocError, Global};
use std::io;

/// Writes the outcome of a row of this table. The text is lent, since a function pays at each early exit for what it
/// owns.
fn put_row(text: &mut String, alloc: Global, table: &str, given: &str) -> Result<(), AllocError> {
    match table {
        "segments" => paths::put_steps(text, alloc, given),
        "routes" => routes::put_route(text, alloc, given),
        "verbs" => routes::put_verbs(text, given),
        "outcomes" => outcomes::put_row(text, alloc, given),
        _ => text.push_str("no such table"),
    }
}

/// Writes the cases of a file, with their results.
fn put_file(text: &mut String, alloc: Global, table: &str, lines: &str) -> Result<(), AllocError> {
    match table {
        "directory" => {
            put_histories(
                text,
                lines,
                |text, history| directory::put_history(text, alloc, history),
            )
        }
        "exposing" | "acts" | "tags" => exposing::put_cases(text, alloc, lines),
        _ => put_rows(
            text,
            lines,
            |text, given| put_row(text, alloc, table, given),
        ),
    }
}

fn main(rt: HostRuntime) -> io::Result<()> {
    print_files(&rt, put_file)
}
