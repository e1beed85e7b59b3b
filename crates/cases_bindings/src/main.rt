//! Tables of the bindings: CoAP messages, their meanings, exchanges, observers, and the server with its notifications
//! and blocks; HTTP requests and replies at the front of a stream, the targets of requests, their conditions on
//! versions, the heads of replies, outcomes, and the connections of an HTTP server. Each argument names a file: the
//! table of that name.
//!
//! A row is an input, ` => `, and its result. The program prints each row with the result that comes, and each other
//! line as it is: so it prints its files, if all is right. Most rows stand alone. In some files rows are steps of a
//! history, which begins at the top and anew after each empty line.
//!
//! All output goes to one text, which is lent, since a function pays in proof at each early exit for what it owns.
#![tactic(auto)]

mod asks;
mod conditions;
mod connections;
mod crowds;
mod datagrams;
mod exchanges;
mod findings;
mod fronts;
mod ids;
mod messages;
mod notifications;
mod observers;
mod outcomes;
mod places;
mod replies;
mod reply_fronts;
mod streams;
mod talk;
mod targets;
mod transfers;

use cases_notation::{bytes_of, print_files, put_histories, put_rows};
use std::alloc::{AllocError, Global};
use std::io;

/// Writes the result of these bytes in this table.
fn put_said(text: &mut String, alloc: Global, table: &str, bytes: &[u8]) -> Result<(), AllocError> {
    match table {
        "messages" => messages::put(text, bytes),
        "fronts" => fronts::put(text, alloc, bytes),
        "reply_fronts" => reply_fronts::put(text, alloc, bytes),
        "targets" => targets::put(text, alloc, bytes),
        _ => text.push_str("no such table"),
    }
}

/// The same of a row that stands alone.
fn put_row(text: &mut String, alloc: Global, table: &str, given: &str) -> Result<(), AllocError> {
    match table {
        "replies" | "tags" => replies::put(text, given),
        "outcomes" => places::put(text, alloc, given),
        "asks" => asks::put(text, alloc, given),
        "ids" => ids::put(text, alloc, given),
        "conditions" => conditions::put_of_lines(text, alloc, given),
        "versions" => conditions::put_of_options(text, alloc, given),
        "streams" => streams::put(text, alloc, given),
        _ => put_said(text, alloc, table, bytes_of(alloc, given)?.as_slice()),
    }
}

/// A history of a table whose rows are steps.
fn put_history(
    text: &mut String,
    alloc: Global,
    table: &str,
    history: &str,
) -> Result<(), AllocError> {
    match table {
        "exchanges" => exchanges::put(text, alloc, history),
        "datagrams" | "observations" | "blocks" | "links" => datagrams::put(text, alloc, history),
        "watchers" => observers::put(text, alloc, history),
        _ => connections::put(text, alloc, history),
    }
}

/// Writes the lines of a table.
fn put_file(text: &mut String, alloc: Global, table: &str, lines: &str) -> Result<(), AllocError> {
    match table {
        "exchanges"
        | "watchers"
        | "datagrams"
        | "observations"
        | "blocks"
        | "links"
        | "connections"
        | "tagged" => {
            put_histories(
                text,
                lines,
                |text, history| put_history(text, alloc, table, history),
            )
        }
        _ => put_rows(
            text,
            lines,
            |text, given| put_row(text, alloc, table, given),
        ),
    }
}

fn main(rt: HostRuntime) -> io::Result<()> {
    print_files(&rt, put_file)
}
