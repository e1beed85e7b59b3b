//! Tables of the crates of words: JSON, schemas, descriptions, forms, CoAP messages and command lines. Each word names
//! a file of rows; a row is what is given, ` => `, and what comes of it. `given TEXT` is what the rows after it are
//! about. The program prints each row with what does come of it, and each other line as it is: so it prints its files,
//! if all is right.
#![tactic(auto)]

mod command_lines;
mod descriptions;
mod displays;
mod documents;
mod encodings;
mod forms;
mod generated_forms;
mod json_texts;
mod schemas;

use cases_notation::{Row, expanded, print_files, put_came, put_rows_about};
use std::alloc::{AllocError, Global};
use std::io;

/// Says what comes of a row in this table. `shared` is what the rows are about.
fn put_said(
    said: &mut String,
    alloc: Global,
    table: &str,
    shared: &str,
    given: &str,
) -> Result<(), AllocError> {
    match table {
        "json_texts" => json_texts::put_read(said, alloc, given.as_bytes()),
        "json_bytes" => json_texts::put_bytes(said, alloc, given),
        "quotations" => json_texts::put_quotation(said, alloc, given),
        "json_rooms" => json_texts::put_written(said, alloc, given),
        "pointers" => documents::put_pointed(said, alloc, shared, given),
        "places" => documents::put_place(said, alloc, given),
        "patches" => documents::put_merged(said, alloc, given),
        "trees" => documents::put_tree_row(said, alloc, given),
        "schemas" => schemas::put(said, alloc, given),
        "descriptions" => descriptions::put(said, alloc, shared, given),
        "forms" => forms::put(said, alloc, shared, given),
        "hrefs" => forms::put_href(said, alloc, given),
        "generated_forms" => generated_forms::put(said, alloc, shared, given),
        "decoding" => encodings::put_decoded(said, alloc, given),
        "encoding" => encodings::put(said, alloc, given),
        "displays" => displays::put(said, given),
        "command_lines" => command_lines::put(said, alloc, given),
        _ => said.push_str("no such table"),
    }
}

/// Writes what comes of a row, once its repeats are written out.
fn put_row(
    text: &mut String,
    said: &mut String,
    alloc: Global,
    table: &str,
    row: Row<'_>,
) -> Result<(), AllocError> {
    let given = expanded(alloc, row.given)?;
    said.clear();
    put_said(said, alloc, table, row.about, given.as_str())?;
    put_came(text, alloc, row.wanted, said.as_str())
}

/// Writes the lines of a table with what comes of them.
fn put_file(text: &mut String, alloc: Global, table: &str, lines: &str) -> Result<(), AllocError> {
    let mut said = String::new(alloc);
    put_rows_about(
        text,
        lines,
        |text, row| put_row(text, &mut said, alloc, table, row),
    )
}

fn main(rt: HostRuntime) -> io::Result<()> {
    print_files(&rt, put_file)
}
