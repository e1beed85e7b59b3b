//! Tables of the outside and of the handlers in memory: handlers in a rack, files in memory and of the machine,
//! outputs, the network in memory, and the network over a system in memory. Each argument names a file: the table of that name.
//!
//! Lines with ` => ` are steps of a history, which begins at the top and anew after each empty line: a deed, and its
//! outcome. The program prints each step with its real outcome, and each other line as it is, so that it prints its
//! files, if all is right.
#![tactic(auto)]

mod answers;
mod calls;
mod devices;
mod files;
mod handlers;
mod lines;
mod machine;
mod network;
mod outputs;
mod records;
mod systems;
mod writers;

use cases_notation::{print_file, put_histories};
use std::alloc::{AllocError, Global};
use std::{env, io};

/// Writes the histories of a table.
fn put_file(text: &mut String, alloc: Global, table: &str, lines: &str) -> Result<(), AllocError> {
    put_histories(text, lines, |text, history| match table {
        "handlers" => handlers::put(text, alloc, history),
        "files" => files::put(text, alloc, history),
        "outputs" => outputs::put(text, alloc, history),
        "network" => network::put(text, alloc, history),
        "systems" => systems::put(text, alloc, history),
        "writers" => writers::put(text, alloc, history),
        _ => text.push_str("no such table"),
    })
}

fn main(rt: HostRuntime) -> io::Result<()> {
    for table in env::args(&rt)?.skip(1) {
        match table.as_str() {
            "machine" => machine::print(&rt)?,
            name => print_file(&rt, name, &put_file)?,
        }
    }
    Ok(())
}
