//! Rehearsals of a client and a servient that serves the built-in Thing. Each argument names a file.
//!
//! `rehearsals` has cases, which are separated by empty lines: moves, a line each, and then their outcome. The program
//! prints each case with its real outcome, so that it prints its file, if all is right.
//!
//! - `ask METHOD PATH`, perhaps `Content-Format=N`, `Block2=N` and `Block1=N`, and a payload: the client asks; a block
//!   is written as its number times 16, 8 where others follow, and SZX; `observe ..` and `unobserve ..`: the same with
//!   Observe 0 and 1;
//! - `due`: the client does what is due;
//! - `deliver N`: the datagram of this number comes;
//! - `pass N`: so many milliseconds pass;
//! - `open C`, `bytes C TEXT`, `end C`, `tick`, `data ENDPOINT` and a message: this comes to the servient besides.
//!
//! `schedules` has schedules that were drawn at random, by `bench/draw-schedules`, a line each. After ` => ` stands the
//! verdict on it (`checking.rt`), and at the end of the file the kinds of events that came about in them and the
//! totals.
//!
//! `block_schedules` has such schedules of block-wise asks, by `bench/draw-block-schedules`. After ` => ` stands for
//! each row of them the number of turns that made the content of its joined payloads (`joined.rt`), and at the end the
//! number of rows.
//!
//! `sections` has runs of ticks within bounds, a line each (`sections.rt`).
#![tactic(auto)]

mod asks;
mod blockwise;
mod cases;
mod checking;
mod joined;
mod kinds;
mod lamp;
mod played;
mod reading;
mod rows;
mod schedules;
mod sections;
mod showing;
mod steps;
mod totals;

use cases_notation::{print_files, put_histories, put_rows};
use std::alloc::{AllocError, Global};
use std::io;

/// Writes a file with what comes of it.
fn put_file(text: &mut String, alloc: Global, name: &str, lines: &str) -> Result<(), AllocError> {
    match name {
        "block_schedules" => blockwise::put(text, alloc, lines),
        "schedules" => schedules::put(text, alloc, lines),
        "sections" => put_rows(
            text,
            lines,
            |text, given| sections::put_row(text, alloc, given),
        ),
        _ => put_histories(text, lines, |text, case| cases::put_case(text, alloc, case)),
    }
}

fn main(rt: HostRuntime) -> io::Result<()> {
    print_files(&rt, put_file)
}
