//! Tables of the clients. The files `choices`, `judgements`, `http_requests`, `consumptions` and `discoveries` have rows, as the modules of these names
//! say: what is given, ` => `, and what comes of it; `given TEXT` is what the rows after it are about. `transfers` has rows like
//! those of `consumptions`, in which bodies travel in blocks.
//!
//! Each other file has histories of a CoAP client: what it is asked, what comes to it and what is due, a step a line,
//! and after ` => ` what it sends and its news. An empty line ends one, and the next client is new. Each argument names
//! a file. The program prints each row and step with what does come of it, and each other line as it is: so it prints
//! its files, if all is right.
//!
//! - `first id N`: before the first step, the id of the first message where that isn't 0;
//! - `at MOMENT request HOST METHOD PATH`, perhaps `Content-Format=N`, `Block2=N`, `Block1=N` and a payload: asks for something;
//! - `at MOMENT observe ..` and `at MOMENT unobserve ..`: the same with Observe 0 and 1;
//! - `at MOMENT hears HOST` and a message: a datagram comes;
//! - `at MOMENT due`: does what is due;
//! - `at MOMENT resets N HOST METHOD PATH`: asks N times, each time answered by a reset with the id of the request.
#![tactic(auto)]

mod asking;
mod choices;
mod consumptions;
mod descriptions;
mod discoveries;
mod hearing;
mod history;
mod http_requests;
mod judgements;
mod network;
mod resetting;
mod tables;

use cases_notation::{print_files, put_histories, put_rows_about};
use std::alloc::{AllocError, Global};
use std::io;

/// Writes a file with what comes of it.
fn put_file(text: &mut String, alloc: Global, name: &str, lines: &str) -> Result<(), AllocError> {
    if tables::is_table(name) {
        return put_rows_about(
            text,
            lines,
            |text, row| tables::put_row(text, alloc, name, row),
        );
    }
    put_histories(
        text,
        lines,
        |text, history| history::put(text, alloc, history),
    )
}

fn main(rt: HostRuntime) -> io::Result<()> {
    print_files(&rt, put_file)
}
