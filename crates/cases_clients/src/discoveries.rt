//! The Things to which the links of a server lead, and asking for these links with a network in memory.
//!
//! ```text
//! server HOST PORT => URL                 the URL of the server there
//! things URL TEXT => LINES                the lines of the Things to which the links of a text lead; `none` where it has no such
//! discover HOST PORT | EVENT | EVENT => ..  the acts, what is printed and how it ends, as in `consumptions`
//! ```
//!
//! The text and the lines are written as bytes are.

use crate::consumptions::{MOST_OUTPUT, put_done};
use crate::network::network_of;
use cases_notation::{bytes_of, number, put as put_bytes};
use network_consumer::discover;
use servient_outside::{Calls, OutMemory};
use std::alloc::{AllocError, Global};
use wot_consumer::{server_url, things_in};

/// Writes the lines of the Things of a text.
fn put_things(text: &mut String, alloc: Global, words: &str) -> Result<(), AllocError> {
    let (server, written) = words.split_once(' ').unwrap_or((words, "-"));
    let links = bytes_of(alloc, written)?;
    match things_in(alloc, server, links.as_slice())? {
        Some(lines) => put_bytes(text, lines.as_slice()),
        None => text.push_str("none"),
    }
}

/// A port in words.
fn port_of(words: &str) -> u16 {
    let word = words.split(' ').next().unwrap_or("");
    u16::try_from(number(Some(word))).unwrap_or(0)
}

/// Writes the URL of a server.
fn put_server(text: &mut String, alloc: Global, words: &str) -> Result<(), AllocError> {
    let (host, port) = words.split_once(' ').unwrap_or((words, ""));
    let url = server_url(alloc, host, port_of(port))?;
    text.push_str(url.as_str())
}

/// Writes what comes of a discovery.
fn put_discovery(text: &mut String, alloc: Global, words: &str) -> Result<(), AllocError> {
    let (host, port) = words.split_once(' ').unwrap_or((words, ""));
    let mut net = network_of(alloc, words)?;
    let mut out = OutMemory::new(alloc, MOST_OUTPUT, Calls::new(alloc))?;
    let consumed = discover(alloc, host, port_of(port), &mut net, &mut out);
    put_done(text, net.acts(), out.written(), consumed)
}

/// Writes what comes of a row.
pub fn put(text: &mut String, alloc: Global, given: &str) -> Result<(), AllocError> {
    match given.split_once(' ') {
        Some(("server", words)) => put_server(text, alloc, words),
        Some(("things", words)) => put_things(text, alloc, words),
        Some(("discover", words)) => put_discovery(text, alloc, words),
        _ => text.push_str("no row"),
    }
}
