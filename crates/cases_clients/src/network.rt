//! A network in memory, and its events in words:
//!
//! ```text
//! MOMENT bytes CONNECTION BYTES   bytes on a connection
//! MOMENT ended CONNECTION         a connection has ended
//! MOMENT data HOST MESSAGE        a datagram, its message in words
//! MOMENT blocks COUNT HOST BYTE   the blocks of 1,024 such bytes with the numbers from 0 on, after each of which others follow: each is
//!                                 the response to the request with its number as ID and token
//! MOMENT tick | MOMENT stop       time goes by, and the end of all
//! fails N                         call N of the network that may fail does
//! ```
//!
//! After the events comes a Stop.

ghost use Rattle.servient_outside.specs.Network.{MayCome};

use cases_notation::{bytes_of, endpoint_of, message_of, number};
use servient_outside::{Calls, Event, EventWithBytes, Events, NetMemory, What};
use std::alloc::{AllocError, Global};
use wot_json::Bytes;

/// The latest moment of an event.
const LAST_MOMENT: u64 = 1_000_000_000_000_000;

/// The number of connections.
const CONNECTIONS: u64 = 64;

/// The most bytes of one event on a connection.
const MOST_BYTES: usize = 4096;

/// The most bytes of a datagram.
const LONGEST_DATAGRAM: usize = 2048;

/// The event on a connection, in words, with this many bytes.
fn what_of(word: &str, connection: u64, size: usize) -> What
    ensures { MayCome result }
{
    if connection >= CONNECTIONS {
        return What::Tick;
    }
    match word {
        "bytes" if 1 <= size && size <= MOST_BYTES => What::Bytes(connection as u32, size),
        "ended" => What::Ended(connection as u32),
        "stop" => What::Stop,
        _ => What::Tick,
    }
}

/// Puts what came at the end, where the network may give it.
fn push_event(
    events: &mut Events,
    alloc: Global,
    moment: u64,
    what: What,
    bytes: &[u8],
) -> Result<(), AllocError>
    requires { MayCome what }
{
    if moment > LAST_MOMENT || what.byte_count() != bytes.len() {
        return Ok(());
    }
    events.push(EventWithBytes {
        event: Event { moment, what },
        bytes: Bytes::copy_of(alloc, bytes)?,
    })
}

/// Puts a datagram at the end.
fn push_datagram(
    events: &mut Events,
    alloc: Global,
    moment: u64,
    words: &str,
) -> Result<(), AllocError> {
    let (from, message) = words.split_once(' ').unwrap_or((words, "bytes -"));
    let bytes = message_of(alloc, message)?;
    if bytes.len() > LONGEST_DATAGRAM {
        return Ok(());
    }
    let what = What::Datagram(endpoint_of(from), bytes.len());
    push_event(events, alloc, moment, what, bytes.as_slice())
}

/// Puts the response with this number at the end.
fn push_block(
    events: &mut Events,
    alloc: Global,
    moment: u64,
    words: &str,
    number: u64,
) -> Result<(), AllocError> {
    let (host, byte) = words.split_once(' ').unwrap_or((words, "x"));
    let value = number.saturating_mul(16).saturating_add(14);
    let message = format!(in alloc;
        "{host} ACK 2.05 {number} {number:016x} Content-Format=50 Block2={value} {byte}\\*1024;"
    )?;
    push_datagram(events, alloc, moment, message.as_str())
}

/// Puts so many blocks at the end.
fn push_blocks(
    events: &mut Events,
    alloc: Global,
    moment: u64,
    words: &str,
) -> Result<(), AllocError> {
    let (count, words) = words.split_once(' ').unwrap_or((words, ""));
    for index in 0..number(Some(count)) {
        push_block(events, alloc, moment, words, index)?;
    }
    Ok(())
}

/// Puts what came on a connection at the end, or a tick or a stop.
fn push_other(
    events: &mut Events,
    alloc: Global,
    moment: u64,
    word: &str,
    words: &str,
) -> Result<(), AllocError> {
    let (connection, bytes) = words.split_once(' ').unwrap_or((words, "-"));
    let connection = number(Some(connection));
    let bytes = bytes_of(alloc, bytes)?;
    let what = what_of(word, connection, bytes.len());
    push_event(events, alloc, moment, what, bytes.as_slice())
}

/// Puts the event of these words at the end.
fn push(events: &mut Events, alloc: Global, words: &str) -> Result<(), AllocError> {
    let mut fields = words.splitn(3, ' ');
    let moment = number(fields.next());
    let word = fields.next().unwrap_or("");
    let rest = fields.next().unwrap_or("0");
    match word {
        "data" => push_datagram(events, alloc, moment, rest),
        "blocks" => push_blocks(events, alloc, moment, rest),
        _ => push_other(events, alloc, moment, word, rest),
    }
}

/// The events among these.
fn push_all(events: &mut Events, alloc: Global, words: &str) -> Result<(), AllocError> {
    for words in words.split(" | ").skip(1) {
        if !words.starts_with("fails ") {
            push(events, alloc, words)?;
        }
    }
    Ok(())
}

/// The calls among these that fail.
fn push_failing(calls: &mut Calls, words: &str) -> Result<(), AllocError> {
    for words in words.split(" | ").skip(1) {
        if let Some(call) = words.strip_prefix("fails ") {
            calls.push(number(Some(call)))?;
        }
    }
    Ok(())
}

/// A network that gives the events of a row.
pub fn network_of(alloc: Global, words: &str) -> Result<NetMemory, AllocError> {
    let mut events = Events::new(alloc);
    push_all(&mut events, alloc, words)?;
    let mut calls = Calls::new(alloc);
    push_failing(&mut calls, words)?;
    NetMemory::new(alloc, events, calls)
}
