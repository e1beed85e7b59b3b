//! What a system in memory was asked for, in words.

use crate::network::put_endpoint;
use cases_notation::put_runs;
use coap_msg::Endpoint;
use servient_system::{Asked, Ready, ReceivedDatagram, Refusal};
use std::alloc::AllocError;
use std::fmt::Write;
use wot_json::Bytes;

/// Writes why a call was refused.
fn put_refusal(text: &mut String, refusal: Refusal) -> Result<(), AllocError> {
    match refusal {
        Refusal::NotNow => text.push_str(" refused later"),
        Refusal::Aborted => text.push_str(" refused aborted"),
        Refusal::NoMemory => text.push_str(" refused memory"),
        Refusal::Failed(number) => write!(text, " refused {number}"),
    }
}

/// Writes the refusal of a call that was done or refused.
fn put_outcome(text: &mut String, answer: Result<(), Refusal>) -> Result<(), AllocError> {
    match answer {
        Ok(()) => Ok(()),
        Err(refusal) => put_refusal(text, refusal),
    }
}

/// Writes the time of the clock in milliseconds.
fn put_time(text: &mut String, answer: Result<u64, Refusal>) -> Result<(), AllocError> {
    match answer {
        Ok(time) => write!(text, "clock {}", time / 1_000_000),
        Err(refusal) => {
            text.push_str("clock")?;
            put_refusal(text, refusal)
        }
    }
}

/// Writes the sockets that were ready.
fn put_polled(
    text: &mut String,
    wait: u64,
    answer: Result<(), Refusal>,
    ready: &Ready,
) -> Result<(), AllocError> {
    write!(text, "polled {wait}")?;
    for number in ready.as_slice().iter() {
        write!(text, " {number}")?;
    }
    put_outcome(text, answer)
}

/// Writes a call on an endpoint.
fn put_at(
    text: &mut String,
    word: &str,
    at: Endpoint,
    answer: Result<(), Refusal>,
) -> Result<(), AllocError> {
    text.push_str(word)?;
    text.push_str(" ")?;
    put_endpoint(text, at)?;
    put_outcome(text, answer)
}

/// Writes a call on a number.
fn put_on(
    text: &mut String,
    word: &str,
    number: u32,
    answer: Result<(), Refusal>,
) -> Result<(), AllocError> {
    write!(text, "{word} {number}")?;
    put_outcome(text, answer)
}

/// Writes a read.
fn put_read(
    text: &mut String,
    number: u32,
    answer: &Result<Bytes, Refusal>,
) -> Result<(), AllocError> {
    write!(text, "read {number}")?;
    match answer {
        Ok(bytes) => {
            text.push_str(" ")?;
            put_runs(text, bytes.as_slice())
        }
        Err(refusal) => put_refusal(text, *refusal),
    }
}

/// Writes a write.
fn put_wrote(
    text: &mut String,
    number: u32,
    bytes: &Bytes,
    answer: Result<usize, Refusal>,
) -> Result<(), AllocError> {
    write!(text, "wrote {number} ")?;
    put_runs(text, bytes.as_slice())?;
    match answer {
        Ok(count) => write!(text, " took {count}"),
        Err(refusal) => put_refusal(text, refusal),
    }
}

/// Writes a datagram that was received.
fn put_received(
    text: &mut String,
    answer: &Result<ReceivedDatagram, Refusal>,
) -> Result<(), AllocError> {
    text.push_str("received")?;
    match answer {
        Ok(datagram) => {
            text.push_str(" ")?;
            put_endpoint(text, datagram.from)?;
            text.push_str(" ")?;
            put_runs(text, datagram.bytes.as_slice())
        }
        Err(refusal) => put_refusal(text, *refusal),
    }
}

/// Writes a datagram that was sent.
fn put_sent(
    text: &mut String,
    to: Endpoint,
    bytes: &Bytes,
    answer: Result<(), Refusal>,
) -> Result<(), AllocError> {
    text.push_str("sent ")?;
    put_endpoint(text, to)?;
    text.push_str(" ")?;
    put_runs(text, bytes.as_slice())?;
    put_outcome(text, answer)
}

/// Writes an address that was looked up.
fn put_resolved(
    text: &mut String,
    host: &str,
    port: u16,
    answer: Result<Endpoint, Refusal>,
) -> Result<(), AllocError> {
    write!(text, "resolved {host}:{port}")?;
    match answer {
        Ok(_) => Ok(()),
        Err(refusal) => put_refusal(text, refusal),
    }
}

/// Writes whether something was reported of the connection that was dialled.
fn put_awaited(
    text: &mut String,
    wait: u64,
    answer: Result<bool, Refusal>,
) -> Result<(), AllocError> {
    match answer {
        Ok(reported) => write!(text, "awaited {wait} {reported}"),
        Err(refusal) => {
            write!(text, "awaited {wait}")?;
            put_refusal(text, refusal)
        }
    }
}

/// Writes a call.
pub fn put_asked(text: &mut String, asked: &Asked) -> Result<(), AllocError> {
    match asked {
        Asked::Prepared(answer) => {
            text.push_str("prepared")?;
            put_outcome(text, *answer)
        }
        Asked::Clock(answer) => put_time(text, *answer),
        Asked::Polled(wait, answer, ready) => put_polled(text, *wait, *answer, ready),
        Asked::Paused(wait, answer) => {
            write!(text, "paused {wait}")?;
            put_outcome(text, *answer)
        }
        Asked::Resolved(host, port, answer) => put_resolved(text, host.as_str(), *port, *answer),
        Asked::Listened(at, answer) => put_at(text, "listened", *at, *answer),
        Asked::Bound(at, answer) => put_at(text, "bound", *at, *answer),
        Asked::Accepted(number, answer) => put_on(text, "accepted", *number, *answer),
        Asked::Dialled(number, _, answer) => put_on(text, "dialled", *number, *answer),
        Asked::Awaited(wait, answer) => put_awaited(text, *wait, *answer),
        Asked::Connected(number, answer) => put_on(text, "connected", *number, *answer),
        Asked::Attached(number, answer) => put_on(text, "attached", *number, *answer),
        Asked::Read(number, answer) => put_read(text, *number, answer),
        Asked::Wrote(number, bytes, answer) => put_wrote(text, *number, bytes, *answer),
        Asked::ShutDown(number, answer) => put_on(text, "shut", *number, *answer),
        Asked::GivenUp(number) => write!(text, "given_up {number}"),
        Asked::Received(answer) => put_received(text, answer),
        Asked::SentTo(to, bytes, answer) => put_sent(text, *to, bytes, *answer),
    }
}
