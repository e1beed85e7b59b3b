//! The CoAP server, in which 16 exchanges may live, or as many as a line `room for N exchanges` says, and to which
//! there may be four observers, or as many as a line `room for N observers` says. A line `links TEXT` gives it the text
//! of its links, as bytes are written. A step is a datagram: its moment, its host, its outcome where it is asked (`-`
//! where it isn't to be), and its message; and its treatment. The outcome of a request for target 3 is written
//! `3/Content:7`. Other steps are in `notifications.rt`, `crowds.rt` and `transfers.rt`.

ghost use Rattle.std.specs.Prelude.{◌≤◌};
ghost use Rattle.thing_ops.specs.Outcomes.{HasCode};
ghost use Rattle.coap_bind.specs.Laws.{HasShortPlace};

use crate::observers::target_of;
use crate::outcomes::outcome_of;
use crate::targets::put_path;
use crate::{crowds, notifications, transfers};
use cases_notation::{
    bytes_of, endpoint_of, message_of, number, put_given, put_message, put_plain_runs, put_words,
};
use coap_bind::{CoapBind, CoapNext};
use coap_msg::{Endpoint, LONGEST_DATAGRAM, LONGEST_MESSAGE, decode};
use coap_opts::CoapAsk;
use std::alloc::{AllocError, Global};
use std::fmt::Write;
use thing_ops::Outcome;
use wot_json::Bytes;

/// The most bytes of a body that comes in blocks.
pub const LONGEST_BODY: usize = 16_384;

/// Writes a message that is sent; a byte of its payload that comes many times in a row is written once.
pub fn put_sent(text: &mut String, bytes: &[u8]) -> Result<(), AllocError> {
    text.push_str("sends ")?;
    let payload = match decode(bytes) {
        Ok(message) => message.payload,
        Err(_) => b"",
    };
    if payload.len() < 40 {
        return put_message(text, bytes);
    }
    // The payload and its marker are left out.
    let rest = bytes.len().saturating_sub(payload.len()).saturating_sub(1);
    put_message(text, bytes.get(..rest).unwrap_or(b""))?;
    text.push_str(" ")?;
    put_plain_runs(text, payload)
}

/// Writes an ask.
fn put_ask(text: &mut String, ask: &CoapAsk<'_>) -> Result<(), AllocError> {
    write!(text, "asks {:?} ", ask.request.verb)?;
    put_path(text, &ask.request.path)?;
    if !ask.request.body.is_empty() {
        text.push_str(" ")?;
        put_plain_runs(text, ask.request.body)?;
    }
    if let Some(number) = ask.observe {
        write!(text, " observe {number}")?;
    }
    text.push_str(", ")
}

/// Writes an ask, and the reply that is sent.
fn put_answered(text: &mut String, ask: &CoapAsk<'_>, sent: &[u8]) -> Result<(), AllocError> {
    put_ask(text, ask)?;
    put_sent(text, sent)
}

/// The endpoint from which a datagram comes, its moment, and the target that may be observed.
#[derive(Clone, Copy)]
pub struct Origin {
    pub from: Endpoint,
    pub now: u64,
    pub target: Option<u32>,
}

/// Writes the treatment of a datagram that has this outcome.
fn put_done(
    text: &mut String,
    server: &mut CoapBind,
    origin: Origin,
    datagram: &[u8],
    outcome: &Outcome,
) -> Result<(), AllocError>
    requires now { server.old.exchanges.moment ≤ origin.now }
    requires code { HasCode outcome.now }
    requires place { HasShortPlace outcome.now }
    ensures { server.new.exchanges.moment ≤ origin.now }
{
    let mut room = [0u8; LONGEST_MESSAGE];
    let mut body = [0u8; LONGEST_BODY];
    if datagram.len() > LONGEST_DATAGRAM {
        return text.push_str("too long");
    }
    match server.datagram(origin.from, datagram, origin.now, &mut room, &mut body) {
        CoapNext::Nothing => text.push_str("nothing"),
        CoapNext::Send(size) => put_sent(text, room.get(..size).unwrap_or(b"")),
        CoapNext::Ask(ask, ticket) => {
            let size = server.answer(ticket, outcome, origin.target, &mut room);
            put_answered(text, &ask, room.get(..size).unwrap_or(b""))
        }
    }
}

/// The fields of a step.
#[derive(Clone, Copy)]
struct Fields<'a> {
    moment: u64,
    from: Endpoint,
    target: Option<u32>,
    outcome: &'a str,
    message: &'a str,
}

/// The target and the outcome of a field.
fn target_and_outcome(field: &str) -> (Option<u32>, &str) {
    match field.split_once('/') {
        Some((target, outcome)) => (Some(target_of(Some(target))), outcome),
        None => (None, field),
    }
}

/// The fields of a step.
fn fields_of(step: &str) -> Fields<'_> {
    let mut words = step.splitn(4, ' ');
    let moment = number(words.next());
    let from = endpoint_of(words.next().unwrap_or(""));
    let (target, outcome) = target_and_outcome(words.next().unwrap_or("-"));
    Fields {
        moment,
        from,
        target,
        outcome,
        message: words.next().unwrap_or("-"),
    }
}

/// Writes the treatment of the datagram of these fields.
fn put_fields(
    text: &mut String,
    alloc: Global,
    server: &mut CoapBind,
    fields: Fields<'_>,
    now: u64,
) -> Result<(), AllocError>
    requires { server.old.exchanges.moment ≤ now }
    ensures { server.new.exchanges.moment ≤ now }
{
    let outcome = outcome_of(alloc, fields.outcome)?;
    let datagram = message_of(alloc, fields.message)?;
    let origin = Origin {
        from: fields.from,
        now,
        target: fields.target,
    };
    put_done(text, server, origin, datagram.as_slice(), &outcome)
}

/// Writes the result of a step.
fn put_done_by(
    text: &mut String,
    alloc: Global,
    server: &mut CoapBind,
    step: &str,
    now: u64,
) -> Result<(), AllocError>
    requires { server.old.exchanges.moment ≤ now }
    ensures { server.new.exchanges.moment ≤ now }
{
    if notifications::is_step(step) {
        return notifications::put(text, alloc, server, step);
    }
    if crowds::is_step(step) {
        return crowds::put(text, server, step, now);
    }
    if transfers::is_step(step) {
        return transfers::put(text, alloc, server, step, now);
    }
    put_fields(text, alloc, server, fields_of(step), now)
}

/// Writes a step and its result.
fn put_step(
    text: &mut String,
    alloc: Global,
    server: &mut CoapBind,
    step: &str,
    now: u64,
) -> Result<(), AllocError>
    requires { server.old.exchanges.moment ≤ now }
    ensures { server.new.exchanges.moment ≤ now }
{
    put_given(text, step)?;
    put_done_by(text, alloc, server, step, now)?;
    text.push_str("\n")
}

/// The number of these that there may be, where a history says it.
fn room_for(history: &str, what: &str) -> Option<u32> {
    for line in history.lines() {
        if let Some(rest) = line.strip_prefix("room for ") {
            if rest.ends_with(what) {
                return Some(target_of(rest.split(' ').next()));
            }
        }
    }
    None
}

/// The number of exchanges that may live.
fn exchanges_of(history: &str) -> u32
    ensures least { 16 ≤ result }
    ensures most { result ≤ 65536 }
{
    room_for(history, "exchanges")
        .unwrap_or(16)
        .clamp(16, 65_536)
}

/// The number of observers that there may be.
fn observers_of(history: &str) -> u32
    ensures least { 1 ≤ result }
    ensures most { result ≤ 1024 }
{
    room_for(history, "watchers").unwrap_or(4).clamp(1, 1024)
}

/// The text of the links, where a history says one.
fn links_of(alloc: Global, history: &str) -> Result<Bytes, AllocError> {
    for line in history.lines() {
        if let Some(written) = line.strip_prefix("links ") {
            return Ok(Bytes::from_vec(bytes_of(alloc, written)?));
        }
    }
    Ok(Bytes::new(alloc))
}

pub fn put(text: &mut String, alloc: Global, history: &str) -> Result<(), AllocError> {
    let mut server = CoapBind::new(alloc, exchanges_of(history), observers_of(history))?;
    server.set_links(links_of(alloc, history)?);
    let mut now = 0;
    for line in history.lines() {
        match line.split_once(" => ") {
            Some((step, _wanted)) => {
                now = fields_of(step).moment.max(now);
                put_step(text, alloc, &mut server, step, now)?;
            }
            None => put_words(text, line)?,
        }
    }
    Ok(())
}
