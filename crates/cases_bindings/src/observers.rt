//! Observers of a CoAP server, of which there may be four, or as many as the first line of a history says (`capacity
//! 2`). A step is `register ENDPOINT TOKEN TARGET`, the same N times as `again ENDPOINT TOKEN TARGET N`, `cancel
//! ENDPOINT TOKEN`, `emit TARGET`, `acked ENDPOINT ID`, `reset ENDPOINT ID` or `next MOMENT ID`, and its result.

ghost use Rattle.std.specs.Prelude.{◌≤◌, length};

use cases_notation::{bytes_of, endpoint_of, number, put as put_bytes, put_rows, small_number};
use coap_msg::{Endpoint, LONGEST_TOKEN};
use coap_observe::{Notice, Registered, Watchers};
use std::alloc::{AllocError, Global};
use std::fmt::Write;

/// The number of observers that there may be where a history doesn't say it.
const CAPACITY: u32 = 4;

/// The target of a field.
pub fn target_of(field: Option<&str>) -> u32 {
    u32::try_from(number(field)).unwrap_or(0)
}

/// Writes the outcome of a registration.
fn put_registered(text: &mut String, registered: Registered) -> Result<(), AllocError> {
    match registered {
        Registered::New(sequence) => write!(text, "new {sequence}"),
        Registered::Replaced(sequence) => write!(text, "replaced {sequence}"),
        Registered::Full => write!(text, "full"),
    }
}

/// Writes whether something was found.
fn put_found(text: &mut String, found: bool) -> Result<(), AllocError> {
    text.push_str(if found { "found" } else { "nothing" })
}

/// Writes the endpoint to which a notification goes.
pub fn put_endpoint(text: &mut String, to: Endpoint) -> Result<(), AllocError> {
    write!(text, "host{}:{} ", to.host, to.port)
}

/// Writes a notification.
fn put_notice(text: &mut String, notice: &Notice) -> Result<(), AllocError> {
    put_endpoint(text, notice.to)?;
    put_bytes(text, notice.token.get(..notice.token_length).unwrap_or(&[]))?;
    let again = if notice.fresh { "" } else { ", again" };
    write!(
        text,
        " target {} id {} sequence {}{again}",
        notice.target, notice.id, notice.sequence
    )
}

/// Writes the next notification.
fn put_next(text: &mut String, next: Option<Notice>) -> Result<(), AllocError> {
    match next {
        Some(notice) => put_notice(text, &notice),
        None => text.push_str("nothing"),
    }
}

/// Registers so many times, and writes the outcome of the last.
fn register_times(
    observers: &mut Watchers,
    from: Endpoint,
    token: &[u8],
    target: u32,
    times: u64,
) -> Registered
    requires { length token.now ≤ LONGEST_TOKEN }
{
    let mut last = Registered::Full;
    for _time in 0..times {
        last = observers.register(from, token, target);
    }
    last
}

/// A step of which a token is a part.
fn put_named(
    text: &mut String,
    observers: &mut Watchers,
    step: &str,
    token: &[u8],
) -> Result<(), AllocError> {
    let mut fields = step.split(' ');
    let word = fields.next().unwrap_or("");
    let from = endpoint_of(fields.next().unwrap_or(""));
    if word == "cancel" {
        return put_found(text, observers.cancel(from, token));
    }
    if token.len() > LONGEST_TOKEN {
        return text.push_str("no token");
    }
    let target = target_of(fields.nth(1));
    let times = if word == "again" {
        number(fields.next())
    } else {
        1
    };
    put_registered(text, register_times(observers, from, token, target, times))
}

/// A step without a token.
fn put_plain(text: &mut String, observers: &mut Watchers, step: &str) -> Result<(), AllocError> {
    let mut fields = step.split(' ');
    let word = fields.next().unwrap_or("");
    let first = fields.next();
    let id = small_number(fields.next());
    match word {
        "acked" => put_found(text, observers.acked(endpoint_of(first.unwrap_or("")), id)),
        "reset" => put_found(text, observers.reset(endpoint_of(first.unwrap_or("")), id)),
        "next" => put_next(text, observers.next_send(number(first), id)),
        "emit" => {
            observers.emit(target_of(first));
            text.push_str("done")
        }
        _ => text.push_str("no such step"),
    }
}

/// Writes the result of a step.
fn put_step(
    text: &mut String,
    alloc: Global,
    observers: &mut Watchers,
    step: &str,
) -> Result<(), AllocError> {
    if step.starts_with("register") || step.starts_with("again") || step.starts_with("cancel") {
        let token = bytes_of(alloc, step.split(' ').nth(2).unwrap_or("-"))?;
        return put_named(text, observers, step, token.as_slice());
    }
    put_plain(text, observers, step)
}

/// The number of observers that there may be in a history.
fn capacity_of(history: &str) -> u32
    ensures least { 1 ≤ result }
    ensures most { result ≤ 1024 }
{
    for line in history.lines() {
        if let Some(capacity) = line.strip_prefix("capacity ") {
            return target_of(Some(capacity)).clamp(1, 1024);
        }
    }
    CAPACITY
}

pub fn put(text: &mut String, alloc: Global, history: &str) -> Result<(), AllocError> {
    let mut observers = Watchers::new(alloc, capacity_of(history))?;
    put_rows(
        text,
        history,
        |text, step| put_step(text, alloc, &mut observers, step),
    )
}
