//! The network in memory: lines `event MOMENT ..` with the events to come, lines `fails N` with the calls that fail;
//! and steps: `next`, `listen ..`, `datagram ..`, `send ..`, `close ..`, `dial ..`, `find ..`, and `acts` for all acts
//! on it.

ghost use Rattle.std.specs.Prelude.{◌<◌, IfOk, IfSome};
ghost use Rattle.servient_outside.specs.Network.{IsWithinBounds, MayCome};

use crate::lines::fails_of;
use cases_notation::{
    bytes_of, endpoint_of, number, put as put_bytes, put_rows, put_runs, small_number,
};
use coap_msg::Endpoint;
use servient_outside::{Act, Event, EventWithBytes, Events, Net, NetMemory, Next, Place, What};
use std::alloc::{AllocError, Global};
use std::fmt::Write;
use wot_json::{Bytes, Text};

/// The latest moment of an event.
const LAST_MOMENT: u64 = 1_000_000_000_000_000;

/// The number of connections.
const CONNECTIONS: u32 = 64;

/// The number of a connection; 0 where it is none.
pub fn connection_of(word: &str) -> u32
    ensures { result < 64 }
{
    match word.parse::<u32>() {
        Ok(c) if c < CONNECTIONS => c,
        _ => 0,
    }
}

/// The event of these words, with n bytes; a tick where that can't come.
fn what_of(word: &str, place: &str, count: usize) -> What
    ensures { MayCome result }
{
    match word {
        "opened" => What::Opened(connection_of(place)),
        "bytes" if count >= 1 && count <= 4096 => What::Bytes(connection_of(place), count),
        "ended" => What::Ended(connection_of(place)),
        "datagram" if count <= 2048 => What::Datagram(endpoint_of(place), count),
        "stop" => What::Stop,
        _ => What::Tick,
    }
}

/// The event of a moment that brings these bytes; none where there can't be such a one.
fn event_with(
    alloc: Global,
    moment: u64,
    what: What,
    bytes: &[u8],
) -> Result<Option<EventWithBytes>, AllocError>
    requires { MayCome what }
    ensures { IfOk result (λ e. IfSome e IsWithinBounds) }
{
    if moment > LAST_MOMENT || what.byte_count() != bytes.len() {
        return Ok(None);
    }
    Ok(Some(EventWithBytes {
        event: Event { moment, what },
        bytes: Bytes::copy_of(alloc, bytes)?,
    }))
}

/// The event of these words.
fn event_of(alloc: Global, words: &str) -> Result<Option<EventWithBytes>, AllocError>
    ensures { IfOk result (λ e. IfSome e IsWithinBounds) }
{
    let mut fields = words.splitn(4, ' ');
    let moment = number(fields.next());
    let word = fields.next().unwrap_or("");
    let place = fields.next().unwrap_or("");
    let bytes = bytes_of(alloc, fields.next().unwrap_or("-"))?;
    let what = what_of(word, place, bytes.len());
    event_with(alloc, moment, what, bytes.as_slice())
}

/// The events of the lines `event ..`.
fn events_of(alloc: Global, history: &str) -> Result<Events, AllocError> {
    let mut events = Events::new(alloc);
    for line in history.lines() {
        if let Some(words) = line.strip_prefix("event ") {
            if let Some(event) = event_of(alloc, words)? {
                events.push(event)?;
            }
        }
    }
    Ok(events)
}

/// The next event and its bytes.
pub fn put_next<N: Net>(text: &mut String, net: &mut N) -> Result<(), AllocError> {
    let mut buffer = [0u8; 4096];
    match net.next(&mut buffer) {
        Next::Got(event) => {
            write!(text, "at {} {:?} ", event.moment, event.what)?;
            put_bytes(text, buffer.get(..event.what.byte_count()).unwrap_or(b""))
        }
        Next::Failed => text.push_str("Failed"),
    }
}

/// The place to listen at of these words.
fn place_of(alloc: Global, words: &str) -> Result<Place, AllocError> {
    let mut fields = words.split(' ');
    let http_host = Text::copy_of(alloc, fields.next().unwrap_or(""))?;
    let http_port = small_number(fields.next());
    let coap_host = Text::copy_of(alloc, fields.next().unwrap_or(""))?;
    let coap_port = small_number(fields.next());
    Ok(Place {
        http_host,
        http_port,
        coap_host,
        coap_port,
        idle: number(fields.next()),
    })
}

/// Listens, and says the answer.
pub fn put_listened<N: Net>(
    text: &mut String,
    alloc: Global,
    net: &mut N,
    words: &str,
) -> Result<(), AllocError> {
    let place = place_of(alloc, words)?;
    write!(text, "{:?}", net.listen(alloc, &place))
}

/// Sends a datagram.
fn send_datagram<N: Net>(alloc: Global, net: &mut N, words: &str) -> Result<(), AllocError> {
    let (to, bytes) = words.split_once(' ').unwrap_or((words, "-"));
    let bytes = bytes_of(alloc, bytes)?;
    net.datagram(endpoint_of(to), bytes.as_slice());
    Ok(())
}

/// Sends a head and a body.
fn send<N: Net>(alloc: Global, net: &mut N, words: &str) -> Result<(), AllocError> {
    let mut fields = words.splitn(3, ' ');
    let c = connection_of(fields.next().unwrap_or(""));
    let head = fields.next().unwrap_or("").as_bytes();
    let body = bytes_of(alloc, fields.next().unwrap_or("-"))?;
    net.send(c, head, body.as_slice());
    Ok(())
}

/// Writes an endpoint.
pub fn put_endpoint(text: &mut String, to: Endpoint) -> Result<(), AllocError> {
    write!(text, "host{}:{}", to.host, to.port)
}

/// Writes an act.
fn put_act(text: &mut String, act: &Act) -> Result<(), AllocError> {
    match act {
        Act::Sent(c, bytes) => {
            write!(text, "sent {c} ")?;
            put_runs(text, bytes.as_slice())
        }
        Act::Closed(c) => write!(text, "closed {c}"),
        Act::Datagram(to, bytes) => {
            text.push_str("datagram ")?;
            put_endpoint(text, *to)?;
            text.push_str(" ")?;
            put_runs(text, bytes.as_slice())
        }
        Act::Listened(place) => write!(
            text,
            "listened {}:{} {}:{} idle {}",
            place.http_host.as_str(),
            place.http_port,
            place.coap_host.as_str(),
            place.coap_port,
            place.idle
        ),
        Act::Dialled(host, port, c) => write!(text, "dialled {}:{port} {c:?}", host.as_str()),
        Act::Looked(host, port, to) => write!(text, "looked {}:{port} {to:?}", host.as_str()),
    }
}

/// Writes the acts, and the number of those that were lost out of memory.
fn put_acts(text: &mut String, net: &NetMemory) -> Result<(), AllocError> {
    for act in net.acts().iter() {
        put_act(text, act)?;
        text.push_str("; ")?;
    }
    write!(text, "{} lost", net.lost())
}

/// The host and the port of these words.
pub fn host_of(words: &str) -> (&str, u16) {
    let (host, port) = words.split_once(' ').unwrap_or((words, ""));
    (host, small_number(Some(port)))
}

/// Does a step that has no answer.
pub fn act_on<N: Net>(
    alloc: Global,
    net: &mut N,
    word: &str,
    words: &str,
) -> Result<(), AllocError> {
    match word {
        "datagram" => send_datagram(alloc, net, words),
        "send" => send(alloc, net, words),
        _ => {
            net.close(connection_of(words));
            Ok(())
        }
    }
}

/// Does a step of any network.
pub fn put_done<N: Net>(
    text: &mut String,
    alloc: Global,
    net: &mut N,
    word: &str,
    words: &str,
) -> Result<(), AllocError> {
    let (host, port) = host_of(words);
    match word {
        "next" => put_next(text, net),
        "listen" => put_listened(text, alloc, net, words),
        "dial" => write!(text, "{:?}", net.dial(alloc, host, port)),
        "find" => write!(text, "{:?}", net.find(alloc, host, port)),
        _ => {
            act_on(alloc, net, word, words)?;
            text.push_str("done")
        }
    }
}

/// Does a step, and writes what comes of it.
fn put_step(
    text: &mut String,
    alloc: Global,
    net: &mut NetMemory,
    step: &str,
) -> Result<(), AllocError> {
    let (word, words) = step.split_once(' ').unwrap_or((step, ""));
    match word {
        "acts" => put_acts(text, net),
        _ => put_done(text, alloc, net, word, words),
    }
}

pub fn put(text: &mut String, alloc: Global, history: &str) -> Result<(), AllocError> {
    let mut net = NetMemory::new(alloc, events_of(alloc, history)?, fails_of(alloc, history)?)?;
    put_rows(
        text,
        history,
        |text, step| put_step(text, alloc, &mut net, step),
    )
}
