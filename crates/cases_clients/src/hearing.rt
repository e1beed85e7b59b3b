//! The messages that come to a client and are due, its news, and the messages that it sends.

ghost use Rattle.std.specs.Prelude.{◌≤◌};

use crate::asking::put_sent;
use cases_notation::{endpoint_of, message_of, put as put_bytes};
use coap_client::{Client, Due, News};
use coap_msg::{Block, Endpoint, LONGEST_MESSAGE};
use std::alloc::{AllocError, Global};
use std::fmt::Write;

/// The block that a response says, as the number of its option (RFC 7959, section 2.2).
fn put_block(text: &mut String, block: Option<Block>) -> Result<(), AllocError> {
    match block {
        Some(block) => {
            let more = if block.more { 8 } else { 0 };
            let number = u64::from(block.number) * 16 + more + u64::from(block.szx);
            write!(text, "Block2={number} ")
        }
        None => Ok(()),
    }
}

/// The news.
fn put_news(text: &mut String, news: News<'_>) -> Result<(), AllocError> {
    match news {
        News::Nothing => text.push_str("nothing"),
        News::Answered(code, block2, payload) => {
            write!(text, "answered {}.{:02} ", code / 32, code % 32)?;
            put_block(text, block2)?;
            put_bytes(text, payload)
        }
        News::Value(payload) => {
            text.push_str("value ")?;
            put_bytes(text, payload)
        }
        News::Old => text.push_str("old"),
        News::Reset => text.push_str("reset"),
    }
}

/// The news of a datagram, and the reply to it.
fn put_delivered(
    text: &mut String,
    client: &mut Client,
    now: u64,
    from: Endpoint,
    bytes: &[u8],
) -> Result<(), AllocError>
    requires { client.old.moment ≤ now }
    ensures { client.new.moment ≤ now }
{
    let mut room = [0; LONGEST_MESSAGE];
    let delivered = client.deliver(now, from, bytes, &mut room);
    put_news(text, delivered.news)?;
    match delivered.reply {
        Some(size) => {
            text.push_str(", ")?;
            put_sent(text, room.get(..size).unwrap_or(b""))
        }
        None => Ok(()),
    }
}

/// Hears a message from a host.
pub fn put(
    text: &mut String,
    alloc: Global,
    client: &mut Client,
    words: &str,
    now: u64,
) -> Result<(), AllocError>
    requires { client.old.moment ≤ now }
    ensures { client.new.moment ≤ now }
{
    let (from, message) = words.split_once(' ').unwrap_or((words, "bytes -"));
    let bytes = message_of(alloc, message)?;
    put_delivered(text, client, now, endpoint_of(from), bytes.as_slice())
}

/// Does what is due.
pub fn put_due(text: &mut String, client: &mut Client, now: u64) -> Result<(), AllocError>
    requires { client.old.moment ≤ now }
    ensures { client.new.moment ≤ now }
{
    let mut room = [0; LONGEST_MESSAGE];
    match client.due(now, &mut room) {
        Due::Nothing => text.push_str("nothing"),
        Due::Send(size) => put_sent(text, room.get(..size).unwrap_or(b"")),
        Due::TimedOut => text.push_str("timed out"),
    }
}
