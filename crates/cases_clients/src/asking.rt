//! The requests that a client is asked for, in words, and the messages that it sends.

ghost use Rattle.std.specs.Prelude.{◌≤◌, ◌≢◌, ◌<◌, length, All, IfOk, IfSome};
ghost use Rattle.coap_msg.specs.Blocks.{IsBlock};
ghost use Rattle.coap_client.specs.Asking.{MayAsk, asking_of};

use cases_notation::{bytes_of, endpoint_of, format_of, number, option_of, put_message};
use coap_client::{Ask, Client};
use coap_msg::{Block, Endpoint, LONGEST_MESSAGE};
use std::alloc::{AllocError, Global};
use std::fmt::Write;
use thing_ops::Segments;

/// A request, in words.
#[derive(Clone, Copy)]
pub struct Asked<'a> {
    pub peer: Endpoint,
    observe: Option<bool>,
    method: &'a str,
    pub path: &'a str,
    format: Option<&'a str>,
    block2: Option<&'a str>,
    block1: Option<&'a str>,
    payload: &'a str,
}

/// Whether to observe.
fn observe_of(word: &str) -> Option<bool> {
    match word {
        "observe" => Some(true),
        "unobserve" => Some(false),
        _ => None,
    }
}

/// The block that a number says (RFC 7959, section 2.2); none where it says none.
fn block_of(digits: Option<&str>) -> Option<Block>
    ensures { IfSome result IsBlock }
{
    let value = match digits {
        Some(digits) => number(Some(digits)),
        None => return None,
    };
    let szx = (value % 8) as u8;
    if value >= 1 << 24 || szx > 6 {
        return None;
    }
    Some(Block {
        number: (value / 16) as u32,
        more: value / 8 % 2 == 1,
        szx,
    })
}

/// The request of the word of a step and the words after it.
pub fn asked_of<'a>(word: &'a str, words: &'a str) -> Asked<'a> {
    let mut fields = words.splitn(4, ' ');
    let peer = endpoint_of(fields.next().unwrap_or(""));
    let method = fields.next().unwrap_or("");
    let path = fields.next().unwrap_or("/");
    let (format, words) = option_of("Content-Format=", fields.next().unwrap_or("-"));
    let (block2, words) = option_of("Block2=", words);
    let (block1, payload) = option_of("Block1=", words);
    Asked {
        peer,
        observe: observe_of(word),
        method,
        path,
        format,
        block2,
        block1,
        payload,
    }
}

/// The code of a method; GET for any other word.
fn code_of(method: &str) -> u8
    ensures least { result ≢ 0 }
    ensures most { result < 32 }
{
    match method {
        "POST" => 2,
        "PUT" => 3,
        "DELETE" => 4,
        _ => 1,
    }
}

/// The path of a text; a segment that is empty or too long is left out.
pub fn path_of(alloc: Global, text: &str) -> Result<Segments, AllocError>
    ensures { IfOk result (λ path. All (λ segment. length segment ≤ 255) path) }
{
    let mut path = Segments::new(alloc);
    for segment in text.split('/').skip(1) {
        if !segment.is_empty() && segment.len() <= 255 {
            path.push(segment.as_bytes())?;
        }
    }
    Ok(path)
}

/// The request to this path and with this payload.
pub fn ask_of<'a>(asked: Asked<'_>, path: &'a Segments, payload: &'a [u8]) -> Ask<'a>
    requires { All (λ segment. length segment ≤ 255) path.now }
    ensures { MayAsk (asking_of result) }
{
    Ask {
        code: code_of(asked.method),
        path,
        observe: asked.observe,
        format: format_of(asked.format),
        block1: block_of(asked.block1),
        block2: block_of(asked.block2),
        payload,
    }
}

/// Writes a message that is sent: of a long one how many bytes it has, and what the first of them say.
pub fn put_sent(text: &mut String, bytes: &[u8]) -> Result<(), AllocError> {
    text.push_str("sends ")?;
    if bytes.len() <= 500 {
        return put_message(text, bytes);
    }
    write!(text, "{} bytes, the first 40 of them ", bytes.len())?;
    put_message(text, bytes.get(..40).unwrap_or(b""))
}

/// Asks, and says what is sent.
fn put_ask(
    text: &mut String,
    client: &mut Client,
    now: u64,
    peer: Endpoint,
    ask: &Ask<'_>,
) -> Result<(), AllocError>
    requires now { client.old.moment ≤ now }
    requires ask { MayAsk (asking_of ask.now) }
    ensures { client.new.moment ≤ now }
{
    let mut room = [0; LONGEST_MESSAGE];
    match client.request(now, peer, ask, &mut room) {
        Ok(size) => put_sent(text, room.get(..size).unwrap_or(b"")),
        Err(fault) => write!(text, "{fault:?}"),
    }
}

pub fn put(
    text: &mut String,
    alloc: Global,
    client: &mut Client,
    asked: Asked<'_>,
    now: u64,
) -> Result<(), AllocError>
    requires { client.old.moment ≤ now }
    ensures { client.new.moment ≤ now }
{
    let path = path_of(alloc, asked.path)?;
    let payload = bytes_of(alloc, asked.payload)?;
    let ask = ask_of(asked, &path, payload.as_slice());
    put_ask(text, client, now, asked.peer, &ask)
}
