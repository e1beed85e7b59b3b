//! Steps of the CoAP server that are whole bodies in blocks: `read LENGTH SZX`, a description of this length that a
//! host of its own reads in blocks of this size; and `write LENGTH SZX`, a body of this length that it writes in
//! blocks. The result says the number of blocks, and whether each reply and the joined body are as they should be.

ghost use Rattle.std.specs.Prelude.{◌<◌, ◌≤◌};
ghost use Rattle.thing_ops.specs.Outcomes.{HasCode};
ghost use Rattle.coap_bind.specs.Laws.{HasShortPlace};

use crate::datagrams::{LONGEST_BODY, Origin};
use cases_notation::{message_of, number};
use coap_bind::{CoapBind, CoapNext};
use coap_msg::{
    BLOCK1, BLOCK2, Block, CONTENT, CONTINUE, Endpoint, LONGEST_DATAGRAM, LONGEST_MESSAGE, Message,
    decode, read_block,
};
use std::alloc::{AllocError, Global};
use std::fmt::Write;
use thing_ops::Outcome;
use wot_json::Bytes;

/// 2.04.
const CHANGED: u8 = 68;

/// Whether a step is one of these.
pub fn is_step(step: &str) -> bool {
    step.starts_with("read ") || step.starts_with("write ")
}

/// A body, and the exponent of the size of its blocks.
#[derive(Clone, Copy)]
struct Cut<'a> {
    body: &'a [u8],
    szx: u8,
}

/// The outcome of a block of a request.
#[derive(Clone, Copy, PartialEq)]
enum Came {
    Joined,
    GoesOn,
    Refused,
}

/// The size of a block (RFC 7959, section 2.2).
fn size_of(szx: u8) -> usize
    ensures { 0 < result }
{
    match szx {
        0 => 16,
        1 => 32,
        2 => 64,
        3 => 128,
        4 => 256,
        5 => 512,
        _ => 1024,
    }
}

/// The bytes of the block with this number.
fn piece(cut: Cut<'_>, number: usize) -> &[u8] {
    let size = size_of(cut.szx);
    let start = number.saturating_mul(size);
    let end = start.saturating_add(size).min(cut.body.len());
    cut.body.get(start..end).unwrap_or(b"")
}

/// Whether blocks follow the one with this number.
fn goes_on(cut: Cut<'_>, number: usize) -> bool {
    number.saturating_add(1).saturating_mul(size_of(cut.szx)) < cut.body.len()
}

/// The number of blocks of a body.
fn count_of(cut: Cut<'_>) -> usize {
    cut.body.len().div_ceil(size_of(cut.szx))
}

/// The block that an option of this number says.
fn block_said(message: &Message<'_>, wanted: u16) -> Option<Block> {
    for (number, value) in message.options.iter() {
        if number == wanted {
            return read_block(value);
        }
    }
    None
}

/// Whether a reply has this code, this payload and an option of this number for this block.
fn is_reply(reply: &[u8], code: u8, option: u16, block: Block, payload: &[u8]) -> bool {
    match decode(reply) {
        Ok(message) => {
            message.code == code
                && message.payload == payload
                && block_said(&message, option) == Some(block)
        }
        Err(_) => false,
    }
}

/// The block with this number.
fn block_at(cut: Cut<'_>, number: usize) -> Block {
    Block {
        number: u32::try_from(number).unwrap_or(0),
        more: goes_on(cut, number),
        szx: cut.szx,
    }
}

/// The number of bytes that are sent back, where an ask has this outcome.
fn replied(
    server: &mut CoapBind,
    origin: Origin,
    datagram: &[u8],
    outcome: &Outcome,
    room: &mut [u8; LONGEST_MESSAGE],
) -> usize
    requires now { server.old.exchanges.moment ≤ origin.now }
    requires code { HasCode outcome.now }
    requires place { HasShortPlace outcome.now }
    ensures { server.new.exchanges.moment ≤ origin.now }
{
    let mut body = [0u8; LONGEST_BODY];
    if datagram.len() > LONGEST_DATAGRAM {
        return 0;
    }
    match server.datagram(origin.from, datagram, origin.now, room, &mut body) {
        CoapNext::Nothing => 0,
        CoapNext::Send(size) => size,
        CoapNext::Ask(_, ticket) => server.answer(ticket, outcome, None, room),
    }
}

/// A request for the block with this number.
fn request_for(alloc: Global, szx: u8, number: usize) -> Result<Vec<u8>, AllocError> {
    let mut text = String::new(alloc);
    let value = number.saturating_mul(16).saturating_add(usize::from(szx));
    write!(text, "NON GET {number} - /a Block2={value}")?;
    message_of(alloc, text.as_str())
}

/// Whether all blocks of the payload of this outcome are given as they should be.
fn each_is_given(
    alloc: Global,
    server: &mut CoapBind,
    origin: Origin,
    cut: Cut<'_>,
    outcome: &Outcome,
) -> Result<bool, AllocError>
    requires now { server.old.exchanges.moment ≤ origin.now }
    requires code { HasCode outcome.now }
    requires place { HasShortPlace outcome.now }
    ensures { server.new.exchanges.moment ≤ origin.now }
{
    let mut room = [0u8; LONGEST_MESSAGE];
    let mut right = true;
    for number in 0..count_of(cut) {
        let datagram = request_for(alloc, cut.szx, number)?;
        let size = replied(server, origin, datagram.as_slice(), outcome, &mut room);
        let reply = room.get(..size).unwrap_or(b"");
        let (block, payload) = (block_at(cut, number), piece(cut, number));
        right = is_reply(reply, CONTENT, BLOCK2, block, payload) && right;
    }
    Ok(right)
}

/// The same of a description with this body.
fn are_given(
    alloc: Global,
    server: &mut CoapBind,
    origin: Origin,
    cut: Cut<'_>,
) -> Result<bool, AllocError>
    requires { server.old.exchanges.moment ≤ origin.now }
    ensures { server.new.exchanges.moment ≤ origin.now }
{
    let outcome = Outcome::Description(Bytes::copy_of(alloc, cut.body)?, true);
    each_is_given(alloc, server, origin, cut, &outcome)
}

/// The outcome of a datagram with a block of a request.
fn taken(
    server: &mut CoapBind,
    origin: Origin,
    datagram: &[u8],
    cut: Cut<'_>,
    number: usize,
) -> Came
    requires { server.old.exchanges.moment ≤ origin.now }
    ensures { server.new.exchanges.moment ≤ origin.now }
{
    let mut body = [0u8; LONGEST_BODY];
    let mut room = [0u8; LONGEST_MESSAGE];
    if datagram.len() > LONGEST_DATAGRAM {
        return Came::Refused;
    }
    match server.datagram(origin.from, datagram, origin.now, &mut room, &mut body) {
        CoapNext::Nothing => Came::Refused,
        CoapNext::Send(size) => {
            let reply = room.get(..size).unwrap_or(b"");
            if is_reply(reply, CONTINUE, BLOCK1, block_at(cut, number), b"") {
                Came::GoesOn
            } else {
                Came::Refused
            }
        }
        CoapNext::Ask(ask, ticket) => {
            let same = ask.request.body == cut.body;
            let size = server.answer(ticket, &Outcome::Changed, None, &mut room);
            let reply = room.get(..size).unwrap_or(b"");
            if same && is_reply(reply, CHANGED, BLOCK1, block_at(cut, number), b"") {
                Came::Joined
            } else {
                Came::Refused
            }
        }
    }
}

/// The outcome of the block with this number of a request.
fn written(
    alloc: Global,
    server: &mut CoapBind,
    origin: Origin,
    cut: Cut<'_>,
    number: usize,
) -> Result<Came, AllocError>
    requires { server.old.exchanges.moment ≤ origin.now }
    ensures { server.new.exchanges.moment ≤ origin.now }
{
    let mut text = String::new(alloc);
    let more = if goes_on(cut, number) { 8 } else { 0 };
    let value = number
        .saturating_mul(16)
        .saturating_add(more)
        .saturating_add(usize::from(cut.szx));
    write!(text, "NON PUT {number} - /a Block1={value} ")?;
    for byte in piece(cut, number) {
        text.push(char::from(*byte))?;
    }
    let datagram = message_of(alloc, text.as_str())?;
    Ok(taken(server, origin, datagram.as_slice(), cut, number))
}

/// Whether all blocks of a request are joined, and each but the last is told to go on.
fn are_joined(
    alloc: Global,
    server: &mut CoapBind,
    origin: Origin,
    cut: Cut<'_>,
) -> Result<bool, AllocError>
    requires { server.old.exchanges.moment ≤ origin.now }
    ensures { server.new.exchanges.moment ≤ origin.now }
{
    let mut right = true;
    for number in 0..count_of(cut) {
        let wanted = if goes_on(cut, number) {
            Came::GoesOn
        } else {
            Came::Joined
        };
        right = written(alloc, server, origin, cut, number)? == wanted && right;
    }
    Ok(right)
}

/// A body of this length: the letters from a to w, again and again.
fn letters(alloc: Global, length: u64) -> Result<Vec<u8>, AllocError> {
    let mut body = Vec::new(alloc);
    for index in 0..length {
        body.push(b'a' + (index % 23) as u8)?;
    }
    Ok(body)
}

/// Writes the result of a step with a body.
fn put_transfer(
    text: &mut String,
    alloc: Global,
    server: &mut CoapBind,
    origin: Origin,
    cut: Cut<'_>,
) -> Result<(), AllocError>
    requires { server.old.exchanges.moment ≤ origin.now }
    ensures { server.new.exchanges.moment ≤ origin.now }
{
    write!(text, "{} blocks, ", count_of(cut))?;
    if origin.target.is_some() {
        let right = are_joined(alloc, server, origin, cut)?;
        return text.push_str(if right { "joined" } else { "refused" });
    }
    let right = are_given(alloc, server, origin, cut)?;
    text.push_str(if right {
        "each as it should be"
    } else {
        "not as they should be"
    })
}

/// Does a step, and writes its result.
pub fn put(
    text: &mut String,
    alloc: Global,
    server: &mut CoapBind,
    step: &str,
    now: u64,
) -> Result<(), AllocError>
    requires { server.old.exchanges.moment ≤ now }
    ensures { server.new.exchanges.moment ≤ now }
{
    let mut words = step.split(' ');
    let writes = words.next() == Some("write");
    let length = number(words.next());
    let szx = number(words.next()) % 7;
    let body = letters(alloc, length)?;
    let host = length.saturating_mul(8).saturating_add(szx);
    let origin = Origin {
        from: Endpoint {
            host: u128::from(host),
            port: if writes { 2 } else { 1 },
        },
        now,
        target: if writes { Some(0) } else { None },
    };
    let cut = Cut {
        body: body.as_slice(),
        szx: szx as u8,
    };
    put_transfer(text, alloc, server, origin, cut)
}
