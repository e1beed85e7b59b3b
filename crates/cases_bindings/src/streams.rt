//! HTTP connections: the bytes of a stream, and the bytes that are sent, however they come: at once, in pieces of 1 and
//! of 7 bytes, and cut at any place; with the word `cut` before it also cut at any two places.

ghost use Rattle.std.specs.Prelude.{◌<◌, ◌≤◌, OnOk, length};
ghost use Rattle.http_bind.specs.Slots.{HasRoom};

use crate::talk::{Talk, handle};
use cases_notation::{bytes_of, put_runs};
use http_bind::{HttpBind, new_room};
use std::alloc::{AllocError, Global};
use std::fmt::Write;

/// The connection that streams come on.
const CONNECTION: u32 = 5;

/// The longest piece that may come at once.
const LONGEST_PIECE: usize = 4096;

/// Hears a piece that isn't too long, and does the work that is then due.
fn hear(
    http: &mut HttpBind,
    talk: &mut Talk,
    room: &mut [u8],
    piece: &[u8],
) -> Result<(), AllocError>
    requires room { 24576 ≤ length room.old }
    requires held { HasRoom 5 http.old }
    ensures { OnOk result (HasRoom 5 http.new) }
{
    if piece.len() <= LONGEST_PIECE {
        http.bytes(CONNECTION, piece, 0);
    }
    handle(http, CONNECTION, talk, room)
}

/// Hears a stream in pieces of this many bytes.
fn hear_pieces(
    http: &mut HttpBind,
    talk: &mut Talk,
    room: &mut [u8],
    stream: &[u8],
    size: usize,
) -> Result<(), AllocError>
    requires room { 24576 ≤ length room.old }
    requires size { 0 < size }
{
    talk.begin()?;
    http.opened(CONNECTION, 0);
    for piece in stream.chunks(size) {
        hear(http, talk, room, piece)?;
    }
    Ok(())
}

/// Two places in a stream.
#[derive(Clone, Copy)]
struct Cut {
    first: usize,
    second: usize,
}

/// Hears a stream that is cut at two places.
fn hear_cut(
    http: &mut HttpBind,
    talk: &mut Talk,
    room: &mut [u8],
    stream: &[u8],
    cut: Cut,
) -> Result<(), AllocError>
    requires { 24576 ≤ length room.old }
{
    talk.begin()?;
    http.opened(CONNECTION, 0);
    let between = stream.get(cut.first..cut.second).unwrap_or(b"");
    hear(http, talk, room, stream.get(..cut.first).unwrap_or(b""))?;
    hear(http, talk, room, between)?;
    hear(http, talk, room, stream.get(cut.second..).unwrap_or(b""))
}

/// A stream, and the bytes that are sent where it comes at once.
#[derive(Clone, Copy)]
struct Sent<'a> {
    stream: &'a [u8],
    sent: &'a [u8],
}

/// Says of pieces of a size whether something else is sent.
fn put_pieces(
    text: &mut String,
    alloc: Global,
    wanted: Sent<'_>,
    size: usize,
) -> Result<(), AllocError>
    requires { 0 < size }
{
    if talk_in_pieces(alloc, wanted.stream, size)?.sent.as_slice() != wanted.sent {
        write!(text, ", something else in pieces of {size}")?;
    }
    Ok(())
}

/// The last place of a second cut after a first one: where the stream isn't cut twice, the first one's.
fn last_second(stream: &[u8], first: usize, is_twice: bool) -> usize {
    if is_twice { stream.len() } else { first }
}

/// The first cut of this first place after which something else is sent.
fn first_otherwise(
    http: &mut HttpBind,
    talk: &mut Talk,
    room: &mut [u8],
    wanted: Sent<'_>,
    cut: Cut,
) -> Result<Option<usize>, AllocError>
    requires { 24576 ≤ length room.old }
{
    let first = cut.first;
    for second in first..=cut.second {
        hear_cut(http, talk, room, wanted.stream, Cut { first, second })?;
        if talk.sent.as_slice() != wanted.sent {
            return Ok(Some(second));
        }
    }
    Ok(None)
}

/// Says of cuts whether something else is sent. All is lent, since a function pays at each early exit for what it owns.
fn put_cuts_in(
    text: &mut String,
    talk: &mut Talk,
    room: &mut [u8],
    wanted: Sent<'_>,
    is_twice: bool,
) -> Result<(), AllocError>
    requires { 24576 ≤ length room.old }
{
    let mut http = HttpBind::new(talk.alloc)?;
    for first in 0..=wanted.stream.len() {
        let second = last_second(wanted.stream, first, is_twice);
        let cut = Cut { first, second };
        if let Some(place) = first_otherwise(&mut http, talk, room, wanted, cut)? {
            return write!(text, ", something else when cut at {first} and {place}");
        }
    }
    Ok(())
}

/// Says of cuts whether something else is sent.
fn put_cuts(
    text: &mut String,
    alloc: Global,
    wanted: Sent<'_>,
    is_twice: bool,
) -> Result<(), AllocError> {
    let mut talk = Talk::new(alloc);
    let mut room = new_room(alloc)?;
    put_cuts_in(text, &mut talk, room.as_mut_slice(), wanted, is_twice)
}

/// The talk where the stream comes in pieces of this many bytes, with the room lent.
fn talk_in(alloc: Global, room: &mut [u8], stream: &[u8], size: usize) -> Result<Talk, AllocError>
    requires room { 24576 ≤ length room.old }
    requires size { 0 < size }
{
    let mut http = HttpBind::new(alloc)?;
    let mut talk = Talk::new(alloc);
    hear_pieces(&mut http, &mut talk, room, stream, size)?;
    Ok(talk)
}

/// The talk where the stream comes in pieces of this many bytes.
fn talk_in_pieces(alloc: Global, stream: &[u8], size: usize) -> Result<Talk, AllocError>
    requires { 0 < size }
{
    let mut room = new_room(alloc)?;
    talk_in(alloc, room.as_mut_slice(), stream, size)
}

/// Writes the bytes that are sent for a stream.
fn put_stream(
    text: &mut String,
    alloc: Global,
    stream: &[u8],
    is_twice: bool,
) -> Result<(), AllocError> {
    let talk = talk_in_pieces(alloc, stream, LONGEST_PIECE)?;
    let wanted = Sent {
        stream,
        sent: talk.sent.as_slice(),
    };
    put_runs(text, wanted.sent)?;
    put_pieces(text, alloc, wanted, 1)?;
    put_pieces(text, alloc, wanted, 7)?;
    put_cuts(text, alloc, wanted, is_twice)
}

pub fn put(text: &mut String, alloc: Global, given: &str) -> Result<(), AllocError> {
    let (stream, is_twice) = match given.strip_prefix("cut ") {
        Some(stream) => (stream, true),
        None => (given, false),
    };
    put_stream(text, alloc, bytes_of(alloc, stream)?.as_slice(), is_twice)
}
