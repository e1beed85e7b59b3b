//! The connections of an HTTP server. A step is its moment, a word, the number of a connection or `all` for the 64 of
//! them, and bytes; and its result:
//!
//! - `opens`: the connection is opened;
//! - `hears`: its work is done, and these bytes come;
//! - `does`: its work is done, at this moment: the bytes that are sent, `-` for none; of all connections those
//!   of the first, and those of any other where they differ;
//! - `ends`: it has ended;
//! - `waiting`, with the number of a target in place of a connection: the one that waits longest for it;
//! - `wakes`, with a target and a text: the bytes that are sent to that one;
//! - `late` (without a number): the one that waits longest, of those that are late;
//! - `expires` (without a number): the bytes that are sent to that one;
//! - `idle` (without a number): the lowest that is idle.

ghost use Rattle.std.specs.Prelude.{◌≤◌, ◌<◌, IfSome, length};
ghost use Rattle.http_bind.specs.Slots.{IsWaiting, longest_text};

use crate::talk::{Talk, handle, wake};
use cases_notation::{bytes_of, number, put_rows, put_runs};
use http_bind::{HttpBind, new_room};
use std::alloc::{AllocError, Global};
use std::fmt::Write;

/// The fields of a step.
#[derive(Clone, Copy)]
struct Step<'a> {
    now: u64,
    word: &'a str,
    connections: &'a str,
    bytes: &'a str,
}

/// The fields of a step.
fn step_of(line: &str) -> Step<'_> {
    let mut words = line.splitn(4, ' ');
    Step {
        now: number(words.next()),
        word: words.next().unwrap_or(""),
        connections: words.next().unwrap_or("-"),
        bytes: words.next().unwrap_or("-"),
    }
}

/// The numbers from the first on and before the second.
#[derive(Clone, Copy)]
struct Numbers {
    first: u32,
    end: u32,
}

/// The connections of a step; none where the number is no number of a connection.
fn numbers_of(word: &str) -> Numbers
    ensures { result.end ≤ 64 }
{
    if word == "all" {
        return Numbers { first: 0, end: 64 };
    }
    match word.parse::<u32>() {
        Ok(c) if c < 64 => Numbers {
            first: c,
            end: c + 1,
        },
        _ => Numbers { first: 0, end: 0 },
    }
}

/// The longest piece that may come at once.
const LONGEST_PIECE: usize = 4096;

/// Hears bytes on a connection.
fn hear(
    http: &mut HttpBind,
    c: u32,
    talk: &mut Talk,
    room: &mut [u8],
    bytes: &[u8],
) -> Result<(), AllocError>
    requires connection { c < 64 }
    requires room { 24576 ≤ length room.old }
{
    handle(http, c, talk, room)?;
    if bytes.len() <= LONGEST_PIECE {
        http.bytes(c, bytes, talk.now);
    }
    Ok(())
}

/// A step on one connection: its word, and the bytes that come.
#[derive(Clone, Copy)]
struct Deed<'a> {
    word: &'a str,
    bytes: &'a [u8],
}

/// Does a step on one connection.
fn act(
    http: &mut HttpBind,
    c: u32,
    talk: &mut Talk,
    room: &mut [u8],
    done: Deed<'_>,
) -> Result<(), AllocError>
    requires connection { c < 64 }
    requires room { 24576 ≤ length room.old }
{
    match done.word {
        "opens" => http.opened(c, talk.now),
        "ends" => http.ended(c),
        "does" => handle(http, c, talk, room)?,
        _ => hear(http, c, talk, room, done.bytes)?,
    }
    Ok(())
}

/// Forgets the bytes that were sent from this place on, where they are the same as those before it.
fn forget_repeat(sent: &mut Vec<u8>, place: usize) {
    let bytes = sent.as_slice();
    if place > 0 && bytes.get(place..) == bytes.get(..place) {
        sent.truncate(place);
    }
}

/// Does the same on each of these connections.
fn act_on_each(
    http: &mut HttpBind,
    numbers: Numbers,
    talk: &mut Talk,
    room: &mut [u8],
    done: Deed<'_>,
) -> Result<(), AllocError>
    requires numbers { numbers.end ≤ 64 }
    requires room { 24576 ≤ length room.old }
{
    talk.sent.clear();
    for c in numbers.first..numbers.end {
        let place = talk.sent.len();
        act(http, c, talk, room, done)?;
        forget_repeat(&mut talk.sent, place);
    }
    Ok(())
}

/// Does a step.
fn act_as_told(
    alloc: Global,
    http: &mut HttpBind,
    talk: &mut Talk,
    room: &mut [u8],
    step: Step<'_>,
) -> Result<(), AllocError>
    requires { 24576 ≤ length room.old }
{
    let bytes = bytes_of(alloc, step.bytes)?;
    let done = Deed {
        word: step.word,
        bytes: bytes.as_slice(),
    };
    act_on_each(http, numbers_of(step.connections), talk, room, done)
}

/// Writes the number of a connection, if there is one.
fn put_connection(text: &mut String, connection: Option<u32>) -> Result<(), AllocError> {
    match connection {
        Some(c) => write!(text, "{c}"),
        None => text.push_str("none"),
    }
}

/// The longest text that a request waits for.
const LONGEST_TEXT: usize = 1024;

/// Replies to a request that waits, and says on which connection.
fn put_woken(
    text: &mut String,
    http: &mut HttpBind,
    c: Option<u32>,
    told: Option<&[u8]>,
    talk: &mut Talk,
) -> Result<(), AllocError>
    requires waits { IfSome c (λ d. IsWaiting d http.old) }
    requires told { IfSome told (λ t. length t.now ≤ longest_text) }
{
    talk.sent.clear();
    put_connection(text, c)?;
    if let Some(c) = c {
        wake(http, c, told, talk)?;
        text.push_str(" ")?;
        put_runs(text, talk.sent.as_slice())?;
    }
    Ok(())
}

/// Wakes the connection that waits longest for a target, with a text that isn't too long.
fn put_wakes(
    text: &mut String,
    alloc: Global,
    http: &mut HttpBind,
    talk: &mut Talk,
    step: Step<'_>,
) -> Result<(), AllocError> {
    let told = bytes_of(alloc, step.bytes)?;
    let c = http.waiting(target_of(step));
    if told.len() > LONGEST_TEXT {
        return text.push_str("too long");
    }
    put_woken(text, http, c, Some(told.as_slice()), talk)
}

/// The target of a step.
fn target_of(step: Step<'_>) -> u32 {
    match step.connections.parse::<u32>() {
        Ok(target) => target,
        Err(_) => 0,
    }
}

/// Wakes the connection that waits longest, if it is late, without a text.
fn put_expiry(text: &mut String, http: &mut HttpBind, talk: &mut Talk) -> Result<(), AllocError> {
    let c = http.late(talk.now);
    put_woken(text, http, c, None, talk)
}

/// Does a step, and writes its result.
fn put_act(
    text: &mut String,
    alloc: Global,
    http: &mut HttpBind,
    talk: &mut Talk,
    step: Step<'_>,
) -> Result<(), AllocError> {
    let mut room = new_room(alloc)?;
    act_as_told(alloc, http, talk, room.as_mut_slice(), step)?;
    put_runs(text, talk.sent.as_slice())
}

/// Does a step, and writes its result.
fn put_step(
    text: &mut String,
    alloc: Global,
    http: &mut HttpBind,
    talk: &mut Talk,
    line: &str,
) -> Result<(), AllocError> {
    let step = step_of(line);
    talk.now = step.now;
    match step.word {
        "idle" => put_connection(text, http.idle(step.now)),
        "late" => put_connection(text, http.late(step.now)),
        "waiting" => put_connection(text, http.waiting(target_of(step))),
        "expires" => put_expiry(text, http, talk),
        "wakes" => put_wakes(text, alloc, http, talk, step),
        _ => put_act(text, alloc, http, talk, step),
    }
}

/// Goes through the steps of a history. All is lent, since a function pays at each early exit for what it owns.
fn put_steps(
    text: &mut String,
    alloc: Global,
    http: &mut HttpBind,
    talk: &mut Talk,
    history: &str,
) -> Result<(), AllocError> {
    talk.begin()?;
    put_rows(
        text,
        history,
        |text, step| put_step(text, alloc, http, talk, step),
    )
}

pub fn put(text: &mut String, alloc: Global, history: &str) -> Result<(), AllocError> {
    let mut http = HttpBind::new(alloc)?;
    let mut talk = Talk::new(alloc);
    put_steps(text, alloc, &mut http, &mut talk, history)
}
