//! CoAP messages as bytes (RFC 7252, section 3).
//!
//! ```text
//! decoding   BYTES => MESSAGE or fault     what is read
//! encoding   N M MESSAGE => N BYTES        what is written into a room of M bytes `-`, with N bytes of room for the options, and how
//!                                          many; `no room for #NUMBER` before it, where an option was not taken
//! ```
//!
//! Bytes and messages are written as `cases_notation` says.

ghost use Rattle.std.specs.Prelude.{◌≤◌, IfOk};
ghost use Rattle.coap_msg.specs.Opts.{last_number};

use cases_notation::{bytes_of, message_of, put as put_bytes, put_message};
use coap_msg::{Message, Opts, Plain, decode, encode};
use std::alloc::{AllocError, Global};
use std::fmt::Write;

/// The largest room that a row may ask for.
const LARGEST_ROOM: usize = 4_096;

/// The largest length of an option's value.
const LARGEST_VALUE: usize = 65_804;

/// Writes the message of bytes, or their fault.
fn put_read(said: &mut String, bytes: &[u8]) -> Result<(), AllocError> {
    match decode(bytes) {
        Ok(_) => put_message(said, bytes),
        Err(fault) => write!(said, "{fault}"),
    }
}

/// The same of bytes as they are written down.
pub fn put_decoded(said: &mut String, alloc: Global, given: &str) -> Result<(), AllocError> {
    put_read(said, bytes_of(alloc, given)?.as_slice())
}

/// Writes an option after one of the number `last`, and gives the number of the last one.
fn push(
    said: &mut String,
    options: &mut Opts<'_>,
    last: u16,
    number: u16,
    value: &[u8],
) -> Result<u16, AllocError>
    requires { last_number 0 options.old.list ≤ last }
    ensures { IfOk result (λ new. last_number 0 options.new.list ≤ new) }
{
    if number < last || value.len() > LARGEST_VALUE {
        return Ok(last);
    }
    match options.push(number, value) {
        Ok(()) => Ok(number),
        Err(_) => {
            write!(said, "no room for #{number}; ")?;
            Ok(last)
        }
    }
}

/// Writes the options of a message.
fn push_all(
    said: &mut String,
    options: &mut Opts<'_>,
    message: &Message<'_>,
) -> Result<(), AllocError>
    requires { last_number 0 options.old.list ≤ 0 }
{
    let mut last = 0;
    for (number, value) in message.options.iter() {
        last = push(said, options, last, number, value)?;
    }
    Ok(())
}

/// Writes what is written of a message with these options.
fn put_encoded(
    said: &mut String,
    options: &Opts<'_>,
    message: &Message<'_>,
    out: &mut [u8],
) -> Result<(), AllocError> {
    let plain = Plain {
        kind: message.kind,
        code: message.code,
        id: message.id,
        token: message.token,
        options,
        payload: message.payload,
    };
    if message.token.len() > 8 || message.code == 0 || !matches!(message.code / 32, 0 | 2 | 4 | 5) {
        return said.push_str("no such message");
    }
    match encode(&plain, out) {
        Ok(size) => write!(said, "{size} ")?,
        Err(fault) => write!(said, "{fault} ")?,
    }
    put_bytes(said, out)
}

/// The same with options that are written into a room.
fn put_with_options(
    said: &mut String,
    message: &Message<'_>,
    room: &mut [u8],
    out: &mut [u8],
) -> Result<(), AllocError> {
    let mut options = Opts::on(room);
    push_all(said, &mut options, message)?;
    put_encoded(said, &options, message, out)
}

/// The same with a room of this size for what is written.
fn put_into(
    said: &mut String,
    alloc: Global,
    message: &Message<'_>,
    room: &mut [u8],
    size: usize,
) -> Result<(), AllocError> {
    let mut out = vec![in alloc; b'-'; size]?;
    put_with_options(said, message, room, out.as_mut_slice())
}

/// The same with a room of this size for the options.
fn put_copy(
    said: &mut String,
    alloc: Global,
    message: &Message<'_>,
    options_size: usize,
    size: usize,
) -> Result<(), AllocError> {
    let mut room = vec![in alloc; 0u8; options_size]?;
    put_into(said, alloc, message, room.as_mut_slice(), size)
}

/// The same of bytes, and rooms in words.
fn put_again(
    said: &mut String,
    alloc: Global,
    bytes: &[u8],
    options_size: &str,
    size: &str,
) -> Result<(), AllocError> {
    let options_size = options_size.parse::<usize>().unwrap_or(0).min(LARGEST_ROOM);
    let size = size.parse::<usize>().unwrap_or(0).min(LARGEST_ROOM);
    match decode(bytes) {
        Ok(message) => put_copy(said, alloc, &message, options_size, size),
        Err(fault) => write!(said, "{fault}"),
    }
}

/// Writes what comes of a row.
pub fn put(said: &mut String, alloc: Global, given: &str) -> Result<(), AllocError> {
    let (options_size, rest) = given.split_once(' ').unwrap_or((given, ""));
    let (size, text) = rest.split_once(' ').unwrap_or((rest, ""));
    let bytes = message_of(alloc, text)?;
    put_again(said, alloc, bytes.as_slice(), options_size, size)
}
