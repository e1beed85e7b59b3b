//! CoAP messages in words: type, code, message ID and token (hexadecimal digits, `-` for none), then the options in the
//! order of their numbers, then the payload as `bytes.rt` writes bytes.
//!
//! ```text
//! CON PUT 7 aa /lamp/properties/level Content-Format=50 42
//! ACK 2.05 7 aa Content-Format=50 42
//! NON GET 8 - Observe=0 /lamp/events/beat #9=x
//! bytes \x40\x01\x00
//! ```
//!
//! `/a/b` is two options Uri-Path, `/` alone none. An option is written by its name or `#` and its number; a blank in a
//! value is `\x20`. Bytes that are no message are `bytes` and the bytes themselves. A message is laid out here by RFC
//! 7252, section 3, and not by the encoder, since that is under test.

use crate::bytes::{bytes_of, digit, number, put, put_digits};
use crate::names::{Format, code_of, name_of, option_named, put_code, type_bits};
use coap_msg::{Message, Type4, decode};
use std::alloc::{AllocError, Global};
use std::fmt::Write;

/// The bytes of a token's digits.
fn token_of(alloc: Global, digits: &str) -> Result<Vec<u8>, AllocError> {
    let mut token = Vec::new(alloc);
    for pair in digits.as_bytes().chunks_exact(2) {
        if let [high, low] = pair {
            token.push(digit(*high).wrapping_mul(16).wrapping_add(digit(*low)))?;
        }
    }
    Ok(token)
}

/// The first two bytes of a number.
fn two_bytes(number: u64) -> [u8; 2] {
    let [.., high, low] = number.to_be_bytes();
    [high, low]
}

/// The nibble of a delta or a length.
fn nibble(number: usize) -> u8 {
    match number {
        0..=12 => u8::try_from(number).unwrap_or(0),
        13..=268 => 13,
        _ => 14,
    }
}

/// Writes the extended bytes of a delta or a length, after the option's first byte.
fn extend(bytes: &mut Vec<u8>, number: usize) -> Result<(), AllocError> {
    match number {
        0..=12 => Ok(()),
        13..=268 => {
            bytes.push(u8::try_from(number - 13).unwrap_or(0))?;
            Ok(())
        }
        _ => {
            let rest = u64::try_from(number - 269).unwrap_or(0);
            bytes.extend_from_slice(&two_bytes(rest))
        }
    }
}

/// Writes an option after one of the number `last`.
fn put_option(bytes: &mut Vec<u8>, last: u16, number: u16, value: &[u8]) -> Result<(), AllocError> {
    let delta = usize::from(number.saturating_sub(last));
    bytes.push(
        nibble(delta)
            .wrapping_mul(16)
            .wrapping_add(nibble(value.len())),
    )?;
    extend(bytes, delta)?;
    extend(bytes, value.len())?;
    bytes.extend_from_slice(value)
}

/// A number in as few bytes as it takes.
fn short(alloc: Global, text: &str) -> Result<Vec<u8>, AllocError> {
    let mut value = Vec::new(alloc);
    for byte in number(Some(text)).to_be_bytes().iter() {
        if *byte != 0 || !value.is_empty() {
            value.push(*byte)?;
        }
    }
    Ok(value)
}

/// Writes the options Uri-Path of a path, after one of the number `last`.
fn put_path(alloc: Global, bytes: &mut Vec<u8>, last: u16, path: &str) -> Result<(), AllocError> {
    let mut last = last;
    if path == "/" {
        return Ok(());
    }
    for segment in path.split('/').skip(1) {
        put_option(bytes, last, 11, bytes_of(alloc, segment)?.as_slice())?;
        last = 11;
    }
    Ok(())
}

/// Writes the option of a word after one of the number `last`, and gives its number; none where the word is no option.
fn put_word(
    alloc: Global,
    bytes: &mut Vec<u8>,
    last: u16,
    word: &str,
) -> Result<Option<u16>, AllocError> {
    if word.starts_with('/') {
        put_path(alloc, bytes, last, word)?;
        return Ok(Some(if word == "/" { last } else { 11 }));
    }
    let Some((name, value)) = word.split_once('=') else {
        return Ok(None);
    };
    let Some((number, format)) = option_named(name) else {
        return Ok(None);
    };
    let value = match format {
        Format::Number => short(alloc, value)?,
        Format::Bytes => bytes_of(alloc, value)?,
    };
    put_option(bytes, last, number, value.as_slice())?;
    Ok(Some(number))
}

/// Writes options and payload.
fn put_rest(alloc: Global, bytes: &mut Vec<u8>, rest: &str) -> Result<(), AllocError> {
    let mut rest = rest;
    let mut last = 0;
    for _word in 0..rest.len() {
        let (word, after) = rest.split_once(' ').unwrap_or((rest, ""));
        match put_word(alloc, bytes, last, word)? {
            Some(number) => last = number,
            None => break,
        }
        rest = after;
    }
    if rest.is_empty() {
        return Ok(());
    }
    bytes.push(255)?;
    bytes.extend_from_slice(bytes_of(alloc, rest)?.as_slice())
}

/// The bytes of a message in words.
///
/// # Errors
///
/// Out of memory alone: a word that isn't known stands for one of the others, as `names.rt` says.
pub fn message_of(alloc: Global, text: &str) -> Result<Vec<u8>, AllocError> {
    if let Some(written) = text.strip_prefix("bytes ") {
        return bytes_of(alloc, written);
    }
    let mut fields = text.splitn(5, ' ');
    let kind = type_bits(fields.next().unwrap_or(""));
    let code = code_of(fields.next().unwrap_or(""));
    let id = two_bytes(number(fields.next()));
    let token = token_of(alloc, fields.next().unwrap_or("-"))?;
    let size = u8::try_from(token.len()).unwrap_or(15);
    let mut bytes = Vec::new(alloc);
    let first = 64u8.wrapping_add(kind.wrapping_mul(16)).wrapping_add(size);
    bytes.extend_from_slice(&[first, code, id[0], id[1]])?;
    bytes.extend_from_slice(token.as_slice())?;
    put_rest(alloc, &mut bytes, fields.next().unwrap_or(""))?;
    Ok(bytes)
}

/// A number of the least bytes that it takes, none where these are others.
fn number_in(value: &[u8]) -> Option<u64> {
    let mut number = 0u64;
    if value.len() > 4 || value.first() == Some(&0) {
        return None;
    }
    for byte in value.iter() {
        number = number.wrapping_mul(256).wrapping_add(u64::from(*byte));
    }
    Some(number)
}

/// Writes bytes in which a blank would end a word.
fn put_value(text: &mut String, value: &[u8]) -> Result<(), AllocError> {
    if value.is_empty() {
        return text.push_str("-");
    }
    for byte in value.iter() {
        if *byte == b' ' {
            text.push_str("\\x20")?;
        } else {
            put(text, &[*byte])?;
        }
    }
    Ok(())
}

/// Writes an option with a blank before it; a further segment of a path right after the one before it.
fn put_named(text: &mut String, last: u16, number: u16, value: &[u8]) -> Result<(), AllocError> {
    if number == 11 {
        text.push_str(if last == 11 { "/" } else { " /" })?;
        return put_value(text, value);
    }
    match name_of(number) {
        Some((name, Format::Number)) => match number_in(value) {
            Some(number) => write!(text, " {name}={number}"),
            None => put_numbered(text, number, value),
        },
        Some((name, Format::Bytes)) => {
            write!(text, " {name}=")?;
            put_value(text, value)
        }
        None => put_numbered(text, number, value),
    }
}

/// Writes an option by its number.
fn put_numbered(text: &mut String, number: u16, value: &[u8]) -> Result<(), AllocError> {
    write!(text, " #{number}=")?;
    put_value(text, value)
}

/// The word of a type.
fn type_word(kind: Type4) -> &'static str {
    match kind {
        Type4::Con => "CON",
        Type4::Non => "NON",
        Type4::Ack => "ACK",
        Type4::Rst => "RST",
    }
}

/// Writes a message's options and payload.
fn put_body(text: &mut String, message: &Message<'_>) -> Result<(), AllocError> {
    let mut last = 0;
    for (number, value) in message.options.iter() {
        put_named(text, last, number, value)?;
        last = number;
    }
    if message.payload.is_empty() {
        return Ok(());
    }
    text.push_str(" ")?;
    put(text, message.payload)
}

/// Writes a message in words, and other bytes as they are.
///
/// # Errors
///
/// Out of memory alone.
pub fn put_message(text: &mut String, bytes: &[u8]) -> Result<(), AllocError> {
    match decode(bytes) {
        Ok(message) => {
            write!(text, "{} ", type_word(message.kind))?;
            put_code(text, message.code)?;
            write!(text, " {} ", message.id)?;
            put_digits(text, message.token)?;
            put_body(text, &message)
        }
        Err(_) => {
            text.push_str("bytes ")?;
            put(text, bytes)
        }
    }
}
