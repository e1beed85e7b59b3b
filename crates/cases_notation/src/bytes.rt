//! Bytes as text: a byte stands for itself, `\r`, `\n`, `\t`, `\\` and `\xHH` for the same as in Rust, and `\*N;` after
//! a byte lets it stand N times. `-` alone is no bytes.

ghost use Rattle.std.specs.Prelude.{◌<◌};

use std::alloc::{AllocError, Global};
use std::fmt::Write;

const DIGITS: [u8; 16] = *b"0123456789abcdef";

/// The part to which the next byte belongs.
#[derive(Clone, Copy, Drop)]
enum Part {
    Plain,
    Escape,
    High,
    Low(u8),
    Times(usize),
}

/// The value of a hexadecimal digit.
pub fn digit(byte: u8) -> u8
    ensures { result < 16 }
{
    match byte {
        b'0'..=b'9' => byte - b'0',
        b'a'..=b'f' => byte - b'a' + 10,
        _ => 0,
    }
}

/// The last byte n times.
fn repeat(bytes: &mut Vec<u8>, times: usize) -> Result<(), AllocError> {
    if let Some(last) = bytes.pop() {
        for _time in 0..times {
            bytes.push(last)?;
        }
    }
    Ok(())
}

/// Takes the byte after a backslash.
fn escaped(bytes: &mut Vec<u8>, byte: u8) -> Result<Part, AllocError> {
    match byte {
        b'r' => bytes.push(b'\r')?,
        b'n' => bytes.push(b'\n')?,
        b't' => bytes.push(b'\t')?,
        b'x' => return Ok(Part::High),
        b'*' => return Ok(Part::Times(0)),
        _ => bytes.push(byte)?,
    }
    Ok(Part::Plain)
}

/// Takes a byte of a number of times.
fn counted(bytes: &mut Vec<u8>, times: usize, byte: u8) -> Result<Part, AllocError> {
    if byte == b';' {
        repeat(bytes, times)?;
        return Ok(Part::Plain);
    }
    let value = usize::from(digit(byte));
    Ok(Part::Times(times.saturating_mul(10).saturating_add(value)))
}

/// Takes a byte.
fn taken(bytes: &mut Vec<u8>, part: Part, byte: u8) -> Result<Part, AllocError> {
    match part {
        Part::Plain if byte == b'\\' => Ok(Part::Escape),
        Part::Plain => {
            bytes.push(byte)?;
            Ok(Part::Plain)
        }
        Part::Escape => escaped(bytes, byte),
        Part::High => Ok(Part::Low(digit(byte))),
        Part::Low(high) => {
            bytes.push(high.wrapping_mul(16).wrapping_add(digit(byte)))?;
            Ok(Part::Plain)
        }
        Part::Times(times) => counted(bytes, times, byte),
    }
}

/// The bytes of a text.
pub fn bytes_of(alloc: Global, text: &str) -> Result<Vec<u8>, AllocError> {
    let mut bytes = Vec::new(alloc);
    if text == "-" {
        return Ok(bytes);
    }
    let mut part = Part::Plain;
    for byte in text.as_bytes() {
        part = taken(&mut bytes, part, *byte)?;
    }
    Ok(bytes)
}

/// Writes a byte.
fn put_byte(text: &mut String, byte: u8) -> Result<(), AllocError> {
    match byte {
        b'\r' => text.push_str("\\r"),
        b'\n' => text.push_str("\\n"),
        b'\t' => text.push_str("\\t"),
        b'\\' => text.push_str("\\\\"),
        b' '..=b'~' => text.push(char::from(byte)),
        _ => {
            text.push_str("\\x")?;
            text.push(char::from(DIGITS[usize::from(byte / 16)]))?;
            text.push(char::from(DIGITS[usize::from(byte % 16)]))
        }
    }
}

/// Writes all of them.
fn put_each(text: &mut String, bytes: &[u8]) -> Result<(), AllocError> {
    for byte in bytes {
        put_byte(text, *byte)?;
    }
    Ok(())
}

/// Writes bytes; their number, where there are more than 2,000.
pub fn put(text: &mut String, bytes: &[u8]) -> Result<(), AllocError> {
    let size = bytes.len();
    match size {
        0 => text.push_str("-"),
        1..=2000 => put_each(text, bytes),
        _ => write!(text, "{size} bytes"),
    }
}

/// Writes bytes in hexadecimal digits; `-` for none.
pub fn put_digits(text: &mut String, bytes: &[u8]) -> Result<(), AllocError> {
    if bytes.is_empty() {
        return text.push_str("-");
    }
    for byte in bytes {
        text.push(char::from(DIGITS[usize::from(*byte / 16)]))?;
        text.push(char::from(DIGITS[usize::from(*byte % 16)]))?;
    }
    Ok(())
}

/// The number of a field in decimal digits, 0 where it has none.
pub fn number(field: Option<&str>) -> u64 {
    match field {
        Some(text) => text.parse::<u64>().unwrap_or(0),
        None => 0,
    }
}
