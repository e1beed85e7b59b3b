//! Scripts in words, and prints read back into words.
//!
//! ```text
//! 0 data 1:5683 CON PUT 7 aa /lamp/properties/status 42
//! 0 bytes 0 GET /lamp HTTP/1.1\r\nHost: h\r\n\r\n
//! ```
//!
//! A datagram is a message in words and the bytes of a connection are bytes as text, both as `cases_notation` has them;
//! any other line is itself.

use cases_notation::{bytes_of, digit, message_of, put, put_digits, put_message};
use std::alloc::{AllocError, Global};
use std::fmt::Write;

/// Writes a line of a script, in which the bytes are in hexadecimal digits.
///
/// # Errors
///
/// Out of memory alone.
pub fn put_spelled(text: &mut String, alloc: Global, line: &str) -> Result<(), AllocError> {
    let mut fields = line.splitn(4, ' ');
    let moment = fields.next().unwrap_or("");
    let word = fields.next().unwrap_or("");
    let from = fields.next().unwrap_or("");
    match (word, fields.next()) {
        ("data", Some(message)) => {
            write!(text, "{moment} data {from} ")?;
            put_digits(text, message_of(alloc, message)?.as_slice())
        }
        ("bytes", Some(written)) => {
            write!(text, "{moment} bytes {from} ")?;
            put_digits(text, bytes_of(alloc, written)?.as_slice())
        }
        _ => text.push_str(line),
    }
}

/// The bytes of hexadecimal digits.
fn bytes_in(alloc: Global, digits: &str) -> Result<Vec<u8>, AllocError> {
    let mut bytes = Vec::new(alloc);
    for pair in digits.as_bytes().chunks_exact(2) {
        if let [high, low] = pair {
            bytes.push(digit(*high).wrapping_mul(16).wrapping_add(digit(*low)))?;
        }
    }
    Ok(bytes)
}

/// Writes a line that was printed, with its bytes in words.
///
/// # Errors
///
/// Out of memory alone.
pub fn put_printed(text: &mut String, alloc: Global, line: &str) -> Result<(), AllocError> {
    let mut fields = line.split(' ');
    let word = fields.next().unwrap_or("");
    let to = fields.next().unwrap_or("");
    match (word, fields.next()) {
        ("data", Some(digits)) => {
            write!(text, "data {to} ")?;
            put_message(text, bytes_in(alloc, digits)?.as_slice())
        }
        ("send", Some(digits)) => {
            write!(text, "send {to} ")?;
            put(text, bytes_in(alloc, digits)?.as_slice())
        }
        _ => text.push_str(line),
    }
}
