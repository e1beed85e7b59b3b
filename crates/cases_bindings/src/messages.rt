//! CoAP messages: bytes, and the result of `decode`.

use cases_notation::{put_digits, put_runs};
use coap_msg::{Message, decode};
use std::alloc::AllocError;
use std::fmt::Write;

/// Writes an option.
fn put_option(text: &mut String, number: u16, value: &[u8]) -> Result<(), AllocError> {
    write!(text, " {number}=")?;
    put_runs(text, value)
}

/// Type, code, message ID and token of a message, its options, and its payload.
fn put_message(text: &mut String, message: &Message<'_>) -> Result<(), AllocError> {
    write!(
        text,
        "{:?} {}.{:02} id {} token ",
        message.kind,
        message.code / 32,
        message.code % 32,
        message.id
    )?;
    put_digits(text, message.token)?;
    for (number, value) in message.options.iter() {
        put_option(text, number, value)?;
    }
    text.push_str(" payload ")?;
    put_runs(text, message.payload)
}

pub fn put(text: &mut String, bytes: &[u8]) -> Result<(), AllocError> {
    match decode(bytes) {
        Ok(message) => put_message(text, &message),
        Err(fault) => write!(text, "{fault:?}"),
    }
}
