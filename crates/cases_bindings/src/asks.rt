//! Rows of CoAP requests in words, and their meanings.

use crate::targets::put_path;
use cases_notation::{message_of, put_runs};
use coap_msg::{Message, decode};
use coap_opts::{AskFault, CoapAsk, request_of};
use std::alloc::{AllocError, Global};
use std::fmt::Write;
use thing_ops::{Accept, Request};

/// The word of the media types that are taken.
pub fn accept_word(accept: Accept) -> &'static str {
    match (accept.json, accept.td) {
        (true, true) => "json and td",
        (true, false) => "json",
        (false, true) => "td",
        (false, false) => "neither",
    }
}

/// Writes the media types that a request takes, and its parts.
fn put_request(text: &mut String, request: &Request<'_>) -> Result<(), AllocError> {
    write!(text, "{:?} ", request.verb)?;
    put_path(text, &request.path)?;
    write!(text, ", takes {}, body ", accept_word(request.accept))?;
    put_runs(text, request.body)?;
    write!(text, " in {:?}, query ", request.format)?;
    put_runs(text, request.query)
}

/// Writes an ask.
fn put_ask(text: &mut String, ask: &CoapAsk<'_>) -> Result<(), AllocError> {
    put_request(text, &ask.request)?;
    match ask.observe {
        Some(number) => write!(text, ", observe {number}"),
        None => Ok(()),
    }
}

/// Writes what `put_meaning` writes of a request, or its fault.
fn put_asked<F: Fn(&mut String, &CoapAsk<'_>) -> Result<(), AllocError>>(
    text: &mut String,
    alloc: Global,
    message: &Message<'_>,
    put_meaning: F,
) -> Result<(), AllocError>
    requires { F.IsAlwaysCallable put_meaning }
{
    if message.code == 0 || message.code >= 32 {
        return text.push_str("no request");
    }
    match request_of(alloc, message) {
        Ok(ask) => put_meaning(text, &ask),
        Err(AskFault::NoMemory) => Err(AllocError),
        Err(fault) => write!(text, "{fault:?}"),
    }
}

/// Writes what `put_meaning` writes of the request in a message's bytes, or what is wrong with them.
fn put_decoded<F: Fn(&mut String, &CoapAsk<'_>) -> Result<(), AllocError>>(
    text: &mut String,
    alloc: Global,
    bytes: &[u8],
    put_meaning: F,
) -> Result<(), AllocError>
    requires { F.IsAlwaysCallable put_meaning }
{
    match decode(bytes) {
        Ok(message) => put_asked(text, alloc, &message, put_meaning),
        Err(fault) => write!(text, "{fault:?}"),
    }
}

/// The same of a message in words.
pub fn put_of_message<F: Fn(&mut String, &CoapAsk<'_>) -> Result<(), AllocError>>(
    text: &mut String,
    alloc: Global,
    given: &str,
    put_meaning: F,
) -> Result<(), AllocError>
    requires { F.IsAlwaysCallable put_meaning }
{
    let bytes = message_of(alloc, given)?;
    put_decoded(text, alloc, bytes.as_slice(), put_meaning)
}

pub fn put(text: &mut String, alloc: Global, given: &str) -> Result<(), AllocError> {
    put_of_message(text, alloc, given, put_ask)
}
