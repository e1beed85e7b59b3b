//! The conditions of requests on the version of a property: of HTTP by the lines after Host, of CoAP by the options of
//! a message in words.

use crate::asks::put_of_message;
use cases_notation::bytes_of;
use coap_opts::CoapAsk;
use http_wire::{Head, Scanned, scan, verb_of};
use std::alloc::{AllocError, Global};
use std::fmt::Write;
use thing_ops::{Conditions, Tags};

/// Begins the next part of a row, after a semicolon if it isn't the first.
fn begin(text: &mut String, start: usize) -> Result<(), AllocError> {
    if text.len() > start {
        text.push_str("; ")
    } else {
        Ok(())
    }
}

/// The versions that are named, or any.
fn put_tags(text: &mut String, tags: &Tags) -> Result<(), AllocError> {
    if tags.any {
        text.push_str(" any")?;
    }
    for version in tags.list.as_slice() {
        write!(text, " {version}")?;
    }
    Ok(())
}

/// Whether versions are named, or any.
fn names_some(tags: &Tags) -> bool {
    tags.any || !tags.list.as_slice().is_empty()
}

/// The versions of If-Match.
fn put_match(text: &mut String, tags: &Tags) -> Result<(), AllocError> {
    text.push_str("match")?;
    if names_some(tags) {
        put_tags(text, tags)
    } else {
        text.push_str(" none")
    }
}

/// Writes conditions.
fn put_conditions(text: &mut String, conditions: &Conditions) -> Result<(), AllocError> {
    let start = text.len();
    if let Some(tags) = &conditions.if_match {
        put_match(text, tags)?;
    }
    if names_some(&conditions.known) {
        begin(text, start)?;
        text.push_str("known")?;
        put_tags(text, &conditions.known)?;
    }
    if conditions.absent {
        begin(text, start)?;
        text.push_str("absent")?;
    }
    if text.len() == start {
        text.push_str("nothing")?;
    }
    Ok(())
}

/// The bytes of a request of this method with these lines after Host.
fn request_bytes(alloc: Global, method: &str, lines: &[u8]) -> Result<Vec<u8>, AllocError> {
    let mut bytes = Vec::new(alloc);
    bytes.extend_from_slice(method.as_bytes())?;
    bytes.extend_from_slice(b" /a HTTP/1.1\r\nHost: h\r\n")?;
    if !lines.is_empty() {
        bytes.extend_from_slice(lines)?;
        bytes.extend_from_slice(b"\r\n")?;
    }
    bytes.extend_from_slice(b"\r\n")?;
    Ok(bytes)
}

/// Writes the conditions of a head.
fn put_head(text: &mut String, alloc: Global, head: &Head<'_>) -> Result<(), AllocError> {
    put_conditions(text, &head.conditions(alloc, verb_of(head.method))?)
}

/// Writes the conditions of the head at the front of bytes.
fn put_scanned(text: &mut String, alloc: Global, bytes: &[u8]) -> Result<(), AllocError> {
    match scan(bytes) {
        Scanned::Whole {
            head,
            body: _,
            used: _,
            expect: _,
        } => put_head(text, alloc, &head),
        _ => text.push_str("no request"),
    }
}

/// Writes the conditions of the lines of an HTTP request.
pub fn put_of_lines(text: &mut String, alloc: Global, given: &str) -> Result<(), AllocError> {
    let (method, lines) = given.split_once(' ').unwrap_or((given, "-"));
    let lines = bytes_of(alloc, lines)?;
    put_scanned(
        text,
        alloc,
        request_bytes(alloc, method, lines.as_slice())?.as_slice(),
    )
}

/// Writes the conditions of an ask.
fn put_ask(text: &mut String, ask: &CoapAsk<'_>) -> Result<(), AllocError> {
    put_conditions(text, &ask.request.conditions)
}

/// Writes the conditions of the options of a CoAP request, or their fault.
pub fn put_of_options(text: &mut String, alloc: Global, given: &str) -> Result<(), AllocError> {
    put_of_message(text, alloc, given, put_ask)
}
