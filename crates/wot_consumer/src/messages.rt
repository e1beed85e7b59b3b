//! The HTTP request that asks for what was chosen.

ghost use Rattle.std.specs.Prelude.{◌≡◌, ◌++◌, [], None, Some, codes, decimal, option_map, slice_get, IfOk, OnOk, string_bytes};
ghost use Rattle.std.specs.Option.{option_map_or};
ghost use Rattle.thing_ops.specs.Verbs.{verb_name};
ghost use Rattle.http_fields.specs.Marks.{line_end};
ghost use Rattle.wot_consumer.specs.Messages as message;

use crate::Chosen;
use crate::choice::JSON;
use itoa::Buffer;
use servient_base::{NoMemory, push_encoded};
use std::alloc::Global;
use thing_ops::{Segments, Verb};
use wot_json::Bytes;

/// The bytes of the HTTP/1.1 request that asks for what was chosen, with this body where there is one (RFC 9112,
/// section 3). The host is written with its port, and the connection is to be closed after the reply.
pub fn http_request(alloc: Global, chosen: &Chosen, body: Option<&[u8]>) -> Result<Bytes, NoMemory>
    ensures { IfOk result (λ bytes. bytes ≡ message.request_bytes chosen.now (option_map (λ b. b.now) body.entry)) }
{
    match body {
        None => bodyless(alloc, chosen),
        Some(body) => with_body(alloc, chosen, body),
    }
}

/// The request without a body.
fn bodyless(alloc: Global, chosen: &Chosen) -> Result<Bytes, NoMemory>
    ensures { IfOk result (λ bytes. bytes ≡ message.request_bytes chosen.now None) }
{
    let mut text = String::new(alloc);
    push_head(&mut text, chosen)?;
    push_end(&mut text)?;
    Ok(Bytes::from_vec(text.into_bytes()))
}

/// The request with a body.
fn with_body(alloc: Global, chosen: &Chosen, body: &[u8]) -> Result<Bytes, NoMemory>
    ensures { IfOk result (λ bytes. bytes ≡ message.request_bytes chosen.now (Some body.now)) }
{
    let mut text = String::new(alloc);
    push_head(&mut text, chosen)?;
    push_body_fields(&mut text, body.len())?;
    push_end(&mut text)?;
    let mut bytes = Bytes::from_vec(text.into_bytes());
    bytes.extend(body)?;
    Ok(bytes)
}

/// Puts the request line and the fields of every request at the end.
fn push_head(text: &mut String, chosen: &Chosen) -> Result<(), NoMemory>
    ensures { OnOk result (string_bytes text.new ≡ string_bytes text.old ++ message.request_line chosen.now
        ++ message.field (codes "Host") (message.host_and_port chosen.now)
        ++ message.field (codes "Accept") (codes "application/json")) }
{
    push_request_line(text, chosen.verb, &chosen.path)?;
    push_host(text, chosen.host.as_str(), chosen.port)?;
    push_field(text, "Accept", JSON)
}

/// Puts the request line at the end.
fn push_request_line(text: &mut String, verb: Verb, path: &Segments) -> Result<(), NoMemory>
    ensures { OnOk result (string_bytes text.new ≡ string_bytes text.old
        ++ (verb_name verb ++ codes " " ++ message.path_text path.now ++ codes " HTTP/1.1" ++ line_end)) }
{
    text.push_str(verb.name())?;
    text.push_str(" ")?;
    push_path(text, path)?;
    text.push_str(" HTTP/1.1\r\n")
}

/// Puts a path at the end, as a request target has it.
fn push_path(text: &mut String, path: &Segments) -> Result<(), NoMemory>
    ensures { OnOk result (string_bytes text.new ≡ string_bytes text.old ++ message.path_text path.now) }
{
    if path.is_empty() {
        text.push_str("/")
    } else {
        push_segments(text, path)
    }
}

/// Puts segments at the end, each after a `/`.
fn push_segments(text: &mut String, path: &Segments) -> Result<(), NoMemory>
    ensures { OnOk result (string_bytes text.new ≡ string_bytes text.old ++ message.segments_text path.now) }
{
    for index in 0..path.len() {
        push_segment(text, path, index)?;
    }
    Ok(())
}

/// Puts the segment of this number at the end, if there is one.
fn push_segment(text: &mut String, path: &Segments, index: usize) -> Result<(), NoMemory>
    ensures { OnOk result (string_bytes text.new
        ≡ string_bytes text.old ++ option_map_or message.segment_text (slice_get path.now index) []) }
{
    match path.get(index) {
        Some(segment) => {
            text.push_str("/")?;
            push_encoded(text, segment)
        }
        None => Ok(()),
    }
}

/// Puts the field `Host` at the end.
fn push_host(text: &mut String, host: &str, port: u16) -> Result<(), NoMemory>
    ensures { OnOk result (string_bytes text.new ≡ string_bytes text.old
        ++ message.field (codes "Host") (host.now ++ codes ":" ++ decimal port)) }
{
    let mut buffer = Buffer::new();
    text.push_str("Host: ")?;
    text.push_str(host)?;
    text.push_str(":")?;
    text.push_str(buffer.format(port))?;
    text.push_str("\r\n")
}

/// Puts what a request with a body of this length says of it at the end.
fn push_body_fields(text: &mut String, length: usize) -> Result<(), NoMemory>
    ensures { OnOk result (string_bytes text.new ≡ string_bytes text.old
        ++ (message.field (codes "Content-Type") (codes "application/json")
        ++ message.field (codes "Content-Length") (decimal length))) }
{
    let mut buffer = Buffer::new();
    push_field(text, "Content-Type", JSON)?;
    push_field(text, "Content-Length", buffer.format(length))
}

/// Puts the last field and the line that ends the head at the end.
fn push_end(text: &mut String) -> Result<(), NoMemory>
    ensures { OnOk result (string_bytes text.new ≡ string_bytes text.old
        ++ message.field (codes "Connection") (codes "close") ++ line_end) }
{
    push_field(text, "Connection", "close")?;
    text.push_str("\r\n")
}

/// Puts a header line at the end.
fn push_field(text: &mut String, name: &str, value: &str) -> Result<(), NoMemory>
    ensures { OnOk result (string_bytes text.new ≡ string_bytes text.old ++ message.field name.now value.now) }
{
    text.push_str(name)?;
    text.push_str(": ")?;
    text.push_str(value)?;
    text.push_str("\r\n")
}
