//! The head of a reply, written into a caller's slice.

ghost use Rattle.std.specs.Prelude.{◌≡◌, ◌≤◌, ◌↔◌, length, option_map, IsSome, IsTrue};
ghost use Rattle.std.specs.Fmt.{decimal};
ghost use Rattle.servient_base.specs.Writing.{PutsIfRoom};
ghost use Rattle.http_replies.specs.Writing.{entity_tag, http_reply, phrase_of, field_line, written_length};
ghost use Rattle.http_replies.specs.Replies.{plain_reply};

use http_fields::{CONTINUE, NO_CONTENT, NOT_MODIFIED};
use itoa::Buffer;
use servient_base::{put_bytes, put_piece};

/// The most bytes of the entity tag of a version: ten digits and two quotes.
const LONGEST_TAG: usize = 12;

/// A reply but for its payload.
#[derive(Clone, Copy, Debug, Drop)]
pub struct Reply<'a> {
    /// The status, one of those that have a reason.
    pub status: u16,
    /// The media type of the payload.
    pub content_type: Option<&'a str>,
    /// The version of what is sent, from which its entity tag is written (RFC 9110, section 8.8.3).
    pub etag: Option<u32>,
    /// The place of what was made.
    pub location: Option<&'a [u8]>,
    /// The verbs that are taken.
    pub allow: Option<&'a str>,
    /// The number of bytes of the payload. It isn't written in 100, 204 and 304.
    pub length: Option<usize>,
    /// The connection is closed after the reply.
    pub close: bool,
}

/// Writes the head of a reply to the beginning of `out`, and returns its length; there is no answer where it is longer
/// than `out`, and part of it may then have been written. It takes no memory.
pub fn put_reply(reply: &Reply<'_>, out: &mut [u8]) -> Option<usize>
    requires { IsSome (phrase_of reply.now.status) }
    ensures { PutsIfRoom (http_reply (plain_reply reply.now)) 0 out.old out.new result }
{
    // Rooms for the tag and the length, so that no memory is taken.
    let mut digits = Buffer::new();
    let mut tag = [0; LONGEST_TAG];
    let at = put_line(out, 0, b"HTTP/1.1 ", phrase(reply.status))?;
    let at = put_line(out, at, b"Content-Type: ", bytes_of(reply.content_type))?;
    let at = put_line(out, at, b"ETag: ", tag_of(reply.etag, &mut tag))?;
    let at = put_line(out, at, b"Location: ", reply.location)?;
    let at = put_line(out, at, b"Allow: ", bytes_of(reply.allow))?;
    let at = put_line(out, at, b"Content-Length: ", length_of(reply, &mut digits))?;
    if reply.close {
        put_piece(out, at, b"Connection: close\r\n\r\n")
    } else {
        put_piece(out, at, b"\r\n")
    }
}

/// Says whether a status has a reason, so that its reply can be written: the test for callers whose
/// status comes from elsewhere.
pub fn has_reason(status: u16) -> bool
    ensures { IsTrue result ↔ IsSome (phrase_of status) }
{
    phrase(status).is_some()
}

/// Writes the line of a field, if it has a value. The name has a colon and a space; the status line is written as such a
/// line, too.
fn put_line(out: &mut [u8], at: usize, name: &[u8], value: Option<&[u8]>) -> Option<usize>
    requires { at ≤ length out.old }
    ensures { PutsIfRoom (field_line name.now (option_map (λ t. t.now) value.entry)) at out.old out.new result }
{
    match value {
        None => Some(at),
        Some(value) => {
            let at = put_piece(out, at, name)?;
            let at = put_piece(out, at, value)?;
            put_piece(out, at, b"\r\n")
        }
    }
}

/// The bytes of a text, if there is one. It is a function because the prover doesn't follow what `map` gives.
fn bytes_of(text: Option<&str>) -> Option<&[u8]>
    ensures { option_map (λ t. t.now) result ≡ option_map (λ t. t.now) text.entry }
{
    match text {
        Some(text) => Some(text.as_bytes()),
        None => None,
    }
}

/// The entity tag of a version, if there is one. It is written into `room`.
fn tag_of(version: Option<u32>, room: &mut [u8; LONGEST_TAG]) -> Option<&[u8]>
    ensures { option_map (λ t. t.now) result ≡ option_map entity_tag version }
{
    match version {
        Some(version) => {
            let mut digits = Buffer::new();
            let end = put_bytes(room, 0, b"\"");
            let end = put_bytes(room, end, digits.format(version).as_bytes());
            let end = put_bytes(room, end, b"\"");
            Some(&room[..end])
        }
        None => None,
    }
}

/// The length of the payload in decimal, if it is written.
fn length_of<'a>(reply: &Reply<'_>, digits: &'a mut Buffer) -> Option<&'a [u8]>
    ensures { option_map (λ t. t.now) result ≡ option_map decimal (written_length (plain_reply reply.now)) }
{
    // Not with 100 and 204, as RFC 9110 says in section 8.6; nor with 304, since it would be that of another payload.
    if reply.status == CONTINUE || reply.status == NO_CONTENT || reply.status == NOT_MODIFIED {
        return None;
    }
    match reply.length {
        Some(length) => Some(digits.format(length).as_bytes()),
        None => None,
    }
}

/// The status and its reason, if it has one.
fn phrase(status: u16) -> Option<&'static [u8]>
    ensures { option_map (λ t. t.now) result ≡ phrase_of status }
{
    match status {
        100 => Some(b"100 Continue"),
        200 => Some(b"200 OK"),
        201 => Some(b"201 Created"),
        204 => Some(b"204 No Content"),
        304 => Some(b"304 Not Modified"),
        400 => Some(b"400 Bad Request"),
        403 => Some(b"403 Forbidden"),
        404 => Some(b"404 Not Found"),
        405 => Some(b"405 Method Not Allowed"),
        406 => Some(b"406 Not Acceptable"),
        412 => Some(b"412 Precondition Failed"),
        413 => Some(b"413 Content Too Large"),
        415 => Some(b"415 Unsupported Media Type"),
        431 => Some(b"431 Request Header Fields Too Large"),
        500 => Some(b"500 Internal Server Error"),
        501 => Some(b"501 Not Implemented"),
        503 => Some(b"503 Service Unavailable"),
        507 => Some(b"507 Insufficient Storage"),
        _ => None,
    }
}
