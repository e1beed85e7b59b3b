//! The fields that the head of a request must have, and the framing of the body after it.

ghost use Rattle.std.specs.Prelude.{◌≡◌, IfOk};
ghost use Rattle.http_fields.specs.Found.{said_in};
ghost use Rattle.http_fields.specs.Framings.{IsBounded};
ghost use Rattle.http_wire.specs.Judging.{longest_body, fields_judged, has_body as brings_body};

use crate::heads::HeadParts;
use http_fields::{BAD_REQUEST, FoundField, Framing, read_framing};

/// The most bytes that the body of a request has when it is decoded.
pub const LONGEST_BODY: usize = 16384;

/// The framing of the body after a head.
pub fn framing_of(head: &HeadParts<'_>) -> Result<Framing, u16>
    ensures ok { result ≡ fields_judged head.now.newer (said_in head.now.fields) }
    ensures bound { IfOk result (IsBounded longest_body) }
{
    let fields = &head.fields;
    // HTTP/1.1 without Host, or with several, is refused, since a server must do so (RFC 9112, section 3.2).
    if head.newer && !matches!(fields.host, FoundField::Once(_)) {
        return Err(BAD_REQUEST);
    }
    // The same with several Content-Type, since a sender may write it once alone (RFC 9110, section 5.3).
    if matches!(fields.content_type, FoundField::Often) {
        return Err(BAD_REQUEST);
    }
    read_framing(
        LONGEST_BODY,
        head.newer,
        fields.content_length,
        fields.transfer_encoding,
    )
}

/// Says whether a body is to come.
pub fn has_body(framing: Framing) -> bool
    ensures { result ≡ brings_body framing }
{
    match framing {
        Framing::Stated(length) => length > 0,
        Framing::Chunked => true,
    }
}
