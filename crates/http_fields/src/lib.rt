//! What the readers of requests and of replies share of HTTP/1.1 messages (RFC 9112), as bytes: bytes cut at single bytes and at
//! marks, the fields that header lines have, the framing of a body, and bodies. It knows no head: `http_wire` reads those
//! of requests, and `http_replies` those of replies. No function here takes memory.
//!
//! ```text
//! let bytes = b"PUT / HTTP/1.1\r\nHost: h\r\n\r\n3\r\nabc\r\n0\r\n\r\n";
//! let Some(end) = length_through_mark(b"\r\n\r\n", bytes) else { .. };
//! let BodyScan::Whole { body, used } = chunks_at_front(1024, rest_from(bytes, end)) else { .. };
//! assert!(body.length() == 3 && end + used == bytes.len());
//!
//! let mut value = [0; 3];
//! body.copy_to(&mut value);
//! assert_eq!(value, *b"abc");
//! ```
//!
//! The contract in a sentence: `fields_in` notes exactly what `said_by` of `specs/Fields.antt` says of all header lines,
//! `read_framing` is `framing_by` of `specs/Framings.antt`, and `chunks_at_front` gives exactly `chunks` of
//! `specs/Chunks.antt`.
#![tactic(auto)]

mod body;
mod chunks;
mod fields;
mod framing;
mod lines;
mod marks;
mod statuses;

pub use body::Body;
pub use chunks::{BodyScan, LONGEST_REPLY, chunks_at_front};
pub use fields::{EITHER_TYPE, Fields, FoundField, fields_in, format, is_alike, trim};
pub use framing::{Framing, read_framing};
pub use lines::{Pieces, cut, cut_at_each};
pub use marks::{
    MOST_LINE_FEEDS, MOST_LINES, count_line_feeds, front, length_through_mark, rest_from,
};
pub use statuses::{
    BAD_REQUEST, CONTENT_TOO_LARGE, CONTINUE, HEAD_TOO_LARGE, NO_CONTENT, NOT_IMPLEMENTED,
    NOT_MODIFIED, OK,
};
