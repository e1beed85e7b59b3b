//! HTTP/1.1 requests at the front of a stream (RFC 9112), as bytes. Nothing here knows a connection or a Thing: `scan` judges
//! the bytes that have come, however they were cut, and says whether a message is whole, isn't yet, or has a fault, and
//! `segments` reads a request target. What `http_fields` and `http_replies` give to users of this crate is named here too:
//! bodies, statuses, and replies.
//!
//! ```text
//! let bytes = b"PUT /lamp/properties/status HTTP/1.1\r\nHost: h\r\nContent-Length: 1\r\n\r\n9";
//! let Scanned::Whole { head, body, used, expect: _ } = scan(bytes) else { .. };
//! assert!(head.method == b"PUT" && used == bytes.len());
//!
//! let (path, query) = segments(alloc, head.target)?;
//! assert!(path.get(0) == Some(b"lamp".as_slice()) && query == head.target.len());
//! assert!(head.conditions(alloc, Verb::Put)?.if_match.is_none());
//!
//! let mut value = [0; 1];
//! body.copy_to(&mut value);
//! assert_eq!(value, *b"9");
//! ```
//!
//! The contract in a sentence: `scan` says of any bytes exactly what `IsFront` of `specs/Stream.antt` does, `segments`
//! gives exactly `segments_of` and `query_place` of `specs/Targets.antt`, `request_of` the request that `asked` of
//! `specs/Reading.antt` is, and `Head::conditions` what `conditions_of` of `specs/Conditions.antt` says of its lines.
//! The laws: bytes have one front at most, and one that is a whole message or a fault stays the same when more comes
//! after it; a body in chunks is read exactly where one is spelled by the grammar of `specs/Chunked.antt`; an entity tag
//! that is written is read again. The grammar of `httparse` says what a head is and what its lines are. Memory is taken
//! for paths and for the versions that a request names.
#![tactic(auto)]

mod conditions;
mod framing;
mod heads;
mod laws;
mod request;
mod scanned;
mod stream;
mod target;

pub use heads::skip_pairs;
pub use http_fields::{BAD_REQUEST, Body, CONTINUE, NO_CONTENT, OK};
pub use http_replies::{Reply, ReplyScan, has_reason, one_reply, put_reply, scan_reply};
pub use laws::{
    chunked_bodies_are_spelled, front_is_stable, no_other_line_asks, one_front, tags_are_read_again,
};
pub use request::{RequestParts, request_of, verb_of};
pub use scanned::{Head, Scanned};
pub use stream::scan;
pub use target::{TargetFault, segments, segments_behind};
