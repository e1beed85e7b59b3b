//! HTTP/1.1 replies (RFC 9112) as bytes: `put_reply` writes the head of one, as a server does, and `scan_reply` judges the bytes
//! of a stream of them, as a client does, however they were cut. Nothing here knows a connection or a Thing, and no
//! function takes memory.
//!
//! ```text
//! let reply = Reply { status: 204, content_type: None, etag: None, location: None, allow: None, length: None, close: false };
//! let mut out = [0; 64];
//! assert_eq!(put_reply(&reply, &mut out), Some(27));
//! assert_eq!(&out[..27], b"HTTP/1.1 204 No Content\r\n\r\n");
//!
//! let ReplyScan::Whole { status, body } = scan_reply(&out[..27], false) else { .. };
//! assert!(status == 204 && body.length() == 0);
//! ```
//!
//! The contract in a sentence: `put_reply` writes exactly `http_reply` of `specs/Writing.antt`, and `scan_reply` says of any
//! bytes what `IsReply` of `specs/ReplyFronts.antt` does. The law: bytes have one front of replies at most. The grammar of
//! `httparse` says what a head is and what its lines are.
#![tactic(auto)]

mod laws;
mod reply;
mod reply_heads;
mod reply_scan;

pub use laws::one_reply;
pub use reply::{Reply, has_reason, put_reply};
pub use reply_scan::{ReplyScan, scan_reply};
