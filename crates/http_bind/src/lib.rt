//! The connections of an HTTP/1.1 server (RFC 9112, sections 9.3 and 9.6): what has come of each stream and
//! wasn't taken yet, which message is at its front, how an outcome is replied, and which requests wait (long polls).
//! There is no socket and no clock here: pieces of bytes and moments are handed in, requests and replies are handed
//! out. `HttpBind` and `HttpNext` carry everything.
//!
//! ```text
//! let mut http = HttpBind::new(alloc)?;
//! let mut room = new_room(alloc)?;
//! http.opened(0, now);
//! http.bytes(0, b"GET /lamp/properties/status HTTP/1.1\r\nHost: h\r\n\r\n", now);
//! loop {
//!     let outcome = match http.next(0, &mut room) {
//!         HttpNext::Idle => break,
//!         HttpNext::Close => { close(0); break }
//!         HttpNext::Ask(request) => perform(&request),
//!         HttpNext::Memory => Outcome::Memory,
//!         HttpNext::Continue => { send(http.refused(0, 100, &mut out, &mut word)); continue }
//!         HttpNext::Refuse(status) => { send(http.refused(0, status, &mut out, &mut word)); continue }
//!     };
//!     send(http.answered(0, &outcome, now, &mut out, &mut word));
//! }
//! // Nothing was sent for a request whose outcome is `Wait`, until its target emits.
//! while let Some(c) = http.waiting(target) {
//!     send(http.woken(c, Some(text), now, &mut out));
//! }
//! ```
//!
//! `specs/Streams.antt` says what is done with connections that have their whole streams; the code holds the rest of
//! each stream, at most 32,768 bytes of it, and stands for them (`StandsFor` of `specs/Slots.antt`). The contract in a
//! sentence: for all streams that it stood for before a call, it stands afterwards for some to which the relation of
//! that call leads, and it writes the bytes of that relation. The law: the requests taken from a connection
//! are those of its whole stream, one after another, in any pieces that it came in. All memory is taken by `new` and
//! `new_room`, but for the paths of requests.
#![tactic(auto)]

mod bind;
mod laws;
mod looking;
mod next;
mod out;
mod owed;
mod place;
mod slot;
mod waits;
mod writing;

pub use bind::{HttpBind, ROOM, new_room};
pub use laws::{constants_are_these, each_connection_takes_its_stream};
pub use next::HttpNext;
pub use out::HttpOut;
pub use thing_ops::NoMemory;
pub use writing::{HEAD_BYTES, WORD_BYTES};
