//! The meaning of a CoAP request: its options (RFC 7252, section 5.10, and RFC 7641, section 2) as a `Request`, which
//! HTTP gives too, the value of Observe, and the blocks that it has and wants (RFC 7959, section 2). `request_of`
//! judges the options in their order, by one table of those that are known. Nothing here sends or answers.
//!
//! ```text
//! // GET /lamp, which is to be observed and answered in JSON.
//! let message = decode(b"\x40\x01\x00\x07\x60\x54lamp\x61\x32")?;
//! let ask = request_of(alloc, &message)?;
//! assert_eq!(ask.request.verb, Verb::Get);
//! assert_eq!(ask.request.path.get(0), Some(b"lamp".as_slice()));
//! assert_eq!(ask.request.accept, Accept { json: true, td: false });
//! assert_eq!(ask.observe, Some(0));
//! ```
//!
//! The contract in a sentence: the answer is `asked` of `specs/Reading.antt`, or else the first fault of `faults_of`,
//! or is out of memory. The law: the tag of a version is read as that version. Memory is taken for the path and for the
//! versions that a request names.
#![tactic(auto)]

mod ask;
mod conditions;
mod fault;
mod found;
mod known;
mod laws;
mod values;

pub use ask::{CoapAsk, request_of};
pub use fault::AskFault;
pub use laws::tags_are_read_again;
