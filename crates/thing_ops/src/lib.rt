//! Requests to Things and their outcomes, over either protocol.
//!
//! A `Request` has a verb, a path, and what else HTTP (RFC 9110) and CoAP (RFC 7252) both say. `route` says where a
//! path leads, and `allowed` which verbs are taken there. An `Outcome` is the result of a request; its HTTP status, its
//! CoAP code and its payload are three columns of one table.
//!
//! ```text
//! let mut path = Segments::new(alloc);
//! for segment in [b"lamp".as_slice(), b"actions", b"fade", b"7"] {
//!     path.push(segment)?;
//! }
//! assert_eq!(route(&path), RouteKind::Invocation(7));
//!
//! let allow = allowed(route(&path), flags);
//! assert!(allow.takes(Verb::Delete) && !allow.takes(Verb::Put));
//! assert_eq!(http_status(&Outcome::NotAllowed(allow)), 405);
//! ```
//!
//! The tables are `route_of` of `specs/Routes.antt`, `verbs_of` of `specs/Verbs.antt` and `answer_of` of
//! `specs/Outcomes.antt`. The contract in a sentence: for each path, each path's kind and each outcome the code gives
//! exactly what its row says. The laws: the paths to invocations are those that end in the decimal spelling of an id,
//! the verbs that are taken are those that are listed, and a payload is the text that an outcome carries or its word.
//! Memory is taken by `Segments` and `Versions` alone. The conditions of a request on the version of a property
//! (`Conditions`) are judged by `fails` and `fails_to_write` of `specs/Conditions.antt`.
#![tactic(auto)]

mod allow;
mod conditions;
mod laws;
mod outcome;
mod pieces;
mod replies;
mod request;
mod routing;
mod segments;
mod verb;
mod words;

pub use allow::{Allow, Flags, LONGEST_LINE, allowed};
pub use conditions::{Conditions, Tags, Versions};
pub use laws::{invocations_are_spelled, payload_is_text_or_word, takes_what_is_listed};
pub use outcome::Outcome;
pub use pieces::piece;
pub use replies::{coap_code, http_status};
pub use request::{Accept, Format, Request};
pub use routing::RouteKind;
pub use segments::{Segments, route};
pub use servient_base::NoMemory;
pub use verb::Verb;
pub use words::{LONGEST_WORD, word};
