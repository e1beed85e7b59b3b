//! What a consumer asks a servient over HTTP is what was meant, and so is what it is answered, as laws.
//!
//! Each is the contract of a function with an empty body, so that it is proved and can be cited; no code needs to call
//! it.
//!
//! - What is chosen of a derived description is the act of its operation, and the request for it is read as just that:
//!   `requests_are_what_was_chosen`.
//! - A reply is read as its status and payload: `replies_are_read_back`. What is let out is taken: `outputs_are_taken`.
//! - What is printed of an operation is the payload of the reply: `replies_are_what_is_printed`. With both ends, its request
//!   is taken at most once, and what that came to is printed: `consuming_does_what_is_described`.
#![tactic(auto)]

mod laws;

pub use laws::{
    consuming_does_what_is_described, outputs_are_taken, replies_are_read_back,
    replies_are_what_is_printed, requests_are_what_was_chosen,
};
