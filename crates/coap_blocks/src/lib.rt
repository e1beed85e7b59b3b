//! Bodies that travel in blocks (RFC 7959): those of responses, which are kept for the requests for their later blocks,
//! and those of requests, which are joined as their blocks come. This crate knows blocks, endpoints, paths and moments,
//! and no message: other crates know the options of blocks and write the replies. It has no clock and no socket, and
//! takes memory when `Bodies` and `Parts` are made, which carry everything.
//!
//! ```
//! use coap_blocks::{Added, Bodies, Parts, Whole};
//!
//! let mut bodies = Bodies::new(alloc)?;
//! // A response that is longer than a block was given; its later blocks come from here.
//! bodies.put(from, &path, &Whole { code: 69, format: Some(50), tag: None, bytes }, now);
//! if let Some(whole) = bodies.get(from, &path, later) {
//!     send(block_of(whole.bytes));
//! }
//!
//! let mut parts = Parts::new(alloc)?;
//! match parts.add(from, code, &path, block, payload, now) {
//!     Added::Continue => send(b"2.31"),
//!     Added::Complete(place) => {
//!         act(parts.bytes(place));
//!         parts.clear(place);
//!     }
//!     refusal => send(code_of(refusal)),
//! }
//! ```
//!
//! `put` and `get` are `with_body` and `body_for` of `specs/Bodies.antt`, and `add` is `after_block` of
//! `specs/Parts.antt`. The laws (`specs/Laws.antt`): the history of all puts says which bodies are kept, `get` gives
//! the last body that was put for that endpoint and path, and a whole body is the payloads of one row of blocks, from
//! the first on, in order, of one endpoint, code and path.
#![tactic(auto)]

mod added;
mod bodies;
mod body_place;
mod kept_path;
mod laws;
mod lifetime;
mod origin;
mod part_place;
mod parts;
mod room;
mod whole;

pub use added::Added;
pub use bodies::Bodies;
pub use laws::{
    bodies_are_ones_own, bodies_follow_the_puts, constants_are_these, parts_are_rows,
    the_last_body_is_got, whole_bodies_are_rows,
};
pub use parts::Parts;
pub use servient_base::NoMemory;
pub use whole::Whole;
