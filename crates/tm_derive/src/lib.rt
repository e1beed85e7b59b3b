//! From a Thing Model to the descriptions of Things (Thing Description 1.1, section "Thing Model").
//!
//! ```
//! use tm_derive::{Choices, Frame, derive};
//! use wot_forms::Bases;
//! use wot_json::{Text, text_of};
//!
//! let bases = Bases {
//!     http: Text::copy_of(alloc, "http://127.0.0.1:8080")?,
//!     coap: Text::copy_of(alloc, "coap://127.0.0.1:5683")?,
//! };
//! let frame = Frame {
//!     segment: Text::copy_of(alloc, "lamp")?,
//!     id: Text::copy_of(alloc, "urn:x:lamp")?,
//!     bases,
//!     instance: None,
//! };
//! let root = "https://models.example/lamp.tm.json";
//! let things = derive(alloc, &library, root, &bindings, &Choices::new(alloc), &frame)?;
//! for thing in things.as_slice() {
//!     // "lamp", and then "lamp~ring"
//!     println!(rt; "{} {:?}", thing.segment, text_of(alloc, &thing.tree)?)?;
//! }
//! ```
//!
//! `derive` makes the description of a Thing of its model, and of each Thing that it is composed of by links to
//! submodels: resolved, with the optional affordances that are chosen, with links among the Things and with the forms
//! that a servient serves. Where anything is wrong it names the first fault and the Thing that has it. The contract in
//! a sentence: it answers what `derived` of specs/Derivation.antt says, or is out of memory. The room which that takes
//! for Things one below another is always enough, by a law (`specs/Enough.antt`).
#![tactic(auto)]

mod changes;
mod common;
mod derivation;
mod dropping;
mod fault;
mod finishing;
mod judging;
mod laws;
mod links;
mod made;
mod making;
mod optional;
mod place;
mod refusals;
mod submodels;

pub use derivation::derive;
pub use fault::DeriveFault;
pub use laws::more_room_changes_nothing;
pub use servient_base::NoMemory;
pub use tm_parts::Choices;
pub use wot_forms::Frame;
pub use wot_terms::{Thing, Things};
