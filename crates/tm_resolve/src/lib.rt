//! The values of Thing Models: each is the model once the models that it extends and the parts that it refers to are
//! brought in (Thing Description 1.1, section "Thing Model").
//!
//! ```
//! use tm_parts::{Bindings, Library};
//! use tm_resolve::resolve;
//! use wot_json::{read, text_of};
//!
//! let mut library = Library::new(alloc);
//! let lamp = read(alloc, br#"{"@type":"tm:ThingModel","p":{"on":{"type":"boolean"}}}"#)?;
//! library.add("https://m.example/lamp", lamp)?;
//! let hall = read(alloc, br#"{"@type":"tm:ThingModel","on":{"title":"Hall","tm:ref":"lamp#/p/on"}}"#)?;
//! library.add("https://m.example/hall", hall)?;
//!
//! let value = resolve(alloc, &library, "https://m.example/hall", &Bindings::new(alloc))?;
//! assert_eq!(
//!     text_of(alloc, &value)?.as_slice(),
//!     br#"{"@type":"tm:ThingModel","on":{"title":"Hall","type":"boolean"}}"#,
//! );
//! ```
//!
//! `resolve` puts bound values in the places of a model's placeholders, brings in what its `tm:extends` link and the
//! `tm:ref` members of its objects lead to, in models of a library, and says what the result is, or the first fault.
//! Before all that it counts how much would come, and refuses a model that grows too large. The contract in a sentence:
//! it answers what `resolved_model` of specs/Resolution.antt says, or is out of memory.
#![tactic(auto)]

mod chain;
mod fault;
mod laws;
mod links;
mod merging;
mod model_links;
mod resolver;
mod sources;
mod spending;
mod walk;
mod weight;

pub use fault::{ResolveFault, ResolveKind};
pub use laws::{links_are_the_models_own, room_is_enough, things_are_few, too_large_is_exact};
pub use model_links::{CountedLink, Relation};
pub use resolver::{Resolver, resolve};
pub use servient_base::NoMemory;
// Definitions of other crates name it: `tm_derive` has a law on the chains of an expansion.
pub use weight::Role;
