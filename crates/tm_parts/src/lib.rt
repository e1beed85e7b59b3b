//! Parts of Thing Models: their placeholders, the library that keeps them, and references from one to another.
//!
//! A Thing Model is a JSON value whose texts may hold placeholders, `{{NAME}}` (Thing Description 1.1, section "Thing
//! Model"). `substitute` puts bound values in their places, or finds the first fault; `first_hole` finds the first
//! that is left. `Library` keeps models by the texts of their URLs, and `Sources` are its models with values, of
//! which none is built. `target` says where the text of a `tm:ref` leads, and a `Location` says it of many without
//! parsing its own URL again.
//!
//! ```
//! use tm_parts::{Bindings, substitute, target};
//! use wot_json::{Text, read, text_of};
//!
//! let model = read(alloc, br#"{"title":"Lamp {{ROOM}}","maximum":"{{MOST}}"}"#)?;
//! let mut bindings = Bindings::new(alloc);
//! bindings.push(Text::copy_of(alloc, "ROOM")?, read(alloc, br#""hall""#)?)?;
//! bindings.push(Text::copy_of(alloc, "MOST")?, read(alloc, b"100")?)?;
//! let lamp = substitute(alloc, &model, &bindings)?;
//! assert_eq!(text_of(alloc, &lamp)?.as_slice(), br#"{"maximum":100,"title":"Lamp hall"}"#);
//!
//! let reference = target(alloc, "https://m.example/lamp", "switch#/properties/on")?;
//! assert_eq!(reference.url.as_str(), "https://m.example/switch");
//! assert_eq!(reference.pointer.as_str(), "/properties/on");
//! ```
#![tactic(auto)]

mod bindings;
mod building;
mod choices;
mod holes;
mod judging;
mod library;
mod location;
mod placeholder;
mod reference;
mod sources;
mod substitution;
mod values;
mod view;

pub use bindings::Bindings;
pub use choices::Choices;
pub use holes::first_hole;
pub use library::{AddFault, Library};
pub use location::Location;
pub use reference::{RefFault, Reference, target};
pub use servient_base::NoMemory;
pub use sources::{Source, Sources};
pub use substitution::{PartFault, substitute};
pub use values::Values;
pub use view::{ListView, Node, ObjectView, TextView, View};
