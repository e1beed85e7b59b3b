//! Data schemas (TD 1.1, section 5.3.2) over JSON trees whose numbers are whole.
//!
//! `check` gives the first fault of a schema's tree, `Schema::read` compiles a tree that has none, and
//! `Schema::accepts` says whether a schema accepts a value. `Accepts` of `specs/Acceptance.antt` says which values it
//! accepts, `schema_faults` of `specs/Faults.antt` which faults it has; both speak of its tree alone.
//!
//! ```text
//! let level = Schema::read(alloc, &read(alloc, br#"{"type":"integer","minimum":0}"#)?)?;
//! assert!(level.accepts(&Tree::Int(7)));
//! assert!(!level.accepts(&Tree::Int(-7)));
//! ```
#![tactic(auto)]

mod acceptance;
mod compilation;
mod counts;
mod fault;
mod kind;
mod node;
mod numbers;
mod rules;
mod schema;
mod shape;
mod validity;

pub use fault::SchemaFault;
pub use schema::Schema;
pub use validity::check;
