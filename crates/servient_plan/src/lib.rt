//! The plan: the Things that a servient exposes, where it listens, and which handler serves which affordance.
//!
//! `Plan::read` takes the plan that a JSON object is, row after row of one table (`specs/Plan.antt`), and refuses by a
//! pointer to the first member that isn't as the table has it. `Plan::built_in` is the plan of the Thing that is served
//! where no plan is named. The crate knows no file and no network, since Things are derived from a plan by `tm_derive`
//! and served by `servient_core`.
//!
//! ```
//! use servient_plan::{Plan, PlanFault};
//! use wot_json::read;
//!
//! let tree = read(alloc, br#"{"name":"lamp","id":"urn:x:1","http":"http://127.0.0.1"}"#)?;
//! // The base has no port.
//! assert!(matches!(Plan::read(alloc, &tree), Err(PlanFault::At(at)) if at.as_str() == "/http"));
//! let plan = Plan::built_in(alloc)?;
//! assert_eq!(plan.place(alloc, 0)?.coap_port, 5683);
//! ```
#![tactic(auto)]

mod built_in;
mod listening;
mod plan;
mod texts;
mod unknown;
mod values;

pub use plan::{ModelFiles, Plan, PlanFault, UnknownMembers};
