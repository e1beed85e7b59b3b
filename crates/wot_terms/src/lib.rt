//! Thing Descriptions (TD 1.1, section 5.3): their terms, the conditions that they have to meet, and their affordances.
//!
//! ```
//! use wot_json::read;
//! use wot_terms::{CheckFault, Description, check};
//!
//! let tree = read(alloc, bytes)?;
//! match check(alloc, &tree) {
//!     Ok(()) => {
//!         for affordance in Description::of(alloc, &tree)?.affordances() {
//!             println!(rt; "{:?} {}", affordance.kind, affordance.name)?;
//!         }
//!     }
//!     // "the description does not meet condition 3 at `/title`"
//!     Err(fault) => println!(rt; "{fault}")?,
//! }
//! ```
//!
//! `check` names the first fault of a description by the table `faults_of` of `specs/Faults.antt`, which
//! docs/REFERENCE.md retells. `Description::of` lists the affordances of a valid one with their schemas compiled.
#![tactic(auto)]

mod affordance;
mod affordances;
mod demand;
mod description;
mod entries;
mod fault;
mod forms;
mod kind;
mod laws;
mod op;
mod rows;
mod table;
mod thing;

pub use affordance::Affordance;
pub use description::{Description, flag};
pub use fault::{CheckFault, TdFault};
pub use kind::Kind;
pub use laws::faults_come_in_preorder;
pub use op::Op;
pub use servient_base::NoMemory;
pub use table::check;
pub use thing::{Thing, Things};
