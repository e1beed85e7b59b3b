//! The site: the Things, the handler of each affordance, and where a path leads. All of it is constant in a run.
//!
//! `IndexedThings::new` gives the affordances of Things the handlers of a rack, by a list of slots, or names the first
//! that has none, one of another kind, or one that is taken. `place_at` gives the place of a path, `act_at` the act of
//! a verb there, and `judge` the inputs of a request to that act, or the outcome where it is refused in every state of
//! the Things.
//!
//! ```
//! use thing_handler::{Kind, Rack};
//! use thing_site::{IndexedThings, Resource, Slots, place_at};
//!
//! // The affordance `on` of the Thing `lamp` is served by the handler in slot 1 of the rack.
//! let mut slots = Slots::new(alloc);
//! slots.push(text("lamp"), text("/properties/on"), 1)?;
//! let things = IndexedThings::new(alloc, derived, &slots, &rack, 0)?;
//! assert!(matches!(place_at(&things, &segments), Some(Place::Property(_))));
//! ```
//!
//! Contracts see a site (`specs/Site.antt`): the Things, each with its affordances and the slots of their handlers; and
//! the versions of properties that the run leaves out.
//! The contract in a sentence: `IndexedThings::new` is `site_of`, which fits the rack, or the first of
//! `expose_faults`; what is found in it is what the site has there (`specs/Places.antt`), and a request is judged by
//! the first of its refusals (`specs/Refusals.antt`). Judging is cut where the state begins: that no further invocation
//! may run, and whether an invocation is there, is for `thing_core`.
#![tactic(auto)]

mod fault;
mod formats;
mod held;
mod indexed;
mod input;
mod laws;
mod place;
mod placing;
mod refusing;
mod site;
mod slots;
mod wanted;

pub use fault::ExposeFault;
pub use formats::{AnswerFormat, BodyFormat, judge_formats};
pub use held::{HeldThing, LentThing};
pub use indexed::IndexedThings;
pub use input::Input;
pub use laws::constants_are_these;
pub use place::{Resource, ThingAct, act_at, place_at, target_at};
pub use placing::handler_at;
pub use refusing::{LONGEST_VALUE, is_accepted, judge, value_in};
pub use servient_base::NoMemory;
pub use site::{Spot, is_emitter, is_kind};
pub use slots::Slots;
pub use wanted::pointer_of;
