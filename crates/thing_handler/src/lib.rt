//! The device handlers of affordances, and the rack that holds them.
//!
//! A handler is seen as its kind, the turns that it made and how often it was out of memory (`Seen` of
//! `specs/Handler.antt`). Each call makes exactly one turn, or is out of memory and is counted. What a device answers
//! is its own.
//!
//! ```text
//! let mut fade = Job::new(alloc, 2);
//! assert!(matches!(fade.call(alloc, 0, &CallKind::Invoke(1, None))?, Answer::Started));
//! assert!(matches!(fade.call(alloc, 1, &CallKind::Query(1))?, Answer::Running));
//! assert!(matches!(fade.call(alloc, 2, &CallKind::Query(1))?, Answer::Finished(None)));
//! assert_eq!(fade.turns().len(), 3);
//! ```
//!
//! The handlers in memory are tables of `specs/InMemory.antt`: a row for each call says the answer, by the state that a
//! handler holds, and the state that it holds then. `shipped_in` gives the handlers of the shipped rack, by the table
//! of `specs/Shipped.antt`. The contract in a sentence: each call answers what its table says, makes one turn of that
//! answer and leaves what the table says; or it is out of memory, makes no turn, counts one miss and leaves what was
//! held.
//!
//! The crates above use a rack through the trait `Handlers`, and say what a rack did as the list of its calls
//! (`RackShows` of `specs/Turns.antt`).
#![tactic(auto)]

mod cell;
mod handler;
mod job;
mod laws;
mod pulse;
mod rack;
mod scripted;
mod shipped;
mod turn_log;

pub use cell::Cell;
pub use handler::{Answer, CallKind, Handler, NOT_ITS_KIND, Turn};
pub use job::Job;
pub use laws::constants_are_these;
pub use pulse::Pulse;
pub use rack::{Handlers, Rack};
pub use scripted::Scripted;
pub use servient_base::NoMemory;
pub use shipped::{SHIPPED_SLOTS, Shipped, shipped_in};
pub use turn_log::{PreparedTurn, TurnLog};
pub use wot_terms::Kind;

/// The number of a handler's place in a rack, counted from 0.
pub type Slot = u32;
