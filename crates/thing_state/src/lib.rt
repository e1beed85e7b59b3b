//! The state of the Things of a site in a run: each change of it, and each call of a handler.
//!
//! `Machine` keeps what the devices don't keep themselves: invocations of actions, the last value of each affordance that
//! may emit, the version of each property, and the number of turns. `call` calls a handler, and counts the turn where it
//! answers; requests and polls (`thing_core`) are made of such calls and changes.
//!
//! ```text
//! let versions = unseen_all(alloc, things.as_slice(), left_out)?;
//! let last = silent_all(alloc, things.as_slice())?;
//! let mut machine = Machine::new(alloc, versions, last, left_out)?;
//! let answer = call(&mut machine, &mut rack, slot, &CallKind::Read)?;
//! assert_eq!(machine.turns(), 1);
//! assert_eq!(machine.see(slot, b"true"), left_out + 1);
//! ```
//!
//! Contracts see a state (`specs/State.antt`), with the emissions that wait to be handed out (`specs/Course.antt`). The
//! contract in a sentence: each method of `Machine` is an equation on it, and `call` is `Calls` of `specs/Calls.antt`,
//! which the rack shows. All memory is taken at the beginning of the run, but that of `reserve`.
#![tactic(auto)]

mod calling;
mod emitters;
mod machine;
mod properties;
mod room;
mod standing;
mod state;
mod status;
mod version;

pub use calling::{call, failure, fired, taken_text};
pub use emitters::silent_all;
pub use machine::Machine;
pub use properties::unseen_all;
pub use room::TextRoom;
pub use standing::{invocation_in, place_of};
pub use state::{Invocation, LastValue, MOST_INVOCATIONS, MOST_TURNS};
pub use status::{put_completed, put_running};
pub use version::Version;
