//! Scripts of events, and the print of what a servient did.
//!
//! `Script::read` reads exactly what the grammar of `specs/Script.antt` writes, or names the first line that isn't in it.
//! `put_acts` and `put_turns` write the lines of `specs/Print.antt`: what was done to the network, and the turns of all
//! handlers, put together by their numbers. The laws: a line is cut into fields in one way, and each event's line is one
//! of fields.
//!
//! ```
//! use servient_script::Script;
//!
//! let script = Script::read(alloc, b"0 open 0\n10 stop\n")?;
//! assert_eq!(script.into_events().len(), 2);
//! ```
#![tactic(auto)]

mod laws;
mod print;
mod script;
mod turns;

pub use laws::{constants_are_these, each_event_has_fields, lines_are_cut_in_one_way};
pub use print::{put_acts, put_number};
pub use script::{LONGEST_SCRIPT, Script, ScriptFault};
pub use turns::{put_turns, turn_counts, turns_since};
