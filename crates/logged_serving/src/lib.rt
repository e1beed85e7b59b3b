//! Serving with a log: as `serve_in_sections` of `servient_core` serves, and a line is written for each turn.
//!
//! The lines of the turns of a step are written before the next event is taken (`Logs` of `specs/Logging.antt`). A `RunLog`
//! takes all its memory when it is made, so that no step fails for its log. Where a write fails, nothing more is taken.
//!
//! ```text
//! let bounds = RunBounds { events: 100, turns: servient.most_turns() };
//! let mut log = RunLog::new(alloc, &rack, bounds)?;
//! let end = serve_logged(&mut servient, &mut net, &mut rack, &mut out, &mut log);
//! assert_eq!(end, LoggedEnd::Stopped);
//! ```
#![tactic(auto)]

mod run_log;
mod serving;

pub use run_log::RunLog;
pub use serving::{LoggedEnd, serve_logged};
