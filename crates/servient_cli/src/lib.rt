//! The commands, and the top call.
//!
//! `servient_main` is the whole program. Its contract, `Ends` of `specs/Command.antt`, says for each exit status why it
//! came and what was written. The whole output is one call of `Out::put`, but that `consume` writes each payload as it
//! comes, and `discover` the lines of the Things before the rest; so at status 7 a prefix of a text was written.
//!
//! ```
//! use servient_cli::servient_main;
//! use servient_outside::OutMemory;
//!
//! // `servient check lamp.td.json`, with files, a network and an output in memory, and a rack of any handlers.
//! let words = [text("check"), text("lamp.td.json")];
//! let mut out = OutMemory::new(alloc, 1024, Calls::new(alloc))?;
//! assert_eq!(servient_main(alloc, &words, &mut files, &mut net, &mut rack, &mut out), 0);
//! assert_eq!(out.written(), b"valid\n");
//! ```
#![tactic(auto)]

mod commands;
mod consumption;
mod counting;
mod discovery;
mod laws;
mod listening;
mod logging;
mod main_call;
mod opening;
mod outcomes;
mod replay;
mod storming;

pub use command_stages::{Ended, Ending, LONGEST_JSON, end_with, read_file, read_tree};
pub use laws::constants_are_these;
pub use main_call::{report, servient_main};
pub use servient_script::{Script, ScriptFault, each_event_has_fields, lines_are_cut_in_one_way};
