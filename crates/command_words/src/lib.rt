//! The words of the command line.
//!
//! `Command::read` gives the command that the words after the program's name say, or refuses them. The grammar is
//! `meaning_of` of `specs/Grammar.antt`: a function on all lists of words, which the code is proved to compute.
//!
//! ```text
//! let words = ["replay", "s.txt", "--events=5", "p.json"];
//! // Command::Replay { script: "s.txt", plan: Some("p.json"), events: 5 }
//! ```
//!
//! `clap` reads the words after the name of the command, by one command of its own for each (`values.rt`); numbers and
//! other values are read here (`parts.rt`), and flags are taken out before (`flags.rt`).
#![tactic(auto)]

mod command;
mod fault;
mod flags;
mod parts;
mod values;

pub use command::{Budget, Command, Consumption, Operation};
pub use fault::WordsFault;
pub use wot_forms::Scheme;
