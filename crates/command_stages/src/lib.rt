//! The stages in which a command reads and judges its files, and the ends of commands.
//!
//! A stage goes on with a value, or ends the command with a status and a text (`specs/Stages.antt`). Each function says by
//! `Performs` or `EndsBy` which stage it is and what the outside shows of it. A faulty file ends a command with a line that
//! names the file and its first fault. The crate knows no machine: what a plan says is read and derived, and not served.
//!
//! ```
//! use command_stages::read_planned;
//!
//! // The plan and its models, from files in memory.
//! let planned = read_planned(alloc, "plan.json", &mut files)?;
//! assert_eq!(planned.plan.exchanges, 1024);
//! ```
#![tactic(auto)]

mod checking;
mod derivation;
mod described;
mod ending;
mod fault_lines;
mod inputs;
mod reading;
mod tabling;

pub use checking::check_file;
pub use derivation::{Planned, derive_plan, derive_things, read_planned};
pub use described::{read_description, read_input};
pub use ending::{Ended, Ending, SPENT_LINE, end_with};
pub use fault_lines::misfit;
pub use inputs::{Inputs, built_in, plan_name, read_inputs};
pub use reading::{LONGEST_JSON, read_file, read_tree};
pub use tabling::table_plan;
