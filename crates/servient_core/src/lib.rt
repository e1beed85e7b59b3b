//! The servient: its move on each event of the network, by the machine of `specs/Machine.antt`.
//!
//! `Servient::step` makes one step of that machine, and `serve` a run. Both say so in one clause: for every state that
//! the servient stood for before, it stands afterwards for one to which the machine's move leads, and the network and
//! the rack show the trace of that move. Each function below them has that one clause too, in place of clauses on acts,
//! turns and state that a reader would put together. The crate sees the handlers as `Handlers` and the network as
//! `Net`, and knows no socket and no clock.
//!
//! ```
//! use servient_core::{Calls, Events, NetMemory, Plan, Served, Servient, serve};
//!
//! let plan = Plan::built_in(alloc)?;
//! let mut servient = Servient::new(alloc, &plan, derived, &rack)?;
//! // No event but the Stop that a network in memory gives at its end.
//! let mut net = NetMemory::new(alloc, Events::new(alloc), Calls::new(alloc))?;
//! assert!(matches!(serve(&mut servient, &mut net, &mut rack, 100), Served::Stopped));
//! assert!(net.acts().is_empty());
//! ```
#![tactic(auto)]

mod capacity;
mod connections;
mod delivering;
mod ending;
mod laws;
mod layers;
mod links;
mod performing;
mod sections;
mod servient;
mod serving;

pub use laws::{
    constants_are_these, directory_is_apart, duplicates_act_on_nothing, each_run_has_a_history,
    each_stands_for_a_state, failing_is_exact, full_table_acts_on_nothing, links_name_each_thing,
    misses_are_counted, one_meaning, turns_are_numbered,
};
pub use sections::{RunBounds, SectionsEnd, serve_in_sections};
pub use servient::{OpenFault, Servient};
pub use servient_edge::{
    Act, Calls, Dialled, Event, EventWithBytes, Events, FileRead, Files, FilesMemory, FilesReal,
    Found, Got, Held, HeldFile, Listened, Net, NetMemory, Next, Out, OutMemory, OutReal, Place,
    Put, What,
};
pub use servient_plan::{ModelFiles, Plan, PlanFault};
pub use serving::{Served, serve};
pub use thing_core::Slots;
