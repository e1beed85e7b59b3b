//! What is seen of a servient from outside: what happens at its network, and the calls of its devices' handlers, in order.
//!
//! The crate holds definitions: a trace (`specs/Trace.antt`), what the outside shows of one from one time to another
//! (`Shows`), and a trace that is shown in sections, between which handlers forget their turns (`specs/ShownSections.antt`).
//! The machine and the stages of commands both speak of it. Its one law is that parts are shown in their order.
//!
//! ```
//! servient_trace::sections_are_shown_in_order();
//! ```
#![tactic(auto)]

mod laws;

pub use laws::sections_are_shown_in_order;
