//! The machine goes on: what waits comes to an end, and what is begun can be ended.
//!
//! Each law is the contract of a function with an empty body, so that it is proved and can be cited; no code needs to
//! call it.
//!
//! - A request that waits is answered by the first delivery of its target after it, or by 204 at the first event at which
//!   60 seconds have passed; or its connection was opened anew, ended or interrupted; or the run ended first:
//!   `waits_end`.
//! - Whatever followed from an event, it can be ended, and whatever was emitted can be delivered: `events_can_end`,
//!   `emissions_can_be_delivered`.
//! - Something can be taken from a connection, or nothing is left to take: `streams_go_on`.
#![tactic(auto)]

mod laws;

pub use laws::{emissions_can_be_delivered, events_can_end, streams_go_on, waits_end};
