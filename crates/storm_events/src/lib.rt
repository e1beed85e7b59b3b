//! The storm: a load of events that a seed and their number determine. `events_of` of `specs/Storm.antt` defines them,
//! and another program can compute it; `storm_events` gives exactly these.
//!
//! ```
//! use storm_events::storm_events;
//!
//! // The first event of the storm of the seed 0: a request for the lamp's status.
//! let events = storm_events(alloc, 0, 1)?;
//! assert_eq!(events.at(0).bytes.as_slice(), b"\x40\x01\x00\x00\xb4lamp\x0aproperties\x06status");
//! ```
#![tactic(auto)]

mod choice;
mod coming;
mod datagram;
mod datagrams;
mod generator;
mod storm;

pub use servient_base::NoMemory;
pub use storm::storm_events;
