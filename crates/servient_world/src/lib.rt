//! Both ends over every schedule: one CoAP client and one CoAP server (RFC 7252, RFC 7641), and a network that may
//! lose, duplicate and reorder their datagrams within 100 seconds. It has laws alone: `specs/World.antt` is the world,
//! and `specs/Laws.antt` its laws after every list of moves. Each end is as its own crate says.
#![tactic(auto)]

mod laws;
mod network;

pub use laws::{
    acted_once, all_are_led, answered_once, constants_are_these, observed_once,
    reads_are_of_one_act, someone_acts, someone_takes_a_value, values_have_a_source,
    values_never_go_back, writes_are_one_act,
};
pub use network::MAX_LATENCY;
