//! Neighbours at one servient, as laws over runs of its machine.
//!
//! Each is the contract of a function with an empty body, so that it is proved and can be cited; no code needs to call
//! it.
//!
//! - Each datagram that is sent goes to an endpoint from which one came: `datagrams_go_to_askers`.
//! - What comes from one connection or one endpoint leaves what is another's, but for what it emits and what the moment
//!   makes due: `neighbours_do_not_matter`.
//! - Each observer was told the last value, or an acknowledgement of its endpoint is awaited: `observers_converge`.
//!   The deeds of a run of which it speaks are seen in its trace and in the last values: `deeds_are_seen`.
//! - A read at the machine's moment is answered, and nobody else is sent anything: `reads_move_nobody`.
#![tactic(auto)]

mod laws;

pub use laws::{
    datagrams_go_to_askers, deeds_are_seen, neighbours_do_not_matter, observers_converge,
    reads_move_nobody,
};
