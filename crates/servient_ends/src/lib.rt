//! Both ends with the whole servient in the place of the CoAP server: the machine of `servient_core` beside a client,
//! in a network that may lose, duplicate and reorder datagrams of either. `specs/Ends.antt` is that world, and
//! `specs/Laws.antt` says that the laws of `servient_world` hold of it, since each turn of it is moves of that world.
#![tactic(auto)]

mod laws;

pub use laws::{
    servient_acts_once, servient_answers_once, servient_observes_once, servient_reads_one_act,
    servient_runs, servient_values_have_a_source, servient_values_never_go_back,
    servient_writes_one_act, some_reads_end, some_servient_acts, some_value_is_taken,
    some_writes_act, turns_are_moves,
};
