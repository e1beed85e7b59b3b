//! The sentences that the servient is known by, as laws over whole runs of its machine.
//!
//! Each is the contract of a function with an empty body, so that it is proved and can be cited; no code needs to call
//! it. They stand in a crate of their own above `servient_core`, so that a further one proves nothing anew.
//!
//! - A CoAP request that comes again within its exchange lifetime acts once, and gets the reply that was kept:
//!   `repeats_act_once`.
//! - A request that is admitted and wants an act makes one: `requests_act_once`; each later block that is sent is of
//!   one act's payload, `later_blocks_are_of_one_act`, and the blocks of a body lead to one act,
//!   `joined_bodies_act_once`.
//! - A full table of exchanges acts on nothing: `full_tables_act_on_nothing`.
//! - A value that its schema refuses reaches no device: `calls_are_fit`, said of the calls alone.
//! - Each response by HTTP is that of its request, `responses_pair_with_requests`, and each call of a handler has a request
//!   that came, `calls_have_requests`.
//! - A run that forgets keeps these three, `sections_keep_promises`.
//! - A request that was out of memory made no call, or ended at a handler that was: `memory_is_seen`.
//! - Polls that were left out and operations that stopped at a handler are counted as its misses: `stops_are_counted`.
//! - An operation has one meaning by either binding: beside `one_meaning` of `servient_core`, it is replied to with one
//!   payload and one tag, `payloads_are_of_outcomes`, and what both bindings can say is read from a message of either,
//!   `requests_are_spoken`.
//! - One run, one outcome: with the same events and answers the same is done, until memory is wanting:
//!   `runs_are_determined`.
//! - Nothing before the word: no event is taken by a command that didn't serve, `faults_take_no_event`, and no handler
//!   is called by one that calls none, `handlers_stay`.
//! - A failure has a cause: a file or the network failed where the status says so, `failures_are_counted`.
//! - Memory alone: over files, a network and an output in memory nothing fails but memory, `nothing_fails_in_memory`.
//! - Over a whole run the directory gives out exactly what stands: `directory_gives_out_what_stands`.
#![tactic(auto)]

mod laws;

pub use laws::{
    calls_are_fit, calls_have_requests, directory_gives_out_what_stands, failures_are_counted,
    faults_take_no_event, full_tables_act_on_nothing, handlers_stay, joined_bodies_act_once,
    later_blocks_are_of_one_act, memory_is_seen, nothing_fails_in_memory, payloads_are_of_outcomes,
    repeats_act_once, requests_act_once, requests_are_spoken, responses_pair_with_requests,
    runs_are_determined, sections_keep_promises, stops_are_counted,
};
