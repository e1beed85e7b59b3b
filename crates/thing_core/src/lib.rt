//! Things as they are exposed, and the acts that requests ask of them.
//!
//! `Exposed::new` takes the Things of a site (`thing_site`), or says what is against exposing them. `perform` goes
//! through the refusals of a request in their order, and then does the act.
//!
//! ```text
//! let mut slots = Slots::new(alloc);
//! slots.push(segment, pointer, 0)?; // `lamp` and `/properties/status`
//! let mut lamp = Exposed::new(alloc, things, &slots, &rack, 0)?;
//! let outcome = lamp.perform(&mut rack, &request); // GET /lamp/properties/status
//! assert!(matches!(outcome, Outcome::Content { .. }));
//! assert_eq!(lamp.accounts().calls, 1);
//! ```
//!
//! Contracts see the site, which is constant (`Site` of `thing_site`), and the state of the Thing machine
//! (`State` of `thing_state`, which has each change of it and each call of a handler). The contract in a sentence:
//! `perform` makes a move of that machine (`Acts` of `specs/Thing.antt`), `tick` makes one of its polls (`Polls`),
//! `poll_next` that of one event, and the rack shows the calls of each. Each property has a version, which counts the
//! texts that were seen of it; the conditions of a request on it are judged for one property alone (RFC 9110, section
//! 13). Memory is taken before the first call of a handler, and by polls never.
#![tactic(auto)]

mod acting;
mod admitting;
mod exposed;
mod field;
mod invoking;
mod laws;
mod polling;
mod reading;
mod writing;

pub use exposed::{Accounts, Exposed};
pub use laws::{
    a_rack_fits_on, a_rack_fits_on_after_polls, no_write_is_lost, one_tag_is_one_text,
    polls_are_the_same_in_turn, refused_values_reach_no_handler, requests_are_complete,
    tags_do_not_come_again, versions_count_turns, versions_see_texts,
};
pub use polling::Round;
pub use servient_base::NoMemory;
pub use thing_site::{ExposeFault, Slots};
