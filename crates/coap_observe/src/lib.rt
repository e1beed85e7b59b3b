//! The observers of a CoAP server and the notifications to them (RFC 7641, sections 3 and 4). This crate knows
//! endpoints, tokens, message IDs, moments and numbers of targets, and no message: other crates know the targets and
//! their values. It has no clock and no socket, and takes memory once, when the list is made. `Watchers` and `Notice`
//! carry everything.
//!
//! ```
//! use coap_msg::Endpoint;
//! use coap_observe::{Registered, Watchers};
//!
//! let mut observers = Watchers::new(alloc, 1024)?;
//! let from = Endpoint { host: 1, port: 5683 };
//! assert_eq!(observers.register(from, b"a", 3), Registered::New(0));
//! // Target 3 has a new value: its observers are to be notified.
//! observers.emit(3);
//! let notice = observers.next_send(now, 7).unwrap();
//! assert_eq!((notice.target, notice.id, notice.sequence), (3, 7, 1));
//! // One notification to an endpoint is unacknowledged at a time.
//! assert!(observers.acked(from, 7));
//! ```
//!
//! The contract in a sentence: each call is its step of `specs/Watching.antt`, and `next_send` is `Notifies` there. The
//! laws (`specs/Laws.antt`): at most one notification to an endpoint is unacknowledged, an endpoint that is given up
//! has no observer left, after a Reset nothing is sent to its observer until that registers again, sequence numbers
//! rise by one, and a notification that nothing answers is sent at most five times. And over all calls before
//! (`specs/Accounts.antt`): a notification goes to an observer that registered for its target, and those to one that
//! registered once go in order and say the values of their target in order.
//!
//! Inside, observers are in slots that are linked by their targets and by their endpoints (`slots.rt`), and `next_send`
//! looks at them only from the moment on at which something may be to be sent (`observers.rt`).
#![tactic(auto)]

mod buckets;
mod giving_up;
mod laws;
mod notice;
mod notification;
mod observer;
mod observers;
mod sequence;
mod slots;
mod walks;

pub use laws::{
    given_up_leaves_none, notifications_are_in_order, numbers_rise, one_is_unacknowledged,
    pairs_differ, reset_forgets, sent_five_times,
};
pub use notice::{Notice, Registered};
pub use observers::Watchers;
pub use servient_base::NoMemory;
