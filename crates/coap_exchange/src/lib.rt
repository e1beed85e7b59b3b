//! The exchanges of a CoAP server (RFC 7252, sections 4.2 and 4.5): a request that comes twice acts once. This crate
//! knows endpoints, message IDs and moments, and no message: other crates read those. It has no clock and no socket,
//! and takes memory once, when the table is made. `Exchanges` and `Met` carry everything.
//!
//! ```
//! use coap_exchange::{Exchanges, Met};
//! use coap_msg::{Endpoint, Type4};
//!
//! let mut exchanges = Exchanges::new(alloc, 1024)?;
//! let from = Endpoint { host: 1, port: 5683 };
//! match exchanges.meet(from, 7, Type4::Con, now) {
//!     // Act, and keep the reply for a duplicate.
//!     Met::Fresh(slot) => exchanges.keep(slot, reply),
//!     // Don't act: send the reply again, if there is one.
//!     Met::Repeat(Some(slot)) => send(exchanges.reply(slot)),
//!     Met::Repeat(None) => {}
//!     // Don't act: as many requests live as may.
//!     Met::Full => {}
//! }
//! ```
//!
//! `specs/Admission.antt` says which requests of a whole history are admitted. The contract in a sentence: `meet`
//! judges each request so (`Meets` of `specs/Table.antt`, and the law `tables_follow_the_history`).
#![tactic(auto)]

mod entry;
mod exchanges;
mod laws;
mod met;
mod slots;

pub use exchanges::Exchanges;
pub use laws::{admitted_once, living_exchanges_differ, tables_follow_the_history};
pub use met::{ExchangeSlot, Met};
pub use servient_base::NoMemory;
