//! The exchanges of a CoAP client (RFC 7252; RFC 7641; RFC 7959): it asks, sends again until there is a response, and
//! observes. The client has no clock and no socket: moments and datagrams are handed in, and bytes to be sent are
//! written into the caller's room. It takes memory once, when it is made. `Client`, `Ask`, `Delivered` and `Due` carry
//! everything.
//!
//! ```
//! use coap_client::{Ask, Client, Due, News};
//!
//! let mut client = Client::new(alloc, 0)?;
//! let mut room = [0; 1152];
//! // GET /lamp, to be observed.
//! let ask = Ask { code: 1, path: &path, observe: Some(true), format: None, block1: None, block2: None, payload: b"" };
//! let size = client.request(now, peer, &ask, &mut room)?;
//! send(peer, &room[..size]);
//! // For each datagram that comes:
//! let delivered = client.deliver(now, from, datagram, &mut room);
//! if let Some(size) = delivered.reply {
//!     send(from, &room[..size]);
//! }
//! if let News::Value(payload) = delivered.news {
//!     show(payload);
//! }
//! // And from time to time:
//! if let Due::Send(size) = client.due(now, &mut room) {
//!     send(peer, &room[..size]);
//! }
//! ```
//!
//! The contents of a client and the effects of its calls are one machine, `specs/Exchange.antt`. The contract in a
//! sentence: each call does the same as the machine (`Asks` and `IsRefused`, `Delivers`, `ComesDue`), for all that
//! comes in any order. The laws: a retransmission is the last request, byte for byte, less than 93 seconds after it was
//! sent first, a message that is taken comes from a peer that was asked, an id isn't used again within 400 seconds, the
//! ids of the first 65,536 requests differ, and so do the tokens of registrations.
#![tactic(auto)]

mod ask;
mod asking;
mod block2;
mod client;
mod delivery;
mod due;
mod fault;
mod ids;
mod laws;
mod meaning;
mod news;
mod observation;
mod outstanding;
mod state;
mod transfer;

pub use ask::Ask;
pub use client::Client;
pub use due::Due;
pub use fault::ClientFault;
pub use laws::{
    asks_are_messages, ids_differ, ids_rest, last_is_outstanding, last_is_retransmitted,
    registrations_have_tokens, retransmissions_end, taken_from_a_peer, taken_from_the_asked,
};
pub use news::{Delivered, News};
pub use servient_base::NoMemory;
pub use transfer::{Taken, Transfer};
