//! The CoAP server (RFC 7252, RFC 7641, RFC 7959): the datagrams that are requests to act on, the replies to them, in
//! blocks where they are long, and the notifications of observers. It has no clock, no socket and no resources: moments
//! and datagrams are handed in, requests are handed out, and bytes to be sent are written into the caller's room.
//! `CoapBind`, `CoapNext`, `Ticket` and `coap_observe`'s `Notice` carry everything.
//!
//! ```
//! use coap_bind::{CoapBind, CoapNext};
//!
//! let mut server = CoapBind::new(alloc, 1024, 64)?;
//! let mut room = [0; 1152];
//! let mut body = [0; 16384];
//! // For each datagram that comes:
//! match server.datagram(from, datagram, now, &mut room, &mut body) {
//!     CoapNext::Nothing => {}
//!     CoapNext::Send(size) => send(from, &room[..size]),
//!     CoapNext::Ask(ask, ticket) => {
//!         // `target` is the number of the target at the path of the request, if one may be observed there.
//!         let (outcome, target) = act(&ask.request);
//!         let size = server.answer(ticket, &outcome, target, &mut room);
//!         send(from, &room[..size]);
//!     }
//! }
//! // For each new value of a target, and then after each event:
//! server.emit(target);
//! while let Some(notice) = server.next_send(now) {
//!     let size = server.put_notice(&notice, value_of(notice.target), &mut room);
//!     send(notice.to, &room[..size]);
//! }
//! ```
//!
//! `specs/Server.antt` is one machine: the contents of a server, and the effect of each call on them.
//! `specs/Observing.antt` has the wish of a request for the observers, `specs/Blocks.antt` its wish for blocks and the
//! part of a payload that a reply has, `specs/Links.antt` the replies on the links, and `specs/Writing.antt` a reply
//! and a notification on the wire. The contract in a sentence: each call does the same as the machine (`Hears`,
//! `Answers`, `SendsNext`), for all that comes in any order. The laws (`specs/Laws.antt`, `specs/Duplicates.antt`,
//! `specs/Transfers.antt`): the exchanges of a server are those of the admitted requests that live; a duplicate asks
//! for nothing and changes nothing, and where it is answered it gets the bytes that were sent first, which it gets
//! exactly where both requests are Confirmable and the first was replied to; a request without blocks comes to no body
//! and no part; no body that is whole stays; and a reply fits its room. Memory is taken when the server is made, and
//! then by the path of a request that was admitted.
#![tactic(auto)]

mod answering;
mod bind;
mod blocks;
mod joining;
mod laws;
mod links;
mod next;
mod observing;
mod options;
mod pending;
mod portion;
mod reading;
mod server;
mod writing;

pub use bind::CoapBind;
pub use laws::{
    all_are_treated, asked_is_admitted, asks_are_open, constants_are_these, duplicates_ask_nothing,
    duplicates_change_nothing, duplicates_get_the_first_reply, exchanges_are_of_the_history,
    hearing_goes_on, no_whole_body_stays, only_confirmable_are_kept,
    only_the_first_reply_is_repeated, replies_fit, requests_without_blocks_act, sent_are_messages,
};
pub use next::{CoapNext, Ticket};
pub use servient_base::NoMemory;
