//! A rehearsal: a list of moves is played by the real objects of both ends, a servient and a CoAP client, in a network
//! that may lose, duplicate and reorder datagrams of either within 100 seconds. `rehearse` is the one call.
//!
//! ```
//! use servient_rehearsal::{Move, rehearse};
//!
//! // The client asks for the status of a lamp, and its datagram comes twice.
//! let mut moves = Vec::new(alloc);
//! let (block1, block2, payload) = (None, None, Bytes::new(alloc));
//! moves.push(Move::Ask { code: 1, path, observe: None, format: None, block1, block2, payload })?;
//! moves.push(Move::Deliver(0))?;
//! moves.push(Move::Deliver(0))?;
//! moves.push(Move::Deliver(1))?;
//! let world = rehearse(alloc, &mut servient, &mut client, &mut rack, &moves)?;
//! // The ask, and its response twice, byte for byte. The handler of the status was called once.
//! assert_eq!(world.sent.len(), 3);
//! assert_eq!(world.ends.len(), 1);
//! ```
//!
//! The contract in a sentence: the moves make a run of the world of both ends (`servient_ends`), which the real objects
//! made, so that its laws hold of it (`Rehearses` of `specs/Rehearsal.antt`).
#![tactic(auto)]

mod asking;
mod hearing;
mod moves;
mod notes;
mod playing;
mod rehearsal;
mod taking;
mod world;

pub use moves::{Move, Moves, are_short};
pub use rehearsal::rehearse;
pub use servient_base::NoMemory;
pub use world::{
    AskEnd, AskList, AskMade, End, EndList, SentDatagram, SentList, TakenList, TakenValue, World,
};
