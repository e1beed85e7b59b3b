//! Consuming a Thing: one operation by the form that was chosen for it, over HTTP or over CoAP. And discovering Things: a
//! server is asked for its links, over CoAP.
//!
//! `consume` is the relation `Consumes` of `specs/Consuming.antt`, and `discover` is `Discovers`: which acts are done
//! to the network, which events are taken from it, what is printed, and how it ends. `specs/Answers.antt` gives the
//! verdict on an answer; `specs/HttpWaiting.antt` and `specs/CoapWaiting.antt` give the effect of each event;
//! `specs/Blockwise.antt` says how values travel in blocks over CoAP. A law says that an operation fails by the
//! network alone (`specs/Failing.antt`).
//!
//! ```text
//! let operation = Operation { tree: &tree, op: Op::ReadProperty, name: "status", input: None, count: 1 };
//! let chosen = choose(alloc, &tree, operation.op, operation.name, None)?;
//! match consume(alloc, &operation, &chosen, &mut net, &mut out) {
//!     Consumed::Done => 0,
//!     ended => report(ended),
//! }
//! let ended = discover(alloc, "lamp.local", 5683, &mut net, &mut out);
//! ```
#![tactic(auto)]

mod answers;
mod asking;
mod block_transfer;
mod blocks;
mod coap_asking;
mod coap_waiting;
mod consumed;
mod discovering;
mod http_waiting;
mod judgement;
mod laws;
mod operation;
mod printing;
mod purpose;
mod task;
mod waiting;

pub use asking::consume;
pub use consumed::{Consumed, ConsumedOutcome, Status};
pub use discovering::discover;
pub use laws::failing_breaks_the_network;
pub use operation::ThingOperation;
pub(crate) use purpose::Purpose;
pub(crate) use task::ClientTask;
