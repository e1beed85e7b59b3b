//! The outside of the servient as it is proved: the network, the files and the output.
//!
//! Each is a trait whose ghost member says its view in contracts: the happenings at the network, in order, and the
//! events still to come; the content of the files and the reads that were made; the bytes written; the number of
//! failures of each. A version in memory records all of that; but a network in memory that has lost an act, because it
//! was out of memory, records no more happenings. The adapters to the machine, which record only failures, are a crate
//! of their own, `servient_edge`, so that a crate is the border between the part that is proved, here, and the part
//! that is tested, there.
//!
//! ```
//! use servient_outside::{Calls, Events, Net, NetMemory, Next, What};
//!
//! // A network that gives no event, and whose first call fails: then comes the Stop, whose moment is 0.
//! let mut fails = Calls::new(alloc);
//! fails.push(1)?;
//! let mut net = NetMemory::new(alloc, Events::new(alloc), fails)?;
//! let mut buffer = [0; 4096];
//! assert_eq!(net.next(&mut buffer), Next::Failed);
//! assert!(matches!(net.next(&mut buffer), Next::Got(event) if event.what == What::Stop));
//! net.send(3, b"HTTP/1.1 204 ", b"No Content");
//! assert_eq!(net.acts().len(), 1);
//! ```
#![tactic(auto)]

mod act_log;
mod acts;
mod calls;
mod events;
mod files;
mod files_memory;
mod net;
mod net_memory;
mod out;
mod out_memory;
mod place;

pub use calls::Calls;
pub use events::Events;
pub use files::{FileRead, Files, Got, Held, HeldFile};
pub use files_memory::FilesMemory;
pub use net::{Act, Dialled, Event, EventWithBytes, Found, Listened, Net, Next, What};
pub use net_memory::NetMemory;
pub use out::{Out, Put};
pub use out_memory::OutMemory;
pub use place::Place;
pub use servient_base::NoMemory;
