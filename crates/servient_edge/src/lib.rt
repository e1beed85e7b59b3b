//! The adapters of the outside to the machine that the servient runs on: sockets, files, and a writer.
//!
//! The traits that they meet, and their versions in memory, are those of `servient_outside`, exported here too. An
//! adapter records nothing of what happened but its count of faults, since no contract says what a socket or a file
//! gives. The network, `MioNet`, asks a `System` of `servient_system` for all that it needs of the machine: that in memory,
//! or `SystemReal`, which calls mio and std, and alone knows a socket.
//!
//! ```
//! use servient_edge::{Files, FilesReal, Got, Out, OutReal, Put};
//!
//! let mut files = FilesReal::new(rt.clone()?);
//! let mut content = Bytes::new(alloc);
//! assert_eq!(files.read(alloc, "examples/lamp.td.json", 1_048_576, &mut content), Got::Whole);
//! let mut out = OutReal::new(io::writer(&rt));
//! assert_eq!(out.put(content.as_slice()), Put::Done);
//! ```
#![tactic(auto)]

mod accepting;
mod addresses;
mod connection;
mod dialling;
mod files_real;
mod finishing;
mod kept;
mod mio_net;
mod moments;
mod number;
mod numbers;
mod out_real;
mod sending;
mod sockets;
mod starting;
mod system_real;
mod timing;
mod turns;

pub use files_real::FilesReal;
pub use mio_net::MioNet;
pub use out_real::OutReal;
pub use servient_outside::{
    Act, Calls, Dialled, Event, EventWithBytes, Events, FileRead, Files, FilesMemory, Found, Got,
    Held, HeldFile, Listened, Net, NetMemory, Next, NoMemory, Out, OutMemory, Place, Put, What,
};
pub use system_real::SystemReal;
