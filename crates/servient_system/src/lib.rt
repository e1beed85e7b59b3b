//! The system calls of a network over sockets.
//!
//! `System` is a trait with a method for each thing that the network asks of the machine: the time, a wait for sockets,
//! and the calls on sockets, which are named by the numbers that the caller gave them. No socket leaves it. Its ghost
//! member says what was asked and answered, in order, where that is recorded. `SystemMemory` plays a list of answers and
//! records all; the system of the machine, which records nothing, is `SystemReal` of `servient_edge`.
//!
//! ```
//! use servient_system::{Asked, Refusal, System, SystemMemory};
//!
//! // A system whose clock fails once, and stands still afterwards.
//! let mut answers = Vec::new(alloc);
//! answers.push(Asked::Clock(Err(Refusal::Failed(5))))?;
//! let mut system = SystemMemory::new(alloc, answers);
//! assert_eq!(system.now(), Err(Refusal::Failed(5)));
//! assert_eq!(system.now(), Ok(0));
//! assert_eq!(system.asked().map(|asked| asked.len()), Some(2));
//! ```
#![tactic(auto)]

mod asked;
mod asked_log;
mod copies;
mod ready;
mod refusal;
mod system;
mod system_memory;

pub use asked::{Asked, Call, ReceivedDatagram};
pub use ready::{MOST_READY, Ready};
pub use refusal::Refusal;
pub use system::{Arrived, System};
pub use system_memory::SystemMemory;
