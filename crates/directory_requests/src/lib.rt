//! Requests to the directory of Thing Descriptions: their acts, their refusals, and their effects (after the Things API
//! of WoT Discovery, in outline).
//!
//! A `DirectoryServer` judges a request by the refusals of all requests, of which the directory has rows of its own
//! (`specs/Asked.antt`), and then does its act (`specs/Requests.antt`): with a `Directory`, or, where the moment is
//! known at which the clock began, with a `Registry`, whose entries have times and may be over. The query says which
//! entries a list has (`specs/Window.antt`).
//!
//! ```
//! use directory_requests::DirectoryServer;
//!
//! // A clock that began at 2000-02-29T00:00:00Z.
//! let mut directory = DirectoryServer::new(alloc, Some(951_782_400_000));
//! // POST /things with a description, five seconds later
//! let outcome = directory.perform(&request, 5_000);
//! assert!(matches!(outcome, Outcome::Created(Some(_))));
//! ```
//!
//! The contract in a sentence: entries that are over at the moment of a request are taken away; the outcome is that of
//! the first refusal, or of the act, and the directory is then as the step of `wot_directory` or `wot_registry` has it,
//! or as it was; and where it was out of memory nothing else changed.
#![tactic(auto)]

mod act;
mod judging;
mod performing;
mod registering;
mod server;
mod window;

pub use act::{DirectoryAct, is_of_directory};
pub use server::{DirectoryServer, ServedEntries};
