//! A directory of Thing Descriptions whose entries have times (WoT Discovery, registration information). It has no
//! clock: each call is handed its moment.
//!
//! A `Registry` keeps descriptions by their ids, as `wot_directory` does, and the moments at which each was created and
//! last changed. One that asks for a time to live is gone once that has passed since its last change; entries that are
//! over at the moment of a call are taken away before anything is judged. Each call is one step over the entries that
//! stand then (`specs/Registry.antt`), and over all calls exactly those are given out (`specs/Laws.antt`).
//!
//! Its parts serve by themselves: `date_text` gives the text of the UTC date and time that lies some milliseconds after
//! the start of 1970 (`specs/Dates.antt`), `asked_ttl` reads the time to live that a description asks for,
//! `without_registration` leaves out its registration information, and `show` says the `Times` of an entry in it
//! (`specs/Registration.antt`).
//!
//! ```text
//! let mut registry = Registry::new(alloc, 951_782_400_000);
//! assert!(registry.put("urn:lamp", lamp, 0)?);
//! assert!(registry.get("urn:lamp", 59_999)?.is_some());
//! assert!(matches!(registry.remove("urn:lamp", 60_000), Err(RegFault::Directory(DirFault::NotFound))));
//! assert_eq!(date_text(alloc, 951_782_400_000)?.as_str(), "2000-02-29T00:00:00.000Z");
//! ```
#![tactic(auto)]

mod dates;
mod fault;
mod laws;
mod registration;
mod registry;
mod times;
mod times_by_id;

pub use dates::date_text;
pub use fault::RegFault;
pub use laws::{gives_out_what_stands, is_full_exactly};
pub use registration::{asked_ttl, patched_from, show, without_registration};
pub use registry::Registry;
pub use servient_base::NoMemory;
pub use times::Times;
