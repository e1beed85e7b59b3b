//! A directory of Thing Descriptions (after the Things API of WoT Discovery, in outline).
//!
//! A `Directory` keeps at most 4,096 descriptions by their ids. `put` registers one under the id that it has, and
//! `create` one without an id, under an id that the directory gives; `patch`, `remove` and `get` name an id, and `list`
//! gives the text of a part of all. Each call is one step over the list of ids and descriptions in the byte order of
//! the ids, with a number for the next id (`specs/Directory.antt`).
//!
//! ```text
//! let mut directory = Directory::new(alloc);
//! assert!(directory.put("urn:lamp", lamp)?);
//! assert_eq!(directory.create(nameless)?.as_str(), "local:1");
//! assert!(matches!(directory.remove("urn:fan"), Err(DirFault::NotFound)));
//! ```
//!
//! `may_put`, `may_create` and `may_replace` judge and change nothing, and `keep_under` and `count_on` change what was
//! judged, so that a crate that keeps more of each entry can take the memory for that in between.
//!
//! The contract in a sentence: each call does what its step says, or gives the first fault that
//! holds and changes nothing.
#![tactic(auto)]

mod directory;
mod fault;
mod ids;
mod laws;

pub use directory::Directory;
pub use fault::DirFault;
pub use ids::local_id;
pub use laws::put_is_got_back;
pub use servient_base::NoMemory;
