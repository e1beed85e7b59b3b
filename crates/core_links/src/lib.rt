//! Links in the CoRE Link Format (RFC 6690), which a server's `/.well-known/core` answers with.
//!
//! `read` gives the links of a link text, or the length of the longest prefix that some link text begins with. `write`
//! writes links, without spaces, and with quotes round each value but one of digits alone. The grammar is
//! `specs/Links.antt`, a profile of the RFC's; `specs/Writing.antt` says how they are written.
//!
//! ```text
//! let links = read(alloc, br#"</lamp>;rt="wot.thing";ct=432"#)?;
//! let mut out = [0; 64];
//! assert_eq!(write(&links, &mut out), Some(29));
//! assert!(matches!(read(alloc, b"</lamp>,;"), Err(LinkFault::At(8))));
//! ```
#![tactic(auto)]

mod laws;
mod links;
mod reader;
mod reading;
mod steps;
mod writing;

pub use laws::links_are_read_back;
pub use links::{Link, Links, Param, Params};
pub use reading::{LinkFault, read};
pub use writing::write;
