//! Words that several crates share and none of them owns.
//!
//! Being out of memory has one name, `NoMemory`. A count of faults that rose is `Rose` in `specs/Count.antt`.
//! `put_bytes`, and `put_piece` where there may be no room, are how every writer of this repository fills a caller's
//! slice: they take no memory and change nothing but the bytes that they write. `put_encoded` and `push_encoded` write
//! a segment into the path of a URL. `parse_decimal` reads every number that a person writes, and `join` joins every
//! text to a URL. `point_in` reads HOST:PORT, exactly as `point_in` of `specs/HostPorts.antt` says. `ConnectionId` and `Target` are the numbers by which the layers speak of connections and of observed
//! properties and events.
//!
//! ```
//! use servient_base::{join, parse_decimal, point_in, put_bytes, put_encoded, put_piece};
//!
//! let mut out = [0; 4];
//! assert_eq!(put_bytes(&mut out, 1, b"ab"), 3);
//! assert_eq!(&out, b"\0ab\0");
//! assert_eq!(put_piece(&mut out, 3, b"cd"), None);
//! assert_eq!(put_encoded(&mut out, 0, b"/"), Some(3));
//!
//! assert_eq!(parse_decimal("8080", 65_535), Some(8080));
//! assert_eq!(parse_decimal("08080", 65_535), None);
//!
//! assert_eq!(point_in("lamp.local:5683"), Some(("lamp.local", 5683)));
//! assert_eq!(point_in("lamp.local"), None);
//! assert_eq!(point_in("lamp.local:05683"), None);
//!
//! let url = join(alloc, Some("https://m.example/a/b"), "c")?.unwrap();
//! assert_eq!(url.as_str(), "https://m.example/a/c");
//! ```
#![tactic(auto)]

mod decimal;
mod encoding;
mod host_port;
mod location;
mod writing;

pub use decimal::parse_decimal;
pub use encoding::{push_encoded, put_encoded};
pub use host_port::point_in;
pub use location::{join, join_to};
use std::alloc::AllocError;
pub use writing::{put_bytes, put_piece};

/// Out of memory. It is std's `AllocError` under the name that this product uses.
pub type NoMemory = AllocError;

/// The number of an HTTP connection, from 0 to 63. It is free again once the connection is closed.
pub type ConnectionId = u32;

/// The number of what may be observed, an observable property or an event: the slot of its handler.
pub type Target = u32;
