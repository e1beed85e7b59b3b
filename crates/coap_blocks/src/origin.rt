//! The origin of a block.

use coap_msg::{Code, Endpoint};
use thing_ops::Segments;

/// The parts that the requests for all blocks of one body have in common (RFC 7959, section 2.5).
#[derive(Clone, Copy)]
pub struct Origin<'a> {
    /// The endpoint from which they come.
    pub from: Endpoint,
    /// Their code.
    pub code: Code,
    /// Their path, which is lent, since a part copies it into a room of its own.
    pub path: &'a Segments,
}
