//! The front of a stream as code has it: a head, a body, or a fault.

use http_fields::Body;
use thing_ops::{Accept, Format};

/// The front of a stream of requests.
#[derive(Drop)]
pub enum Scanned<'a> {
    /// A message that isn't whole yet.
    Short {
        /// A 100 reply is asked for.
        expect: bool,
    },
    /// A whole message.
    Whole {
        /// Its head.
        head: Head<'a>,
        /// Its body.
        body: Body<'a>,
        /// The number of bytes of the stream that it takes, with the CR LF pairs in front of it.
        used: usize,
        /// A 100 reply is asked for.
        expect: bool,
    },
    /// A fault, which is answered with this status.
    Fault {
        /// The status.
        status: u16,
        /// A 100 reply is asked for.
        expect: bool,
    },
}

/// The head of a request.
#[derive(Debug, Drop)]
pub struct Head<'a> {
    /// The method, in the case in which it came (RFC 9110, section 9.1).
    pub method: &'a [u8],
    /// The request target (RFC 9112, section 3.2).
    pub target: &'a [u8],
    /// The connection is closed after the reply.
    pub close: bool,
    /// The media type of the body.
    pub format: Format,
    /// The media types that are taken in the reply.
    pub accept: Accept,
    /// The header lines, with the empty line that ends them. `conditions` reads those that ask for a version.
    pub lines: &'a [u8],
    /// One of them asks for a version.
    pub conditional: bool,
}
