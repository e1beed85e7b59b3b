//! The answer of `next`, which says what to do on a connection.

use thing_ops::Request;

/// The next thing to do on a connection.
#[derive(Drop)]
pub enum HttpNext<'a> {
    /// Nothing: it isn't open, its next message isn't whole, or a request waits and nothing came behind it.
    Idle,
    /// The 100 reply has to be sent, by `refused` with the status 100.
    Continue,
    /// A request was taken, and its outcome has to be answered.
    Ask(Request<'a>),
    /// There is a fault: it has to be refused with this status, which closes the connection.
    Refuse(u16),
    /// A request was taken, and reading it is out of memory: the outcome `Memory` has to be answered.
    Memory,
    /// Bytes came behind a request that waits: the connection was given up, and has to be closed without a reply.
    Close,
}
