//! The news that a datagram brings, and the reply to it.

use coap_msg::Block;

/// The effect of a datagram that was delivered.
#[derive(Clone, Copy, Debug)]
pub struct Delivered<'b> {
    /// The number of bytes of the acknowledgement or the Reset that goes to the sender of the datagram.
    pub reply: Option<usize>,
    /// Its news.
    pub news: News<'b>,
}

/// The news of a message.
#[derive(Clone, Copy, Debug)]
pub enum News<'b> {
    /// Nothing that a user could use.
    Nothing,
    /// A response, with its code, the block of its body that its Block2 says (RFC 7959, section 2.1), and its payload. The
    /// request and the observation that it belongs to have ended.
    Answered(u8, Option<Block>, &'b [u8]),
    /// A value of the observed target, newer than all before it (RFC 7641, section 3.4).
    Value(&'b [u8]),
    /// A value that isn't newer than one that came.
    Old,
    /// The outstanding request was rejected, and has ended (RFC 7252, section 4.2).
    Reset,
}
