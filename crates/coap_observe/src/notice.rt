//! The outcome of a registration, and a notification that is to be sent.

use coap_msg::{Endpoint, LONGEST_TOKEN};
use servient_base::Target;

/// The outcome of a registration (RFC 7641, section 4.1).
#[derive(Clone, Copy, Debug, PartialEq, Eq)]
pub enum Registered {
    /// The endpoint and the token are new among the observers. The sequence number that the response says.
    New(u32),
    /// They were there, and their registration is replaced. The sequence number that the response says.
    Replaced(u32),
    /// They are new, and there is no room for another observer.
    Full,
}

/// A notification to be sent now (RFC 7641, section 4.2).
#[derive(Clone, Copy, Debug, PartialEq, Eq)]
pub struct Notice {
    /// The endpoint to which it goes.
    pub to: Endpoint,
    /// The token of the registration, in the first `token_length` bytes. An array, since this type can be copied.
    pub token: [u8; LONGEST_TOKEN],
    /// The number of bytes of the token.
    pub token_length: usize,
    /// The target whose last value it carries.
    pub target: Target,
    /// Its message ID.
    pub id: u16,
    /// Its sequence number, the value of Observe.
    pub sequence: u32,
    /// Whether the ID is the one that was handed in; else the message was sent before.
    pub fresh: bool,
}
