//! The reply to a request that was admitted, until it is sent, and the request as it was received.

use crate::blocks::BlockUse;
use crate::observing::Observing;
use coap_exchange::ExchangeSlot;
use coap_msg::{BoundedBytes, Endpoint, LONGEST_TOKEN, Message, RequestType};

/// The reply to a request that was admitted, before it is sent (RFC 7252, sections 4.2 and 5.3.1).
#[derive(Drop)]
pub struct PendingReply {
    /// The type of the request's message.
    pub kind: RequestType,
    /// Its message ID.
    pub id: u16,
    /// Its token, copied, since the datagram may be gone by then.
    pub token: BoundedBytes<LONGEST_TOKEN>,
    /// The slot of its exchange, where the reply is kept.
    pub slot: ExchangeSlot,
    /// The endpoint from which it came, and to which the reply goes.
    pub from: Endpoint,
    /// Its wish for the observers.
    pub observing: Observing,
    /// The part that blocks have in the reply.
    pub blocks: BlockUse,
}

/// The message of a request, and the moment at which it came.
#[derive(Clone, Copy)]
pub struct Received<'m, 'a> {
    /// The message.
    pub message: &'m Message<'a>,
    /// The moment at which it came, in milliseconds.
    pub moment: u64,
}
