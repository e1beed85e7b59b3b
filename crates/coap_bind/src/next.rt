//! The server's answer to a datagram, and the ticket of a request that it hands out.

use crate::pending::PendingReply;
use coap_opts::CoapAsk;
use std::marker::Model;

/// The task that a datagram leaves to the caller.
pub enum CoapNext<'a> {
    /// Nothing.
    Nothing,
    /// This many bytes of the room go to the sender of the datagram.
    Send(usize),
    /// This is asked for: its outcome goes to `CoapBind::answer` with the ticket.
    Ask(CoapAsk<'a>, Ticket),
}

/// A request that was admitted and is to be answered, by `CoapBind::answer` alone: a ticket can't be dropped, copied or
/// made elsewhere, so that each is answered once. Contracts see the reply that is pending.
pub struct Ticket {
    pub(crate) pending: PendingReply,
}

impl Model for Ticket {
    ghost use Rattle.coap_bind.specs.declared.pending.PendingReply.{PendingReply};

    ghost Value = { PendingReply };

    ghost use Rattle.coap_bind.specs.Blocks.{IsUse};

    ghost view = { λ t. t.pending };

    ghost invariant = { λ t. IsUse t.pending.blocks };
}
