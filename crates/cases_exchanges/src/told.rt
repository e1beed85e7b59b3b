//! The verdicts on requests, as lines of a text.

ghost use Rattle.std.specs.Prelude.{◌≡◌, ◌≤◌, ◌⊎◌};
ghost use Rattle.coap_msg.specs.declared.message.Type4.TheVariants.{Con, Non};

use crate::plain::PlainExchanges;
use crate::requests::Request;
use coap_exchange::{Exchanges, Met};
use coap_msg::Type4;
use std::alloc::AllocError;

/// The type of the message of a request.
fn message_type(confirmable: bool) -> Type4
    ensures { (result ≡ Con) ⊎ (result ≡ Non) }
{
    if confirmable { Type4::Con } else { Type4::Non }
}

/// Writes that a request was a duplicate, and this reply, which was kept.
fn put_reply(text: &mut String, reply: &[u8]) -> Result<(), AllocError> {
    text.push_str("repeated: ")?;
    cases_notation::put(text, reply)?;
    text.push_str("\n")
}

/// Writes the verdict of the table of linked slots on a request, and keeps its reply.
pub fn put_linked(
    text: &mut String,
    exchanges: &mut Exchanges,
    request: &Request,
    now: u64,
) -> Result<(), AllocError>
    requires { exchanges.old.moment ≤ now }
    ensures { exchanges.new.moment ≡ now }
{
    match exchanges.meet(
        request.from,
        request.id,
        message_type(request.confirmable),
        now,
    ) {
        Met::Fresh(slot) => {
            if request.answered {
                exchanges.keep(slot, request.reply.as_slice());
            }
            text.push_str("admitted\n")
        }
        Met::Repeat(Some(slot)) => put_reply(text, exchanges.reply(slot)),
        Met::Repeat(None) => text.push_str("repeated without a reply\n"),
        Met::Full => text.push_str("refused\n"),
    }
}

/// Writes the verdict of the plain list on a request, and keeps its reply.
pub fn put_plain(
    text: &mut String,
    exchanges: &mut PlainExchanges,
    request: &Request,
    now: u64,
) -> Result<(), AllocError>
    requires { exchanges.old.moment ≤ now }
    ensures { exchanges.new.moment ≡ now }
{
    match exchanges.meet(
        request.from,
        request.id,
        message_type(request.confirmable),
        now,
    ) {
        Met::Fresh(slot) => {
            if request.answered {
                exchanges.keep(slot, request.reply.as_slice());
            }
            text.push_str("admitted\n")
        }
        Met::Repeat(Some(slot)) => put_reply(text, exchanges.reply(slot)),
        Met::Repeat(None) => text.push_str("repeated without a reply\n"),
        Met::Full => text.push_str("refused\n"),
    }
}
