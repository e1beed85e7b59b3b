//! The contents of a server, and the treatment of each datagram.

ghost use Rattle.std.specs.Prelude.{◌≡◌, ◌≤◌, ◌&&◌, nat_lt, length};
ghost use Rattle.coap_msg.specs.Written.{IsWritten};
ghost use Rattle.coap_bind.specs.Server.{may_ask};

use crate::writing::kind_and_id;
use coap_blocks::{Bodies, Parts};
use coap_exchange::{ExchangeSlot, Exchanges, Met};
use coap_msg::{
    Code, DETAILS, EMPTY, Endpoint, LONGEST_MESSAGE, LONGEST_TOKEN, Message, Opts, Plain,
    RequestType, SERVICE_UNAVAILABLE, Type4, decode, encode, put_empty_reply, put_rejection,
};
use coap_observe::Watchers;
use servient_base::put_bytes;
use wot_json::Bytes;

/// The contents of a server. specs/Server.antt says how the calls change them.
#[derive(Drop)]
pub struct Server {
    /// The exchanges that live, with the replies that are kept.
    pub exchanges: Exchanges,
    /// The observers, each with its target.
    pub observers: Watchers,
    /// The message ID of the next message that isn't an acknowledgement.
    pub next_id: u16,
    /// The bodies of responses that are kept for their later blocks.
    pub bodies: Bodies,
    /// The bodies of requests, as far as their blocks came.
    pub parts: Parts,
    /// The text of the links.
    pub links: Bytes,
}

impl Server {
    ghost use Rattle.std.specs.Prelude.{◌≡◌, ◌<◌, ◌≤◌, ℕ, true, length, Some, option_map, IfSome};
    ghost use Rattle.coap_msg.specs.MessageOf.{message_of};
    ghost use Rattle.coap_msg.specs.Grammar.{spelling};
    ghost use Rattle.coap_msg.specs.Requests.{request_type};
    ghost use Rattle.coap_exchange.specs.Table.{Exchange, exchange_in, HasReply, IsAwaited};
    ghost use Rattle.coap_bind.specs.Server.{is_request, duplicate_reply, with_id_used, with_observers, told_by_empty, with_report};
    ghost use Rattle.coap_bind.specs.Writing.{full_reply, head_of, coap_reply};
    ghost use Rattle.coap_bind.specs.Settling.{TellsDone, SettlesOrAdmits};

    /// Judges a datagram as far as that takes no memory, without an allocator, so that its signature says so: gives the
    /// request that was admitted and its slot, or else the number of bytes to send, if any.
    pub fn judge_datagram<'a>(
        &mut self,
        from: Endpoint,
        bytes: &'a [u8],
        now: u64,
        out: &mut [u8; LONGEST_MESSAGE],
    ) -> Result<(Message<'a>, ExchangeSlot), Option<usize>>
        requires { self.old.exchanges.moment ≤ now }
        ensures { SettlesOrAdmits from bytes.now now result out.old out.new self.old self.new }
    {
        let message = match decode(bytes) {
            Ok(message) => message,
            // The first byte says whether there is a Reset, because a fault comes before anything else is known.
            Err(_fault) => return Err(put_rejection(bytes, out)),
        };
        if !is_request(message.kind, message.code) {
            self.report(from, &message);
            return Err(put_empty_reply(message.kind, message.id, false, out));
        }
        let kind = RequestType::of(message.kind);
        match self.exchanges.meet(from, message.id, message.kind, now) {
            Met::Fresh(slot) => Ok((message, slot)),
            Met::Repeat(kept) => Err(self.answer_duplicate(kind, kept, out)),
            Met::Full => Err(Some(self.refuse_full(&message, out))),
        }
    }

    /// Answers a request for which the table has no room. The reply isn't kept, so that a duplicate may be admitted.
    fn refuse_full(&mut self, message: &Message<'_>, out: &mut [u8; LONGEST_MESSAGE]) -> usize
        requires { length message.now.token.now ≤ LONGEST_TOKEN }
        ensures bytes { IsWritten (spelling (coap_reply full_reply (head_of (message_of message.now)) self.old.next_id)) result out.old out.new }
        ensures after { self.new ≡ with_id_used (request_type message.now.kind) self.old }
    {
        let kind = RequestType::of(message.kind);
        let mut none = [];
        let options = Opts::on(&mut none);
        let (reply_kind, id) = kind_and_id(kind, message.id, self.next_id);
        let reply = Plain {
            kind: reply_kind,
            code: SERVICE_UNAVAILABLE,
            id,
            token: message.token,
            options: &options,
            payload: b"full",
        };
        // There is room, since such a reply has at most 17 bytes.
        let size = encode(&reply, out).unwrap();
        match kind {
            RequestType::Confirmable => {}
            RequestType::NonConfirmable => self.use_next_id(),
        }
        size
    }

    /// Takes the answer to a notification from a message that is no request, if it is one.
    fn report(&mut self, from: Endpoint, message: &Message<'_>)
        ensures { self.new ≡ with_report from (message_of message.now) self.old }
    {
        if message.code == EMPTY {
            self.report_empty(from, message.kind, message.id);
        }
    }

    /// Takes the answer to a notification from an empty message of this type and ID, if it is one. One that answers
    /// nothing is ignored, as RFC 7252 (section 4.2) asks.
    fn report_empty(&mut self, from: Endpoint, kind: Type4, id: u16)
        ensures { self.new ≡ with_observers (told_by_empty from kind id self.old.observers) self.old }
    {
        match kind {
            Type4::Ack => {
                let _found = self.observers.acked(from, id);
            }
            Type4::Rst => {
                let _found = self.observers.reset(from, id);
            }
            Type4::Con => {}
            Type4::Non => {}
        }
    }

    /// Answers a duplicate of a request by the reply that is kept in this slot, if it is answered, and gives the number
    /// of bytes to send.
    fn answer_duplicate(
        &self,
        kind: RequestType,
        kept: Option<ExchangeSlot>,
        out: &mut [u8; LONGEST_MESSAGE],
    ) -> Option<usize>
        requires { (slot : ℕ) → kept ≡ Some slot → HasReply slot self.now.exchanges }
        ensures { (e : Exchange) → exchange_in e.slot self.now.exchanges ≡ Some e → kept ≡ option_map (λ _. e.slot) e.reply →
            TellsDone (duplicate_reply kind e.reply) result out.old out.new }
    {
        match kind {
            RequestType::Confirmable => match kept {
                Some(slot) => Some(put_kept(self.exchanges.reply(slot), out)),
                None => None,
            },
            RequestType::NonConfirmable => None,
        }
    }
}

/// Whether a message of this type and code is a request.
fn is_request(kind: Type4, code: Code) -> bool
    ensures { result ≡ (may_ask kind && (nat_lt 0 code && nat_lt code 32)) }
{
    match kind {
        Type4::Con | Type4::Non => code > EMPTY && code < DETAILS,
        Type4::Ack | Type4::Rst => false,
    }
}

/// Writes a reply that was kept, and returns the number of its bytes.
fn put_kept(reply: &[u8], out: &mut [u8; LONGEST_MESSAGE]) -> usize
    requires { length reply.now ≤ LONGEST_MESSAGE }
    ensures { IsWritten reply.now result out.old out.new }
{
    put_bytes(out, 0, reply)
}
