//! The CoAP server: the requests of datagrams, the replies to them, and notifications.

use crate::NoMemory;
use crate::blocks::BlockUse;
use crate::next::{CoapNext, Ticket};
use crate::observing::{Observing, effect_of};
use crate::pending::{PendingReply, Received};
use crate::server::Server;
use crate::writing::{Said, put_notification, put_outcome};
use coap_blocks::{Bodies, Parts};
use coap_exchange::Exchanges;
use coap_msg::{
    BoundedBytes, Endpoint, LONGEST_DATAGRAM, LONGEST_MESSAGE, LONGEST_PAYLOAD, RequestType,
};
use coap_observe::{Notice, Watchers};
use std::alloc::Global;
use std::marker::Model;
use thing_ops::Outcome;
use wot_json::Bytes;

/// The server's side of all its exchanges. Contracts see its contents (`Server`, which specs/Server.antt explains).
///
/// Moments are in milliseconds, and none that is handed in is before the last one.
#[derive(Drop)]
pub struct CoapBind {
    alloc: Global,
    server: Server,
}

impl Model for CoapBind {
    ghost use Rattle.coap_bind.specs.declared.server.Server.{Server};

    ghost Value = { Server };

    ghost view = { λ c. c.server };
}

impl CoapBind {
    ghost use Rattle.std.specs.Prelude.{◌≡◌, ◌<◌, ◌≤◌, ◌⊎◌, length, IfOk, IfSome};
    ghost use Rattle.coap_msg.specs.Grammar.{spelling};
    ghost use Rattle.coap_exchange.specs.Table.{IsAwaited};
    ghost use Rattle.thing_ops.specs.Outcomes.{HasCode};
    ghost use Rattle.coap_msg.specs.Written.{IsWritten};
    ghost use Rattle.coap_observe.specs.Unsent.{unsent};
    ghost use Rattle.coap_observe.specs.Watching.{IsSendable};
    ghost use Rattle.coap_bind.specs.Writing.{notification};
    ghost use Rattle.coap_bind.specs.Server.{start, with_emitted, with_links, SendsNext};
    ghost use Rattle.coap_blocks.specs.Parts.{longest_request};
    ghost use Rattle.coap_bind.specs.Telling.{HearsAs, SettlesAs, IsAdmitted, TicketIsOpen, HasRoom, AnswersAs};

    /// A server in which `exchanges` exchanges may live, with at most `observers` observers. The memory of both is taken
    /// here, and that of bodies in blocks: 16 of responses and 8 of requests.
    pub fn new(alloc: Global, exchanges: u32, observers: u32) -> Result<CoapBind, NoMemory>
        requires least_exchanges { 16 ≤ exchanges }
        requires most_exchanges { exchanges ≤ 65536 }
        requires least_observers { 1 ≤ observers }
        requires most_observers { observers ≤ 1024 }
        ensures { IfOk result (λ c. c ≡ start exchanges observers) }
    {
        let exchanges = Exchanges::new(alloc, exchanges)?;
        let observers = Watchers::new(alloc, observers)?;
        Ok(CoapBind {
            alloc,
            server: Server {
                exchanges,
                observers,
                next_id: 0,
                bodies: Bodies::new(alloc)?,
                parts: Parts::new(alloc)?,
                links: Bytes::new(alloc),
            },
        })
    }

    /// Takes the text of the links, which a GET of `/.well-known/core` is answered with (RFC 6690, section 4). Before that
    /// it is empty.
    pub fn set_links(&mut self, text: Bytes)
        ensures { self.new ≡ with_links text self.old }
    {
        self.server.links = text;
    }

    /// Takes a datagram of at most 1,280 bytes that came from an endpoint. Bytes to be sent back are written to the
    /// beginning of `out`. Out of memory is a reply too, 5.03 `memory`. The body of a request that came in blocks is
    /// written into `room` and lent from there, because a caller would know nothing of `self` if a result that owns a
    /// path were lent from it (docs/DECISIONS.md, "What the kit can't give").
    pub fn datagram<'a>(
        &mut self,
        from: Endpoint,
        bytes: &'a [u8],
        now: u64,
        out: &mut [u8; LONGEST_MESSAGE],
        room: &'a mut [u8],
    ) -> CoapNext<'a>
        requires moment { self.old.exchanges.moment ≤ now }
        requires length { length bytes.now ≤ LONGEST_DATAGRAM }
        requires room { longest_request ≤ length room.old }
        ensures ok { HearsAs from bytes.now now result out.old out.new self.old self.new }

        // A datagram that isn't admitted takes no memory, and is never answered to be out of memory: a duplicate, a
        // request that finds the table full, and a message that is no request.
        ensures memory { IsAdmitted from bytes.now now self.old ⊎ SettlesAs from bytes.now now result out.old out.new self.old self.new }

        // A ticket may be spent at once.
        ensures ticket { TicketIsOpen result self.new }
        ensures moment { self.new.exchanges.moment ≤ now }
    {
        match self.server.judge_datagram(from, bytes, now, out) {
            Err(None) => CoapNext::Nothing,
            Err(Some(size)) => CoapNext::Send(size),
            Ok((message, slot)) => {
                let pending = PendingReply {
                    kind: RequestType::of(message.kind),
                    id: message.id,
                    token: BoundedBytes::of(message.token),
                    slot,
                    from,
                    // To be filled in, since its options aren't read yet.
                    observing: Observing::Unchanged,
                    blocks: BlockUse::Whole,
                };
                let received = Received {
                    message: &message,
                    moment: now,
                };
                self.server.read(self.alloc, pending, received, out, room)
            }
        }
    }

    /// Answers a request for `target`, the number of the target that may be observed there, if there is one: the reply
    /// is written to the beginning of `out`, goes to the sender of the request, and has as many bytes as are returned.
    /// A GET with Observe registers or deregisters its sender (RFC 7641, section 4.1), and of a payload that is given
    /// in blocks the first is, and the rest is kept for the requests for it (RFC 7959, section 2.4). It takes no
    /// memory. The clause `room` asks that the reply has at most 1,152 bytes; the law `replies_fit` says when it has.
    pub fn answer(
        &mut self,
        ticket: Ticket,
        outcome: &Outcome,
        target: Option<u32>,
        out: &mut [u8; LONGEST_MESSAGE],
    ) -> usize
        requires ticket { IsAwaited ticket.slot self.old.exchanges }
        requires code { HasCode outcome.now }
        requires room { HasRoom ticket outcome.now target self.old }
        ensures ok { AnswersAs ticket outcome.now target result out.old out.new self.old self.new }
        ensures moment { self.new.exchanges.moment ≡ self.old.exchanges.moment }
    {
        // Taken apart, since a ticket can't be dropped.
        let Ticket { pending } = ticket;
        let effect = effect_of(pending.observing, outcome, target);
        let observe = self.server.watch(&pending, effect);
        self.server.keep_body(&pending, outcome);
        let said = Said {
            outcome,
            observe,
            blocks: &pending.blocks,
        };
        let size = put_outcome(said, &pending, self.server.next_id, out);
        self.server.note_sent(&pending, &out[..size]);
        size
    }

    /// A target has a new value: its observers are to be notified.
    pub fn emit(&mut self, target: u32)
        ensures { self.new ≡ with_emitted target self.old }
    {
        self.server.observers.emit(target);
    }

    /// Gives the notification to be sent now, one at most, which goes to `put_notice` with the last value of its
    /// target, after which less is to be sent. A caller calls it until it returns None. The moment isn't one of the
    /// exchanges'.
    pub fn next_send(&mut self, now: u64) -> Option<Notice>
        ensures sends { SendsNext now result self.old self.new }
        ensures bounds { IfSome result IsSendable }
        ensures exchanges { self.new.exchanges ≡ self.old.exchanges }
        ensures less { IfSome result (λ n. unsent now self.new.observers.list < unsent now self.old.observers.list) }
    {
        // A match and not `?`, since that says its facts of a `ControlFlow`.
        match self.server.observers.next_send(now, self.server.next_id) {
            Some(notice) => {
                if notice.fresh {
                    self.server.use_next_id();
                }
                Some(notice)
            }
            None => None,
        }
    }

    /// Writes a notification that says this value to the beginning of `out`, and returns the number of its bytes.
    pub fn put_notice(
        &self,
        notice: &Notice,
        value: &[u8],
        out: &mut [u8; LONGEST_MESSAGE],
    ) -> usize
        requires notice { IsSendable notice.now }
        requires value { length value.now ≤ LONGEST_PAYLOAD }
        ensures { IsWritten (spelling (notification notice.now value.now)) result out.old out.new }
    {
        put_notification(notice, value, out)
    }
}
