//! The treatment of a request that was admitted: it is asked, or answered at once.

use crate::blocks::{BlockUse, BlockWish, Giving, size_asked, wanted_of};
use crate::joining::with_body;
use crate::links::is_links_path;
use crate::next::{CoapNext, Ticket};
use crate::observing::observing_of;
use crate::pending::{PendingReply, Received};
use crate::portion::portion_at;
use crate::server::Server;
use crate::writing::{Told, put_told, put_word};
use coap_blocks::Whole;
use coap_msg::{
    BAD_REQUEST, Block, CONTENT, GET, LONGEST_MESSAGE, PROXYING_NOT_SUPPORTED, SERVICE_UNAVAILABLE,
};
use coap_opts::{AskFault, CoapAsk, request_of};
use std::alloc::Global;
use thing_ops::Segments;

impl Server {
    ghost use Rattle.std.specs.Prelude.{◌≡◌, ◌<◌, ◌≤◌, ◌/◌, ◌⊎◌, true, false, length, option_map, slice_get, IfSome, Some};
    ghost use Rattle.coap_msg.specs.Blocks.{IsBlock};
    ghost use Rattle.coap_msg.specs.Grammar.{CoapMessage, spelling};
    ghost use Rattle.coap_msg.specs.MessageOf.{message_of};
    ghost use Rattle.coap_msg.specs.declared.constants.TheConstants.{LONGEST_PAYLOAD};
    ghost use Rattle.coap_exchange.specs.Table.{IsAwaited};
    ghost use Rattle.coap_blocks.specs.Bodies.{body_for};
    ghost use Rattle.coap_blocks.specs.Parts.{longest_request};
    ghost use Rattle.coap_blocks.specs.Paths.{largest_path, path_size};
    ghost use Rattle.coap_opts.specs.AskSeen.{ask_seen};
    ghost use Rattle.coap_opts.specs.Reading.{HasBlocks, asked as what_is_asked};
    ghost use Rattle.thing_ops.specs.declared.outcome.Outcome.TheVariants.{Memory};
    ghost use Rattle.coap_bind.specs.declared.blocks.BlockWish.TheVariants.{Act};
    ghost use Rattle.coap_bind.specs.Blocks.{later_reply};
    ghost use Rattle.coap_bind.specs.Server.{is_request, wanted_in};
    ghost use Rattle.coap_bind.specs.Settling.{IsReadOf, ReadsAs, RefusesFault};
    ghost use Rattle.coap_bind.specs.Telling.{RepliesAs, TicketIsOpen};
    ghost use Rattle.coap_bind.specs.Writing.{reply_of, head_of, head_in};

    /// Reads a request that was admitted, and treats it wants.
    pub fn read<'a>(
        &mut self,
        alloc: Global,
        pending: PendingReply,
        received: Received<'_, 'a>,
        out: &mut [u8; LONGEST_MESSAGE],
        room: &'a mut [u8],
    ) -> CoapNext<'a>
        requires request { is_request (message_of received.message.now) ≡ true }
        requires head { head_in pending ≡ head_of (message_of received.message.now) }
        requires token { length pending.token ≤ 8 }
        requires path { path_size (what_is_asked (message_of received.message.now)).request.path ≤ largest_path }
        requires slot { IsAwaited pending.slot self.old.exchanges }
        requires room { longest_request ≤ length room.old }
        ensures ok { ReadsAs pending.from received.entry.moment (message_of received.entry.message.now) pending.slot result out.old out.new self.old self.new }
        ensures open { TicketIsOpen result self.new }
    {
        let Received {
            message,
            moment: now,
        } = received;
        // A match and not `?`, since a request that can't be read is answered here.
        let ask = match request_of(alloc, message) {
            Ok(ask) => ask,
            Err(fault) => return self.refuse_fault(&pending, fault, out),
        };
        let observing = observing_of(message.code, ask.observe);
        let pending = PendingReply {
            observing,
            ..pending
        };
        match wanted_of(message.code, observing, &ask) {
            BlockWish::Act => self.ask(alloc, pending, received, ask, out),
            BlockWish::LaterBlock(block) => {
                let path = &ask.request.path;
                CoapNext::Send(self.give_later(&pending, path, block, now, out))
            }
            BlockWish::Joining(block) => {
                let path = &ask.request.path;
                let body = ask.request.body;
                let added = self
                    .parts
                    .add(pending.from, message.code, path, block, body, now);
                match self.answer_block(&pending, path, block, added, out) {
                    Ok(place) => {
                        let pending = PendingReply {
                            blocks: BlockUse::Joined(block),
                            ..pending
                        };
                        let body = self.take_whole(place, room);
                        CoapNext::Ask(with_body(ask, body), Ticket { pending })
                    }
                    Err(size) => CoapNext::Send(size),
                }
            }
        }
    }

    /// Answers a request that can't be read, if it is answered.
    fn refuse_fault(
        &mut self,
        pending: &PendingReply,
        fault: AskFault,
        out: &mut [u8; LONGEST_MESSAGE],
    ) -> CoapNext<'static>
        requires token { length pending.now.token ≤ 8 }
        requires slot { IsAwaited pending.now.slot self.old.exchanges }
        ensures { RefusesFault pending.now fault result out.old out.new self.old self.new }
    {
        match fault {
            AskFault::BadOption(number) => self.refuse_option(pending, number, out),
            AskFault::Proxy => {
                CoapNext::Send(self.refuse(pending, PROXYING_NOT_SUPPORTED, b"proxy", out))
            }
            AskFault::Block => CoapNext::Send(self.refuse(pending, BAD_REQUEST, b"block", out)),
            AskFault::NoMemory => CoapNext::Send(self.refuse_out_of_memory(pending, out)),
        }
    }

    /// Answers a request for which the server is out of memory.
    fn refuse_out_of_memory(
        &mut self,
        pending: &PendingReply,
        out: &mut [u8; LONGEST_MESSAGE],
    ) -> usize
        requires token { length pending.now.token ≤ 8 }
        requires slot { IsAwaited pending.now.slot self.old.exchanges }
        ensures { RepliesAs (reply_of Memory) pending.now result out.old out.new self.old self.new }
    {
        self.refuse(pending, SERVICE_UNAVAILABLE, b"memory", out)
    }

    /// Asks a request that wants an act, unless it is for the links.
    fn ask<'a>(
        &mut self,
        alloc: Global,
        pending: PendingReply,
        received: Received<'_, '_>,
        ask: CoapAsk<'a>,
        out: &mut [u8; LONGEST_MESSAGE],
    ) -> CoapNext<'a>
        requires token { length pending.token ≤ 8 }
        requires blocks { HasBlocks (ask_seen ask) }
        requires path { path_size ask.request.path ≤ largest_path }
        requires slot { IsAwaited pending.slot self.old.exchanges }
        ensures ok { (m : CoapMessage) → IsReadOf pending received.entry.message.now.code (ask_seen ask.entry) m → wanted_in m ≡ Act →
            ReadsAs pending.from received.entry.moment m pending.slot result out.old out.new self.old self.new }
        ensures open { TicketIsOpen result self.new }
    {
        let (code, now) = (received.message.code, received.moment);
        if is_links_path(&ask.request.path) {
            return CoapNext::Send(self.answer_links(&pending, code, &ask, now, out));
        }
        if code != GET {
            let blocks = BlockUse::Whole;
            let pending = PendingReply { blocks, ..pending };
            return CoapNext::Ask(ask, Ticket { pending });
        }
        // A copy, since the request itself is handed out.
        match ask.request.path.copied(alloc) {
            Ok(path) => {
                let blocks = BlockUse::Gives(Giving {
                    path,
                    szx: size_asked(pending.observing, &ask),
                    moment: now,
                });
                let pending = PendingReply { blocks, ..pending };
                CoapNext::Ask(ask, Ticket { pending })
            }
            Err(_) => CoapNext::Send(self.refuse_out_of_memory(&pending, out)),
        }
    }

    /// Gives a block after the first of a response that was given.
    fn give_later(
        &mut self,
        pending: &PendingReply,
        path: &Segments,
        block: Block,
        now: u64,
        out: &mut [u8; LONGEST_MESSAGE],
    ) -> usize
        requires token { length pending.now.token ≤ 8 }
        requires block { IsBlock block }
        requires slot { IsAwaited pending.now.slot self.old.exchanges }
        ensures { RepliesAs (later_reply block (option_map (λ b. b.content) (body_for pending.now.from path.now now self.old.bodies))) pending.now
            result out.old out.new self.old self.new }
    {
        let body = self.bodies.get(pending.from, path, now);
        let size = put_later(body, block, pending, self.next_id, out);
        self.note_sent(pending, &out[..size]);
        size
    }
}

ghost use Rattle.std.specs.Prelude.{◌≡◌, ◌<◌, length, option_map, Some};
ghost use Rattle.coap_msg.specs.Blocks.{IsBlock};
ghost use Rattle.coap_msg.specs.Grammar.{spelling};
ghost use Rattle.coap_msg.specs.Written.{IsWritten};
ghost use Rattle.coap_blocks.specs.Bodies.{content_of};
ghost use Rattle.coap_bind.specs.Blocks.{later_reply};
ghost use Rattle.coap_bind.specs.Writing.{head_in, coap_reply};

/// Writes the reply to a request for a later block, where this body is kept, and returns the number of its bytes.
fn put_later(
    body: Option<Whole<'_>>,
    block: Block,
    pending: &PendingReply,
    next_id: u16,
    out: &mut [u8; LONGEST_MESSAGE],
) -> usize
    requires block { IsBlock block }
    ensures { IsWritten (spelling (coap_reply (later_reply block (option_map content_of body.entry)) (head_in pending.now) next_id)) result out.old out.new }
{
    match body {
        Some(body) => put_block_of(body, block, pending, next_id, out),
        None => put_word(BAD_REQUEST, b"block", pending, next_id, out),
    }
}

/// The same of a body that is kept.
fn put_block_of(
    body: Whole<'_>,
    block: Block,
    pending: &PendingReply,
    next_id: u16,
    out: &mut [u8; LONGEST_MESSAGE],
) -> usize
    requires block { IsBlock block }
    ensures { IsWritten (spelling (coap_reply (later_reply block (Some (content_of body.entry))) (head_in pending.now) next_id)) result out.old out.new }
{
    if block.start() >= body.bytes.len() {
        return put_word(BAD_REQUEST, b"block", pending, next_id, out);
    }
    let told = Told {
        code: CONTENT,
        version: body.tag,
        format: body.format,
        portion: portion_at(block, body.bytes),
    };
    put_told(told, pending, next_id, out)
}
