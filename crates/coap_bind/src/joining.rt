//! The blocks of requests: each is joined to those before it, and a body that is whole is handed out (RFC 7959, section
//! 2.5).

use crate::blocks::BlockOption;
use crate::links::is_links_path;
use crate::pending::PendingReply;
use crate::portion::Portion;
use crate::server::Server;
use crate::writing::{Told, put_told};
use coap_blocks::Added;
use coap_msg::{
    BAD_REQUEST, Block, CONTINUE, LONGEST_MESSAGE, REQUEST_ENTITY_INCOMPLETE,
    REQUEST_ENTITY_TOO_LARGE, SERVICE_UNAVAILABLE,
};
use coap_opts::CoapAsk;
use servient_base::put_bytes;
use thing_ops::{Request, Segments};

impl Server {
    ghost use Rattle.std.specs.Prelude.{◌≡◌, ◌<◌, ◌≤◌, ◌/◌, length, option_map, slice_get, IfSome, Some};
    ghost use Rattle.std.specs.List.{remove};
    ghost use Rattle.coap_msg.specs.Blocks.{IsBlock};
    ghost use Rattle.coap_msg.specs.Grammar.{CoapMessage};
    ghost use Rattle.coap_msg.specs.declared.constants.TheConstants.{LONGEST_PAYLOAD};
    ghost use Rattle.coap_exchange.specs.Table.{IsAwaited};
    ghost use Rattle.coap_blocks.specs.Parts.{longest_request};
    ghost use Rattle.coap_bind.specs.Blocks.{continue_reply};
    ghost use Rattle.coap_bind.specs.Server.{with_parts};
    ghost use Rattle.coap_bind.specs.Settling.{AnswersBlock, HasWhole};
    ghost use Rattle.coap_bind.specs.Telling.{RepliesAs};

    /// Answers a block of a request by its outcome, and gives the number of bytes to send; or gives the place of the
    /// body that the block made whole, which is to be asked unless it is for the links.
    pub fn answer_block(
        &mut self,
        pending: &PendingReply,
        path: &Segments,
        block: Block,
        added: Added,
        out: &mut [u8; LONGEST_MESSAGE],
    ) -> Result<u32, usize>
        requires token { length pending.now.token ≤ 8 }
        requires block { IsBlock block }
        requires whole { HasWhole added self.old.parts }
        requires slot { IsAwaited pending.now.slot self.old.exchanges }
        ensures { AnswersBlock pending.now path.now block added result out.old out.new self.old self.new }
    {
        match added {
            Added::Continue => Err(self.reply_continue(pending, block, out)),
            Added::Complete(place) => {
                if is_links_path(path) {
                    return Err(self.refuse_whole(pending, place, out));
                }
                Ok(place)
            }
            Added::BadBlock => Err(self.refuse(pending, BAD_REQUEST, b"block", out)),
            Added::Incomplete => {
                let code = REQUEST_ENTITY_INCOMPLETE;
                Err(self.refuse(pending, code, b"incomplete", out))
            }
            Added::TooLarge => Err(self.refuse(pending, REQUEST_ENTITY_TOO_LARGE, b"body", out)),
            Added::Full => Err(self.refuse(pending, SERVICE_UNAVAILABLE, b"blocks", out)),
        }
    }

    /// Answers a block of a request after which others are to come.
    fn reply_continue(
        &mut self,
        pending: &PendingReply,
        block: Block,
        out: &mut [u8; LONGEST_MESSAGE],
    ) -> usize
        requires token { length pending.now.token ≤ 8 }
        requires block { IsBlock block }
        requires slot { IsAwaited pending.now.slot self.old.exchanges }
        ensures { RepliesAs (continue_reply block) pending.now result out.old out.new self.old self.new }
    {
        let told = Told {
            code: CONTINUE,
            version: None,
            format: None,
            portion: Portion {
                block: Some(BlockOption::Block1(block)),
                payload: &[],
            },
        };
        let size = put_told(told, pending, self.next_id, out);
        self.note_sent(pending, &out[..size]);
        size
    }

    /// Takes a body that is whole out of the parts, by a copy in a room, so that its part may be cleared.
    pub fn take_whole<'a>(&mut self, place: u32, room: &'a mut [u8]) -> &'a [u8]
        requires place { place < length self.old.parts }
        requires room { IfSome (slice_get self.old.parts place) (λ p. length p.bytes ≤ length room.old) }
        ensures bytes { option_map (λ p. p.bytes) (slice_get self.old.parts place) ≡ Some result.now }
        ensures after { self.new ≡ with_parts (remove self.old.parts place) self.old }
    {
        let size = put_bytes(room, 0, self.parts.bytes(place));
        self.parts.clear(place);
        &room[..size]
    }
}

ghost use Rattle.std.specs.Prelude.{◌≡◌};
ghost use Rattle.thing_ops.specs.Requests.{request_seen};
ghost use Rattle.coap_opts.specs.AskSeen.{ask_seen};
ghost use Rattle.coap_bind.specs.Server.{with_whole_body};

/// The same ask with this body.
pub fn with_body<'a>(ask: CoapAsk<'a>, body: &'a [u8]) -> CoapAsk<'a>
    ensures { ask_seen result ≡ with_whole_body body.now (ask_seen ask.entry) }
{
    let CoapAsk {
        request,
        observe,
        block1,
        block2,
    } = ask;
    let request = with_body_of(request, body);
    CoapAsk {
        request,
        observe,
        block1,
        block2,
    }
}

/// A request with this body.
fn with_body_of<'a>(request: Request<'a>, body: &'a [u8]) -> Request<'a>
    ensures { request_seen result ≡ record (request_seen request.entry) { body = body.now } }
{
    Request {
        verb: request.verb,
        path: request.path,
        query: request.query,
        accept: request.accept,
        format: request.format,
        body,
        conditions: request.conditions,
    }
}
