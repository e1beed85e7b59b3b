//! The path of the links, and the answer to a request for it (RFC 6690, section 4; RFC 7252, section 7.2).

use crate::blocks::size_asked;
use crate::observing::Observing;
use crate::pending::PendingReply;
use crate::portion::{LONGEST_BODY, first_block, given_portion};
use crate::server::Server;
use crate::writing::{Told, put_told, put_word};
use coap_blocks::{Bodies, Whole};
use coap_msg::{
    CONTENT, Code, Endpoint, GET, INTERNAL_SERVER_ERROR, LONGEST_MESSAGE, METHOD_NOT_ALLOWED,
};
use coap_opts::CoapAsk;
use thing_ops::Segments;

/// The content format of links (RFC 6690, section 7.3).
pub(crate) const LINK_FORMAT: u16 = 40;

/// The number of segments of `/.well-known/core`.
const SEGMENTS: usize = 2;

impl Server {
    ghost use Rattle.std.specs.Prelude.{◌≡◌, ◌<◌, ◌≤◌, length, IfSome};
    ghost use Rattle.std.specs.List.{remove};
    ghost use Rattle.coap_exchange.specs.Table.{IsAwaited};
    ghost use Rattle.coap_blocks.specs.Paths.{largest_path, path_size};
    ghost use Rattle.coap_opts.specs.AskSeen.{ask_seen};
    ghost use Rattle.coap_opts.specs.Reading.{HasBlocks};
    ghost use Rattle.coap_bind.specs.Links.{bodies_with_links, links_reply, method_reply, size_asked, observers_with_links};
    ghost use Rattle.coap_bind.specs.Server.{links_given, with_bodies, with_parts, with_observers};
    ghost use Rattle.coap_bind.specs.Settling.{AnswersLinks};
    ghost use Rattle.coap_bind.specs.Telling.{RepliesAs};

    /// Answers a request for the path of the links: a GET with their text, and any other verb with a refusal.
    pub fn answer_links(
        &mut self,
        pending: &PendingReply,
        code: Code,
        ask: &CoapAsk<'_>,
        now: u64,
        out: &mut [u8; LONGEST_MESSAGE],
    ) -> usize
        requires token { length pending.now.token ≤ 8 }
        requires blocks { HasBlocks (ask_seen ask.now) }
        requires path { path_size ask.now.request.path ≤ largest_path }
        requires slot { IsAwaited pending.now.slot self.old.exchanges }
        ensures { AnswersLinks pending.now code now (ask_seen ask.now) result out.old out.new self.old self.new }
    {
        if code == GET {
            self.give_links(pending, ask, now, out)
        } else {
            self.refuse(pending, METHOD_NOT_ALLOWED, b"method", out)
        }
    }

    /// Answers the last block of a request to the path of the links, which has made the body at this place whole.
    pub fn refuse_whole(
        &mut self,
        pending: &PendingReply,
        place: u32,
        out: &mut [u8; LONGEST_MESSAGE],
    ) -> usize
        requires place { place < length self.old.parts }
        requires token { length pending.now.token ≤ 8 }
        requires slot { IsAwaited pending.now.slot self.old.exchanges }
        ensures { RepliesAs method_reply pending.now result out.old out.new (with_parts (remove self.old.parts place) self.old) self.new }
    {
        self.parts.clear(place);
        self.refuse(pending, METHOD_NOT_ALLOWED, b"method", out)
    }

    /// Gives the links to a GET.
    fn give_links(
        &mut self,
        pending: &PendingReply,
        ask: &CoapAsk<'_>,
        now: u64,
        out: &mut [u8; LONGEST_MESSAGE],
    ) -> usize
        requires token { length pending.now.token ≤ 8 }
        requires blocks { HasBlocks (ask_seen ask.now) }
        requires path { path_size ask.now.request.path ≤ largest_path }
        requires slot { IsAwaited pending.now.slot self.old.exchanges }
        ensures { RepliesAs (links_reply (size_asked pending.now.observing (ask_seen ask.now)) self.old.links) pending.now
            result out.old out.new (links_given pending.now.from now pending.now.token pending.now.observing (ask_seen ask.now) self.old) self.new }
    {
        self.note_links(pending, ask, now);
        self.reply_links(pending, size_asked(pending.observing, ask), out)
    }

    /// Has the effect of a GET for the links on the observers and on the bodies that are kept.
    fn note_links(&mut self, pending: &PendingReply, ask: &CoapAsk<'_>, now: u64)
        requires blocks { HasBlocks (ask_seen ask.now) }
        requires path { path_size ask.now.request.path ≤ largest_path }
        ensures { self.new ≡ links_given pending.now.from now pending.now.token pending.now.observing (ask_seen ask.now) self.old }
    {
        let observing = pending.observing;
        self.end_observation(observing, pending.from, pending.token.as_bytes());
        let path = &ask.request.path;
        self.keep_links(pending.from, path, size_asked(observing, ask), now);
    }

    /// Ends the observation of an endpoint with this token, where its request wants that.
    fn end_observation(&mut self, observing: Observing, from: Endpoint, token: &[u8])
        ensures { self.new ≡ with_observers (observers_with_links observing from token.now self.old.observers) self.old }
    {
        match observing {
            Observing::Unchanged => {}
            // Nothing to do, since the links can't be observed.
            Observing::Registers => {}
            Observing::Deregisters => {
                let _found = self.observers.cancel(from, token);
            }
        }
    }

    /// Keeps the text of the links for the requests for its later blocks, where it has any.
    fn keep_links(&mut self, from: Endpoint, path: &Segments, szx: Option<u8>, now: u64)
        requires path { path_size path.now ≤ largest_path }
        requires size { IfSome szx (λ z. z ≤ 6) }
        ensures { self.new ≡ with_bodies (bodies_with_links from path.now now szx self.old.links self.old.bodies) self.old }
    {
        let text = self.links.as_slice();
        if is_text_kept(szx, text.len()) {
            put_text(&mut self.bodies, from, path, text, now);
        }
    }

    /// Replies with the text of the links, or with its first block.
    fn reply_links(
        &mut self,
        pending: &PendingReply,
        szx: Option<u8>,
        out: &mut [u8; LONGEST_MESSAGE],
    ) -> usize
        requires token { length pending.now.token ≤ 8 }
        requires size { IfSome szx (λ z. z ≤ 6) }
        requires slot { IsAwaited pending.now.slot self.old.exchanges }
        ensures { RepliesAs (links_reply szx self.old.links) pending.now result out.old out.new self.old self.new }
    {
        let text = self.links.as_slice();
        let size = put_links(text, szx, pending, self.next_id, out);
        self.note_sent(pending, &out[..size]);
        size
    }
}

ghost use Rattle.std.specs.Prelude.{◌≡◌, ◌≤◌, ◌&&◌, length, codes, IfSome};
ghost use Rattle.std.specs.Str.{bytes_eq};
ghost use Rattle.coap_msg.specs.Grammar.{spelling};
ghost use Rattle.coap_msg.specs.Written.{IsWritten};
ghost use Rattle.coap_blocks.specs.Bodies.{longest_body, with_body};
ghost use Rattle.coap_blocks.specs.Paths.{largest_path, path_size};
ghost use Rattle.coap_bind.specs.Links.{is_links_path, is_text_kept, links_content, links_reply};
ghost use Rattle.coap_bind.specs.Writing.{head_in, coap_reply};

/// Whether a path is that of the links.
pub fn is_links_path(path: &Segments) -> bool
    ensures { result ≡ is_links_path path.now }
{
    if path.len() != SEGMENTS {
        return false;
    }
    match path.get(0) {
        Some(first) => match path.get(1) {
            Some(second) => are_well_known_core(first, second),
            None => false,
        },
        None => false,
    }
}

/// Whether two segments are `.well-known` and `core`.
fn are_well_known_core(first: &[u8], second: &[u8]) -> bool
    ensures { result ≡ (bytes_eq second.now (codes "core") && bytes_eq first.now (codes ".well-known")) }
{
    is(second, b"core") && is(first, b".well-known")
}

/// Whether a segment is this word.
fn is(segment: &[u8], word: &[u8]) -> bool
    ensures { result ≡ bytes_eq segment.now word.now }
{
    segment == word
}

/// Whether a text of this length is kept, where a block of this size was asked for, or none.
fn is_text_kept(szx: Option<u8>, length: usize) -> bool
    requires { IfSome szx (λ z. z ≤ 6) }
    ensures { result ≡ is_text_kept szx length }
{
    first_block(szx).size() < length && length <= LONGEST_BODY
}

/// Keeps the text of links for an endpoint and a path.
fn put_text(bodies: &mut Bodies, from: Endpoint, path: &Segments, text: &[u8], now: u64)
    requires text { length text.now ≤ longest_body }
    requires path { path_size path.now ≤ largest_path }
    ensures { bodies.new ≡ with_body (record { from = from; path = path.now; content = links_content text.now; moment = now }) bodies.old }
{
    let body = Whole {
        code: CONTENT,
        format: Some(LINK_FORMAT),
        tag: None,
        bytes: text,
    };
    bodies.put(from, path, &body, now);
}

/// Writes the reply to a GET for the links of this text, and returns the number of its bytes.
fn put_links(
    text: &[u8],
    szx: Option<u8>,
    pending: &PendingReply,
    next_id: u16,
    out: &mut [u8; LONGEST_MESSAGE],
) -> usize
    requires { IfSome szx (λ z. z ≤ 6) }
    ensures { IsWritten (spelling (coap_reply (links_reply szx text.now) (head_in pending.now) next_id)) result out.old out.new }
{
    if text.len() > LONGEST_BODY {
        return put_word(INTERNAL_SERVER_ERROR, b"long", pending, next_id, out);
    }
    let told = Told {
        code: CONTENT,
        version: None,
        format: Some(LINK_FORMAT),
        portion: given_portion(szx, text),
    };
    put_told(told, pending, next_id, out)
}
