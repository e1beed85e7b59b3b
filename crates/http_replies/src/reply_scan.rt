//! `scan_reply` reads the front of a stream of replies.

ghost use Rattle.std.specs.Prelude.{◌≡◌, ◌≤◌, ◌<◌, ◌+◌, ◌^◌, length, Some};
ghost use Rattle.http_fields.specs.BodySeen.{body_seen, TakesAtMost};
ghost use Rattle.http_fields.specs.Marks.{empty_line, length_through};
ghost use Rattle.http_replies.specs.ReplyFronts.{IsReply, IsReplyAfter, reply_body, rest_of_stream, scanned_of, with_reply_body};
ghost use Rattle.http_replies.specs.ReplySeen.{IsReplyStep};

use crate::reply_heads::{ReplyHead, is_interim, judge_reply};
use http_fields::{
    Body, BodyScan, CONTENT_TOO_LARGE, Framing, LONGEST_REPLY, chunks_at_front, front,
    length_through_mark, rest_from,
};

/// The outcome of scanning a stream of replies.
#[derive(Drop)]
pub enum ReplyScan<'a> {
    /// The reply isn't whole yet.
    Short,
    /// The reply is whole.
    Whole {
        /// Its status.
        status: u16,
        /// Its body.
        body: Body<'a>,
    },
    /// A head, its fields or a chunk aren't as they should be.
    Fault,
    /// The reply has more than 65,536 bytes, or says so.
    TooLong,
}

/// The front of the first bytes of a stream.
#[derive(Drop)]
pub enum ReplyFront<'a> {
    /// The reply isn't whole.
    Awaited,
    /// Something is wrong, with the status that a server would answer: 413 where the reply is too long.
    Wrong(u16),
    /// The reply.
    Reply {
        /// Its status.
        status: u16,
        /// Its body.
        body: Body<'a>,
        /// The number of bytes up to its end.
        used: usize,
    },
}

/// The outcome of reading a head.
#[derive(Drop)]
pub enum ReplyStep<'a> {
    /// The front.
    Settled(ReplyFront<'a>),
    /// The head of an interim reply, of this many bytes.
    Skipped(usize),
}

/// Reads the front of a stream of replies, of which these bytes have come; no more come where it ended. Heads
/// of interim replies (RFC 9110, section 15.2) are skipped. A reply has at most 65,536 bytes with these heads. It takes
/// no memory.
pub fn scan_reply(bytes: &[u8], ended: bool) -> ReplyScan<'_>
    ensures { IsReply bytes.now ended result }
{
    // A byte more than a reply may have, so that one that is too long is seen.
    let found = reply_in(front(bytes, LONGEST_REPLY + 1), ended);
    scanned(bytes.len(), found)
}

/// The outcome of scanning so many bytes whose first ones have this front.
fn scanned(size: usize, found: ReplyFront<'_>) -> ReplyScan<'_>
    ensures { result ≡ scanned_of size found.entry }
{
    match found {
        ReplyFront::Awaited => {
            if size > LONGEST_REPLY {
                ReplyScan::TooLong
            } else {
                ReplyScan::Short
            }
        }
        ReplyFront::Wrong(CONTENT_TOO_LARGE) => ReplyScan::TooLong,
        ReplyFront::Wrong(_) => ReplyScan::Fault,
        ReplyFront::Reply { status, body, used } => {
            if used <= LONGEST_REPLY {
                ReplyScan::Whole { status, body }
            } else {
                ReplyScan::TooLong
            }
        }
    }
}

/// Reads the front of the first bytes of a stream.
fn reply_in(bytes: &[u8], ended: bool) -> ReplyFront<'_>
    ensures { IsReplyAfter ended result 0 bytes.now }
{
    let mut place = 0;
    loop {
        match head_at(rest_from(bytes, place), place, ended) {
            ReplyStep::Settled(found) => return found,
            ReplyStep::Skipped(size) => place += size,
        }
    }
}

/// Reads the head at the front of bytes, after so many of the stream.
fn head_at(bytes: &[u8], before: usize, ended: bool) -> ReplyStep<'_>
    requires { before + length bytes.now < 2 ^ 64 }
    ensures { IsReplyStep ended before bytes.now result }
{
    match length_through_mark(b"\r\n\r\n", bytes) {
        None => ReplyStep::Settled(ReplyFront::Awaited),
        Some(end) => head_through(bytes, before, end, ended),
    }
}

/// Reads the head that has this many bytes.
#[tactic(auto, using(crate::proofs::ReplySteps::wrong_step, crate::proofs::ReplySteps::interim_step, crate::proofs::ReplySteps::final_step))]
fn head_through(bytes: &[u8], before: usize, end: usize, ended: bool) -> ReplyStep<'_>
    requires found { length_through empty_line bytes.now ≡ Some end }
    requires within { end ≤ length bytes.now }
    requires some { 0 < end }
    requires fits { before + length bytes.now < 2 ^ 64 }
    ensures { IsReplyStep ended before bytes.now result }
{
    match judge_reply(front(bytes, end)) {
        Err(fault) => ReplyStep::Settled(ReplyFront::Wrong(fault)),
        Ok(head) => {
            if is_interim(head.status) {
                ReplyStep::Skipped(end)
            } else {
                ReplyStep::Settled(with_body(head, before + end, rest_from(bytes, end), ended))
            }
        }
    }
}

/// The reply with this head and the bytes after it, of which so many of the stream are before.
fn with_body(head: ReplyHead, taken: usize, after: &[u8], ended: bool) -> ReplyFront<'_>
    requires { taken + length after.now < 2 ^ 64 }
    ensures { result ≡ with_reply_body head.status taken (reply_body ended head.framing after.now) }
{
    match body_of(head.framing, after, ended) {
        BodyScan::Unfinished => ReplyFront::Awaited,
        BodyScan::Faulty(fault) => ReplyFront::Wrong(fault),
        BodyScan::Whole { body, used } => ReplyFront::Reply {
            status: head.status,
            body,
            used: taken + used,
        },
    }
}

/// The body at the front of the bytes after a head.
fn body_of(framing: Option<Framing>, bytes: &[u8], ended: bool) -> BodyScan<'_>
    ensures ok { body_seen result ≡ reply_body ended framing bytes.now }
    ensures within { TakesAtMost result (length bytes.now) }
{
    match framing {
        None => rest_of(bytes, ended),
        Some(Framing::Stated(size)) => Body::stated_at_front(size, bytes),
        Some(Framing::Chunked) => chunks_at_front(LONGEST_REPLY, bytes),
    }
}

/// The body that lasts until the stream ends.
fn rest_of(bytes: &[u8], ended: bool) -> BodyScan<'_>
    ensures ok { body_seen result ≡ rest_of_stream ended bytes.now }
    ensures within { TakesAtMost result (length bytes.now) }
{
    if ended {
        Body::stated_at_front(bytes.len(), bytes)
    } else {
        BodyScan::Unfinished
    }
}
