//! `scan` reads the front of a stream.

ghost use Rattle.std.specs.Prelude.{◌≡◌, ◌≤◌, ◌<◌, ◌+◌, ◌^◌, length, take};
ghost use Rattle.httparse.specs.Grammar.{RequestHead};
ghost use Rattle.http_fields.specs.BodySeen.{body_seen, IsWithin};
ghost use Rattle.http_fields.specs.Chunks.{chunks};
ghost use Rattle.http_fields.specs.Framings.{IsBounded};
ghost use Rattle.http_wire.specs.Judging.{longest_body, expects};
ghost use Rattle.http_wire.specs.Stream.{IsFront, with_body, body_front, longest_head, longest_coded, within_longest};
ghost use Rattle.http_wire.specs.Scanned.{front_of, TakesBetween};
ghost use Rattle.http_wire.specs.HeadSeen.{AreHeadParts};

use crate::framing::{LONGEST_BODY, framing_of, has_body};
use crate::heads::{HeadParts, read_head, skip_pairs};
use crate::{Head, Scanned};
use http_fields::{
    Body, BodyScan, CONTENT_TOO_LARGE, EITHER_TYPE, Framing, HEAD_TOO_LARGE, chunks_at_front,
    format, front, length_through_mark,
};

/// The most bytes of a head.
const LONGEST_HEAD: usize = 8192;

/// The most bytes of a body in chunks, with chunk lines and trailers.
const LONGEST_CODED: usize = 20480;

/// Reads the front of a stream of which these bytes have come. It takes no memory.
pub fn scan(bytes: &[u8]) -> Scanned<'_>
    ensures ok { IsFront bytes.now (front_of result) }

    // A whole message takes a byte or more, and no more than there are.
    ensures within { TakesBetween 1 (length bytes.now) result }
{
    let rest = skip_pairs(bytes);
    let skipped = bytes.len() - rest.len();
    // The first bytes alone are searched, so that a head without an end takes no longer.
    match length_through_mark(b"\r\n\r\n", front(rest, LONGEST_HEAD)) {
        None => {
            if rest.len() >= LONGEST_HEAD {
                Scanned::Fault {
                    status: HEAD_TOO_LARGE,
                    expect: false,
                }
            } else {
                Scanned::Short { expect: false }
            }
        }
        Some(end) => {
            let (head, after) = rest.split_at(end);
            match read_head(head) {
                Err(status) => Scanned::Fault {
                    status,
                    expect: false,
                },
                Ok(parts) => match framing_of(&parts) {
                    Err(status) => Scanned::Fault {
                        status,
                        expect: false,
                    },
                    Ok(framing) => scan_body(&parts, framing, skipped + end, after),
                },
            }
        }
    }
}

/// The front where a head without fault is followed by its body.
#[tactic(auto, using(crate::proofs::Fronts::short_with_body, crate::proofs::Fronts::fault_with_body, crate::proofs::Fronts::message_with_body))]
fn scan_body<'a>(
    head: &HeadParts<'a>,
    framing: Framing,
    taken: usize,
    after: &'a [u8],
) -> Scanned<'a>
    requires bound { IsBounded longest_body framing }
    requires short { length head.now.target.now ≤ longest_head }
    requires fits { taken + length after.now < 2 ^ 64 }
    ensures ok { (h : RequestHead) → AreHeadParts h head.now →
        front_of result ≡ with_body h taken (expects h framing) (body_front framing after.now) }
    ensures within { TakesBetween taken (taken + length after.now) result }
{
    // Not in HTTP/1.0, nor without a body, as RFC 9110 says in section 10.1.1.
    let expect = head.newer && has_body(framing) && head.fields.continues;
    let found = match framing {
        Framing::Stated(size) => Body::stated_at_front(size, after),
        Framing::Chunked => chunked_at_front(after),
    };
    match found {
        BodyScan::Unfinished => Scanned::Short { expect },
        BodyScan::Faulty(status) => Scanned::Fault { status, expect },
        BodyScan::Whole { body, used } => Scanned::Whole {
            head: Head {
                method: head.method,
                target: head.target,
                // HTTP/1.0 closes, since connections persist by default in HTTP/1.1 alone (RFC 9112, section 9.3).
                close: !head.newer || head.fields.closes,
                format: format(head.fields.content_type),
                accept: head.fields.accept.unwrap_or(EITHER_TYPE),
                lines: head.lines,
                conditional: head.fields.conditional,
            },
            body,
            used: taken + used,
            expect,
        },
    }
}

/// The body in chunks, at the front of the bytes after the head of a request.
fn chunked_at_front(bytes: &[u8]) -> BodyScan<'_>
    ensures ok { body_seen result ≡ within_longest bytes.now (chunks longest_body 0 0 (take longest_coded bytes.now)) }
    ensures within { IsWithin longest_body result (length bytes.now) }
{
    // The first bytes alone are read, so that a call takes no longer, whatever comes behind them.
    match chunks_at_front(LONGEST_BODY, front(bytes, LONGEST_CODED)) {
        BodyScan::Unfinished => {
            if bytes.len() >= LONGEST_CODED {
                BodyScan::Faulty(CONTENT_TOO_LARGE)
            } else {
                BodyScan::Unfinished
            }
        }
        BodyScan::Faulty(status) => BodyScan::Faulty(status),
        BodyScan::Whole { body, used } => BodyScan::Whole { body, used },
    }
}
