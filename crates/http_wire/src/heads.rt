//! Heads of requests: their line ends and their parts.

ghost use Rattle.std.specs.Prelude.{◌≡◌, ◌≤◌, length, IfOk};
ghost use Rattle.http_wire.specs.Heads.{skipped, are_paired};
ghost use Rattle.http_wire.specs.HeadSeen.{IsReadAs};

use http_fields::{
    BAD_REQUEST, Fields, HEAD_TOO_LARGE, MOST_LINE_FEEDS, MOST_LINES, count_line_feeds, cut,
    fields_in,
};
use httparse::Status;
use httparse::spans::{EMPTY_HEADER_SPAN, parse_request};

/// The bytes after the CR LF pairs in front, which a server ignores, as RFC 9112 says in section 2.2.
pub fn skip_pairs(bytes: &[u8]) -> &[u8]
    ensures ok { result.now ≡ skipped bytes.now }
    ensures bound { length result.now ≤ length bytes.now }
{
    let mut rest = bytes;
    while let [b'\r', b'\n', after @ ..] = rest {
        rest = after;
    }
    rest
}

/// Says whether each carriage return and each line feed is part of a CR LF.
pub fn has_pairs_alone(bytes: &[u8]) -> bool
    ensures { result ≡ are_paired 0 bytes.now }
{
    let mut paired = true;
    let mut before = 0;
    for byte in bytes {
        paired &= (before == b'\r') == (*byte == b'\n');
        before = *byte;
    }
    paired && before != b'\r'
}

/// The parts of a head.
#[derive(Clone, Copy, Drop)]
pub struct HeadParts<'a> {
    /// The method.
    pub method: &'a [u8],
    /// The request target.
    pub target: &'a [u8],
    /// The version is HTTP/1.1.
    pub newer: bool,
    /// The fields that its header lines have.
    pub fields: Fields<'a>,
    /// The header lines, with the empty line that ends them.
    pub lines: &'a [u8],
}

/// The parts of a head; or the status of its fault, where there are too many header lines, a CR or LF isn't part of a
/// CR LF, or the bytes aren't exactly one head.
#[tactic(auto, using(crate::proofs::HeadParts::judged_many, crate::proofs::HeadParts::judged_bare, crate::proofs::HeadParts::judged_none))]
pub fn read_head(head: &[u8]) -> Result<HeadParts<'_>, u16>
    ensures ok { IsReadAs head.now result }
    ensures target { IfOk result (λ p. length p.target.now ≤ length head.now) }
{
    // Counted first, since too many lines are 431, and each error of `httparse` is 400.
    if count_line_feeds(head) > MOST_LINE_FEEDS {
        return Err(HEAD_TOO_LARGE);
    }
    // Asked before `httparse` reads, since that takes bare line feeds too.
    if !has_pairs_alone(head) {
        return Err(BAD_REQUEST);
    }
    let mut headers = [EMPTY_HEADER_SPAN; MOST_LINES];
    match parse_request(head, &mut headers) {
        Ok(Status::Complete(found)) => {
            if found.len == head.len() {
                let (_, behind_method) = cut(b' ', head);
                let (_, lines) = cut(b'\n', behind_method);
                Ok(HeadParts {
                    method: found.method.of(head),
                    target: found.path.of(head),
                    newer: found.version == 1,
                    fields: fields_in(head, &headers[..found.headers]),
                    lines,
                })
            } else {
                Err(BAD_REQUEST)
            }
        }
        _ => Err(BAD_REQUEST),
    }
}
