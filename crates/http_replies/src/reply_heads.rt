//! The head of a reply, and how the body after it is framed.

ghost use Rattle.std.specs.Prelude.{◌≡◌, ◌==◌, [], map, length};
ghost use Rattle.std.specs.List.{All};
ghost use Rattle.httparse.specs.Spans.{IsHeaderWithin, header_bytes};
ghost use Rattle.http_fields.specs.Fields.{said_by};
ghost use Rattle.http_fields.specs.Found.{said_in, standing_of, with_lines};
ghost use Rattle.http_replies.specs.ReplyFronts.{IsReplyJudged, with_status, are_absent as are_absent_of, is_bodiless as has_no_body, is_interim as is_interim_of, no_framing as no_framing_of, reply_framing as reply_framing_of, some_framing as some_framing_of};
ghost use Rattle.http_replies.specs.ReplySeen.{IsReplyReadAs};

use http_fields::{
    BAD_REQUEST, CONTENT_TOO_LARGE, Fields, FoundField, Framing, HEAD_TOO_LARGE, LONGEST_REPLY,
    MOST_LINE_FEEDS, MOST_LINES, NO_CONTENT, NOT_MODIFIED, count_line_feeds, fields_in,
    read_framing,
};
use httparse::Status;
use httparse::spans::{EMPTY_HEADER_SPAN, HeaderSpan, ResponseSpans, parse_response};

/// The first status of an interim reply (RFC 9110, section 15.2).
const FIRST_INTERIM: u16 = 100;

/// The last status of an interim reply.
const LAST_INTERIM: u16 = 199;

/// A head of a reply without fault.
#[derive(Clone, Copy, Drop)]
pub struct ReplyHead {
    /// The status.
    pub status: u16,
    /// The length of the body after it; none where the body lasts until the stream ends.
    pub framing: Option<Framing>,
}

/// The parts of a head.
#[derive(Clone, Copy, Drop)]
pub struct ReplyParts<'a> {
    /// The status.
    pub status: u16,
    /// The version is HTTP/1.1.
    pub newer: bool,
    /// The header lines.
    pub fields: Fields<'a>,
}

/// The head that bytes are, or the status of what is wrong with them, as a server would answer it.
#[tactic(auto, using(crate::proofs::ReplyHeads::judged_many, crate::proofs::ReplyHeads::judged_none, crate::proofs::ReplyHeads::judged_head))]
pub fn judge_reply(head: &[u8]) -> Result<ReplyHead, u16>
    ensures { IsReplyJudged head.now result }
{
    if count_line_feeds(head) > MOST_LINE_FEEDS {
        return Err(HEAD_TOO_LARGE);
    }
    match read_reply(head) {
        Some(parts) => framed(&parts),
        None => Err(BAD_REQUEST),
    }
}

/// A head with the framing of its body.
fn framed(parts: &ReplyParts<'_>) -> Result<ReplyHead, u16>
    ensures { result ≡ with_status parts.now.status (reply_framing_of parts.now.status parts.now.newer
        (standing_of parts.now.fields.content_length) (standing_of parts.now.fields.transfer_encoding)) }
{
    match framing_of(parts) {
        Ok(framing) => Ok(ReplyHead {
            status: parts.status,
            framing,
        }),
        Err(fault) => Err(fault),
    }
}

/// The framing of the body after a head.
fn framing_of(parts: &ReplyParts<'_>) -> Result<Option<Framing>, u16>
    ensures { result ≡ reply_framing_of parts.now.status parts.now.newer
        (standing_of parts.now.fields.content_length) (standing_of parts.now.fields.transfer_encoding) }
{
    let length = parts.fields.content_length;
    let coding = parts.fields.transfer_encoding;
    if is_bodiless(parts.status) {
        return no_framing(read_framing(LONGEST_REPLY, parts.newer, length, coding));
    }
    if are_absent(length, coding) {
        return Ok(None);
    }
    some_framing(read_framing(LONGEST_REPLY, parts.newer, length, coding))
}

/// The framing of a body that there isn't, by that which the fields say.
fn no_framing(framing: Result<Framing, u16>) -> Result<Option<Framing>, u16>
    ensures { result ≡ no_framing_of framing }
{
    match framing {
        // A length that is too great is no fault, since no body of that length comes.
        Ok(_) | Err(CONTENT_TOO_LARGE) => Ok(Some(Framing::Stated(0))),
        Err(fault) => Err(fault),
    }
}

/// The framing of a body that there is.
fn some_framing(framing: Result<Framing, u16>) -> Result<Option<Framing>, u16>
    ensures { result ≡ some_framing_of framing }
{
    match framing {
        Ok(framing) => Ok(Some(framing)),
        Err(fault) => Err(fault),
    }
}

/// Neither of two fields comes.
fn are_absent(length: FoundField<'_>, coding: FoundField<'_>) -> bool
    ensures { result ≡ are_absent_of (standing_of length.entry) (standing_of coding.entry) }
{
    // Each case has an arm of its own, since that gives the proof an equation.
    match length {
        FoundField::Absent => match coding {
            FoundField::Absent => true,
            FoundField::Once(_) => false,
            FoundField::Often => false,
        },
        FoundField::Once(_) => false,
        FoundField::Often => false,
    }
}

/// Another head comes after one with this status (RFC 9110, section 15.2).
pub fn is_interim(status: u16) -> bool
    ensures { result ≡ is_interim_of status }
{
    FIRST_INTERIM <= status && status <= LAST_INTERIM
}

/// A reply with this status has no body (RFC 9112, section 6.3).
fn is_bodiless(status: u16) -> bool
    ensures { result ≡ has_no_body status }
{
    is_interim(status) || status == NO_CONTENT || status == NOT_MODIFIED
}

/// The parts of a head, where the bytes are exactly one of at most 64 header lines.
fn read_reply(head: &[u8]) -> Option<ReplyParts<'_>>
    ensures { IsReplyReadAs head.now result }
{
    let mut headers = [EMPTY_HEADER_SPAN; MOST_LINES];
    match parse_response(head, &mut headers) {
        Ok(Status::Complete(found)) => {
            if found.len == head.len() {
                Some(parts_at(head, &found, &headers[..found.headers]))
            } else {
                None
            }
        }
        _ => None,
    }
}

/// The parts of a head, whose header lines are at these spans.
fn parts_at<'a>(head: &'a [u8], found: &ResponseSpans, headers: &[HeaderSpan]) -> ReplyParts<'a>
    requires { All (IsHeaderWithin (length head.now)) headers.now }
    ensures status { result.status ≡ found.now.code }
    ensures newer { result.newer ≡ (found.now.version == 1) }
    ensures fields { said_in result.fields ≡ with_lines (said_by []) (map (header_bytes head.now) headers.now) }
{
    ReplyParts {
        status: found.code,
        newer: found.version == 1,
        fields: fields_in(head, headers),
    }
}
