//! The head and the payload of replies, written into a caller's room.

ghost use Rattle.std.specs.Prelude.{◌≡◌, ◌≤◌, ◌⊎◌, ◌∷◌, [], codes, length, option_map, take, Some, None, IsSome};
ghost use Rattle.thing_ops.specs.Outcomes.{payload_of, HasStatus};
ghost use Rattle.http_replies.specs.Writing.{http_reply, phrase_of};
ghost use Rattle.http_replies.specs.Replies.{plain_reply};
ghost use Rattle.http_bind.specs.Places.{path_text};
ghost use Rattle.http_bind.specs.Replying.{media_type_of, location_of, allow_of, head_of, reply_head, longest_reply_head, fault_word as word_of_fault, fault_body, status_head};
ghost use Rattle.http_bind.specs.Streams.{woken_by};
ghost use Rattle.http_bind.specs.Written.{PutsPlaced, IsShortReply, head_of_text};
ghost use Rattle.thing_ops.specs.declared.outcome.Outcome.TheVariants as outcome;

use crate::place::{put_entry, put_path};
use http_wire::{CONTINUE, NO_CONTENT, OK, Reply, put_reply};
use thing_ops::{LONGEST_LINE, LONGEST_WORD, Outcome, Segments, http_status, word};
use wot_json::Text;

/// The most bytes of the head of a reply.
pub const HEAD_BYTES: usize = 4096;

/// The most bytes of a word that is the payload of a reply.
pub const WORD_BYTES: usize = LONGEST_WORD;

/// The media type of values and lists.
const JSON: &str = "application/json";

/// The media type of words (RFC 9110, section 8.3.1).
const PLAIN_TEXT: &str = "text/plain;charset=utf-8";

/// The payload of an outcome: its text, or its word, which is written into `out`.
pub fn payload<'a>(outcome: &'a Outcome, out: &'a mut [u8; WORD_BYTES]) -> &'a [u8]
    ensures { result.now ≡ payload_of outcome.now }
{
    match outcome.text() {
        Some(text) => text,
        None => {
            let length = word(outcome, out);
            &out[..length]
        }
    }
}

/// The parts that the head of each reply has.
#[derive(Clone, Copy, Drop)]
struct Basics {
    status: u16,
    /// The number of bytes of the payload.
    size: usize,
    /// It is the last reply of its connection.
    close: bool,
}

/// Writes the head of the reply of an outcome to the beginning of `out`, with its place if it has one and there is room,
/// and returns its length. The payload has this many bytes.
pub fn put_answer(outcome: &Outcome, size: usize, close: bool, out: &mut [u8; HEAD_BYTES]) -> usize
    requires status { HasStatus outcome.now }
    requires size { size ≡ length (payload_of outcome.now) }
    ensures text { reply_head close outcome.now ≡ Some (take result out.new) }
    ensures within { result ≤ 4096 }
{
    let basics = Basics {
        status: http_status(outcome),
        size,
        close,
    };
    match put_placed(outcome, basics, out) {
        Some(end) => end,
        None => {
            let mut room = [0; LONGEST_LINE];
            let reply = Reply {
                status: basics.status,
                content_type: media_type(outcome),
                etag: outcome.version(),
                location: None,
                allow: allow(outcome, &mut room),
                length: Some(basics.size),
                close: basics.close,
            };
            put_short(&reply, out)
        }
    }
}

/// Writes the head of the reply that is sent for a text that a request waited for, or where there was none.
pub fn put_woken(text: Option<&[u8]>, close: bool, out: &mut [u8; HEAD_BYTES]) -> usize
    ensures text { reply_head close (woken_by (option_map (λ t. t.now) text.entry)) ≡ Some (take result out.new) }
    ensures within { result ≤ 4096 }
{
    match text {
        Some(text) => put_content(text.len(), close, out),
        None => put_empty(close, out),
    }
}

/// Writes the head of the reply with a text of this many bytes.
fn put_content(size: usize, close: bool, out: &mut [u8]) -> usize
    requires room { length out.old ≡ longest_reply_head }
    ensures text { take result out.new ≡ http_reply (head_of_text size close) }
    ensures within { result ≤ longest_reply_head }
{
    let reply = Reply {
        status: OK,
        content_type: Some(JSON),
        etag: None,
        location: None,
        allow: None,
        length: Some(size),
        close,
    };
    put_short(&reply, out)
}

/// Writes the head of the reply that says that there is nothing.
fn put_empty(close: bool, out: &mut [u8]) -> usize
    requires room { length out.old ≡ longest_reply_head }
    ensures text { take result out.new ≡ http_reply (head_of 204 close None outcome.Empty) }
    ensures within { result ≤ longest_reply_head }
{
    let reply = Reply {
        status: NO_CONTENT,
        content_type: None,
        etag: None,
        location: None,
        allow: None,
        length: Some(0),
        close,
    };
    put_short(&reply, out)
}

/// Writes the head of a reply with its place, if it has one and there is room.
fn put_placed(outcome: &Outcome, basics: Basics, out: &mut [u8]) -> Option<usize>
    requires phrase { IsSome (phrase_of basics.status) }
    requires size { basics.size ≡ length (payload_of outcome.now) }
    requires room { length out.old ≡ longest_reply_head }
    ensures { PutsPlaced basics.status basics.close outcome.now out.new result }
{
    match outcome {
        Outcome::Started(place, _) => put_started(outcome, place, basics, out),
        Outcome::Created(Some(id)) => put_created(outcome, id, basics, out),
        _ => None,
    }
}

/// Writes the head of a reply with this path as its place, if there is room.
fn put_started(outcome: &Outcome, place: &Segments, basics: Basics, out: &mut [u8]) -> Option<usize>
    requires phrase { IsSome (phrase_of basics.status) }
    requires size { basics.size ≡ length (payload_of outcome.now) }
    requires room { length out.old ≡ longest_reply_head }
    requires place { location_of outcome.now ≡ Some (path_text place.now) }
    ensures { PutsPlaced basics.status basics.close outcome.now out.new result }
{
    // A room on the stack, so that the place takes no memory.
    let mut path = [0; HEAD_BYTES];
    let end = put_path(place, &mut path)?;
    put_at(outcome, &path[..end], basics, out)
}

/// Writes the head of a reply with the path of an entry of the directory as its place, if there is room.
fn put_created(outcome: &Outcome, id: &Text, basics: Basics, out: &mut [u8]) -> Option<usize>
    requires phrase { IsSome (phrase_of basics.status) }
    requires size { basics.size ≡ length (payload_of outcome.now) }
    requires room { length out.old ≡ longest_reply_head }
    requires place { location_of outcome.now ≡ Some (path_text (codes "things" ∷ id.now ∷ [])) }
    ensures { PutsPlaced basics.status basics.close outcome.now out.new result }
{
    let mut path = [0; HEAD_BYTES];
    let end = put_entry(id.as_str().as_bytes(), &mut path)?;
    put_at(outcome, &path[..end], basics, out)
}

/// Writes the head of a reply with this place, if there is room.
fn put_at(outcome: &Outcome, place: &[u8], basics: Basics, out: &mut [u8]) -> Option<usize>
    requires phrase { IsSome (phrase_of basics.status) }
    requires size { basics.size ≡ length (payload_of outcome.now) }
    requires room { length out.old ≡ longest_reply_head }
    requires place { location_of outcome.now ≡ Some place.now }
    ensures { PutsPlaced basics.status basics.close outcome.now out.new result }
{
    let reply = Reply {
        status: basics.status,
        content_type: media_type(outcome),
        etag: outcome.version(),
        location: Some(place),
        allow: None,
        length: Some(basics.size),
        close: basics.close,
    };
    put_reply(&reply, out)
}

/// Writes the head of a reply that is short. `unwrap` never fails, since the room is longer than such a head.
fn put_short(reply: &Reply<'_>, out: &mut [u8]) -> usize
    requires phrase { IsSome (phrase_of reply.now.status) }
    requires short { IsShortReply (plain_reply reply.now) }
    requires room { length out.old ≡ longest_reply_head }
    ensures text { take result out.new ≡ http_reply (plain_reply reply.now) }
    ensures within { result ≤ longest_reply_head }
{
    put_reply(reply, out).unwrap()
}

/// The media type of the payload of an outcome. Each variant is listed, since with `_` the definition of the contract
/// doesn't compute.
fn media_type(outcome: &Outcome) -> Option<&'static str>
    ensures { option_map (λ t. t.now) result ≡ media_type_of outcome.now }
{
    match outcome {
        Outcome::Description(_, true) => Some("application/td+json"),
        Outcome::Description(_, false)
        | Outcome::Content { .. }
        | Outcome::Output(_)
        | Outcome::Started(_, _)
        | Outcome::Listed(_) => Some(JSON),
        Outcome::NotModified(_)
        | Outcome::Empty
        | Outcome::Changed
        | Outcome::Deleted
        | Outcome::Created(_) => None,
        Outcome::Wait(_)
        | Outcome::NotFound
        | Outcome::NotAllowed(_)
        | Outcome::NotAcceptable
        | Outcome::Format
        | Outcome::BadValue
        | Outcome::TooLarge
        | Outcome::PreconditionFailed
        | Outcome::Refused(_)
        | Outcome::DeviceFault(_)
        | Outcome::BadAnswer
        | Outcome::InvocationsFull
        | Outcome::CallsUsed
        | Outcome::Invalid(_)
        | Outcome::IdDiffers
        | Outcome::HasId
        | Outcome::BadTtl
        | Outcome::DirectoryFull
        | Outcome::Memory => Some(PLAIN_TEXT),
    }
}

/// The names of the verbs that are taken, where the outcome says them. They are written into `room`.
fn allow<'a>(outcome: &Outcome, room: &'a mut [u8; LONGEST_LINE]) -> Option<&'a str>
    ensures { option_map (λ t. t.now) result ≡ allow_of outcome.now }
{
    match outcome {
        Outcome::NotAllowed(verbs) => {
            let length = verbs.write(room);
            match str::from_utf8(&room[..length]) {
                Ok(names) => Some(names),
                Err(_) => None,
            }
        }
        _ => None,
    }
}

/// Writes the head of the 100 reply, or of the reply to a fault with another status, and returns its length.
pub fn put_status_head(status: u16, out: &mut [u8]) -> usize
    requires status { (status ≡ 100) ⊎ IsSome (word_of_fault status) }
    requires room { length out.old ≡ longest_reply_head }
    ensures text { take result out.new ≡ status_head status }
    ensures within { result ≤ longest_reply_head }
{
    let reply = if status == CONTINUE {
        Reply {
            status,
            content_type: None,
            etag: None,
            location: None,
            allow: None,
            length: None,
            close: false,
        }
    } else {
        Reply {
            status,
            content_type: Some(PLAIN_TEXT),
            etag: None,
            location: None,
            allow: None,
            length: Some(fault_word(status).len()),
            close: true,
        }
    };
    put_short(&reply, out)
}

/// The word of a fault; other statuses have none.
pub fn fault_word(status: u16) -> &'static [u8]
    ensures text { result.now ≡ fault_body status }
    ensures short { length result.now ≤ 6 }
{
    match status {
        400 => b"bad",
        413 => b"body",
        431 => b"head",
        501 => b"coding",
        _ => b"",
    }
}
