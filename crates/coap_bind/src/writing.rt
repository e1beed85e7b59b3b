//! The bytes of replies and of notifications.

ghost use Rattle.std.specs.Prelude.{◌≡◌, ◌≤◌, ◌<◌, ◌^◌, ◌/◌, ◌⊎◌, None, length, IfSome};
ghost use Rattle.coap_msg.specs.Grammar.{spelling};
ghost use Rattle.thing_ops.specs.Outcomes.{HasCode, payload_of};
ghost use Rattle.coap_observe.specs.Watching.{IsSendable};
ghost use Rattle.coap_bind.specs.Blocks.{IsUse, answer_reply, portion_of, reply_with};
ghost use Rattle.coap_bind.specs.Portions.{HoldsBlock, portion_seen, told_reply};
ghost use Rattle.coap_bind.specs.Writing.{word_reply, observed, head_in, coap_reply, reply_kind, reply_id, notification};
ghost use Rattle.coap_msg.specs.Written.{IsWritten};

use crate::blocks::BlockUse;
use crate::options::{put_block, put_content_options, put_notification_options, put_options};
use crate::pending::PendingReply;
use crate::portion::{Portion, most_bytes, portion_of};
use coap_msg::{
    CONTENT, Code, INTERNAL_SERVER_ERROR, LONGEST_MESSAGE, LONGEST_PAYLOAD, Opts, Plain,
    RequestType, Type4, encode,
};
use coap_observe::Notice;
use thing_ops::{LONGEST_WORD, Outcome, coap_code, word};

/// The contents of a reply.
#[derive(Clone, Copy)]
pub struct Said<'a> {
    /// The outcome of its request.
    pub outcome: &'a Outcome,
    /// The sequence number of the registration, where the request registered its sender.
    pub observe: Option<u32>,
    /// The part that blocks have in it.
    pub blocks: &'a BlockUse,
}

/// A reply to a request that isn't acted on: it has no Observe and no place.
#[derive(Clone, Copy)]
pub struct Told<'a> {
    /// The code.
    pub code: Code,
    /// The version of its payload, if that has a tag.
    pub version: Option<u32>,
    /// The content format of its payload, if that has one.
    pub format: Option<u16>,
    /// Its payload, or a block of that.
    pub portion: Portion<'a>,
}

/// The type and the message ID of a reply to a request of this type and ID.
pub fn kind_and_id(kind: RequestType, id: u16, next_id: u16) -> (Type4, u16)
    ensures { result ≡ (reply_kind kind, reply_id kind id next_id) }
{
    match kind {
        RequestType::Confirmable => (Type4::Ack, id),
        RequestType::NonConfirmable => (Type4::Non, next_id),
    }
}

/// Writes a reply with a diagnostic payload, and returns the number of its bytes.
pub fn put_word(
    code: Code,
    word: &[u8],
    pending: &PendingReply,
    next_id: u16,
    out: &mut [u8; LONGEST_MESSAGE],
) -> usize
    requires code { (code / 32 ≡ 4) ⊎ (code / 32 ≡ 5) }
    requires word { length word.now ≤ 64 }
    ensures { IsWritten (spelling (coap_reply (word_reply code word.now) (head_in pending.now) next_id)) result out.old out.new }
{
    let mut none = [];
    let options = Opts::on(&mut none);
    let (kind, id) = kind_and_id(pending.kind, pending.id, next_id);
    let message = Plain {
        kind,
        code,
        id,
        token: pending.token.as_bytes(),
        options: &options,
        payload: word,
    };
    encode(&message, out).unwrap()
}

/// Writes a reply, with Observe where it says a sequence number, and returns the number of its bytes.
pub fn put_outcome(
    said: Said<'_>,
    pending: &PendingReply,
    next_id: u16,
    out: &mut [u8; LONGEST_MESSAGE],
) -> usize
    requires code { HasCode said.outcome.now }
    requires blocks { IsUse said.blocks.now }
    requires short { (said.observe ≡ None) ⊎ (length (payload_of said.outcome.now) ≤ LONGEST_PAYLOAD) }
    requires room { length (spelling (coap_reply (observed said.observe (answer_reply said.blocks.now said.outcome.now)) (head_in pending.now) next_id)) ≤ LONGEST_MESSAGE }
    ensures { IsWritten (spelling (coap_reply (observed said.entry.observe (answer_reply said.entry.blocks.now said.entry.outcome.now)) (head_in pending.now) next_id)) result out.old out.new }
{
    // Room of its own, since an answer takes no memory.
    let mut words = [0u8; LONGEST_WORD];
    let size = word(said.outcome, &mut words);
    let payload = said.outcome.text().unwrap_or(&words[..size]);
    if payload.len() > most_bytes(said.blocks, said.outcome) {
        return put_word(INTERNAL_SERVER_ERROR, b"long", pending, next_id, out);
    }
    let portion = portion_of(said.blocks, said.outcome, payload);
    put_portion(said, portion, pending, next_id, out)
}

/// Writes a reply with this part of the payload of its outcome, and returns the number of its bytes.
fn put_portion(
    said: Said<'_>,
    portion: Portion<'_>,
    pending: &PendingReply,
    next_id: u16,
    out: &mut [u8; LONGEST_MESSAGE],
) -> usize
    requires code { HasCode said.outcome.now }
    requires block { HoldsBlock portion.block }
    requires room { length (spelling (coap_reply (observed said.observe (reply_with (portion_seen portion) said.outcome.now)) (head_in pending.now) next_id)) ≤ LONGEST_MESSAGE }
    ensures { IsWritten (spelling (coap_reply (observed said.entry.observe (reply_with (portion_seen portion.entry) said.entry.outcome.now)) (head_in pending.now) next_id)) result out.old out.new }
{
    let mut room = [0u8; LONGEST_MESSAGE];
    let mut options = Opts::on(&mut room);
    // Nothing fails here, since the clause `room` asks that there is room.
    put_options(said.observe, said.outcome, &mut options).unwrap();
    put_block(portion.block, &mut options).unwrap();
    let (kind, id) = kind_and_id(pending.kind, pending.id, next_id);
    let message = Plain {
        kind,
        code: coap_code(said.outcome),
        id,
        token: pending.token.as_bytes(),
        options: &options,
        payload: portion.payload,
    };
    encode(&message, out).unwrap()
}

/// Writes a reply to a request that isn't acted on, and returns the number of its bytes.
pub fn put_told(
    told: Told<'_>,
    pending: &PendingReply,
    next_id: u16,
    out: &mut [u8; LONGEST_MESSAGE],
) -> usize
    requires code { told.code / 32 ≡ 2 }
    requires block { HoldsBlock told.portion.block }
    requires payload { length told.portion.payload.now ≤ LONGEST_PAYLOAD }
    ensures { IsWritten (spelling (coap_reply (told_reply told.entry) (head_in pending.now) next_id)) result out.old out.new }
{
    let mut room = [0u8; LONGEST_MESSAGE];
    let mut options = Opts::on(&mut room);
    put_content_options(told.version, told.format, &mut options).unwrap();
    put_block(told.portion.block, &mut options).unwrap();
    let (kind, id) = kind_and_id(pending.kind, pending.id, next_id);
    let message = Plain {
        kind,
        code: told.code,
        id,
        token: pending.token.as_bytes(),
        options: &options,
        payload: told.portion.payload,
    };
    encode(&message, out).unwrap()
}

/// Writes a notification that says this value, and returns the number of its bytes.
pub fn put_notification(notice: &Notice, value: &[u8], out: &mut [u8; LONGEST_MESSAGE]) -> usize
    requires notice { IsSendable notice.now }
    requires value { length value.now ≤ LONGEST_PAYLOAD }
    ensures { IsWritten (spelling (notification notice.now value.now)) result out.old out.new }
{
    let mut room = [0u8; LONGEST_MESSAGE];
    let mut options = Opts::on(&mut room);
    put_notification_options(notice.sequence, &mut options).unwrap();
    let message = Plain {
        kind: Type4::Con,
        code: CONTENT,
        id: notice.id,
        token: &notice.token[..notice.token_length],
        options: &options,
        payload: value,
    };
    encode(&message, out).unwrap()
}
