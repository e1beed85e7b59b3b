//! A rehearsal that was played, as it is seen from outside: the moves, the datagrams of both ends, the news of the
//! client, and the turns of the lamp's devices. Nothing here asks how `rehearse` came to that.

use coap_msg::{Message, Type4, decode};
use servient_rehearsal::{AskMade, Moves, SentDatagram, World};
use thing_handler::{CallKind, Turn};
use wot_json::Tree;

/// A rehearsal that was played with the built-in Thing.
#[derive(Clone, Copy)]
pub struct Played<'a> {
    pub moves: &'a Moves,
    pub world: &'a World,
    /// The turns of the lamp's status.
    pub status: &'a [Turn],
    /// The turns of its fading.
    pub fade: &'a [Turn],
}

/// The host of the client.
pub const CLIENT: u128 = 1;

/// The host of the servient.
pub const SERVIENT: u128 = 2;

/// The message that this host sent to that one in a datagram, if it is of this type.
pub fn message_in(sent: &SentDatagram, from: u128, to: u128, kind: Type4) -> Option<Message<'_>> {
    if sent.from.host != from || sent.to.host != to {
        return None;
    }
    match decode(sent.bytes.as_slice()) {
        Ok(message) => {
            if message.kind == kind {
                Some(message)
            } else {
                None
            }
        }
        Err(_) => None,
    }
}

/// A message, if it has this message ID.
fn with_id(message: Option<Message<'_>>, id: u16) -> Option<Message<'_>> {
    match message {
        Some(message) if message.id == id => Some(message),
        _ => None,
    }
}

/// The request in a datagram, if it is the first of an ask or one of its copies, since a client asks by each message
/// that it sends Confirmable.
pub fn copy_in<'a>(sent: &'a SentDatagram, made: &AskMade) -> Option<Message<'a>> {
    with_id(message_in(sent, CLIENT, SERVIENT, Type4::Con), made.id)
}

/// The answer in a datagram, if it is a response to an ask: it is an Acknowledgement with its message ID.
pub fn response_in<'a>(sent: &'a SentDatagram, made: &AskMade) -> Option<Message<'a>> {
    with_id(message_in(sent, SERVIENT, CLIENT, Type4::Ack), made.id)
}

/// The message to an observer in a datagram, if it is a notification.
pub fn notification_in(sent: &SentDatagram) -> Option<Message<'_>> {
    message_in(sent, SERVIENT, CLIENT, Type4::Con)
}

/// The number that a turn writes or fades with, if it does.
pub fn acted_with(turn: &Turn) -> Option<i64> {
    match &turn.what {
        CallKind::Write(Tree::Int(number)) => Some(*number),
        CallKind::Invoke(_, Some(Tree::Int(number))) => Some(*number),
        _ => None,
    }
}

/// Whether a turn reads.
pub fn is_read(turn: &Turn) -> bool {
    matches!(&turn.what, CallKind::Read)
}
