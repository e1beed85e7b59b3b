//! The kinds of events that came about in schedules, of those that there are to be in them. Each is told by the
//! datagrams that were sent for it, or by the news of the client, and not by the moves, since a move may be skipped.

use crate::asks::{number_of, response_to, responses};
use crate::played::{
    CLIENT, Played, SERVIENT, acted_with, copy_in, message_in, notification_in, response_in,
};
use coap_msg::{Message, OBSERVE, Type4};
use servient_rehearsal::{AskMade, End, Move, Moves, SentDatagram, World};
use std::alloc::AllocError;
use thing_handler::Turn;

/// The milliseconds for which a datagram may be under way.
const LATENCY: u64 = 100_000;

/// The milliseconds after which a notification counts as newer whatever its number (RFC 7641, section 3.4).
const NEWER_AFTER: u64 = 128_000;

/// The number of times that a message is sent that nothing acknowledges: once, and four times more (RFC 7252, section
/// 4.8).
const MOST_TIMES: usize = 5;

/// The kinds that came about.
#[derive(Clone, Copy)]
pub struct Kinds {
    losses: bool,
    repeats: bool,
    reorderings: bool,
    latest: bool,
    too_late: bool,
    registrations: bool,
    observations: bool,
    resets: bool,
    late_notifications: bool,
    given_up: bool,
    timed_out: bool,
    others: bool,
}

/// Nothing yet.
pub const NOTHING: Kinds = Kinds {
    losses: false,
    repeats: false,
    reorderings: false,
    latest: false,
    too_late: false,
    registrations: false,
    observations: false,
    resets: false,
    late_notifications: false,
    given_up: false,
    timed_out: false,
    others: false,
};

/// The number of copies of an ask.
fn copies(world: &World, made: &AskMade) -> usize {
    let mut count: usize = 0;
    for sent in world.sent.iter() {
        if copy_in(sent, made).is_some() {
            count = count.saturating_add(1);
        }
    }
    count
}

/// Whether an ask was sent once and came as late as it may: it was responded to at that moment, and not before.
fn came_latest(world: &World, made: &AskMade) -> bool {
    match response_to(world, made) {
        Some(response) => {
            response.moment.saturating_sub(made.first) == LATENCY && copies(world, made) == 1
        }
        None => false,
    }
}

/// Whether a message has Observe.
fn has_observe(message: &Message<'_>) -> bool {
    for (number, _) in message.options.iter() {
        if number == OBSERVE {
            return true;
        }
    }
    false
}

/// Whether an ask registered: its response has Observe.
fn did_register(world: &World, made: &AskMade) -> bool {
    match response_to(world, made) {
        Some(response) => match response_in(response, made) {
            Some(message) => has_observe(&message),
            None => false,
        },
        None => false,
    }
}

/// Notes the kinds that the asks show.
fn note_asks(kinds: &mut Kinds, world: &World) {
    let mut has_registered = false;
    for made in world.asks.iter() {
        let times = responses(world, made);
        kinds.losses |= times == 0;
        kinds.repeats |= times > 1;
        kinds.latest |= came_latest(world, made);
        if did_register(world, made) {
            kinds.registrations |= has_registered;
            has_registered = true;
        }
    }
}

/// Notes the kinds of news of the client: values for two asks, and the end of an ask by time.
fn note_news(kinds: &mut Kinds, world: &World) {
    if let Some(first) = world.taken.first() {
        for taken in world.taken.iter() {
            kinds.observations |= taken.ask != first.ask;
        }
    }
    for ended in world.ends.iter() {
        if let End::TimedOut = &ended.end {
            kinds.timed_out = true;
        }
    }
}

/// Notes the kinds of replies of the client to notifications: a Reset, or an Acknowledgement of an older one after a
/// newer.
fn note_replies(kinds: &mut Kinds, world: &World) {
    let mut greatest: u16 = 0;
    for sent in world.sent.iter() {
        if let Some(message) = message_in(sent, CLIENT, SERVIENT, Type4::Ack) {
            kinds.reorderings |= message.id < greatest;
            greatest = greatest.max(message.id);
        }
        kinds.resets |= message_in(sent, CLIENT, SERVIENT, Type4::Rst).is_some();
    }
}

/// The moment at which the first notification with this token was sent.
fn first_notification(world: &World, token: &[u8]) -> Option<u64> {
    for sent in world.sent.iter() {
        if let Some(message) = notification_in(sent) {
            if message.token == token {
                return Some(sent.moment);
            }
        }
    }
    None
}

/// Whether a notification was sent so long after the first one with its token.
fn is_late_notification(world: &World, sent: &SentDatagram) -> bool {
    match notification_in(sent) {
        Some(message) => match first_notification(world, message.token) {
            Some(first) => sent.moment.saturating_sub(first) > NEWER_AFTER,
            None => false,
        },
        None => false,
    }
}

/// The number of times that a notification was sent.
fn times_sent(world: &World, wanted: &SentDatagram) -> usize {
    let mut times: usize = 0;
    for sent in world.sent.iter() {
        if notification_in(sent).is_some() && sent.bytes.as_slice() == wanted.bytes.as_slice() {
            times = times.saturating_add(1);
        }
    }
    times
}

/// The last value that was written to the status, or -1.
fn last_value(status: &[Turn]) -> i64 {
    let mut last = -1;
    for turn in status {
        if let Some(value) = acted_with(turn) {
            last = value;
        }
    }
    last
}

/// Whether a notification says this value.
fn is_notified(world: &World, value: i64) -> bool {
    for sent in world.sent.iter() {
        if let Some(message) = notification_in(sent) {
            if number_of(message.payload) == value {
                return true;
            }
        }
    }
    false
}

/// Notes the kinds that the notifications show: two of one registration that are far apart, and one that was sent five
/// times, where the last value that was written was in none.
fn note_notifications(kinds: &mut Kinds, played: &Played<'_>) {
    let is_last_said = is_notified(played.world, last_value(played.status));
    for sent in played.world.sent.iter() {
        kinds.late_notifications |= is_late_notification(played.world, sent);
        kinds.given_up |= !is_last_said && times_sent(played.world, sent) >= MOST_TIMES;
    }
}

/// Whether the datagram of this number was sent more than 100 seconds before this moment.
fn is_too_late(world: &World, index: u32, now: u64) -> bool {
    match world.sent.get(index as usize) {
        Some(sent) => now.saturating_sub(sent.moment) > LATENCY,
        None => false,
    }
}

/// Notes the kinds that the moves show by themselves: another event, and a datagram that was too late.
fn note_moves(kinds: &mut Kinds, world: &World, moves: &Moves) {
    let mut now: u64 = 0;
    for next in moves.iter() {
        match next {
            Move::Pass(time) => now = now.saturating_add(*time),
            Move::Deliver(index) => kinds.too_late |= is_too_late(world, *index, now),
            Move::Other(_, _) => kinds.others = true,
            Move::Ask { .. } | Move::Due => {}
        }
    }
}

/// Notes the kinds that came about in a schedule.
pub fn note(kinds: &mut Kinds, played: &Played<'_>) {
    note_asks(kinds, played.world);
    note_news(kinds, played.world);
    note_replies(kinds, played.world);
    note_notifications(kinds, played);
    note_moves(kinds, played.world, played.moves);
}

/// Writes whether a kind came about.
fn put_kind(text: &mut String, what: &str, came: bool) -> Result<(), AllocError> {
    text.push_str(what)?;
    text.push_str(if came {
        ": it came about\n"
    } else {
        ": it never came about\n"
    })
}

/// Writes the kinds of the network's work that came about.
fn put_network(text: &mut String, kinds: &Kinds) -> Result<(), AllocError> {
    put_kind(text, "an ask was lost", kinds.losses)?;
    put_kind(text, "an ask came twice", kinds.repeats)?;
    put_kind(
        text,
        "notifications came in another order",
        kinds.reorderings,
    )?;
    put_kind(text, "an ask came as late as it may", kinds.latest)?;
    put_kind(text, "a datagram was too late", kinds.too_late)
}

/// Writes the kinds that came about.
pub fn put(text: &mut String, kinds: &Kinds) -> Result<(), AllocError> {
    put_network(text, kinds)?;
    put_kind(text, "two asks registered", kinds.registrations)?;
    put_kind(text, "values were taken for two asks", kinds.observations)?;
    put_kind(text, "the client sent a reset", kinds.resets)?;
    put_kind(
        text,
        "notifications were 128 seconds apart",
        kinds.late_notifications,
    )?;
    put_kind(
        text,
        "a notification was sent five times and then none",
        kinds.given_up,
    )?;
    put_kind(text, "an ask ended by time", kinds.timed_out)?;
    put_kind(text, "something else came to the servient", kinds.others)
}
