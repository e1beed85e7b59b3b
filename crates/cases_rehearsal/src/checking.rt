//! The checks of a schedule, by the turns of the devices, the datagrams and the news of the client:
//!
//! - for each ask that writes or fades there is one turn with its number where the servient responded to it, and none
//!   where it didn't; the status was read once for each other ask to which it responded; and no turn is of anybody
//!   else, but one for each value that was written by HTTP;
//! - all responses to an ask are the same, byte for byte;
//! - an ask ends once at most; one that ended with a response or a value was responded to, and a response is that which
//!   the servient sent, and says what the act came to (no schedule fills the table of exchanges);
//! - of the values that were taken for an ask none was written before one that was taken earlier, or before the one
//!   that was read for the response to it.

use crate::asks::{
    Wanted, acts, acts_for, invocation_with, number_of, place_of, reads, response_to, wanted_by,
    written_by_http,
};
use crate::played::{Played, response_in};
use crate::steps::block_in;
use coap_msg::{BLOCK2, Block, CONTENT};
use servient_rehearsal::{AskMade, End, SentDatagram, World};
use std::alloc::AllocError;
use std::fmt::Write;
use std::str;

/// The code 2.01.
const CREATED: u8 = 65;

/// The code 2.04.
const CHANGED: u8 = 68;

/// The line of a schedule of which all holds.
const HOLDS: &str = "acts once, answered by the act, values in order";

/// The id of the invocation of which this says that it runs.
fn running_id(payload: &[u8]) -> Option<u32> {
    let text = str::from_utf8(payload).ok()?;
    let (_, rest) = text.split_once("{\"id\":")?;
    let (digits, _) = rest.split_once(",\"status\":\"running\"}")?;
    digits.parse::<u32>().ok()
}

/// Whether a code and a payload are the outcome of an act of this kind: the status, nothing, or the id of the
/// invocation.
fn is_outcome(played: &Played<'_>, wanted: Wanted, code: u8, payload: &[u8]) -> bool {
    match wanted {
        Wanted::Read => code == CONTENT && place_of(played.status, number_of(payload)).is_some(),
        Wanted::Write(_) => code == CHANGED && payload.is_empty(),
        Wanted::Fade(number) => {
            code == CREATED
                && running_id(payload).is_some()
                && running_id(payload) == invocation_with(played.fade, number)
        }
    }
}

/// Whether a response to an ask says that an act was made.
fn says_act(played: &Played<'_>, made: &AskMade, wanted: Wanted, response: &SentDatagram) -> bool {
    match response_in(response, made) {
        Some(message) => is_outcome(played, wanted, message.code, message.payload),
        None => false,
    }
}

/// Whether all responses to an ask are this one.
fn are_alike(world: &World, made: &AskMade, response: &SentDatagram) -> bool {
    for sent in world.sent.iter() {
        if response_in(sent, made).is_some() && sent.bytes.as_slice() != response.bytes.as_slice() {
            return false;
        }
    }
    true
}

/// Whether a response has this code and this payload.
fn is_said(made: &AskMade, response: &SentDatagram, code: u8, payload: &[u8]) -> bool {
    match response_in(response, made) {
        Some(message) => message.code == code && message.payload == payload,
        None => false,
    }
}

/// Whether a response says this block of its body, or none where there is none.
fn says_block(made: &AskMade, response: &SentDatagram, block: Option<Block>) -> bool {
    match response_in(response, made) {
        Some(message) => block_in(&message, BLOCK2) == block,
        None => false,
    }
}

/// Whether an ask with this response may end so.
fn may_end(made: &AskMade, response: &SentDatagram, end: &End) -> bool {
    match end {
        End::Answered(code, block, payload) => {
            is_said(made, response, *code, payload.as_slice()) && says_block(made, response, *block)
        }
        End::Observed | End::Reset | End::TimedOut => true,
    }
}

/// Whether an ask without a response may end so.
fn may_end_unheard(end: &End) -> bool {
    match end {
        End::Answered(_, _, _) | End::Observed => false,
        End::Reset | End::TimedOut => true,
    }
}

/// Whether an ask ended as it may, and once at most.
fn ends_well(world: &World, made: &AskMade) -> bool {
    let mut count: usize = 0;
    for ended in world.ends.iter() {
        if ended.ask == made.ask {
            count = count.saturating_add(1);
            let is_well = match response_to(world, made) {
                Some(response) => may_end(made, response, &ended.end),
                None => may_end_unheard(&ended.end),
            };
            if !is_well {
                return false;
            }
        }
    }
    count <= 1
}

/// The place of the value that was read for the response to an ask.
fn first_place(played: &Played<'_>, made: &AskMade) -> Option<usize> {
    match response_to(played.world, made) {
        Some(response) => match response_in(response, made) {
            Some(message) => place_of(played.status, number_of(message.payload)),
            None => None,
        },
        None => None,
    }
}

/// Whether the values that were taken for an ask, if there are any, are in order from this place on.
fn are_in_order(played: &Played<'_>, made: &AskMade, first: Option<usize>) -> bool {
    let mut least = first;
    for taken in played.world.taken.iter() {
        if taken.ask == made.ask {
            let place = place_of(played.status, number_of(taken.value.as_slice()));
            match (least, place) {
                (Some(before), Some(now)) => {
                    if now < before {
                        return false;
                    }
                    least = place;
                }
                _ => return false,
            }
        }
    }
    true
}

/// The fault of the act of an ask, if there is one.
fn fault_of_act(played: &Played<'_>, made: &AskMade, wanted: Wanted) -> Option<&'static str> {
    let count = acts_for(played, wanted);
    match response_to(played.world, made) {
        Some(response) => {
            if !are_alike(played.world, made, response) {
                return Some("has responses that differ");
            }
            if !says_act(played, made, wanted, response) {
                return Some("has a response that isn't of its act");
            }
            if wanted != Wanted::Read && count != 1 {
                return Some("wasn't acted on once");
            }
            None
        }
        None => {
            if count != 0 {
                return Some("was acted on without a response");
            }
            None
        }
    }
}

/// The fault of an ask, if there is one.
fn fault_of(played: &Played<'_>, made: &AskMade) -> Option<&'static str> {
    if let Some(fault) = fault_of_act(played, made, wanted_by(played.world, made)) {
        return Some(fault);
    }
    if !ends_well(played.world, made) {
        return Some("ended in a way of its own");
    }
    if !are_in_order(played, made, first_place(played, made)) {
        return Some("has values that aren't in order");
    }
    None
}

/// The number of asks that read and were responded to, and of those that act.
fn responded(world: &World) -> (usize, usize) {
    let mut reading: usize = 0;
    let mut acting: usize = 0;
    for made in world.asks.iter() {
        if response_to(world, made).is_some() {
            match wanted_by(world, made) {
                Wanted::Read => reading = reading.saturating_add(1),
                Wanted::Write(_) | Wanted::Fade(_) => acting = acting.saturating_add(1),
            }
        }
    }
    (reading, acting)
}

/// Whether each turn is of an ask that was responded to, or of a value that was written by HTTP.
fn has_no_other_turns(played: &Played<'_>) -> bool {
    let (reading, acting) = responded(played.world);
    reads(played) == reading && acts(played) == acting.saturating_add(written_by_http(played.moves))
}

/// Writes the verdict: that all holds, or the first fault.
pub fn put_checked(text: &mut String, played: &Played<'_>) -> Result<(), AllocError> {
    for made in played.world.asks.iter() {
        if let Some(fault) = fault_of(played, made) {
            return write!(text, "ask {} {fault}", made.ask);
        }
    }
    if !has_no_other_turns(played) {
        return text.push_str("there are turns that are of no ask");
    }
    text.push_str(HOLDS)
}
