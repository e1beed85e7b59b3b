//! The ask of each turn of the devices. Each ask that isn't a GET has a number of its own, and asks to write it to the
//! lamp's status or to fade with it, so that its acts are the turns with that number.

use crate::played::{Played, acted_with, copy_in, is_read, response_in};
use coap_msg::{GET, Message, PUT};
use servient_outside::What;
use servient_rehearsal::{AskMade, Move, Moves, SentDatagram, World};
use std::str;
use thing_handler::{CallKind, Turn};
use wot_json::Tree;

/// The operation that an ask asks for.
#[derive(Clone, Copy, PartialEq, Eq)]
pub enum Wanted {
    /// To read the status, perhaps to observe it.
    Read,
    /// To write this number to the status.
    Write(i64),
    /// To fade with this number.
    Fade(i64),
}

/// The number that a payload is; -1 where it is none.
pub fn number_of(payload: &[u8]) -> i64 {
    match str::from_utf8(payload) {
        Ok(digits) => digits.parse::<i64>().unwrap_or(-1),
        Err(_) => -1,
    }
}

/// The operation that a request asks for.
fn wanted_in(request: &Message<'_>) -> Wanted {
    match request.code {
        GET => Wanted::Read,
        PUT => Wanted::Write(number_of(request.payload)),
        _ => Wanted::Fade(number_of(request.payload)),
    }
}

/// The operation that an ask asks for.
pub fn wanted_by(world: &World, made: &AskMade) -> Wanted {
    for sent in world.sent.iter() {
        if let Some(request) = copy_in(sent, made) {
            return wanted_in(&request);
        }
    }
    Wanted::Read
}

/// The first response to an ask.
pub fn response_to<'a>(world: &'a World, made: &AskMade) -> Option<&'a SentDatagram> {
    for sent in world.sent.iter() {
        if response_in(sent, made).is_some() {
            return Some(sent);
        }
    }
    None
}

/// The number of responses to an ask: as many as copies of it came.
pub fn responses(world: &World, made: &AskMade) -> usize {
    let mut count: usize = 0;
    for sent in world.sent.iter() {
        if response_in(sent, made).is_some() {
            count = count.saturating_add(1);
        }
    }
    count
}

/// The number of these turns that write a number or fade with it.
pub fn turns_with(turns: &[Turn], number: i64) -> usize {
    let mut count: usize = 0;
    for turn in turns {
        if acted_with(turn) == Some(number) {
            count = count.saturating_add(1);
        }
    }
    count
}

/// The number of acts that were made for an ask that wants to act; of one that reads none is told apart.
pub fn acts_for(played: &Played<'_>, wanted: Wanted) -> usize {
    match wanted {
        Wanted::Read => 0,
        Wanted::Write(number) => turns_with(played.status, number),
        Wanted::Fade(number) => turns_with(played.fade, number),
    }
}

/// The id of the invocation that fades with a number, by the first turn that does.
pub fn invocation_with(fade: &[Turn], number: i64) -> Option<u32> {
    for turn in fade {
        if let CallKind::Invoke(id, Some(Tree::Int(input))) = &turn.what {
            if *input == number {
                return Some(*id);
            }
        }
    }
    None
}

/// The number of turns that write or fade.
fn acting_turns(turns: &[Turn]) -> usize {
    let mut count: usize = 0;
    for turn in turns {
        if acted_with(turn).is_some() {
            count = count.saturating_add(1);
        }
    }
    count
}

/// The number of acts in all.
pub fn acts(played: &Played<'_>) -> usize {
    acting_turns(played.status).saturating_add(acting_turns(played.fade))
}

/// The number of reads of the status.
pub fn reads(played: &Played<'_>) -> usize {
    let mut count: usize = 0;
    for turn in played.status {
        if is_read(turn) {
            count = count.saturating_add(1);
        }
    }
    count
}

/// The number of values that were written by HTTP: each request came whole on a connection.
pub fn written_by_http(moves: &Moves) -> usize {
    let mut count: usize = 0;
    for next in moves.iter() {
        if let Move::Other(What::Bytes(_, _), _) = next {
            count = count.saturating_add(1);
        }
    }
    count
}

/// The place of a value among those that the status had: 0 for the one at the beginning, which is 7.
pub fn place_of(status: &[Turn], value: i64) -> Option<usize> {
    if value == 7 {
        return Some(0);
    }
    for (index, turn) in status.iter().enumerate() {
        if acted_with(turn) == Some(value) {
            return Some(index.saturating_add(1));
        }
    }
    None
}
