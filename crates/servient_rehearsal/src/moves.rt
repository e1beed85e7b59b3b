//! The moves of a rehearsal.

ghost use Rattle.std.specs.Prelude.{◌≡◌, ◌↔◌, IsTrue};
ghost use Rattle.servient_rehearsal.specs.Moves.{is_given as may_be_given, is_of_an_end, passed_by as time_of, AreShort};

use crate::world::{CLIENT, SERVIENT};
use coap_msg::{Block, is_same_endpoint};
use servient_outside::What;
use thing_ops::Segments;
use wot_json::Bytes;

/// A move that may happen. One that the rules of the network don't allow is skipped.
#[derive(Debug, Drop)]
pub enum Move {
    /// The client asks the servient. An ask that may not be asked, or that the client refuses, is skipped.
    Ask {
        code: u8,
        path: Segments,
        observe: Option<bool>,
        format: Option<u16>,
        /// The block of its body that this is (RFC 7959, section 2.1).
        block1: Option<Block>,
        /// The block of the response that is wanted.
        block2: Option<Block>,
        payload: Bytes,
    },
    /// The client does the work that is due.
    Due,
    /// The datagram of this number comes to where it was sent, if that was in the last 100 seconds. All datagrams of
    /// either end are counted from 0.
    Deliver(u32),
    /// So many milliseconds pass.
    Pass(u64),
    /// This event comes to the servient besides, with these bytes: one that a network may give, but no datagram of
    /// either end.
    Other(What, Bytes),
}

/// Moves, the first of which comes first.
pub type Moves = Vec<Move>;

/// The most moves that may be rehearsed.
const MOST_MOVES: usize = 1_000_000;

/// The most milliseconds that may pass in a rehearsal.
const LONGEST_TIME: u64 = 1_000_000_000_000_000;

/// Whether moves may be rehearsed: they are at most 1,000,000, and at most 10^15 milliseconds pass in them.
pub fn are_short(moves: &Moves) -> bool
    ensures { IsTrue result ↔ AreShort moves.now.items }
{
    if moves.len() > MOST_MOVES {
        return false;
    }
    let mut total = 0;
    for index in 0..moves.len() {
        let time = passed_by(&moves[index]);
        if time > LONGEST_TIME - total {
            return false;
        }
        total += time;
    }
    true
}

/// The milliseconds that pass in a move.
fn passed_by(next: &Move) -> u64
    ensures { result ≡ time_of next.now }
{
    match next {
        Move::Pass(time) => *time,
        Move::Ask { .. } | Move::Due | Move::Deliver(_) | Move::Other(_, _) => 0,
    }
}

/// Whether a network may give this with these bytes.
pub fn is_given(what: &What, bytes: &[u8]) -> bool
    ensures { result ≡ may_be_given what.now bytes.now }
{
    let possible = match *what {
        What::Opened(c) => c < 64,
        What::Bytes(c, count) => c < 64 && 1 <= count && count <= 4096,
        What::Ended(c) => c < 64,
        What::Datagram(_, count) => count <= 2048,
        What::Tick => true,
        What::Stop => true,
    };
    possible && bytes.len() == what.byte_count()
}

/// Whether this is a datagram of one of the two ends.
pub fn is_from_an_end(what: &What) -> bool
    ensures { result ≡ is_of_an_end what.now }
{
    match *what {
        What::Datagram(from, _) => is_same_endpoint(from, CLIENT)
            || is_same_endpoint(from, SERVIENT),
        What::Opened(_) | What::Bytes(_, _) | What::Ended(_) | What::Tick | What::Stop => false,
    }
}
