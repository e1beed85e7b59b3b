//! The client asks, and sends the copies that are due.

ghost use Rattle.std.specs.Prelude.{◌≡◌, ◌≤◌, ◌<◌, ◌^◌, ◌↔◌, length, IfSome, IsTrue, OnErr, OnOk};
ghost use Rattle.coap_client.specs.Asking.{asking_of, MayAsk};
ghost use Rattle.coap_msg.specs.Blocks.{IsBlock};
ghost use Rattle.servient_ends.specs.Ends.{asks_next, does_due};
ghost use Rattle.servient_rehearsal.specs.Playing.{ClientPlays, ClientPlaysAtMost, ClientGoesOn};

use crate::NoMemory;
use crate::notes::Notes;
use crate::world::{CLIENT, End, SERVIENT};
use coap_client::{Ask, Client, Due};
use coap_msg::{Block, LONGEST_MESSAGE, LONGEST_SEGMENT};
use thing_ops::Segments;

/// The client asks the servient, if it may ask that.
pub fn ask_servient(client: &mut Client, notes: &mut Notes, ask: &Ask<'_>) -> Result<(), NoMemory>
    requires moment { client.old.moment ≤ notes.old.world.moment }
    requires few { length notes.old.world.asks.items < 2 ^ 32 }
    ensures ok { OnOk result (ClientPlays (asks_next (asking_of ask.now)) client.old client.new notes.old notes.new) }
    ensures fault { OnErr result (ClientPlaysAtMost (asks_next (asking_of ask.now)) client.old client.new notes.old) }
    ensures goes_on { OnOk result (ClientGoesOn client.new notes.old notes.new) }
{
    if !may_ask(ask) {
        return Ok(());
    }
    let mut room = [0; LONGEST_MESSAGE];
    match client.request(notes.world.moment, SERVIENT, ask, &mut room) {
        Ok(size) => notes.asked(registers(ask.observe), &room[..size]),
        Err(_) => Ok(()),
    }
}

/// Whether this may be asked: a code of class 0 that isn't 0.00, segments of at most 255 bytes, and blocks that an
/// option can say.
#[tactic(auto, using(crate::proofs::ClientLaws::may_be_asked))]
fn may_ask(ask: &Ask<'_>) -> bool
    ensures { IsTrue result ↔ MayAsk (asking_of ask.now) }
{
    ask.code != 0
        && ask.code < 32
        && can_be_said(ask.block1)
        && can_be_said(ask.block2)
        && has_short_segments(ask.path)
}

/// Whether an option can say this block, if there is one: its number has 20 bits, and its size is one of the seven
/// there are (RFC 7959, section 2.2).
#[tactic(auto, using(crate::proofs::ClientLaws::can_be_said))]
fn can_be_said(block: Option<Block>) -> bool
    ensures { IsTrue result ↔ IfSome block IsBlock }
{
    match block {
        Some(block) => block.number < 1 << 20 && block.szx <= 6,
        None => true,
    }
}

ghost use Rattle.std.specs.Prelude.{All};

/// Whether each segment has at most 255 bytes.
fn has_short_segments(path: &Segments) -> bool
    ensures { IsTrue result ↔ All (λ segment. length segment ≤ LONGEST_SEGMENT) path.now }
{
    for index in 0..path.len() {
        match path.get(index) {
            Some(segment) => {
                if segment.len() > LONGEST_SEGMENT {
                    return false;
                }
            }
            None => return false,
        }
    }
    true
}

ghost use Rattle.coap_client.specs.Exchange.{is_registration};

/// Whether an ask registers.
fn registers(observe: Option<bool>) -> bool
    ensures { result ≡ is_registration observe }
{
    match observe {
        Some(register) => register,
        None => false,
    }
}

/// The client does the work that is due.
pub fn do_due(client: &mut Client, notes: &mut Notes) -> Result<(), NoMemory>
    requires moment { client.old.moment ≤ notes.old.world.moment }
    requires few { length notes.old.world.asks.items < 2 ^ 32 }
    ensures ok { OnOk result (ClientPlays does_due client.old client.new notes.old notes.new) }
    ensures fault { OnErr result (ClientPlaysAtMost does_due client.old client.new notes.old) }
    ensures goes_on { OnOk result (ClientGoesOn client.new notes.old notes.new) }
{
    let mut room = [0; LONGEST_MESSAGE];
    match client.due(notes.world.moment, &mut room) {
        Due::Send(size) => notes.sent(CLIENT, SERVIENT, &room[..size]),
        Due::TimedOut => notes.ended(End::TimedOut),
        Due::Nothing => Ok(()),
    }
}
