//! One move is played by the real calls.

ghost use Rattle.std.specs.Prelude.{◌≡◌, ◌≤◌, ◌<◌, ◌+◌, ◌^◌, length, OnErr, OnOk};
ghost use Rattle.thing_site.specs.Fits.{Fits};
ghost use Rattle.servient_ends.specs.Ends.{delivers};
ghost use Rattle.servient_rehearsal.specs.Moves.{turn_of, passed_by, turn_besides};
ghost use Rattle.servient_rehearsal.specs.Playing.{PlaysTurn, PlaysTurnAtMost, ServientPlays, ServientPlaysAtMost, kept, GoesOn, NotesGoOn, IsReceiver, ComesToServient};

use crate::NoMemory;
use crate::asking::{ask_servient, do_due};
use crate::hearing::hear;
use crate::moves::{Move, is_from_an_end, is_given};
use crate::notes::Notes;
use crate::taking::take_sent;
use crate::world::{CLIENT, SERVIENT, World};
use coap_client::{Ask, Client};
use coap_msg::is_same_endpoint;
use servient_core::Servient;
use servient_outside::What;
use servient_world::MAX_LATENCY;
use thing_handler::Handlers;
use wot_json::Bytes;

/// The most bytes of a datagram that a network gives.
const LONGEST_GIVEN: usize = 2048;

/// Plays a move.
pub fn play<R: Handlers>(
    servient: &mut Servient,
    client: &mut Client,
    rack: &mut R,
    notes: &mut Notes,
    next: &Move,
) -> Result<(), NoMemory>
    requires fits { Fits servient.old.exposed.site (R.slots rack.old) }
    requires moment { notes.old.world.moment + passed_by next.now ≤ 10 ^ 15 }
    requires client { client.old.moment ≤ notes.old.world.moment }
    requires few { length notes.old.world.asks.items < 2 ^ 32 }
    ensures ok { OnOk result (PlaysTurn servient.old.exposed.site (turn_of next.now)
        (kept servient.old client.old notes.old) (kept servient.new client.new notes.new) (R.slots rack.old) (R.slots rack.new)) }
    ensures fault { OnErr result (PlaysTurnAtMost servient.old.exposed.site (turn_of next.now)
        (kept servient.old client.old notes.old) (kept servient.new client.new notes.new) (R.slots rack.old) (R.slots rack.new)) }
    ensures goes_on { OnOk result (GoesOn (passed_by next.now) client.new notes.old notes.new) }
    ensures site { servient.new.exposed.site ≡ servient.old.exposed.site }
    ensures fits { Fits servient.new.exposed.site (R.slots rack.new) }
{
    match next {
        Move::Ask {
            code,
            path,
            observe,
            format,
            block1,
            block2,
            payload,
        } => {
            let ask = Ask {
                code: *code,
                path,
                observe: *observe,
                format: *format,
                block1: *block1,
                block2: *block2,
                payload: payload.as_slice(),
            };
            ask_servient(client, notes, &ask)
        }
        Move::Due => do_due(client, notes),
        Move::Deliver(index) => deliver(servient, client, rack, notes, *index as usize),
        Move::Pass(time) => {
            notes.world.moment += *time;
            Ok(())
        }
        Move::Other(what, bytes) => happen(servient, rack, notes, *what, bytes.as_slice()),
    }
}

/// The receiver of a datagram.
enum Receiver {
    /// Nobody: there is none of its number, or it was sent too long ago or to elsewhere.
    Nobody,
    Client,
    Servient,
}

/// The datagram of this number comes to where it was sent, if it may.
fn deliver<R: Handlers>(
    servient: &mut Servient,
    client: &mut Client,
    rack: &mut R,
    notes: &mut Notes,
    index: usize,
) -> Result<(), NoMemory>
    requires fits { Fits servient.old.exposed.site (R.slots rack.old) }
    requires moment { notes.old.world.moment ≤ 10 ^ 15 }
    requires client { client.old.moment ≤ notes.old.world.moment }
    requires few { length notes.old.world.asks.items < 2 ^ 32 }
    ensures ok { OnOk result (PlaysTurn servient.old.exposed.site (delivers index)
        (kept servient.old client.old notes.old) (kept servient.new client.new notes.new) (R.slots rack.old) (R.slots rack.new)) }
    ensures fault { OnErr result (PlaysTurnAtMost servient.old.exposed.site (delivers index)
        (kept servient.old client.old notes.old) (kept servient.new client.new notes.new) (R.slots rack.old) (R.slots rack.new)) }
    ensures goes_on { OnOk result (GoesOn 0 client.new notes.old notes.new) }
    ensures site { servient.new.exposed.site ≡ servient.old.exposed.site }
    ensures fits { Fits servient.new.exposed.site (R.slots rack.new) }
{
    match receiver_of(&notes.world, index) {
        Receiver::Nobody => Ok(()),
        Receiver::Client => take_sent(client, notes, index),
        Receiver::Servient => hear_sent(servient, rack, notes, index),
    }
}

/// The receiver of the datagram of this number now.
fn receiver_of(world: &World, index: usize) -> Receiver
    ensures { IsReceiver index world.now result }
{
    if index >= world.sent.len() {
        return Receiver::Nobody;
    }
    let datagram = &world.sent[index];
    if world.moment.saturating_sub(datagram.moment) > MAX_LATENCY {
        return Receiver::Nobody;
    }
    if is_same_endpoint(datagram.to, CLIENT) {
        return Receiver::Client;
    }
    if is_same_endpoint(datagram.to, SERVIENT) {
        return Receiver::Servient;
    }
    Receiver::Nobody
}

/// The servient hears the datagram of this number. Of a longer one the network gives the first 2,048 bytes.
fn hear_sent<R: Handlers>(
    servient: &mut Servient,
    rack: &mut R,
    notes: &mut Notes,
    index: usize,
) -> Result<(), NoMemory>
    requires fits { Fits servient.old.exposed.site (R.slots rack.old) }
    requires moment { notes.old.world.moment ≤ 10 ^ 15 }
    requires there { ComesToServient index notes.old.world }
    ensures ok { OnOk result (ServientPlays servient.old.exposed.site (delivers index) servient.old servient.new notes.old notes.new (R.slots rack.old) (R.slots rack.new)) }
    ensures fault { OnErr result (ServientPlaysAtMost servient.old.exposed.site (delivers index) servient.old servient.new notes.old (R.slots rack.old) (R.slots rack.new)) }
    ensures goes_on { OnOk result (NotesGoOn notes.old notes.new) }
    ensures site { servient.new.exposed.site ≡ servient.old.exposed.site }
    ensures fits { Fits servient.new.exposed.site (R.slots rack.new) }
{
    let datagram = &notes.world.sent[index];
    let from = datagram.from;
    let bytes = datagram.bytes.as_slice();
    let size = bytes.len().min(LONGEST_GIVEN);
    // A copy, since the notes are lent to the call below.
    let bytes = Bytes::copy_of(notes.alloc, &bytes[..size])?;
    hear(
        servient,
        rack,
        notes,
        What::Datagram(from, size),
        bytes.as_slice(),
    )
}

/// This comes to the servient besides, if it may.
fn happen<R: Handlers>(
    servient: &mut Servient,
    rack: &mut R,
    notes: &mut Notes,
    what: What,
    bytes: &[u8],
) -> Result<(), NoMemory>
    requires fits { Fits servient.old.exposed.site (R.slots rack.old) }
    requires moment { notes.old.world.moment ≤ 10 ^ 15 }
    ensures ok { OnOk result (ServientPlays servient.old.exposed.site (turn_besides what bytes.now) servient.old servient.new notes.old notes.new (R.slots rack.old) (R.slots rack.new)) }
    ensures fault { OnErr result (ServientPlaysAtMost servient.old.exposed.site (turn_besides what bytes.now) servient.old servient.new notes.old (R.slots rack.old) (R.slots rack.new)) }
    ensures goes_on { OnOk result (NotesGoOn notes.old notes.new) }
    ensures site { servient.new.exposed.site ≡ servient.old.exposed.site }
    ensures fits { Fits servient.new.exposed.site (R.slots rack.new) }
{
    if !is_given(&what, bytes) {
        return Ok(());
    }
    if is_from_an_end(&what) {
        return Ok(());
    }
    hear(servient, rack, notes, what, bytes)
}
