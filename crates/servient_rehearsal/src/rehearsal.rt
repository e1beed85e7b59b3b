//! Moves are played one after another.

ghost use Rattle.std.specs.Prelude.{◌≡◌, IfOk, OnErr, OnOk};
ghost use Rattle.thing_site.specs.Fits.{Fits};
ghost use Rattle.servient_rehearsal.specs.Moves.{AreShort};
ghost use Rattle.servient_rehearsal.specs.Noted.{noted_of, nothing_noted};
ghost use Rattle.servient_rehearsal.specs.Playing.{kept, PlaysMoves, PlaysSomeMoves};
ghost use Rattle.servient_rehearsal.specs.Rehearsal.{IsUnused, Rehearses, RehearsesSome};
ghost use Rattle.coap_client.specs.Exchange.{IsNew};

use crate::NoMemory;
use crate::moves::Moves;
use crate::notes::Notes;
use crate::playing::play;
use crate::world::World;
use coap_client::Client;
use servient_core::Servient;
use std::alloc::Global;
use thing_handler::Handlers;

/// Plays moves with a new servient and a new client, and gives the world after them. Out of memory leaves both ends as
/// the first part of the moves leaves them.
pub fn rehearse<R: Handlers>(
    alloc: Global,
    servient: &mut Servient,
    client: &mut Client,
    rack: &mut R,
    moves: &Moves,
) -> Result<World, NoMemory>
    requires fits { Fits servient.old.exposed.site (R.slots rack.old) }
    requires servient { IsUnused servient.old }
    requires client { IsNew client.old.next_id client.old }
    requires moves { AreShort moves.now.items }
    ensures ok { IfOk result (λ world. Rehearses servient.old.exposed.site moves.now.items servient.old servient.new client.old client.new
        (R.slots rack.old) (R.slots rack.new) world) }
    ensures fault { OnErr result (RehearsesSome servient.old.exposed.site moves.now.items servient.old servient.new client.old client.new
        (R.slots rack.old) (R.slots rack.new)) }
{
    let mut notes = Notes::new(alloc);
    play_all(servient, client, rack, &mut notes, moves)?;
    let Notes { world, .. } = notes;
    Ok(world)
}

/// Plays moves, of which nothing is noted yet. The notes are lent, since a function pays at each early exit for what it
/// owns.
fn play_all<R: Handlers>(
    servient: &mut Servient,
    client: &mut Client,
    rack: &mut R,
    notes: &mut Notes,
    moves: &Moves,
) -> Result<(), NoMemory>
    requires fits { Fits servient.old.exposed.site (R.slots rack.old) }
    requires noted { noted_of notes.old.world ≡ nothing_noted }
    requires client { client.old.moment ≡ 0 }
    requires moves { AreShort moves.now.items }
    ensures ok { OnOk result (PlaysMoves servient.old.exposed.site moves.now.items
        (kept servient.old client.old notes.old) (kept servient.new client.new notes.new) (R.slots rack.old) (R.slots rack.new)) }
    ensures fault { OnErr result (PlaysSomeMoves servient.old.exposed.site moves.now.items
        (kept servient.old client.old notes.old) (kept servient.new client.new notes.new) (R.slots rack.old) (R.slots rack.new)) }
{
    for index in 0..moves.len() {
        play(servient, client, rack, notes, &moves[index])?;
    }
    Ok(())
}
