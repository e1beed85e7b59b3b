//! The servient steps on an event, and the datagrams that it sends are noted.

ghost use Rattle.std.specs.Prelude.{◌≡◌, ◌≤◌, ◌++◌, ◌^◌, length, OnErr, OnOk};
ghost use Rattle.thing_site.specs.Fits.{Fits};
ghost use Rattle.servient_outside.specs.Network.{byte_count, MayCome};
ghost use Rattle.servient_ends.specs.Ends.{event_at, datagrams_of};
ghost use Rattle.servient_rehearsal.specs.Noted.{noted_of, with_datagrams};
ghost use Rattle.servient_rehearsal.specs.Playing.{datagrams_among, HearsAndNotes, HearsAtMost};

use crate::NoMemory;
use crate::notes::Notes;
use crate::world::SERVIENT;
use servient_core::Servient;
use servient_outside::{Act, Calls, Event, Events, NetMemory, What};
use std::alloc::AllocError;
use thing_handler::Handlers;

/// Hands an event to the servient, by one real call on a network in memory of its own, and notes the datagrams that it
/// sends.
pub fn hear<R: Handlers>(
    servient: &mut Servient,
    rack: &mut R,
    notes: &mut Notes,
    what: What,
    bytes: &[u8],
) -> Result<(), NoMemory>
    requires fits { Fits servient.old.exposed.site (R.slots rack.old) }
    requires moment { notes.old.world.moment ≤ 10 ^ 15 }
    requires what { MayCome what }
    requires bytes { length bytes.now ≡ byte_count what }
    ensures ok { OnOk result (HearsAndNotes servient.old.exposed.site (event_at notes.old.world.moment what bytes.now) servient.old servient.new
        (R.slots rack.old) (R.slots rack.new) (noted_of notes.old.world) (noted_of notes.new.world)) }
    ensures fault { OnErr result (HearsAtMost servient.old.exposed.site (event_at notes.old.world.moment what bytes.now) servient.old servient.new
        (R.slots rack.old) (R.slots rack.new)) }
    ensures registered { notes.new.registered ≡ notes.old.registered }
    ensures site { servient.new.exposed.site ≡ servient.old.exposed.site }
    ensures fits { Fits servient.new.exposed.site (R.slots rack.new) }
{
    let alloc = notes.alloc;
    let event = Event {
        moment: notes.world.moment,
        what,
    };
    let mut net = NetMemory::new(alloc, Events::new(alloc), Calls::new(alloc))?;
    servient.step(&mut net, rack, &event, bytes);
    if net.lost() != 0 {
        return Err(AllocError);
    }
    note_all(notes, net.acts())
}

/// Notes the datagrams among acts of the servient.
fn note_all(notes: &mut Notes, acts: &[Act]) -> Result<(), NoMemory>
    ensures noted { OnOk result (noted_of notes.new.world ≡ with_datagrams (datagrams_among acts.now) (noted_of notes.old.world)) }
    ensures registered { notes.new.registered ≡ notes.old.registered }
{
    for act in acts {
        note_act(notes, act)?;
    }
    Ok(())
}

/// Notes an act of the servient, if it is a datagram.
fn note_act(notes: &mut Notes, act: &Act) -> Result<(), NoMemory>
    ensures noted { OnOk result (noted_of notes.new.world ≡ with_datagrams (datagrams_of act.now) (noted_of notes.old.world)) }
    ensures registered { notes.new.registered ≡ notes.old.registered }
{
    match act {
        Act::Datagram(to, bytes) => notes.sent(SERVIENT, *to, bytes.as_slice()),
        Act::Sent(_, _)
        | Act::Closed(_)
        | Act::Listened(_)
        | Act::Dialled(_, _, _)
        | Act::Looked(_, _, _) => Ok(()),
    }
}
