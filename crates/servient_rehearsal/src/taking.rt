//! A datagram comes to the client.

ghost use Rattle.std.specs.Prelude.{◌≡◌, ◌≤◌, ◌<◌, ◌^◌, ◌&&◌, not, is_some, length, OnErr, OnOk};
ghost use Rattle.servient_ends.specs.Ends.{delivers};
ghost use Rattle.servient_rehearsal.specs.Noted.{noted_of, with_news};
ghost use Rattle.servient_rehearsal.specs.Playing.{ClientPlays, ClientPlaysAtMost, ClientGoesOn, ComesToClient};

use crate::NoMemory;
use crate::notes::Notes;
use crate::world::{CLIENT, End};
use coap_client::{Client, News};
use coap_msg::LONGEST_MESSAGE;
use wot_json::Bytes;

/// The client takes the datagram of this number.
pub fn take_sent(client: &mut Client, notes: &mut Notes, index: usize) -> Result<(), NoMemory>
    requires moment { client.old.moment ≤ notes.old.world.moment }
    requires few { length notes.old.world.asks.items < 2 ^ 32 }
    requires there { ComesToClient index notes.old.world }
    ensures ok { OnOk result (ClientPlays (delivers index) client.old client.new notes.old notes.new) }
    ensures fault { OnErr result (ClientPlaysAtMost (delivers index) client.old client.new notes.old) }
    ensures goes_on { OnOk result (ClientGoesOn client.new notes.old notes.new) }
{
    let datagram = &notes.world.sent[index];
    let from = datagram.from;
    // A copy, since the notes are lent to the calls below.
    let bytes = Bytes::copy_of(notes.alloc, datagram.bytes.as_slice())?;
    let mut room = [0; LONGEST_MESSAGE];
    let was_outstanding = client.has_outstanding();
    let told = client.deliver(notes.world.moment, from, bytes.as_slice(), &mut room);
    let ends = has_ended(was_outstanding, client);
    note_news(notes, &told.news, ends)?;
    match told.reply {
        Some(size) => notes.sent(CLIENT, from, &room[..size]),
        None => Ok(()),
    }
}

/// Whether the request ended: it was outstanding, and isn't any more.
fn has_ended(was_outstanding: bool, client: &Client) -> bool
    ensures { result ≡ (was_outstanding && not (is_some client.now.outstanding)) }
{
    was_outstanding && !client.has_outstanding()
}

/// Notes news, which end the last ask or don't.
fn note_news(notes: &mut Notes, news: &News<'_>, ends: bool) -> Result<(), NoMemory>
    requires { length notes.old.world.asks.items < 2 ^ 32 }
    ensures noted { OnOk result (noted_of notes.new.world ≡ with_news news.now ends notes.old.registered (noted_of notes.old.world)) }
    ensures registered { notes.new.registered ≡ notes.old.registered }
{
    match *news {
        News::Answered(code, block, payload) => {
            if !ends {
                return Ok(());
            }
            let payload = Bytes::copy_of(notes.alloc, payload)?;
            notes.ended(End::Answered(code, block, payload))
        }
        News::Value(payload) => {
            if ends {
                notes.ended(End::Observed)?;
            }
            notes.took(payload)
        }
        News::Reset => {
            if !ends {
                return Ok(());
            }
            notes.ended(End::Reset)
        }
        News::Old | News::Nothing => Ok(()),
    }
}
