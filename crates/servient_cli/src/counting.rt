//! The counts of a storm, and the line that says them.

ghost use Rattle.std.specs.Prelude.{◌≡◌, length, IfOk};
ghost use Rattle.std.specs.List.{filter};
ghost use Rattle.servient_cli.specs.Counting.{came, is_datagram as is_datagram_what, is_sent as is_sent_act, is_unavailable as is_unavailable_act, storm_line, turns_kept as turns_kept_in};

use coap_msg::SERVICE_UNAVAILABLE;
use command_stages::Ending;
use servient_outside::{Act, Events, What};
use servient_script::put_number;
use std::alloc::Global;
use thing_handler::Handlers;
use wot_json::{Bytes, NoMemory};

/// The counts of a run.
#[derive(Clone, Copy, Debug, PartialEq, Eq)]
pub struct Counts {
    /// The datagrams that came.
    pub datagrams: usize,
    /// Those that were sent.
    pub sent: usize,
    /// Those of them that say that the server is too busy.
    pub full: usize,
    /// The turns of all handlers.
    pub turns: u128,
}

/// The number of datagrams among some events.
pub fn datagram_count(events: &Events) -> usize
    ensures { result ≡ length (came events.now) }
{
    let mut count = 0;
    // A loop by places, since `Events` has no iterator.
    for place in 0..events.len() {
        count += usize::from(is_datagram(&events.at(place).event.what));
    }
    count
}

/// A datagram came.
fn is_datagram(what: &What) -> bool
    ensures { result ≡ is_datagram_what what.now }
{
    match what {
        What::Datagram(_, _) => true,
        What::Opened(_) | What::Bytes(_, _) | What::Ended(_) | What::Tick | What::Stop => false,
    }
}

/// The number of datagrams that were sent.
pub fn sent_count(acts: &[Act]) -> usize
    ensures { result ≡ length (filter is_sent_act acts.now) }
{
    acts.iter().filter(|act| is_sent(act)).count()
}

/// A datagram was sent.
fn is_sent(act: &Act) -> bool
    ensures { result ≡ is_sent_act act.now }
{
    match act {
        Act::Datagram(_, _) => true,
        Act::Sent(_, _)
        | Act::Closed(_)
        | Act::Listened(_)
        | Act::Dialled(_, _, _)
        | Act::Looked(_, _, _) => false,
    }
}

/// The number of datagrams that were sent and say that the server is too busy.
pub fn unavailable_count(acts: &[Act]) -> usize
    ensures { result ≡ length (filter is_unavailable_act acts.now) }
{
    acts.iter().filter(|act| is_unavailable(act)).count()
}

/// A datagram was sent that says that the server is too busy.
fn is_unavailable(act: &Act) -> bool
    ensures { result ≡ is_unavailable_act act.now }
{
    match act {
        Act::Datagram(_, bytes) => match bytes.as_slice().get(1) {
            Some(code) => *code == SERVICE_UNAVAILABLE,
            None => false,
        },
        Act::Sent(_, _)
        | Act::Closed(_)
        | Act::Listened(_)
        | Act::Dialled(_, _, _)
        | Act::Looked(_, _, _) => false,
    }
}

/// The number of turns that all handlers of a rack have kept, in 128 bits, since 64 could be too few.
pub fn turns_kept<R: Handlers>(rack: &R) -> u128
    ensures { result ≡ turns_kept_in (R.slots rack.now) }
{
    let mut total = 0;
    for slot in 0..rack.len() {
        total += rack.turns(slot).len() as u128;
    }
    total
}

/// The end of a storm with these counts.
pub fn counted(alloc: Global, counts: &Counts) -> Result<Ending, NoMemory>
    ensures { IfOk result (λ e. (e.status ≡ 0) × (e.text ≡ storm_line counts.now)) }
{
    let mut text = Bytes::copy_of(alloc, b"storm datagrams ")?;
    put_number(&mut text, counts.datagrams)?;
    text.extend(b" sent ")?;
    put_number(&mut text, counts.sent)?;
    text.extend(b" full ")?;
    put_number(&mut text, counts.full)?;
    text.extend(b" turns ")?;
    put_number(&mut text, counts.turns)?;
    text.extend(b"\n")?;
    Ok(Ending { status: 0, text })
}
