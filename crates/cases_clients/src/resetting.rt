//! Many requests of a client, each answered by a reset.

ghost use Rattle.std.specs.Prelude.{◌≤◌};
ghost use Rattle.coap_client.specs.Asking.{MayAsk, asking_of};

use crate::asking::{ask_of, asked_of, path_of};
use cases_notation::number;
use coap_client::{Ask, Client, News};
use coap_msg::{Endpoint, LONGEST_MESSAGE};
use std::alloc::{AllocError, Global};
use std::fmt::Write;

/// The counts of the requests so far.
#[derive(Clone, Copy)]
struct Counts {
    sent: u64,
    reset: u64,
    first: u16,
    last: u16,
    in_order: bool,
}

/// Nothing was asked.
const NONE: Counts = Counts {
    sent: 0,
    reset: 0,
    first: 0,
    last: 0,
    in_order: true,
};

/// A request that was sent: its id, and whether the news of its reset came.
#[derive(Clone, Copy)]
struct Once {
    id: u16,
    is_reset: bool,
}

/// Asks, and brings the reset of what is sent.
fn ask_once(client: &mut Client, now: u64, peer: Endpoint, ask: &Ask<'_>) -> Option<Once>
    requires now { client.old.moment ≤ now }
    requires ask { MayAsk (asking_of ask.now) }
    ensures { client.new.moment ≤ now }
{
    let mut room = [0; LONGEST_MESSAGE];
    if client.request(now, peer, ask, &mut room).is_err() {
        return None;
    }
    let [_, _, high, low, ..] = room;
    let reset = [0x70, 0, high, low];
    let delivered = client.deliver(now, peer, &reset, &mut room);
    Some(Once {
        id: u16::from(high) * 256 + u16::from(low),
        is_reset: matches!(delivered.news, News::Reset),
    })
}

/// The counts after one more.
fn with_once(counts: Counts, once: Once) -> Counts {
    let is_first = counts.sent == 0;
    Counts {
        sent: counts.sent.saturating_add(1),
        reset: counts.reset.saturating_add(u64::from(once.is_reset)),
        first: if is_first { once.id } else { counts.first },
        last: once.id,
        in_order: counts.in_order && (is_first || once.id == counts.last.wrapping_add(1)),
    }
}

/// Asks n times.
fn counts_of(client: &mut Client, now: u64, peer: Endpoint, ask: &Ask<'_>, times: u64) -> Counts
    requires now { client.old.moment ≤ now }
    requires ask { MayAsk (asking_of ask.now) }
    ensures { client.new.moment ≤ now }
{
    let mut counts = NONE;
    for _time in 0..times {
        if let Some(once) = ask_once(client, now, peer, ask) {
            counts = with_once(counts, once);
        }
    }
    counts
}

/// Writes the counts of the requests.
fn put_counts(text: &mut String, counts: Counts) -> Result<(), AllocError> {
    let order = if counts.in_order { "each" } else { "not each" };
    write!(
        text,
        "{} sent, the first with the id {}, the last with {}, {order} one more than the one before it; {} reset",
        counts.sent, counts.first, counts.last, counts.reset
    )
}

pub fn put(
    text: &mut String,
    alloc: Global,
    client: &mut Client,
    words: &str,
    now: u64,
) -> Result<(), AllocError>
    requires { client.old.moment ≤ now }
    ensures { client.new.moment ≤ now }
{
    let (times, words) = words.split_once(' ').unwrap_or((words, ""));
    let asked = asked_of("request", words);
    let path = path_of(alloc, asked.path)?;
    let ask = ask_of(asked, &path, b"");
    let counts = counts_of(client, now, asked.peer, &ask, number(Some(times)));
    put_counts(text, counts)
}
