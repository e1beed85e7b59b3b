//! The message IDs of the CoAP server: a message comes from one host n times, each m milliseconds after the one before
//! it; and the IDs of the messages that are sent.

ghost use Rattle.std.specs.Prelude.{◌≤◌};

use crate::datagrams::LONGEST_BODY;
use cases_notation::{message_of, number};
use coap_bind::{CoapBind, CoapNext};
use coap_msg::{Endpoint, LONGEST_DATAGRAM, LONGEST_MESSAGE};
use std::alloc::{AllocError, Global};
use std::fmt::Write;
use thing_ops::Outcome;

/// The endpoint from which the messages come.
const FROM: Endpoint = Endpoint {
    host: 1,
    port: 5683,
};

/// The facts on the IDs so far.
#[derive(Clone, Copy)]
struct Ids {
    count: u64,
    first: u16,
    last: u16,
    in_order: bool,
}

/// The id of a message.
fn id_in(room: &[u8; LONGEST_MESSAGE]) -> u16 {
    let [_, _, high, low, ..] = room;
    u16::from(*high) * 256 + u16::from(*low)
}

/// The ID of the reply, if there is one; an ask is answered as absent.
pub fn next_id(server: &mut CoapBind, datagram: &[u8], now: u64) -> Option<u16>
    requires { server.old.exchanges.moment ≤ now }
    ensures { server.new.exchanges.moment ≤ now }
{
    let mut room = [0u8; LONGEST_MESSAGE];
    let mut body = [0u8; LONGEST_BODY];
    if datagram.len() > LONGEST_DATAGRAM {
        return None;
    }
    match server.datagram(FROM, datagram, now, &mut room, &mut body) {
        CoapNext::Nothing => None,
        CoapNext::Send(_) => Some(id_in(&room)),
        CoapNext::Ask(_, ticket) => {
            let _size = server.answer(ticket, &Outcome::NotFound, None, &mut room);
            Some(id_in(&room))
        }
    }
}

/// The facts once this ID was sent too.
fn with_id(ids: Ids, id: u16) -> Ids {
    if ids.count == 0 {
        return Ids {
            count: 1,
            first: id,
            last: id,
            in_order: true,
        };
    }
    Ids {
        count: ids.count.saturating_add(1),
        first: ids.first,
        last: id,
        in_order: ids.in_order && id == ids.last.wrapping_add(1),
    }
}

/// The IDs of the messages that are sent for n copies of a datagram.
fn ids_of(server: &mut CoapBind, datagram: &[u8], times: u64, distance: u64) -> Ids
    requires { server.old.exchanges.moment ≤ 0 }
{
    let mut ids = Ids {
        count: 0,
        first: 0,
        last: 0,
        in_order: true,
    };
    let mut now: u64 = 0;
    for time in 0..times {
        now = time.saturating_mul(distance).max(now);
        if let Some(id) = next_id(server, datagram, now) {
            ids = with_id(ids, id);
        }
    }
    ids
}

/// Writes the facts on the IDs.
fn put_ids(text: &mut String, ids: Ids) -> Result<(), AllocError> {
    let order = if ids.in_order { "each" } else { "not each" };
    write!(
        text,
        "{} replies, the first with the id {}, the last with {}, {order} one more than the one before it modulo 65536",
        ids.count, ids.first, ids.last
    )
}

/// Writes the IDs of the messages that a server of its own sends.
fn put_copies(
    text: &mut String,
    alloc: Global,
    datagram: &[u8],
    times: u64,
    distance: u64,
) -> Result<(), AllocError> {
    let mut server = CoapBind::new(alloc, 16, 1)?;
    put_ids(text, ids_of(&mut server, datagram, times, distance))
}

pub fn put(text: &mut String, alloc: Global, given: &str) -> Result<(), AllocError> {
    let mut words = given.splitn(4, ' ');
    let times = number(words.next());
    let _times_every = words.next();
    let distance = number(words.next());
    let message = message_of(alloc, words.next().unwrap_or("-"))?;
    put_copies(text, alloc, message.as_slice(), times, distance)
}
