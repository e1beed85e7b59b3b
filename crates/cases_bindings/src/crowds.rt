//! Steps of the CoAP server that are many: `hosts N TARGET`, a GET with Observe 0 for a target from each of the first N
//! hosts; `all MOMENT`, all notifications to be sent at a moment; and `rounds N TARGET`, N values of a target, each
//! sent to host 1 and acknowledged.

ghost use Rattle.std.specs.Prelude.{◌≡◌, ◌≤◌};

use crate::datagrams::{LONGEST_BODY, put_sent};
use crate::ids::next_id;
use crate::observers::target_of;
use cases_notation::number;
use coap_bind::{CoapBind, CoapNext};
use coap_msg::{Endpoint, LONGEST_MESSAGE};
use std::alloc::AllocError;
use std::fmt::Write;
use thing_ops::Outcome;

/// A Confirmable GET with the message ID 1, the token aa and Observe 0.
const REGISTRATION: [u8; 6] = [0x41, 1, 0, 1, 0xaa, 0x60];

/// Whether a step is one of these.
pub fn is_step(step: &str) -> bool {
    step.starts_with("hosts ") || step.starts_with("all ") || step.starts_with("rounds ")
}

/// Whether the answer to a registration from a host has Observe 0.
fn registers(server: &mut CoapBind, host: u64, target: u32, now: u64) -> bool
    requires { server.old.exchanges.moment ≤ now }
    ensures { server.new.exchanges.moment ≤ now }
{
    let from = Endpoint {
        host: u128::from(host),
        port: 5683,
    };
    let mut room = [0u8; LONGEST_MESSAGE];
    let mut body = [0u8; LONGEST_BODY];
    match server.datagram(from, &REGISTRATION, now, &mut room, &mut body) {
        CoapNext::Nothing => false,
        CoapNext::Send(_) => false,
        CoapNext::Ask(_, ticket) => {
            let size = server.answer(ticket, &Outcome::Empty, Some(target), &mut room);
            size == 6 && room[5] == 0x60
        }
    }
}

/// The number of the first N hosts that register.
fn count_registered(server: &mut CoapBind, hosts: u64, target: u32, now: u64) -> u64
    requires { server.old.exchanges.moment ≤ now }
    ensures { server.new.exchanges.moment ≤ now }
{
    let mut count: u64 = 0;
    for host in 0..hosts {
        if registers(server, host.saturating_add(1), target, now) {
            count = count.saturating_add(1);
        }
    }
    count
}

/// Writes the notifications at a moment: the number of messages, their hosts, and their IDs.
fn put_all(text: &mut String, server: &mut CoapBind, now: u64) -> Result<(), AllocError>
    ensures { server.new.exchanges ≡ server.old.exchanges }
{
    let mut count: u64 = 0;
    let mut last = Endpoint { host: 0, port: 0 };
    let mut id: u16 = 0;
    for _turn in 0..2000 {
        if let Some(notice) = server.next_send(now) {
            count = count.saturating_add(1);
            last = notice.to;
            id = notice.id;
        }
    }
    write!(
        text,
        "{count} sent, the last to host{} with the ID {id}",
        last.host
    )
}

/// Sends N values of a target to host 1, which acknowledges each, and writes the last message.
fn put_rounds(
    text: &mut String,
    server: &mut CoapBind,
    times: u64,
    target: u32,
    now: u64,
) -> Result<(), AllocError>
    requires { server.old.exchanges.moment ≤ now }
    ensures { server.new.exchanges.moment ≤ now }
{
    let mut room = [0u8; LONGEST_MESSAGE];
    let mut size: usize = 0;
    for _time in 0..times {
        server.emit(target);
        if let Some(notice) = server.next_send(now) {
            size = server.put_notice(&notice, b"7", &mut room);
            let [high, low] = notice.id.to_be_bytes();
            let _reply = next_id(server, &[0x60, 0, high, low], now);
        }
    }
    put_sent(text, room.get(..size).unwrap_or(b""))
}

/// Does a step, and writes its result.
pub fn put(text: &mut String, server: &mut CoapBind, step: &str, now: u64) -> Result<(), AllocError>
    requires { server.old.exchanges.moment ≤ now }
    ensures { server.new.exchanges.moment ≤ now }
{
    let mut words = step.split(' ');
    let word = words.next().unwrap_or("");
    let first = number(words.next());
    let target = target_of(words.next());
    match word {
        "all" => put_all(text, server, first),
        "rounds" => put_rounds(text, server, first, target, now),
        _ => write!(
            text,
            "{} register",
            count_registered(server, first, target, now)
        ),
    }
}
