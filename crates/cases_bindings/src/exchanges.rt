//! Exchanges of CoAP in a table in which 16 may live. A step is a request: its moment, its endpoint, `CON` or `NON`,
//! its message ID, and the reply to keep, `none` for none; and its verdict.

ghost use Rattle.std.specs.Prelude.{◌≡◌, ◌≤◌, ◌⊎◌};
ghost use Rattle.coap_exchange.specs.Table.{IsAwaited};
ghost use Rattle.coap_msg.specs.declared.message.Type4.TheVariants.{Con, Non};

use cases_notation::{bytes_of, endpoint_of, number, put_given, put_runs, put_words, small_number};
use coap_exchange::{Exchanges, Met};
use coap_msg::{Endpoint, LONGEST_MESSAGE, Type4};
use std::alloc::{AllocError, Global};

/// A request, and the reply to it.
#[derive(Clone, Copy)]
struct Arrival<'a> {
    moment: u64,
    from: Endpoint,
    kind: &'a str,
    id: u16,
    reply: &'a str,
}

/// The request of a step.
fn arrival_of(step: &str) -> Arrival<'_> {
    let mut fields = step.splitn(5, ' ');
    Arrival {
        moment: number(fields.next()),
        from: endpoint_of(fields.next().unwrap_or("")),
        kind: fields.next().unwrap_or(""),
        id: small_number(fields.next()),
        reply: fields.next().unwrap_or("none"),
    }
}

/// The type of a request.
fn request_type(kind: &str) -> Type4
    ensures { (result ≡ Con) ⊎ (result ≡ Non) }
{
    if kind == "CON" {
        Type4::Con
    } else {
        Type4::Non
    }
}

/// Keeps a reply, if there is one that may be kept.
fn keep(alloc: Global, exchanges: &mut Exchanges, slot: u32, reply: &str) -> Result<(), AllocError>
    requires { IsAwaited slot exchanges.old }
    ensures { exchanges.new.moment ≡ exchanges.old.moment }
{
    if reply == "none" {
        return Ok(());
    }
    let reply = bytes_of(alloc, reply)?;
    if reply.len() <= LONGEST_MESSAGE {
        exchanges.keep(slot, reply.as_slice());
    }
    Ok(())
}

/// Writes the verdict on a request at this moment.
fn put_met(
    text: &mut String,
    alloc: Global,
    exchanges: &mut Exchanges,
    arrival: Arrival<'_>,
    now: u64,
) -> Result<(), AllocError>
    requires { exchanges.old.moment ≤ now }
    ensures { exchanges.new.moment ≡ now }
{
    match exchanges.meet(arrival.from, arrival.id, request_type(arrival.kind), now) {
        Met::Fresh(slot) => {
            keep(alloc, exchanges, slot, arrival.reply)?;
            text.push_str("fresh")
        }
        Met::Repeat(None) => text.push_str("a duplicate without a reply"),
        Met::Repeat(Some(slot)) => {
            text.push_str("a duplicate of ")?;
            put_runs(text, exchanges.reply(slot))
        }
        Met::Full => text.push_str("full"),
    }
}

/// Writes a step and its verdict.
fn put_step(
    text: &mut String,
    alloc: Global,
    exchanges: &mut Exchanges,
    step: &str,
    now: u64,
) -> Result<(), AllocError>
    requires { exchanges.old.moment ≤ now }
    ensures { exchanges.new.moment ≤ now }
{
    put_given(text, step)?;
    put_met(text, alloc, exchanges, arrival_of(step), now)?;
    text.push_str("\n")
}

pub fn put(text: &mut String, alloc: Global, history: &str) -> Result<(), AllocError> {
    let mut exchanges = Exchanges::new(alloc, 16)?;
    let mut now = 0;
    for line in history.lines() {
        match line.split_once(" => ") {
            Some((step, _wanted)) => {
                now = arrival_of(step).moment.max(now);
                put_step(text, alloc, &mut exchanges, step, now)?;
            }
            None => put_words(text, line)?,
        }
    }
    Ok(())
}
