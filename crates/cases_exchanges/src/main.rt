//! Compares two tables of exchanges: `Exchanges` of `coap_exchange`, whose slots are linked, and a plain list with the
//! same contract. Both get the same requests and the same replies to keep, in tables in which 16 exchanges may live,
//! and the program prints the counts of verdicts. A verdict is a line, with the reply that was kept and without its
//! slot, since slots may differ; the lines of both have to be the same.
//!
//! The counts that it must print come from `tools/exchange-counts`, a third table in another language over the same
//! requests.
#![tactic(auto)]

mod counts;
mod entry;
mod plain;
mod requests;
mod told;

use coap_exchange::Exchanges;
use plain::PlainExchanges;
use requests::Draws;
use std::alloc::{AllocError, Global};
use std::io;

/// The number of requests that both tables get.
const REQUESTS: u32 = 8_000;

/// Hands the same requests to both tables, and writes their verdicts.
fn compare(linked: &mut String, plain: &mut String, alloc: Global) -> Result<(), AllocError> {
    let mut linked_table = Exchanges::new(alloc, 16)?;
    let mut plain_table = PlainExchanges::new(alloc, 16)?;
    let mut draws = Draws::new();
    let mut now: u64 = 0;
    for number in 0..REQUESTS {
        let request = draws.request(number);
        now = now.saturating_add(request.later).max(now);
        told::put_linked(linked, &mut linked_table, &request, now)?;
        told::put_plain(plain, &mut plain_table, &request, now)?;
    }
    Ok(())
}

fn main(rt: HostRuntime) -> io::Result<()> {
    let mut linked = String::new(rt.alloc());
    let mut plain = String::new(rt.alloc());
    compare(&mut linked, &mut plain, rt.alloc())?;
    let counts = counts::of(linked.as_str());
    println!(rt;
        "{} admitted, {} repeated with a reply, {} repeated without one, {} refused",
        counts.admitted, counts.answered, counts.unanswered, counts.refused,
    )?;
    let same = if linked == plain {
        "the same"
    } else {
        "something else"
    };
    println!(rt; "the plain list tells {same}")
}
