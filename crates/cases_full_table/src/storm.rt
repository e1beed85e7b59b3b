//! A full table under a storm of requests.

ghost use Rattle.std.specs.Prelude.{◌≤◌};

use coap_exchange::{Exchanges, Met};
use coap_msg::{Endpoint, Type4};
use std::test::Fail;

/// The number of message IDs.
const IDS: u32 = 65_536;

/// The number of hosts that send besides the first one.
const OTHERS: u32 = 61;

/// The verdicts on the requests of a host.
#[derive(Clone, Copy, Debug, PartialEq, Eq)]
struct Counts {
    fresh: u32,
    full: u32,
}

/// Lets a host send a Confirmable request with each message ID, all at the moment 0, and counts the verdicts.
fn send_all(exchanges: &mut Exchanges, host: u32) -> Counts
    requires { exchanges.old.moment ≤ 0 }
    ensures { exchanges.new.moment ≤ 0 }
{
    let from = Endpoint {
        host: host as u128,
        port: 5683,
    };
    let mut counts = Counts { fresh: 0, full: 0 };
    for id in 0..IDS {
        match exchanges.meet(from, id as u16, Type4::Con, 0) {
            Met::Fresh(_) => counts.fresh = counts.fresh.saturating_add(1),
            Met::Full => counts.full = counts.full.saturating_add(1),
            Met::Repeat(_) => {}
        }
    }
    counts
}

/// Counts the verdicts on the requests of the other hosts.
fn send_from_others(exchanges: &mut Exchanges) -> Counts
    requires { exchanges.old.moment ≤ 0 }
{
    let mut counts = Counts { fresh: 0, full: 0 };
    for host in 1..=OTHERS {
        let more = send_all(exchanges, host);
        counts.fresh = counts.fresh.saturating_add(more.fresh);
        counts.full = counts.full.saturating_add(more.full);
    }
    counts
}

#[test]
fn full_refuses_all_others(rt: HostRuntime) -> Result<(), Fail> {
    let mut exchanges = Exchanges::new(rt.alloc(), IDS)?;
    let first = send_all(&mut exchanges, 0);
    assert_eq!(rt;
        first,
        Counts {
            fresh: IDS,
            full: 0
        }
    );
    let others = send_from_others(&mut exchanges);
    assert_eq!(rt;
        others,
        Counts {
            fresh: 0,
            full: OTHERS * IDS
        }
    );
    Ok(())
}
