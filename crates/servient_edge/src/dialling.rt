//! A connection that is opened from here, and the wait until it is there.

use coap_msg::Endpoint;
use servient_base::ConnectionId;
use servient_system::{Refusal, System};

// The milliseconds that a peer has to answer.
const LIMIT: u64 = 10_000;

const NANOSECONDS: u64 = 1_000_000;

// The system may return early, but not without end.
const ASKS: u32 = 1024;

// The connection isn't there in time (ETIMEDOUT).
const TIMED_OUT: i32 = 110;

/// Connects to an address under a number that is free, and waits until the connection is there. After a refusal the
/// number is free again.
pub fn connect<S: System>(
    system: &mut S,
    c: ConnectionId,
    address: Endpoint,
) -> Result<(), Refusal> {
    let connected = open(system, c, address);
    if connected.is_err() {
        system.give_up(c);
    }
    connected
}

fn open<S: System>(system: &mut S, c: ConnectionId, address: Endpoint) -> Result<(), Refusal> {
    system.dial(c, address)?;
    wait(system)?;
    system.connected(c)?;
    system.attach(c)
}

/// Waits until something is reported.
fn wait<S: System>(system: &mut S) -> Result<(), Refusal> {
    let start = system.now()?;
    for _ in 0..ASKS {
        let passed = system.now()?.saturating_sub(start) / NANOSECONDS;
        if passed >= LIMIT {
            break;
        }
        if system.poll_dialled(LIMIT - passed)? {
            return Ok(());
        }
    }
    Err(Refusal::Failed(TIMED_OUT))
}
