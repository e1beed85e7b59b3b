//! Connections that are taken from the listener, and set up.

ghost use Rattle.std.specs.Prelude.{◌≤◌};

use servient_base::ConnectionId;
use servient_system::{Refusal, System};

// The listener is asked this many times in one turn.
const ASKS: u32 = 16;

// A protocol error of one connection (EPROTO).
const PROTOCOL_ERROR: i32 = 71;

/// The answer of the listener.
#[derive(Clone, Copy, Debug, PartialEq, Eq)]
pub enum Accepted {
    /// A connection has the number now.
    Connected,
    /// No connection waits, or none can be taken now. The listener is asked again when the system reports one, and at
    /// the next tick.
    Nothing,
    /// Connections failed, and others may wait behind them.
    More,
}

/// The next connection, set up to be reported under a number. One that failed before it was taken, or that can't be set
/// up, is a fault, and the next is taken. Any other refusal, as too many open files, is a fault that ends the turn, since
/// it would be the same for the next connection.
pub fn accept<S: System>(system: &mut S, c: ConnectionId, faults: &mut u64) -> Accepted
    ensures { faults.old ≤ faults.new }
{
    for _ in 0..ASKS {
        match system.accept(c) {
            Ok(()) => {
                if set_up(system, c) {
                    return Accepted::Connected;
                }
                *faults = faults.saturating_add(1);
            }
            Err(refusal) => {
                if refusal == Refusal::NotNow {
                    return Accepted::Nothing;
                }
                *faults = faults.saturating_add(1);
                if !is_of_one_connection(refusal) {
                    return Accepted::Nothing;
                }
            }
        }
    }
    Accepted::More
}

/// The connection failed before it was taken, and the listener is as it was.
fn is_of_one_connection(refusal: Refusal) -> bool {
    refusal == Refusal::Aborted || refusal == Refusal::Failed(PROTOCOL_ERROR)
}

/// Has a connection reported under its number, or gives it up.
fn set_up<S: System>(system: &mut S, c: ConnectionId) -> bool {
    match system.attach(c) {
        Ok(()) => true,
        Err(_) => {
            system.give_up(c);
            false
        }
    }
}
