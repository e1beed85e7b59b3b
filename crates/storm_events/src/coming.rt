//! One event: a datagram or none.

ghost use Rattle.std.specs.Prelude.{◌≡◌};
ghost use Rattle.storm_events.specs.Storm.{again as comes_again, coming_by as comes_by};

use crate::choice::Choice;
use crate::datagram::{Asks, Datagram};
use crate::datagrams::Datagrams;
use crate::generator::{drawn, number_after};
use coap_msg::Endpoint;

/// The number of statuses that are written: the lamp takes 0 to 100, and refuses the others.
const STATUSES: u64 = 128;

/// One event.
#[derive(Clone, Copy, Debug, PartialEq, Eq)]
pub struct Coming {
    /// The number to which the generator has come.
    pub number: u64,
    /// The datagram, or none where time goes by.
    pub datagram: Option<Datagram>,
}

/// The event of a choice, where the generator is at this number; a new request has this message ID and comes from this
/// endpoint.
pub fn coming_by(choice: Choice, number: u64, id: u16, from: Endpoint, so_far: &Datagrams) -> Coming
    ensures { result ≡ comes_by choice number id from so_far.now }
{
    match choice {
        Choice::Get => request(number, id, from, Asks::ConfirmableGet),
        Choice::Put => {
            let number = number_after(number);
            let status = drawn(number) % STATUSES;
            request(number, id, from, Asks::ConfirmablePut(status))
        }
        Choice::GetOnce => request(number, id, from, Asks::NonConfirmableGet),
        Choice::Repeat => again(number, so_far),
        Choice::Tick => Coming {
            number,
            datagram: None,
        },
    }
}

/// A new request comes.
fn request(number: u64, id: u16, from: Endpoint, asks: Asks) -> Coming
    ensures { result ≡ record { number = number; datagram = Some (record { from = from; id = id; asks = asks }) } }
{
    Coming {
        number,
        datagram: Some(Datagram { from, id, asks }),
    }
}

/// A datagram that came before comes again. Where none came yet, nothing is drawn.
fn again(number: u64, so_far: &Datagrams) -> Coming
    ensures { result ≡ comes_again number so_far.now }
{
    let count = so_far.len();
    if count == 0 {
        return Coming {
            number,
            datagram: None,
        };
    }
    let number = number_after(number);
    Coming {
        number,
        datagram: so_far.get((drawn(number) % count as u64) as usize),
    }
}
