//! The observation of a client, and the order of its values.

use coap_msg::{Endpoint, is_same_endpoint};

/// An observation (RFC 7641, section 1.1).
#[derive(Clone, Copy, Drop)]
pub struct Observation {
    /// The server.
    pub peer: Endpoint,
    /// The token of the registration.
    pub token: [u8; 8],
    /// The latest value that came, if one did.
    pub latest: Option<Latest>,
}

/// The arrival of a value.
#[derive(Clone, Copy, Drop)]
pub struct Latest {
    /// Its sequence number, the number that its Observe option says.
    pub sequence: u32,
    /// The moment at which it came, in milliseconds.
    pub moment: u64,
}

impl Observation {
    ghost use Rattle.std.specs.Prelude.{◌≡◌, Some};
    ghost use Rattle.coap_client.specs.Answers.{is_for_observation, is_newer};

    /// Whether a message from this endpoint with this token belongs to it.
    pub fn is_of(&self, from: Endpoint, token: &[u8]) -> bool
        ensures { result ≡ is_for_observation (Some self.now) from token.now }
    {
        is_same_endpoint(from, self.peer) && token == self.token.as_slice()
    }

    /// Whether a value with this sequence number that comes now is newer than the latest.
    pub fn is_newer(&self, now: u64, sequence: u32) -> bool
        ensures { result ≡ is_newer self.now.latest now sequence }
    {
        match self.latest {
            Some(latest) => is_newer_than(latest, now, sequence),
            None => true,
        }
    }
}

ghost use Rattle.std.specs.Prelude.{◌≡◌};
ghost use Rattle.coap_client.specs.Answers.{is_newer_than};

/// Half of the sequence numbers: those within this distance after a number are later than it (RFC 7641, section 3.4).
const HALF: u32 = 1 << 23;

/// The time within which values may be reordered in the network, in milliseconds (RFC 7641, section 3.4).
const REORDERED: u64 = 128_000;

/// Whether a value with this sequence number that comes now is newer than this one.
fn is_newer_than(latest: Latest, now: u64, sequence: u32) -> bool
    ensures { result ≡ is_newer_than latest now sequence }
{
    (latest.sequence < sequence && sequence - latest.sequence < HALF)
        || (sequence < latest.sequence && latest.sequence - sequence > HALF)
        || now.saturating_sub(latest.moment) > REORDERED
}
