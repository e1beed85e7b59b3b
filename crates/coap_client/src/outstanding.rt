//! The request that is unanswered, and the times of its retransmissions.

ghost use Rattle.std.specs.Prelude.{◌≡◌, ◌≤◌, ◌<◌};
ghost use Rattle.coap_client.specs.Times.{retransmissions_within};

use coap_msg::{BoundedBytes, Endpoint, LONGEST_MESSAGE, first_timeout, is_same_endpoint};

/// A request that is unanswered.
#[derive(Drop)]
pub struct Outstanding {
    /// The server.
    pub peer: Endpoint,
    /// The message ID.
    pub id: u16,
    /// The token.
    pub token: [u8; 8],
    /// The moment at which the message was sent first, in milliseconds.
    pub first: u64,
    /// The number of moments for a retransmission that have come and were seen to. Fewer may have been sent, since a
    /// late call sends one for several.
    pub reached: u8,
    /// Whether an empty acknowledgement came for it.
    pub is_acknowledged: bool,
    /// Whether it is the registration of the observation.
    pub registers: bool,
    /// The message, copied when it is sent, because a retransmission is then the same bytes by its clause.
    pub sent: BoundedBytes<LONGEST_MESSAGE>,
}

/// The time after its first sending at which a request that was acknowledged is given up, in milliseconds.
const PATIENCE: u64 = 100_000;

/// All timeouts together, in first ones, as each is twice the one before (RFC 7252, section 4.2).
const ALL_TIMEOUTS: u64 = 31;

impl Outstanding {
    ghost use Rattle.std.specs.Prelude.{◌≡◌, Some};
    ghost use Rattle.coap_client.specs.Times.{deadline, retransmissions_by};
    ghost use Rattle.coap_client.specs.Answers.{is_for_request, is_request_id, is_from_server};

    /// The time after its first sending at which it is given up, in milliseconds.
    pub fn deadline(&self) -> u64
        ensures { result ≡ deadline self.now }
    {
        if self.is_acknowledged {
            PATIENCE
        } else {
            ALL_TIMEOUTS * first_timeout(self.id)
        }
    }

    /// The number of its moments for a retransmission that have come so long after its first sending.
    pub fn retransmissions_by(&self, age: u64) -> u8
        ensures { result ≡ retransmissions_by self.now age }
    {
        if self.is_acknowledged {
            0
        } else {
            retransmissions_within(first_timeout(self.id), age)
        }
    }

    /// Whether a response from this endpoint with this token belongs to it.
    pub fn is_of(&self, from: Endpoint, token: &[u8]) -> bool
        ensures { result ≡ is_for_request (Some self.now) from token.now }
    {
        is_same_endpoint(from, self.peer) && token == self.token.as_slice()
    }

    /// Whether a message from this endpoint with this ID, an acknowledgement or a Reset, is of it.
    pub fn is_named(&self, from: Endpoint, id: u16) -> bool
        ensures { result ≡ is_from_server (Some self.now) from id }
    {
        is_same_endpoint(from, self.peer) && id == self.id
    }
}

/// The number of moments for a retransmission that have come so long after the first sending. The one with number n
/// comes after 2^n - 1 first timeouts, as each timeout is twice the one before (RFC 7252, section 4.2).
fn retransmissions_within(timeout: u64, age: u64) -> u8
    requires { timeout ≤ 3000 }
    ensures { result ≡ retransmissions_within timeout age }
{
    if age < timeout {
        0
    } else if age < 3 * timeout {
        1
    } else if age < 7 * timeout {
        2
    } else if age < 15 * timeout {
        3
    } else {
        4
    }
}
