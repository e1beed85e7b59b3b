//! The notification of an observer that nothing acknowledged yet.

use coap_msg::{MOST_RETRANSMISSIONS, first_timeout};
use std::marker::Model;

/// A notification that was sent and isn't acknowledged (RFC 7252, section 4.2). Contracts see a `Sent`. A type of its
/// own, so that no loop has to carry the bound of the timeout.
#[derive(Drop)]
pub struct Notification {
    id: u16,
    retransmissions: u8,
    timeout: u64,
    last: u64,
}

impl Model for Notification {
    ghost use Rattle.std.specs.Prelude.{◌≤◌, ◌<◌, ◌*◌, ◌^◌};
    ghost use Rattle.coap_observe.specs.Sending.{Sent};

    ghost Value = { Sent };

    ghost view = { λ n. record { id = n.id; retransmissions = n.retransmissions; timeout = n.timeout; last = n.last } };

    // At most four retransmissions, so that the timeout can be doubled; and no timeout is over at once.
    ghost invariant = { λ n. record { few : n.retransmissions ≤ 4; some : 0 < n.timeout; bound : n.timeout ≤ 3000 * 2 ^ n.retransmissions } };
}

impl Notification {
    ghost use Rattle.std.specs.Prelude.{◌≡◌, ◌<◌, ℕ, false};
    ghost use Rattle.coap_observe.specs.Sending.{first_sent, sent_again, is_due, is_exhausted};

    /// A notification that is sent now for the first time.
    pub fn first(now: u64, id: u16) -> Self
        ensures sent { result ≡ first_sent now id }
        ensures waits { is_due now result ≡ false }
    {
        Notification {
            id,
            retransmissions: 0,
            timeout: first_timeout(id),
            last: now,
        }
    }

    /// The notification once it is sent again now, with this message ID: its timeout is twice as long.
    pub fn again(&self, now: u64, id: u16) -> Self
        requires { is_exhausted self.now ≡ false }
        ensures sent { result ≡ sent_again now id self.now }
        ensures waits { is_due now result ≡ false }
    {
        Notification {
            id,
            retransmissions: self.retransmissions + 1,
            timeout: 2 * self.timeout,
            last: now,
        }
    }

    /// Its message ID.
    pub fn id(&self) -> u16
        ensures { result ≡ self.now.id }
    {
        self.id
    }

    /// Whether its timeout is over.
    pub fn is_due(&self, now: u64) -> bool
        ensures { result ≡ is_due now self.now }
    {
        now.saturating_sub(self.last) >= self.timeout
    }

    /// A moment before which its timeout isn't over.
    pub fn due_from(&self) -> u64
        ensures { (now : ℕ) → now < result → is_due now self.now ≡ false }
    {
        self.last.saturating_add(self.timeout)
    }

    /// Whether it was sent again as often as it may be.
    pub fn is_exhausted(&self) -> bool
        ensures { result ≡ is_exhausted self.now }
    {
        self.retransmissions >= MOST_RETRANSMISSIONS
    }
}
