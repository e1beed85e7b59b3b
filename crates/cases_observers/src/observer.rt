//! One observer as the plain list keeps it.

ghost use Rattle.std.specs.Prelude.{◌≤◌, length};

use coap_msg::{
    BoundedBytes, Endpoint, LONGEST_TOKEN, MOST_RETRANSMISSIONS, first_timeout, is_same_endpoint,
};
use coap_observe::Notice;

/// The number of sequence numbers (RFC 7641, section 3.4).
const SEQUENCES: u32 = 1 << 24;

/// A notification that was sent and isn't acknowledged (RFC 7252, section 4.2).
#[derive(Clone, Copy)]
pub struct Sent {
    /// Its message ID.
    pub id: u16,
    /// The number of times that it was sent again.
    pub retransmissions: u8,
    /// The time from the last sending to the next, in milliseconds.
    pub timeout: u64,
    /// The moment of the last sending.
    pub last: u64,
}

impl Sent {
    /// One that is sent now for the first time.
    pub fn first(now: u64, id: u16) -> Sent {
        Sent {
            id,
            retransmissions: 0,
            timeout: first_timeout(id),
            last: now,
        }
    }

    /// The one after it, which is sent now with this message ID.
    pub fn again(&self, now: u64, id: u16) -> Sent {
        Sent {
            id,
            retransmissions: self.retransmissions.saturating_add(1),
            timeout: self.timeout.saturating_mul(2),
            last: now,
        }
    }

    /// Whether its timeout is over.
    pub fn is_due(&self, now: u64) -> bool {
        now.saturating_sub(self.last) >= self.timeout
    }
}

/// An observer of a target (RFC 7641, section 4.1).
#[derive(Drop)]
pub struct PlainObserver {
    /// The endpoint from which it registered.
    pub from: Endpoint,
    /// The token of its registration.
    pub token: BoundedBytes<LONGEST_TOKEN>,
    /// The target that it observes.
    pub target: u32,
    /// The last sequence number that was sent to it.
    pub sequence: u32,
    /// Whether its target has a value that wasn't sent to it yet.
    pub is_marked: bool,
    /// The notification that was sent to it and isn't acknowledged.
    pub sent: Option<Sent>,
}

impl PlainObserver {
    /// One that registers.
    pub fn new(from: Endpoint, token: &[u8], target: u32) -> PlainObserver
        requires { length token.now ≤ LONGEST_TOKEN }
    {
        PlainObserver {
            from,
            token: BoundedBytes::of(token),
            target,
            sequence: 0,
            is_marked: false,
            sent: None,
        }
    }

    /// The sequence number after the last one.
    pub fn sequence_after(&self) -> u32 {
        self.sequence.wrapping_add(1) % SEQUENCES
    }

    /// Whether it is of this endpoint.
    pub fn is_from(&self, from: Endpoint) -> bool {
        is_same_endpoint(from, self.from)
    }

    /// Whether it is the one of this endpoint and token.
    pub fn is_pair(&self, from: Endpoint, token: &[u8]) -> bool {
        self.is_from(from) && token == self.token.as_bytes()
    }

    /// Whether it is of this endpoint, and its notification with this message ID isn't acknowledged.
    pub fn is_sent_as(&self, from: Endpoint, id: u16) -> bool {
        match self.sent {
            Some(sent) => self.is_from(from) && id == sent.id,
            None => false,
        }
    }

    /// Whether it is of this endpoint, and its notification isn't acknowledged.
    pub fn is_busy(&self, from: Endpoint) -> bool {
        self.sent.is_some() && self.is_from(from)
    }

    /// Whether its notification is to be sent again, or given up.
    pub fn is_due(&self, now: u64) -> bool {
        match self.sent {
            Some(sent) => sent.is_due(now),
            None => false,
        }
    }

    /// Whether its notification was sent again as often as it may be.
    pub fn is_exhausted(&self) -> bool {
        match self.sent {
            Some(sent) => sent.retransmissions >= MOST_RETRANSMISSIONS,
            None => false,
        }
    }

    /// It registers anew.
    pub fn replace(&mut self, target: u32) {
        self.target = target;
        self.sequence = self.sequence_after();
        self.is_marked = false;
        self.sent = None;
    }

    /// A message with its last value, or the one that was sent before.
    pub fn notice(&self, id: u16, sequence: u32, fresh: bool) -> Notice {
        let token = self.token.as_bytes();
        let mut room = [0u8; LONGEST_TOKEN];
        room[..token.len()].copy_from_slice(token);
        Notice {
            to: self.from,
            token: room,
            token_length: token.len(),
            target: self.target,
            id,
            sequence,
            fresh,
        }
    }

    /// Its notification is sent again now, or a new message in place of it, where its target has a newer value.
    pub fn send_again(&mut self, sent: Sent, now: u64, id: u16) -> Notice {
        if self.is_marked {
            let notice = self.notice(id, self.sequence_after(), true);
            self.sequence = self.sequence_after();
            self.is_marked = false;
            self.sent = Some(sent.again(now, id));
            notice
        } else {
            let notice = self.notice(sent.id, self.sequence, false);
            self.sent = Some(sent.again(now, sent.id));
            notice
        }
    }

    /// The last value is sent to it now.
    pub fn send_first(&mut self, now: u64, id: u16) -> Notice {
        let notice = self.notice(id, self.sequence_after(), true);
        self.sequence = self.sequence_after();
        self.is_marked = false;
        self.sent = Some(Sent::first(now, id));
        notice
    }
}
