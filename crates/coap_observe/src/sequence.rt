//! Sequence numbers of notifications.

use std::marker::Model;

/// The number of sequence numbers: they have 24 bits (RFC 7641, section 3.4).
const SEQUENCES: u32 = 1 << 24;

/// A sequence number, the value of Observe in a response. Contracts see the number. A type of its own, so that no
/// clause or loop has to carry its bound.
#[derive(Drop)]
pub struct Sequence {
    number: u32,
}

impl Model for Sequence {
    ghost use Rattle.std.specs.Prelude.{◌<◌, ◌^◌, ℕ};

    ghost Value = { ℕ };

    ghost view = { λ s. s.number };

    ghost invariant = { λ s. s.number < 2 ^ 24 };
}

impl Sequence {
    ghost use Rattle.std.specs.Prelude.{◌≡◌, ◌<◌, ◌^◌};
    ghost use Rattle.coap_observe.specs.Watching.{next_sequence};

    /// That of a registration that is new.
    pub fn first() -> Self
        ensures { result ≡ 0 }
    {
        Sequence { number: 0 }
    }

    /// The one after it.
    pub fn next(&self) -> Self
        ensures { result ≡ next_sequence self.now }
    {
        Sequence {
            number: (self.number + 1) % SEQUENCES,
        }
    }

    /// The number.
    pub fn number(&self) -> u32
        ensures ok { result ≡ self.now }
        ensures bound { result < 2 ^ 24 }
    {
        self.number
    }
}
