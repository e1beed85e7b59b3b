//! One exchange as the code keeps it, and its lifetime.

ghost use Rattle.std.specs.Prelude.{◌≡◌};
ghost use Rattle.coap_exchange.specs.Slots.{age_list};

use coap_msg::{EXCHANGE_LIFETIME, Endpoint, NON_LIFETIME, RequestType};

/// A request that was admitted. It is kept in its slot.
#[derive(Clone, Copy)]
pub struct Entry {
    /// The moment at which it came, in milliseconds.
    pub moment: u64,
    /// The endpoint from which it came.
    pub from: Endpoint,
    /// Its message ID.
    pub id: u16,
    /// The type of its message.
    pub kind: RequestType,
}

impl Entry {
    ghost use Rattle.std.specs.Prelude.{◌≡◌, ◌==◌, ◌&&◌};
    ghost use Rattle.coap_exchange.specs.Admission.{lives};
    ghost use Rattle.coap_exchange.specs.Slots.{arrival_of};

    /// Whether less than its lifetime has passed.
    pub fn lives(&self, now: u64) -> bool
        ensures { result ≡ lives now (arrival_of self.now) }
    {
        // EXCHANGE_LIFETIME and NON_LIFETIME of RFC 7252, section 4.8.2.
        let lifetime = match self.kind {
            RequestType::Confirmable => EXCHANGE_LIFETIME,
            RequestType::NonConfirmable => NON_LIFETIME,
        };
        // Saturating, as the subtraction of the definition is.
        now.saturating_sub(self.moment) < lifetime
    }

    /// Whether it is the exchange of this endpoint and message ID.
    pub fn is_of(&self, from: Endpoint, id: u16) -> bool
        ensures { result ≡ (from.host == self.now.from.host && from.port == self.now.from.port && id == self.now.id) }
    {
        from.host == self.from.host && from.port == self.from.port && id == self.id
    }
}

/// The list, among those by kind, in which the exchanges of a kind are.
pub fn list_of(kind: RequestType) -> u32
    ensures { result ≡ age_list kind }
{
    match kind {
        RequestType::Confirmable => 1,
        RequestType::NonConfirmable => 2,
    }
}
