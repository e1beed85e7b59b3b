//! One exchange as the plain list keeps it.

ghost use Rattle.std.specs.Prelude.{◌≡◌};
ghost use Rattle.coap_exchange.specs.Admission.{lifetime};

use coap_msg::{Endpoint, RequestType};

/// A request that was admitted, and the slot of its reply.
#[derive(Clone, Copy)]
pub struct Entry {
    /// The moment at which it came, in milliseconds.
    pub moment: u64,
    /// The endpoint from which it came.
    pub from: Endpoint,
    /// Its message ID.
    pub id: u16,
    /// The type of its message.
    pub kind: RequestType,
    /// The slot of its reply.
    pub slot: u32,
}

impl Entry {
    ghost use Rattle.std.specs.Prelude.{◌≡◌, ◌==◌, ◌&&◌};
    ghost use Rattle.coap_exchange.specs.Admission.{lives};
    ghost use Rattle.cases_exchanges.specs.Plain.{arrival_of};

    /// Whether less than its lifetime has passed.
    pub fn lives(&self, now: u64) -> bool
        ensures { result ≡ lives now (arrival_of self.now) }
    {
        now.saturating_sub(self.moment) < lifetime_of(self.kind)
    }

    /// Whether it is the exchange of this endpoint and message ID.
    pub fn is_of(&self, from: Endpoint, id: u16) -> bool
        ensures { result ≡ (from.host == self.now.from.host && from.port == self.now.from.port && id == self.now.id) }
    {
        from.host == self.from.host && from.port == self.from.port && id == self.id
    }
}

/// The time for which the message ID of a request may be in use, in milliseconds (RFC 7252, section 4.8.2).
fn lifetime_of(kind: RequestType) -> u64
    ensures { result ≡ lifetime kind }
{
    match kind {
        RequestType::Confirmable => 247_000,
        RequestType::NonConfirmable => 145_000,
    }
}
