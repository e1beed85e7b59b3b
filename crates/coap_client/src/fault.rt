//! The faults for which an ask is refused.

use coap_msg::NoRoom;
use thiserror::Error;

/// The fault for which an ask is refused: the first of these that holds. `IsRefused` of specs/Exchange.antt says when
/// each does.
#[derive(Clone, Copy, Debug, PartialEq, Eq, Drop, Error)]
pub enum ClientFault {
    /// A request is unanswered (RFC 7252, section 4.7).
    #[error("a request is unanswered")]
    Busy,
    /// All message IDs were used in the last 400 seconds (RFC 7252, section 4.4).
    #[error("all message IDs are in use")]
    IdsUsed,
    /// The message would pass 1,152 bytes (RFC 7252, section 4.6).
    #[error("the message has more than 1152 bytes")]
    NoRoom,
}

impl From<NoRoom> for ClientFault {
    ghost use Rattle.std.specs.Prelude.{◌≡◌};
    ghost use Rattle.coap_client.specs.declared.fault.ClientFault.TheVariants.{NoRoom as no_room};

    // By hand, since this clause is to name the fault that `?` makes.
    ghost from_gives = { λ _ fault. fault ≡ no_room };

    fn from(_error: NoRoom) -> ClientFault {
        ClientFault::NoRoom
    }
}
