//! A CoAP message over the bytes that it was read from.

use crate::{Code, Options};
use thiserror::Error;

/// The byte between the options and the payload (RFC 7252, section 3).
pub const PAYLOAD_MARKER: u8 = 255;

/// The type of a message (RFC 7252, section 3).
#[derive(Clone, Copy, Debug, PartialEq, Eq)]
pub enum Type4 {
    /// Confirmable.
    Con,
    /// Non-confirmable.
    Non,
    /// Acknowledgement.
    Ack,
    /// Reset.
    Rst,
}

impl Type4 {
    ghost use Rattle.std.specs.Prelude.{◌≡◌, ◌<◌};
    ghost use Rattle.coap_msg.specs.Grammar.{type_bits};

    /// The type of these two bits.
    pub(crate) fn from_bits(bits: u8) -> Type4
        requires { bits < 4 }
        ensures { type_bits result ≡ bits }
    {
        match bits {
            0 => Type4::Con,
            1 => Type4::Non,
            2 => Type4::Ack,
            _ => Type4::Rst,
        }
    }

    /// The two bits of the type.
    pub(crate) fn bits(self) -> u8
        ensures ok { result ≡ type_bits self }
        ensures bound { result < 4 }
    {
        match self {
            Type4::Con => 0,
            Type4::Non => 1,
            Type4::Ack => 2,
            Type4::Rst => 3,
        }
    }
}

/// The type of the message of a request (RFC 7252, sections 4.2 and 4.3). An acknowledgement and a Reset are no
/// requests.
#[derive(Clone, Copy, Debug, PartialEq, Eq)]
pub enum RequestType {
    /// In a Confirmable message.
    Confirmable,
    /// In a Non-confirmable message.
    NonConfirmable,
}

impl RequestType {
    ghost use Rattle.std.specs.Prelude.{◌≡◌};
    ghost use Rattle.coap_msg.specs.Requests.{request_type};

    /// The type of a request in a message of this type. The last two count as Non-confirmable, because a caller has
    /// asked whether the message is a request.
    pub fn of(kind: Type4) -> RequestType
        ensures { result ≡ request_type kind }
    {
        match kind {
            Type4::Con => RequestType::Confirmable,
            Type4::Non | Type4::Ack | Type4::Rst => RequestType::NonConfirmable,
        }
    }
}

/// The fault of bytes that are no message (RFC 7252, section 3): the first of these that holds of them, where the
/// options are judged one after another. `HasMsgFault` of `specs/Faults.antt` says when each holds.
#[derive(Clone, Copy, Debug, PartialEq, Eq, Error)]
pub enum MsgFault {
    /// There are under 4 bytes.
    #[error("a message has 4 bytes or more")]
    Short,
    /// The version is not 1.
    #[error("the version is not 1")]
    Version,
    /// The token length is above 8, or the token passes the end.
    #[error("the token has more than 8 bytes or passes the end")]
    TokenLength,
    /// The code is 0.00, and something comes after the header (section 4.1).
    #[error("an Empty message has more than a header")]
    EmptyCode,
    /// The class is one of the reserved 1, 3, 6 and 7 (section 12.1).
    #[error("the class is reserved")]
    Class,
    /// An option's first byte is not the payload marker and has the reserved nibble 15 (section 3.1).
    #[error("an option has the reserved nibble 15")]
    Nibble,
    /// An option passes the end.
    #[error("an option passes the end")]
    OptionCut,
    /// An option's number is above 65,535.
    #[error("an option has a number above 65535")]
    OptionNumber,
    /// Nothing comes after the payload marker (section 3).
    #[error("no payload follows the payload marker")]
    NoPayload,
}

/// A message that was read; token, options and payload lie in the bytes that it was read from.
#[derive(Drop)]
pub struct Message<'a> {
    /// Whether it is confirmable, non-confirmable, an acknowledgement or a reset.
    pub kind: Type4,
    /// The code: class in the upper three bits, detail in the lower five.
    pub code: Code,
    /// The message ID.
    pub id: u16,
    /// The token, of at most 8 bytes.
    pub token: &'a [u8],
    /// The options in their order.
    pub options: Options<'a>,
    /// The payload; empty where there is no payload marker.
    pub payload: &'a [u8],
}
