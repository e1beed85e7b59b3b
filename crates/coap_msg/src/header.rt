//! The header of a message: its first four bytes (RFC 7252, section 3).

ghost use Rattle.std.specs.Prelude.{◌<◌, length, IfSome, IfNone};
ghost use Rattle.coap_msg.specs.Headers.{SpellsHeader};

use crate::{Code, Type4};

/// The fields of a header.
#[derive(Clone, Copy)]
pub struct Header {
    /// The version of the protocol; 1 is the only one there is.
    pub version: u8,
    /// The type of the message.
    pub kind: Type4,
    /// The number of bytes of the token; 9 to 15 are reserved.
    pub token_length: u8,
    /// The code.
    pub code: Code,
    /// The message ID.
    pub id: u16,
}

/// The fields of the header that the bytes begin with, and the bytes after it.
pub fn take_header(bytes: &[u8]) -> Option<(Header, &[u8])>
    ensures ok { IfSome result (λ taken. SpellsHeader taken.0 bytes.now taken.1.now) }
    ensures fault { IfNone result (length bytes.now < 4) }
{
    match bytes {
        [first, code, high, low, rest @ ..] => {
            let header = Header {
                version: *first / 64,
                kind: Type4::from_bits(*first / 16 % 4),
                token_length: *first % 16,
                code: *code,
                id: 256 * (*high as u16) + *low as u16,
            };
            Some((header, rest))
        }
        _ => None,
    }
}
