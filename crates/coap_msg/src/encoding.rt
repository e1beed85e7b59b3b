//! The message to write, and its bytes written into a caller's slice.

ghost use Rattle.std.specs.Prelude.{◌≡◌, ◌≤◌, ◌<◌, ◌+◌, ◌/◌, ◌^◌, ◌++◌, length, take, drop, IfOk, OnErr};
ghost use Rattle.coap_msg.specs.Grammar.{CoapMessage, header, payload_spelling, spelling};
ghost use Rattle.coap_msg.specs.Grammar.{IsClass, HasHeaderAlone, Spells};
ghost use Rattle.coap_msg.specs.PlainMessage.{plain_message};
ghost use Rattle.coap_msg.specs.declared.constants.TheConstants.{LONGEST_TOKEN};

use crate::message::PAYLOAD_MARKER;
use crate::{Code, NoRoom, Opts, Type4};
use servient_base::put_bytes;

/// The number of bytes of a header (RFC 7252, section 3).
const HEADER_LENGTH: u128 = 4;

/// A message to write.
#[derive(Drop)]
pub struct Plain<'a> {
    /// Whether it is confirmable, non-confirmable, an acknowledgement or a reset.
    pub kind: Type4,
    /// The code: class in the upper three bits, detail in the lower five.
    pub code: Code,
    /// The message ID.
    pub id: u16,
    /// The token.
    pub token: &'a [u8],
    /// The options in their order.
    pub options: &'a Opts<'a>,
    /// The payload; where it is empty, no payload marker is written.
    pub payload: &'a [u8],
}

/// Writes a message to the beginning of `out`, and returns the number of its bytes.
pub fn encode(message: &Plain<'_>, out: &mut [u8]) -> Result<usize, NoRoom>
    requires token { length message.now.token.now ≤ LONGEST_TOKEN }
    requires class { IsClass (message.now.code / 32) }
    requires empty { message.now.code ≡ 0 → HasHeaderAlone (plain_message message.now) }

    ensures ok { IfOk result (λ n. Spells (plain_message message.now) (take n out.new)) }
    ensures within { IfOk result (λ n. n ≤ length out.new) }

    // The bytes spell no other message.
    ensures unique { IfOk result (λ n. (m : CoapMessage) → Spells m (take n out.new) →
        m ≡ plain_message message.now) }
    ensures after { IfOk result (λ n. drop n out.new ≡ drop n out.old) }

    ensures unchanged { OnErr result (out.new ≡ out.old) }
    ensures no_room { OnErr result (length out.old < length (spelling (plain_message message.now))) }
{
    let marker: &[u8] = if message.payload.is_empty() {
        &[]
    } else {
        &[PAYLOAD_MARKER]
    };
    // In `u128`, so that no sum of lengths overflows.
    let needed = HEADER_LENGTH
        + message.token.len() as u128
        + message.options.as_bytes().len() as u128
        + marker.len() as u128
        + message.payload.len() as u128;
    // The whole length is judged before a byte is written, so that a refusal leaves the room as it was.
    if (out.len() as u128) < needed {
        return Err(NoRoom);
    }
    let first = 64 * 1 + 16 * message.kind.bits() + message.token.len() as u8;
    let [high, low] = message.id.to_be_bytes();
    let at = put_bytes(out, 0, &[first, message.code, high, low]);
    let at = put_bytes(out, at, message.token);
    let at = put_bytes(out, at, message.options.as_bytes());
    let at = put_bytes(out, at, marker);
    Ok(put_bytes(out, at, message.payload))
}
