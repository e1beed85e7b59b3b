//! Percent-encoding of a segment of the path of a URL (RFC 3986, sections 2.1 and 2.3).

ghost use Rattle.std.specs.Prelude.{◌≡◌, ◌≤◌, ◌++◌, length, OnOk, string_bytes};
ghost use Rattle.servient_base.specs.Encoding.{encoded, encoded_byte};
ghost use Rattle.servient_base.specs.Writing.{PutsIfRoom};

use crate::NoMemory;
use crate::writing::put_piece;
use percent_encoding::{
    AsciiSet, NON_ALPHANUMERIC, ascii_set, percent_encode, percent_encode_byte,
};

/// The bytes of ASCII that are escaped in a segment: all but the unreserved ones (RFC 3986, section 2.3).
const ESCAPED: AsciiSet = ascii_set!(
    NON_ALPHANUMERIC
        .remove(b'-')
        .remove(b'.')
        .remove(b'_')
        .remove(b'~')
);

/// Puts bytes, percent-encoded, at the end of a text.
#[tactic(auto, using(crate::proofs::EncodedBytes::encoded_by_set))]
pub fn push_encoded(text: &mut String, bytes: &[u8]) -> Result<(), NoMemory>
    ensures { OnOk result (string_bytes text.new ≡ string_bytes text.old ++ encoded bytes.now) }
{
    percent_encode(bytes, ESCAPED).append_to(text)?;
    Ok(())
}

/// Writes bytes, percent-encoded, at a place of `out`, and returns the place after them; None where there is no room.
pub fn put_encoded(out: &mut [u8], at: usize, bytes: &[u8]) -> Option<usize>
    requires { at ≤ length out.old }
    ensures { PutsIfRoom (encoded bytes.now) at out.old out.new result }
{
    let mut end = at;
    for byte in bytes {
        // A match and not `?`, since that gives the proof of the loop facts on `ControlFlow` alone.
        match put_encoded_byte(out, end, *byte) {
            Some(next) => end = next,
            None => return None,
        }
    }
    Some(end)
}

/// Writes one byte, percent-encoded where it isn't unreserved.
fn put_encoded_byte(out: &mut [u8], at: usize, byte: u8) -> Option<usize>
    requires { at ≤ length out.old }
    ensures { PutsIfRoom (encoded_byte byte) at out.old out.new result }
{
    if ESCAPED.should_percent_encode(byte) {
        put_piece(out, at, percent_encode_byte(byte).as_bytes())
    } else {
        put_piece(out, at, &[byte])
    }
}
