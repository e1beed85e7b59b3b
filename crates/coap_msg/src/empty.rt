//! Empty messages: acknowledgements and Resets (RFC 7252, sections 4.1 and 4.2).

ghost use Rattle.coap_msg.specs.Grammar.{spelling};
ghost use Rattle.coap_msg.specs.Empty.{empty_message, empty_reply, rejection_of};
ghost use Rattle.coap_msg.specs.Written.{IsWritten, IsReplied};

use crate::constants::{EMPTY, LONGEST_MESSAGE};
use crate::{Opts, Plain, Type4, encode};

/// The version 1 and the type Confirmable, the upper four bits of a message (RFC 7252, section 3).
const CONFIRMABLE: u8 = 4;

/// Writes the empty reply to a message of this type and ID, which is taken or not, and returns the number of its bytes,
/// if there is one. The room is the caller's, since no function of this crate takes memory.
pub fn put_empty_reply(
    kind: Type4,
    id: u16,
    taken: bool,
    out: &mut [u8; LONGEST_MESSAGE],
) -> Option<usize>
    ensures { IsReplied (empty_reply kind id taken) result out.old out.new }
{
    match kind {
        Type4::Con => {
            let reply = if taken { Type4::Ack } else { Type4::Rst };
            Some(put_empty(reply, id, out))
        }
        Type4::Non | Type4::Ack | Type4::Rst => None,
    }
}

/// Writes the Reset with which bytes that spell no message are rejected, and returns the number of its bytes, if there
/// is one.
pub fn put_rejection(bytes: &[u8], out: &mut [u8; LONGEST_MESSAGE]) -> Option<usize>
    ensures { IsReplied (rejection_of bytes.now) result out.old out.new }
{
    match bytes {
        [first, _, high, low, ..] => {
            if *first / 16 == CONFIRMABLE {
                let id = 256 * u16::from(*high) + u16::from(*low);
                Some(put_empty(Type4::Rst, id, out))
            } else {
                None
            }
        }
        _ => None,
    }
}

/// Writes an empty message, and returns the number of its bytes.
fn put_empty(kind: Type4, id: u16, out: &mut [u8; LONGEST_MESSAGE]) -> usize
    ensures { IsWritten (spelling (empty_message kind id)) result out.old out.new }
{
    // No bytes of room, since there are no options.
    let mut none = [];
    let options = Opts::on(&mut none);
    let message = Plain {
        kind,
        code: EMPTY,
        id,
        token: &[],
        options: &options,
        payload: &[],
    };
    // There is room, since an empty message has four bytes.
    encode(&message, out).unwrap()
}
