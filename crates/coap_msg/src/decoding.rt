//! Reading a message: the one that bytes spell, or their fault.

ghost use Rattle.std.specs.Prelude.{◌≡◌, ◌↔◌, ◌∷◌, ◌≢◌, ℕ, List, None, IfOk, IfErr, IsOkAnd, OnOk, IsTrue};
ghost use Rattle.coap_msg.specs.Grammar.{CoapOption, CoapMessage, IsClass, Spells};
ghost use Rattle.coap_msg.specs.Faults.{HasMsgFault, HasHeaderFault, HasBodyFault, HasFaultHere, MayGoOn, BeginsWhole};
ghost use Rattle.coap_msg.specs.Options.{option_at};
ghost use Rattle.coap_msg.specs.Parts.{SpellsBody};
ghost use Rattle.coap_msg.specs.MessageOf.{message_of};

use crate::constants::{CLIENT_ERROR, DETAILS, EMPTY, LONGEST_TOKEN, SERVER_ERROR, SUCCESS};
use crate::header::{Header, take_header};
use crate::message::PAYLOAD_MARKER;
use crate::options::{take_number, take_option};
use crate::{Message, MsgFault, Options};

/// The nibble that no option has (RFC 7252, section 3.1).
const RESERVED: u8 = 15;

/// The message that the bytes spell, of every type and code and with any options. A crate above decides which messages
/// are acted on, because that grows and the grammar doesn't. It copies nothing.
pub fn decode(bytes: &[u8]) -> Result<Message<'_>, MsgFault>
    ensures ok { IfOk result (λ m. Spells (message_of m) bytes.now) }
    ensures complete { (m : CoapMessage) → Spells m bytes.now → IsOkAnd result (λ n. message_of n ≡ m) }

    // Writing what was read gives the same bytes.
    ensures unique { IfOk result (λ m. (other : List ℕ) → Spells (message_of m) other → other ≡ bytes.now) }

    ensures fault { IfErr result (λ e. HasMsgFault e bytes.now) }
{
    let Some((header, rest)) = take_header(bytes) else {
        return Err(MsgFault::Short);
    };
    let token_length = header.token_length as usize;
    if header.version != 1 {
        return Err(MsgFault::Version);
    }
    if token_length > LONGEST_TOKEN || token_length > rest.len() {
        return Err(MsgFault::TokenLength);
    }
    if header.code == EMPTY && !rest.is_empty() {
        return Err(MsgFault::EmptyCode);
    }
    if !matches!(
        header.code / DETAILS,
        0 | SUCCESS | CLIENT_ERROR | SERVER_ERROR
    ) {
        return Err(MsgFault::Class);
    }
    let (token, body) = rest.split_at(token_length);
    let (options, payload) = split_body(body)?;
    Ok(Message {
        kind: header.kind,
        code: header.code,
        id: header.id,
        token,
        options,
        payload,
    })
}

/// The options and the payload in the bytes after the token.
fn split_body(body: &[u8]) -> Result<(Options<'_>, &[u8]), MsgFault>
    ensures ok { IfOk result (λ split. SpellsBody split.0 split.1.now body.now) }
    ensures complete { (options : List CoapOption) (payload : List ℕ) → SpellsBody options payload body.now →
        IsOkAnd result (λ split. (split.0 ≡ options) × (split.1.now ≡ payload)) }
    ensures fault { IfErr result (λ e. HasBodyFault e body.now) }
{
    let mut rest = body;
    let mut last = 0;
    // A loop over bytes and not over `Options`, since only its end says where the options end.
    'options: while let Some((first, after)) = rest.split_first() {
        if *first == PAYLOAD_MARKER {
            if after.is_empty() {
                return Err(MsgFault::NoPayload);
            }
            return Ok((
                Options {
                    bytes: &body[..body.len() - rest.len()],
                },
                after,
            ));
        }
        let Some((number, _, next)) = take_option(last, rest) else {
            return Err(option_fault(last, *first, after));
        };
        last = number;
        rest = next;
    }
    Ok((Options { bytes: body }, rest))
}

/// The fault of the bytes after an option of the number `last`, which begin with no option that may be there.
fn option_fault(last: u16, first: u8, after: &[u8]) -> MsgFault
    requires none { option_at last (first ∷ after.now) ≡ None }
    requires marker { first ≢ 255 }
    ensures { HasFaultHere result last (first ∷ after.now) }
{
    if first / 16 == RESERVED || first % 16 == RESERVED {
        return MsgFault::Nibble;
    }
    if is_whole(first, after) {
        MsgFault::OptionNumber
    } else {
        MsgFault::OptionCut
    }
}

/// Whether an option doesn't pass the end, of any number.
fn is_whole(first: u8, after: &[u8]) -> bool
    ensures { IsTrue result ↔ BeginsWhole (first ∷ after.now) }
{
    match take_number(first / 16, after) {
        Some((_, middle)) => match take_number(first % 16, middle) {
            Some((size, rest)) => size <= rest.len(),
            None => false,
        },
        None => false,
    }
}
