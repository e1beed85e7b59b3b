//! Laws of the grammar, as contracts of functions that do nothing, since a law is proved only as a clause.

ghost use Rattle.std.specs.Prelude.{◌≡◌, ℕ, List};
ghost use Rattle.coap_msg.specs.declared.message.MsgFault.{MsgFault};
ghost use Rattle.coap_msg.specs.Grammar.{CoapMessage, IsWellFormed, Spells};
ghost use Rattle.coap_msg.specs.Faults.{HasMsgFault};
ghost use Rattle.coap_msg.specs.Blocks.{BlocksAreReadAgain, ReadBlocksAreBlocks};

use crate::{
    ACCEPT, BAD_OPTION, BAD_REQUEST, BLOCK1, BLOCK2, CONTENT, CONTENT_FORMAT, CONTINUE, DELETE,
    EMPTY, ETAG, EXCHANGE_LIFETIME, GET, IF_MATCH, IF_NONE_MATCH, INTERNAL_SERVER_ERROR, JSON,
    LOCATION_PATH, LONGEST_BLOCK, LONGEST_DATAGRAM, LONGEST_MESSAGE, LONGEST_PAYLOAD,
    LONGEST_SEGMENT, LONGEST_TOKEN, METHOD_NOT_ALLOWED, MOST_RETRANSMISSIONS, NON_LIFETIME,
    OBSERVE, POST, PROXY_SCHEME, PROXY_URI, PROXYING_NOT_SUPPORTED, PUT, REQUEST_ENTITY_INCOMPLETE,
    REQUEST_ENTITY_TOO_LARGE, SERVICE_UNAVAILABLE, TD_JSON, URI_HOST, URI_PATH, URI_PORT,
    URI_QUERY,
};

/// A message within the bounds has exactly one spelling.
pub fn one_spelling()
    ensures { (m : CoapMessage) → IsWellFormed m →
        (b : List ℕ) × Spells m b × ((other : List ℕ) → Spells m other → other ≡ b) }
{}

/// A list of bytes spells at most one message.
pub fn one_message()
    ensures { (m n : CoapMessage) (b : List ℕ) → Spells m b → Spells n b → m ≡ n }
{}

/// The bytes of a message have no fault.
pub fn no_fault()
    ensures { (f : MsgFault) (m : CoapMessage) (b : List ℕ) → Spells m b → ¬ (HasMsgFault f b) }
{}

/// Bytes have at most one fault.
pub fn one_fault()
    ensures { (f g : MsgFault) (b : List ℕ) → HasMsgFault f b → HasMsgFault g b → f ≡ g }
{}

/// A block whose value is written and read again is the same (RFC 7959, section 2.2).
pub fn blocks_are_read_again()
    ensures { BlocksAreReadAgain }
{}

/// Each block that is read may be written.
pub fn read_blocks_are_blocks()
    ensures { ReadBlocksAreBlocks }
{}

/// The constants of messages as numbers: of options (RFC 7252, section 5.10; RFC 7641, section 2; RFC 7959, section 2.1), the
/// codes of methods and of responses (sections 12.1 and 2.9), of formats (section 12.3), the most bytes of each part, and
/// the times of a message in milliseconds (section 4.8.2). So a constant that is changed is refused here.
pub fn constants_are_these()
    ensures if_match { IF_MATCH ≡ 1 }
    ensures uri_host { URI_HOST ≡ 3 }
    ensures etag { ETAG ≡ 4 }
    ensures if_none_match { IF_NONE_MATCH ≡ 5 }
    ensures observe { OBSERVE ≡ 6 }
    ensures uri_port { URI_PORT ≡ 7 }
    ensures location_path { LOCATION_PATH ≡ 8 }
    ensures uri_path { URI_PATH ≡ 11 }
    ensures content_format { CONTENT_FORMAT ≡ 12 }
    ensures uri_query { URI_QUERY ≡ 15 }
    ensures accept { ACCEPT ≡ 17 }
    ensures block2 { BLOCK2 ≡ 23 }
    ensures block1 { BLOCK1 ≡ 27 }
    ensures proxy_uri { PROXY_URI ≡ 35 }
    ensures proxy_scheme { PROXY_SCHEME ≡ 39 }
    ensures empty { EMPTY ≡ 0 }
    ensures get { GET ≡ 1 }
    ensures post { POST ≡ 2 }
    ensures put { PUT ≡ 3 }
    ensures delete { DELETE ≡ 4 }
    ensures content { CONTENT ≡ 69 }
    ensures continued { CONTINUE ≡ 95 }
    ensures bad_request { BAD_REQUEST ≡ 128 }
    ensures bad_option { BAD_OPTION ≡ 130 }
    ensures method_not_allowed { METHOD_NOT_ALLOWED ≡ 133 }
    ensures request_entity_incomplete { REQUEST_ENTITY_INCOMPLETE ≡ 136 }
    ensures request_entity_too_large { REQUEST_ENTITY_TOO_LARGE ≡ 141 }
    ensures internal_server_error { INTERNAL_SERVER_ERROR ≡ 160 }
    ensures service_unavailable { SERVICE_UNAVAILABLE ≡ 163 }
    ensures proxying_not_supported { PROXYING_NOT_SUPPORTED ≡ 165 }
    ensures json { JSON ≡ 50 }
    ensures td_json { TD_JSON ≡ 432 }
    ensures longest_token { LONGEST_TOKEN ≡ 8 }
    ensures longest_segment { LONGEST_SEGMENT ≡ 255 }
    ensures longest_payload { LONGEST_PAYLOAD ≡ 1024 }
    ensures longest_message { LONGEST_MESSAGE ≡ 1152 }
    ensures longest_datagram { LONGEST_DATAGRAM ≡ 1280 }
    ensures longest_block { LONGEST_BLOCK ≡ 3 }
    ensures most_retransmissions { MOST_RETRANSMISSIONS ≡ 4 }
    ensures exchange_lifetime { EXCHANGE_LIFETIME ≡ 247000 }
    ensures non_lifetime { NON_LIFETIME ≡ 145000 }
{}
