//! CoAP messages as bytes (RFC 7252, section 3), and nothing above them: other crates decide the meaning of a message.
//! No function here takes memory.
//!
//! ```
//! use coap_msg::{Opts, Plain, Type4, decode, encode};
//!
//! // GET /lamp, non-confirmable, with the message ID 7 and no token.
//! let mut room = [0; 16];
//! let mut options = Opts::on(&mut room);
//! options.push(11, b"lamp")?;
//! let request = Plain {
//!     kind: Type4::Non,
//!     code: 1,
//!     id: 7,
//!     token: b"",
//!     options: &options,
//!     payload: b"",
//! };
//! let mut datagram = [0; 64];
//! let size = encode(&request, &mut datagram)?;
//! assert_eq!(&datagram[..size], b"\x50\x01\x00\x07\xb4lamp");
//!
//! let message = decode(&datagram[..size])?;
//! for (number, value) in message.options.iter() {
//!     assert_eq!((number, value), (11, b"lamp".as_slice()));
//! }
//! ```
//!
//! The grammar is `specs/Grammar.antt`, and the faults of bytes are in `specs/Faults.antt`. The contract in a sentence:
//! `decode` gives exactly the one message that its bytes spell, or else the first fault that they have, and `encode`
//! writes exactly the spelling of the message that it is given. Their clauses `unique` say that the two are inverse.
//! The laws: a message has one spelling, bytes spell at most one message, those of a message have no fault, and other
//! bytes have at most one.
#![tactic(auto)]

mod block;
mod bounded;
mod bucket;
mod constants;
mod decoding;
mod empty;
mod encoding;
mod endpoint;
mod header;
mod laws;
mod message;
mod numbers;
mod options;
mod opts;
mod transmission;

pub use block::{Block, read_block, write_block};
pub use bounded::BoundedBytes;
pub use bucket::bucket_of;
pub use constants::{
    ACCEPT, BAD_OPTION, BAD_REQUEST, BLOCK1, BLOCK2, CLIENT_ERROR, CONTENT, CONTENT_FORMAT,
    CONTINUE, Code, DELETE, DETAILS, EMPTY, ETAG, GET, IF_MATCH, IF_NONE_MATCH,
    INTERNAL_SERVER_ERROR, JSON, LOCATION_PATH, LONGEST_BLOCK, LONGEST_DATAGRAM, LONGEST_MESSAGE,
    LONGEST_PAYLOAD, LONGEST_SEGMENT, LONGEST_TOKEN, METHOD_NOT_ALLOWED, OBSERVE, POST,
    PROXY_SCHEME, PROXY_URI, PROXYING_NOT_SUPPORTED, PUT, REQUEST_ENTITY_INCOMPLETE,
    REQUEST_ENTITY_TOO_LARGE, SERVER_ERROR, SERVICE_UNAVAILABLE, SUCCESS, TD_JSON, URI_HOST,
    URI_PATH, URI_PORT, URI_QUERY,
};
pub use decoding::decode;
pub use empty::{put_empty_reply, put_rejection};
pub use encoding::{Plain, encode};
pub use endpoint::{Endpoint, is_same_endpoint};
pub use laws::{
    blocks_are_read_again, constants_are_these, no_fault, one_fault, one_message, one_spelling,
    read_blocks_are_blocks,
};
pub use message::{Message, MsgFault, RequestType, Type4};
pub use numbers::{number_of, put_number};
pub use options::{Options, OptionsIter};
pub use opts::{NoRoom, Opts, put_segment};
pub use transmission::{EXCHANGE_LIFETIME, MOST_RETRANSMISSIONS, NON_LIFETIME, first_timeout};
