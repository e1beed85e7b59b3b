//! The numbers of CoAP that more than one crate names: sizes, the numbers of options, codes and content formats.

// ---- sizes, in bytes

/// The most bytes of a token (RFC 7252, section 3).
pub const LONGEST_TOKEN: usize = 8;

/// The most bytes of a segment, the value of Uri-Path or of Location-Path (RFC 7252, section 5.10).
pub const LONGEST_SEGMENT: usize = 255;

/// The most bytes of a payload where nothing is known of the path to its receiver (RFC 7252, section 4.6).
pub const LONGEST_PAYLOAD: usize = 1024;

/// The most bytes of a message where nothing is known of the path to its receiver (RFC 7252, section 4.6).
pub const LONGEST_MESSAGE: usize = 1152;

/// The most bytes of a datagram that is looked at, as every link of IPv6 carries so many whole (RFC 8200, section 5).
pub const LONGEST_DATAGRAM: usize = 1280;

/// The most bytes of the value of a Block option (RFC 7959, section 2.2).
pub const LONGEST_BLOCK: usize = 3;

// ---- the numbers of options (RFC 7252, section 12.2; RFC 7641, section 2; RFC 7959, section 2.1)

/// The entity-tag of a version that is to be there.
pub const IF_MATCH: u16 = 1;

/// The host that a request is for.
pub const URI_HOST: u16 = 3;

/// The entity-tag of a version that is sent, or that the sender has.
pub const ETAG: u16 = 4;

/// The condition that nothing is there.
pub const IF_NONE_MATCH: u16 = 5;

/// The wish to observe, or the sequence number of a notification.
pub const OBSERVE: u16 = 6;

/// The port that a request is for.
pub const URI_PORT: u16 = 7;

/// A segment of the path of a created resource.
pub const LOCATION_PATH: u16 = 8;

/// A segment of the path of a request.
pub const URI_PATH: u16 = 11;

/// The content format of the payload.
pub const CONTENT_FORMAT: u16 = 12;

/// A part of the query of a request.
pub const URI_QUERY: u16 = 15;

/// The content format that a response is to have.
pub const ACCEPT: u16 = 17;

/// A block of the response, given or asked for (RFC 7959, section 2.1).
pub const BLOCK2: u16 = 23;

/// A block of the request (RFC 7959, section 2.1).
pub const BLOCK1: u16 = 27;

/// The URI that a proxy is asked for.
pub const PROXY_URI: u16 = 35;

/// The scheme of the URI that a proxy is asked for.
pub const PROXY_SCHEME: u16 = 39;

// ---- codes (RFC 7252, section 12.1; RFC 7959, section 2.9)

/// The code of a message: the class in the upper three bits, the detail in the lower five.
pub type Code = u8;

/// The number of details of a class: a code is its class times this, and its detail.
pub const DETAILS: Code = 32;

/// The class of a success.
pub const SUCCESS: Code = 2;

/// The class of a client error.
pub const CLIENT_ERROR: Code = 4;

/// The class of a server error.
pub const SERVER_ERROR: Code = 5;

/// 0.00, that of an empty message.
pub const EMPTY: Code = 0;

/// 0.01.
pub const GET: Code = 1;

/// 0.02.
pub const POST: Code = 2;

/// 0.03.
pub const PUT: Code = 3;

/// 0.04.
pub const DELETE: Code = 4;

/// 2.05.
pub const CONTENT: Code = DETAILS * SUCCESS + 5;

/// 2.31, that the other blocks of a request are to come.
pub const CONTINUE: Code = DETAILS * SUCCESS + 31;

/// 4.00.
pub const BAD_REQUEST: Code = DETAILS * CLIENT_ERROR;

/// 4.02.
pub const BAD_OPTION: Code = DETAILS * CLIENT_ERROR + 2;

/// 4.05.
pub const METHOD_NOT_ALLOWED: Code = DETAILS * CLIENT_ERROR + 5;

/// 4.08, that blocks of a request before one are missing.
pub const REQUEST_ENTITY_INCOMPLETE: Code = DETAILS * CLIENT_ERROR + 8;

/// 4.13.
pub const REQUEST_ENTITY_TOO_LARGE: Code = DETAILS * CLIENT_ERROR + 13;

/// 5.00.
pub const INTERNAL_SERVER_ERROR: Code = DETAILS * SERVER_ERROR;

/// 5.03.
pub const SERVICE_UNAVAILABLE: Code = DETAILS * SERVER_ERROR + 3;

/// 5.05.
pub const PROXYING_NOT_SUPPORTED: Code = DETAILS * SERVER_ERROR + 5;

// ---- content formats (RFC 7252, section 12.3)

/// `application/json`.
pub const JSON: u16 = 50;

/// `application/td+json` (TD 1.1, "IANA Considerations").
pub const TD_JSON: u16 = 432;
