//! The statuses of HTTP that are named here and above (RFC 9110, section 15).

/// The interim reply to a request that awaits it before it sends its body.
pub const CONTINUE: u16 = 100;

/// The reply has the text that was asked for.
pub const OK: u16 = 200;

/// The reply has no content.
pub const NO_CONTENT: u16 = 204;

/// The sender has the version that it asks for.
pub const NOT_MODIFIED: u16 = 304;

/// The request isn't as it should be.
pub const BAD_REQUEST: u16 = 400;

/// The content is longer than is taken.
pub const CONTENT_TOO_LARGE: u16 = 413;

/// The head is longer than is taken (RFC 6585, section 5).
pub const HEAD_TOO_LARGE: u16 = 431;

/// The request has a transfer coding that isn't known.
pub const NOT_IMPLEMENTED: u16 = 501;
