//! The time for which a datagram may be under way.

/// The time within which a datagram may come after it was sent, in milliseconds (MAX_LATENCY, RFC 7252, section 4.8.2).
/// The laws hold up to 128,000; with more, a value that is taken could be of an earlier emission than one before it.
pub const MAX_LATENCY: u64 = 100_000;
