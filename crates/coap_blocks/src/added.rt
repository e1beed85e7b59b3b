//! The outcome of a block of a request.

/// The outcome of a block of a request (RFC 7959, sections 2.5 and 2.9).
#[derive(Clone, Copy, Debug, PartialEq, Eq)]
pub enum Added {
    /// It was joined to those before it, and others are to come.
    Continue,
    /// It was joined to those before it, and was the last: the body is whole, at this place.
    Complete(u32),
    /// Its payload isn't as long as it says; nothing changed.
    BadBlock,
    /// Blocks before it are missing.
    Incomplete,
    /// The body would be longer than a body may be.
    TooLarge,
    /// As many bodies are on their way as may.
    Full,
}
