//! The notation of a file's content.

/// The way in which the content of a device's file writes a value.
#[derive(Clone, Copy, Debug, PartialEq, Eq)]
pub enum Notation {
    /// The content is the value's JSON text (RFC 8259).
    Json,
    /// The content is a text in UTF-8, and the value is that text.
    Text,
}
