//! Requests as both protocols see them: verb, path, formats, body and conditions.

use crate::{Conditions, Segments, Verb};

/// The media type of a request's body, as its content format says (RFC 9110, section 8.3; RFC 7252, section 12.3).
#[derive(Clone, Copy, Debug, PartialEq, Eq, Drop)]
pub enum Format {
    /// The request names none.
    Absent,
    /// `application/json`.
    Json,
    /// `application/td+json` (TD 1.1, "IANA Considerations").
    Td,
    /// `application/merge-patch+json` (RFC 7396).
    Patch,
    /// Any other.
    Other,
}

/// The media types that the sender takes in an answer.
#[derive(Clone, Copy, Debug, PartialEq, Eq, Drop)]
pub struct Accept {
    /// `application/json`.
    pub json: bool,
    /// `application/td+json`.
    pub td: bool,
}

/// A request. It owns its path and its conditions, and borrows query and body from the message that it came in.
/// `request_seen` of `specs/Requests.antt` is the same as a record of lists.
#[derive(Debug, Drop)]
pub struct Request<'a> {
    /// Its method.
    pub verb: Verb,
    /// Its path, decoded.
    pub path: Segments,
    /// Its query as it came, without the `?`; empty where it has none.
    pub query: &'a [u8],
    /// The formats that its sender takes in an answer.
    pub accept: Accept,
    /// The format that it names for its body.
    pub format: Format,
    /// Its body; empty where it has none.
    pub body: &'a [u8],
    /// Its conditions on the version that a property has, where its path leads to one; elsewhere they aren't looked at.
    pub conditions: Conditions,
}
