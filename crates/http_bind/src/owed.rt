//! The reply that is owed to a request.

/// A reply is owed to a request that was taken. It has no payload where the request was HEAD (RFC 9110, section 9.3.2),
/// and is the last one of its connection where the request asks for that (RFC 9112, section 9.6).
#[derive(Clone, Copy, Debug, Drop)]
pub struct Owed {
    /// The reply has no payload.
    pub bodiless: bool,
    /// The connection is closed after the reply.
    pub closes: bool,
}
