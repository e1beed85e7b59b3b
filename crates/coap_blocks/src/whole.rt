//! A whole response that is given in blocks.

use coap_msg::Code;

/// A response that is given in blocks.
#[derive(Clone, Copy, Debug)]
pub struct Whole<'a> {
    /// Its code (RFC 7252, section 12.1.2).
    pub code: Code,
    /// The content format of its payload (RFC 7252, section 12.3).
    pub format: Option<u16>,
    /// The number of the version that it gives, its entity-tag (RFC 7252, section 5.10.6).
    pub tag: Option<u32>,
    /// Its whole payload.
    pub bytes: &'a [u8],
}
