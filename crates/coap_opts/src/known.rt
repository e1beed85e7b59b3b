//! The options that are known, and the faults of others.

ghost use Rattle.std.specs.Prelude.{◌≡◌};
ghost use Rattle.coap_opts.specs.Table.{may_stand};
ghost use Rattle.coap_opts.specs.Reading.{fault_of};

use crate::AskFault;
use coap_msg::{
    ETAG, IF_MATCH, IF_NONE_MATCH, LONGEST_SEGMENT, PROXY_SCHEME, PROXY_URI, URI_HOST, URI_PATH,
    URI_PORT, URI_QUERY, read_block,
};

/// A row of the table of options (RFC 7252, section 5.10).
#[derive(Clone, Copy)]
pub struct Known {
    /// The number of the option.
    pub number: u16,
    /// The least number of bytes in its value.
    pub shortest: usize,
    /// The most bytes in its value.
    pub longest: usize,
    /// It may come more than once.
    pub repeats: bool,
}

/// Observe (RFC 7641, section 2).
pub const OBSERVE: Known = Known {
    number: coap_msg::OBSERVE,
    shortest: 0,
    longest: 3,
    repeats: false,
};

/// Content-Format (RFC 7252, section 5.10.3).
pub const CONTENT_FORMAT: Known = Known {
    number: coap_msg::CONTENT_FORMAT,
    shortest: 0,
    longest: 2,
    repeats: false,
};

/// Accept (RFC 7252, section 5.10.4).
pub const ACCEPT: Known = Known {
    number: coap_msg::ACCEPT,
    shortest: 0,
    longest: 2,
    repeats: false,
};

/// Block2 (RFC 7959, section 2.1).
pub const BLOCK2: Known = Known {
    number: coap_msg::BLOCK2,
    shortest: 0,
    longest: 3,
    repeats: false,
};

/// Block1 (RFC 7959, section 2.1).
pub const BLOCK1: Known = Known {
    number: coap_msg::BLOCK1,
    shortest: 0,
    longest: 3,
    repeats: false,
};

/// The table: If-Match, Uri-Host, ETag, If-None-Match, Observe, Uri-Port, Uri-Path, Content-Format, Uri-Query, Accept,
/// Block2 and Block1.
const KNOWN: [Known; 12] = [
    Known {
        number: IF_MATCH,
        shortest: 0,
        longest: 8,
        repeats: true,
    },
    Known {
        number: URI_HOST,
        shortest: 1,
        longest: 255,
        repeats: false,
    },
    Known {
        number: ETAG,
        shortest: 1,
        longest: 8,
        repeats: true,
    },
    Known {
        number: IF_NONE_MATCH,
        shortest: 0,
        longest: 0,
        repeats: false,
    },
    OBSERVE,
    Known {
        number: URI_PORT,
        shortest: 0,
        longest: 2,
        repeats: false,
    },
    Known {
        number: URI_PATH,
        shortest: 0,
        longest: LONGEST_SEGMENT,
        repeats: true,
    },
    CONTENT_FORMAT,
    Known {
        number: URI_QUERY,
        shortest: 0,
        longest: 255,
        repeats: true,
    },
    ACCEPT,
    BLOCK2,
    BLOCK1,
];

/// Whether an option is one that the table knows, after one of this number.
fn is_right(before: Option<u16>, number: u16, value: &[u8]) -> bool
    ensures { result ≡ may_stand before (number, value.now) }
{
    for row in &KNOWN {
        if row.number == number {
            let fits = row.shortest <= value.len() && value.len() <= row.longest;
            return fits && (row.repeats || before != Some(number));
        }
    }
    false
}

/// The fault of an option after one of this number.
pub fn option_fault(before: Option<u16>, number: u16, value: &[u8]) -> Option<AskFault>
    ensures { result ≡ fault_of before (number, value.now) }
{
    if number == PROXY_URI || number == PROXY_SCHEME {
        return Some(AskFault::Proxy);
    }
    // Any other option of an even number is ignored, as it is elective (RFC 7252, section 5.4.1).
    if number % 2 == 1 && !is_right(before, number, value) {
        return Some(AskFault::BadOption(number));
    }
    if (number == coap_msg::BLOCK1 || number == coap_msg::BLOCK2) && read_block(value).is_none() {
        return Some(AskFault::Block);
    }
    None
}
