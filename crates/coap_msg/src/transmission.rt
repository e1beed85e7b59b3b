//! The times at which a Confirmable message is sent again (RFC 7252, sections 4.2 and 4.8).

ghost use Rattle.std.specs.Prelude.{◌≡◌, ◌≤◌};
ghost use Rattle.coap_msg.specs.Transmission.{first_timeout};

/// The number of times that a Confirmable message is sent again before it is given up (MAX_RETRANSMIT).
pub const MOST_RETRANSMISSIONS: u8 = 4;

/// The time for which the message ID of a Confirmable message may be in use, in milliseconds (EXCHANGE_LIFETIME, RFC 7252,
/// section 4.8.2).
pub const EXCHANGE_LIFETIME: u64 = 247_000;

/// The time for which that of a Non-confirmable message may be in use, in milliseconds (NON_LIFETIME).
pub const NON_LIFETIME: u64 = 145_000;

/// The least time to the second sending, in milliseconds (ACK_TIMEOUT, RFC 7252, section 4.8).
const ACK_TIMEOUT: u64 = 2000;

/// The number of times among which the second sending falls, a millisecond apart: up to half as long again
/// (ACK_RANDOM_FACTOR).
const SPREAD: u16 = 1001;

/// The milliseconds between the first and the second sending of a message with this ID. The ID stands in place of a
/// random factor, since this crate draws no numbers.
pub fn first_timeout(id: u16) -> u64
    ensures ok { result ≡ first_timeout id }
    ensures least { 2000 ≤ result }
    ensures most { result ≤ 3000 }
{
    ACK_TIMEOUT + u64::from(id % SPREAD)
}
