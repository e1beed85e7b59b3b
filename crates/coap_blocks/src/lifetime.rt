//! The lifetime of bodies and parts.

ghost use Rattle.std.specs.Prelude.{◌≡◌};
ghost use Rattle.coap_blocks.specs.Paths.{lives};

use coap_msg::EXCHANGE_LIFETIME;

/// Whether a body that was given or begun at a moment lives: for EXCHANGE_LIFETIME (RFC 7252, section 4.8.2). An older
/// one is given up, since the other end doesn't go on with it (RFC 7959, section 2.5).
pub fn lives(moment: u64, now: u64) -> bool
    ensures { result ≡ lives now moment }
{
    now.saturating_sub(moment) < EXCHANGE_LIFETIME
}
