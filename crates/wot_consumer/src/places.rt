//! The place to which a URL leads.

ghost use Rattle.std.specs.Prelude.{◌≡◌, ◌≤◌, ◌++◌, ◌∷◌, ◌↔◌, ◌==◌, [], length, map, nat_lt, false, All, IfOk, OnOk, IsTrue, slice_get};
ghost use Rattle.std.specs.Option.{option_map_or};
ghost use Rattle.coap_msg.specs.declared.constants.TheConstants.{LONGEST_SEGMENT as longest_segment};
ghost use Rattle.wot_consumer.specs.Places as place;

use coap_msg::LONGEST_SEGMENT;
use http_wire::segments_behind;
use servient_base::NoMemory;
use std::alloc::Global;
use thing_ops::Segments;
use wot_forms::Scheme;

/// The scheme of this name.
pub(crate) fn scheme_named(name: &str) -> Option<Scheme>
    ensures { result ≡ place.scheme_named name.now }
{
    match name {
        "http" => Some(Scheme::Http),
        "coap" => Some(Scheme::Coap),
        _ => None,
    }
}

/// The port where a URL has none (RFC 9110, section 4.2.1; RFC 7252, section 6.1).
pub(crate) fn default_port(scheme: Scheme) -> u16
    ensures { result ≡ place.default_port scheme }
{
    match scheme {
        Scheme::Http => 80,
        Scheme::Coap => 5683,
    }
}

/// The segments of the path of a URL, percent-encoding taken away.
pub(crate) fn segments_of(alloc: Global, path: &str) -> Result<Segments, NoMemory>
    ensures { IfOk result (λ s. s ≡ place.segments_of path.now) }
{
    match path.as_bytes() {
        [b'/', behind @ ..] => segments_behind(alloc, behind),
        _ => Ok(Segments::new(alloc)),
    }
}

/// The path can be sent over this protocol.
pub(crate) fn are_sendable(scheme: Scheme, segments: &Segments) -> bool
    ensures { IsTrue result ↔ place.AreSendable scheme segments.now }
{
    match scheme {
        Scheme::Http => true,
        Scheme::Coap => are_short(segments),
    }
}

/// No segment is longer than one of CoAP may be.
fn are_short(segments: &Segments) -> bool
    ensures { IsTrue result ↔ All (λ segment. length segment ≤ longest_segment) segments.now }
{
    for index in 0..segments.len() {
        if is_long(segments, index) {
            return false;
        }
    }
    true
}

/// The segment of this number is longer than one of CoAP may be.
fn is_long(segments: &Segments, index: usize) -> bool
    ensures { result ≡ option_map_or (λ segment. nat_lt longest_segment (length segment)) (slice_get segments.now index) false }
{
    match segments.get(index) {
        Some(segment) => segment.len() > LONGEST_SEGMENT,
        None => false,
    }
}
