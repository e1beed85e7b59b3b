//! HOST:PORT, as a plan and a command line write where a server is: a name or an IPv4 address, and a port, which is always
//! there.

ghost use Rattle.std.specs.Prelude.{◌≡◌, MatchOption, None, Some};
ghost use Rattle.std.specs.List.{list_all};
ghost use Rattle.servient_base.specs.HostPorts as point;

use crate::parse_decimal;

/// The most bytes of a host (RFC 1035, section 2.3.4).
const MOST_HOST: usize = 253;

/// A byte that a host may have.
fn is_host_byte(byte: u8) -> bool
    ensures { result ≡ point.is_host_byte byte }
{
    byte.is_ascii_alphanumeric() || byte == b'.' || byte == b'-'
}

/// All bytes are such that a host may have.
fn has_host_bytes(text: &[u8]) -> bool
    ensures { result ≡ list_all point.is_host_byte text.now }
{
    text.iter().all(|byte| is_host_byte(*byte))
}

/// The text is a host.
fn is_host(text: &str) -> bool
    ensures { result ≡ point.is_host text.now }
{
    has_host_bytes(text.as_bytes()) && !text.is_empty() && text.len() <= MOST_HOST
}

/// The number of a port, where the text is one.
fn port_in(text: &str) -> Option<u16>
    ensures { result ≡ point.port_in text.now }
{
    match parse_decimal(text, u64::from(u16::MAX)) {
        Some(0) | None => None,
        Some(port) => Some(port as u16),
    }
}

/// The host and the port of HOST:PORT, where the text is that.
pub fn point_in(text: &str) -> Option<(&str, u16)>
    ensures { MatchOption result (point.point_in text.now ≡ None) (λ p. point.point_in text.now ≡ Some (p.0.now, p.1)) }
{
    match text.split_once(':') {
        Some((host, port)) if is_host(host) => point_of(host, port_in(port)),
        _ => None,
    }
}

/// A host and its port, where it has one.
fn point_of(host: &str, port: Option<u16>) -> Option<(&str, u16)>
    ensures { MatchOption result (port ≡ None) (λ p. (p.0.now ≡ host.now) × (port ≡ Some p.1)) }
{
    match port {
        Some(port) => Some((host, port)),
        None => None,
    }
}
