//! The endpoints of datagrams: a host and a port each.

ghost use Rattle.std.specs.Prelude.{◌≡◌};
ghost use Rattle.coap_msg.specs.Endpoints.{is_same_endpoint};

/// One end of a CoAP exchange (RFC 7252, section 1.2): a host and a UDP port.
#[derive(Clone, Copy, Debug, PartialEq, Eq, PartialOrd, Ord)]
pub struct Endpoint {
    /// The address of the host as a number; that of an IPv4 host is its IPv4-mapped IPv6 address.
    pub host: u128,
    /// The UDP port.
    pub port: u16,
}

/// Whether two endpoints are one.
pub fn is_same_endpoint(a: Endpoint, b: Endpoint) -> bool
    ensures { result ≡ is_same_endpoint a b }
{
    a.host == b.host && a.port == b.port
}
