//! Addresses of hosts. Only IPv4 is used; an endpoint has it in its mapped form.

ghost use Rattle.std.specs.Prelude.{◌≡◌, IfOk, OnErr};
ghost use Rattle.std.specs.Net.Addr.{ipv4_bits, IsIpv4OfBits};
ghost use Rattle.std.specs.Net.Socket.{socket_ip, socket_port};
ghost use Rattle.servient_edge.specs.Addresses.{host_of, IsNotMapped};

use coap_msg::Endpoint;
use servient_system::Refusal;
use std::net::{IpAddr, Ipv4Addr, SocketAddr};

/// There is no IPv4 address (EADDRNOTAVAIL).
pub const NO_ADDRESS: Refusal = Refusal::Failed(99);

// The address ::ffff:0.0.0.0, behind which the others stand in their mapped form.
const MAPPED: u128 = 0xffff_0000_0000;

/// The endpoint of an address.
pub fn endpoint_of(address: SocketAddr) -> Endpoint
    ensures host { result.host ≡ host_of (socket_ip address) }
    ensures port { result.port ≡ socket_port address }
{
    let host = match address.ip() {
        IpAddr::V4(ip) => MAPPED + u128::from(ip.to_bits()),
        IpAddr::V6(ip) => ip.to_bits(),
    };
    Endpoint {
        host,
        port: address.port(),
    }
}

/// The IPv4 address of an endpoint; refused where it has none.
pub fn address_of(endpoint: Endpoint) -> Result<SocketAddr, Refusal>
    ensures host { IfOk result (λ address. host_of (socket_ip address) ≡ endpoint.host) }
    ensures port { IfOk result (λ address. socket_port address ≡ endpoint.port) }
    ensures refused { OnErr result (IsNotMapped endpoint.host) }
{
    let Some(bits) = endpoint.host.checked_sub(MAPPED) else {
        return Err(NO_ADDRESS);
    };
    match u32::try_from(bits) {
        Ok(bits) => {
            let ip = ipv4_of(bits);
            Ok(SocketAddr::new(IpAddr::V4(ip), endpoint.port))
        }
        Err(_) => Err(NO_ADDRESS),
    }
}

/// The IPv4 address of a number.
#[tactic(auto, using(crate::proofs::AddressLaws::bits_of))]
fn ipv4_of(bits: u32) -> Ipv4Addr
    ensures { ipv4_bits result ≡ bits }
{
    Ipv4Addr::from_bits(bits)
}
