//! Acts as they are kept: each owns a copy of its arguments, since the list of acts outlives the call.

ghost use Rattle.std.specs.Prelude.{◌≡◌, ◌++◌, IfOk};

use crate::{Act, Place};
use coap_msg::Endpoint;
use servient_base::{ConnectionId, NoMemory};
use std::alloc::Global;
use wot_json::{Bytes, Text};

/// One piece and then another, sent on a connection.
pub fn sent(alloc: Global, c: ConnectionId, head: &[u8], body: &[u8]) -> Result<Act, NoMemory>
    ensures { IfOk result (λ a. a ≡ Act.Sent c (head.now ++ body.now)) }
{
    let mut bytes = Vec::from_slice(alloc, head)?;
    bytes.extend_from_slice(body)?;
    Ok(Act::Sent(c, Bytes::from_vec(bytes)))
}

/// A datagram.
pub fn datagram(alloc: Global, to: Endpoint, bytes: &[u8]) -> Result<Act, NoMemory>
    ensures { IfOk result (λ a. a ≡ Act.Datagram to bytes.now) }
{
    let bytes = Bytes::copy_of(alloc, bytes)?;
    Ok(Act::Datagram(to, bytes))
}

/// A place that was listened at.
pub fn listened(alloc: Global, place: &Place) -> Result<Act, NoMemory>
    ensures { IfOk result (λ a. a ≡ Act.Listened place.now) }
{
    let http_host = Text::copy_of(alloc, place.http_host.as_str())?;
    let coap_host = Text::copy_of(alloc, place.coap_host.as_str())?;
    Ok(Act::Listened(Place {
        http_host,
        http_port: place.http_port,
        coap_host,
        coap_port: place.coap_port,
        idle: place.idle,
    }))
}

/// A host and a port that were dialled.
pub fn dialled(
    alloc: Global,
    host: &str,
    port: u16,
    c: Option<ConnectionId>,
) -> Result<Act, NoMemory>
    ensures { IfOk result (λ a. a ≡ Act.Dialled host.now port c) }
{
    let host = Text::copy_of(alloc, host)?;
    Ok(Act::Dialled(host, port, c))
}

/// A host and a port that were looked up.
pub fn looked(alloc: Global, host: &str, port: u16, to: Option<Endpoint>) -> Result<Act, NoMemory>
    ensures { IfOk result (λ a. a ≡ Act.Looked host.now port to) }
{
    let host = Text::copy_of(alloc, host)?;
    Ok(Act::Looked(host, port, to))
}
