//! The datagrams of the storm, and their bytes.

ghost use Rattle.std.specs.Prelude.{◌≡◌, ◌≤◌, ◌+◌, ◌++◌, length, IfOk, OnOk};
ghost use Rattle.storm_events.specs.Datagrams.{body_of, bytes_of as bytes_are, header_of};

use coap_msg::Endpoint;
use itoa::Buffer;
use servient_base::NoMemory;
use std::alloc::Global;
use wot_json::Bytes;

/// The Uri-Path options of the property `status` of the built-in lamp.
const PATH: &[u8] = b"\xb4lamp\x0aproperties\x06status";

/// The Content-Format of JSON, and the payload marker.
const JSON_AND_MARKER: &[u8] = b"\x11\x32\xff";

/// A datagram's request to the status.
#[derive(Clone, Copy, Debug, PartialEq, Eq)]
pub enum Asks {
    /// To read it, in a Confirmable message.
    ConfirmableGet,
    /// To write this value, in a Confirmable message.
    ConfirmablePut(u64),
    /// To read it, in a Non-confirmable message.
    NonConfirmableGet,
}

/// A datagram.
#[derive(Clone, Copy, Debug, PartialEq, Eq)]
pub struct Datagram {
    pub from: Endpoint,
    /// The message ID.
    pub id: u16,
    pub asks: Asks,
}

/// The bytes of a datagram: at most 33.
pub fn bytes_of(alloc: Global, datagram: &Datagram) -> Result<Bytes, NoMemory>
    ensures is { IfOk result (λ bytes. bytes ≡ bytes_are datagram.now) }
    ensures short { IfOk result (λ bytes. length bytes ≤ 2048) }
{
    let mut bytes = Bytes::copy_of(alloc, header_of(datagram.asks))?;
    bytes.push((datagram.id / 256) as u8)?;
    bytes.push((datagram.id % 256) as u8)?;
    bytes.extend(PATH)?;
    put_body(&mut bytes, datagram.asks)?;
    Ok(bytes)
}

/// The bytes before the message ID.
fn header_of(asks: Asks) -> &'static [u8]
    ensures { result.now ≡ header_of asks }
{
    match asks {
        Asks::ConfirmableGet => b"\x40\x01",
        Asks::ConfirmablePut(_) => b"\x40\x03",
        Asks::NonConfirmableGet => b"\x50\x01",
    }
}

/// Puts what follows the path at the end.
fn put_body(bytes: &mut Bytes, asks: Asks) -> Result<(), NoMemory>
    ensures is { OnOk result (bytes.new ≡ bytes.old ++ body_of asks) }
    ensures short { OnOk result (length bytes.new ≤ length bytes.old + 43) }
{
    let Asks::ConfirmablePut(status) = asks else {
        return Ok(());
    };
    let mut buffer = Buffer::new();
    bytes.extend(JSON_AND_MARKER)?;
    bytes.extend(buffer.format(status).as_bytes())
}
