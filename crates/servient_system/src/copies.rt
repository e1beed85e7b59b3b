//! Bytes that are copied from what is played into a buffer, and from there into the record.

ghost use Rattle.std.specs.Prelude.{◌≡◌, ◌≤◌, ◌++◌, IfOk, length};
ghost use Rattle.servient_system.specs.System.{bytes_read, datagram_received};

use crate::{Arrived, Asked, ReceivedDatagram, Refusal};
use servient_base::NoMemory;
use std::alloc::Global;
use wot_json::Bytes;

/// Puts bytes at the beginning of a buffer, as far as they fit, and gives the number of those that did.
fn put_in(buffer: &mut [u8], bytes: &[u8]) -> usize
    ensures { result ≤ length buffer.old }
{
    let count = bytes.len().min(buffer.len());
    buffer[..count].copy_from_slice(&bytes[..count]);
    count
}

/// The answer of a read that is played.
pub fn read_in(asked: &Asked, buffer: &mut [u8]) -> Result<usize, Refusal>
    ensures { IfOk result (λ count. count ≤ length buffer.old) }
{
    match asked {
        Asked::Read(_, Ok(bytes)) => Ok(put_in(buffer, bytes.as_slice())),
        Asked::Read(_, Err(refusal)) => Err(*refusal),
        _ => Err(Refusal::NotNow),
    }
}

/// The answer of a call that receives a datagram.
pub fn received_in(asked: &Asked, buffer: &mut [u8]) -> Result<Arrived, Refusal>
    ensures { IfOk result (λ arrived. arrived.count ≤ length buffer.old) }
{
    match asked {
        Asked::Received(Ok(datagram)) => Ok(Arrived {
            from: datagram.from,
            count: put_in(buffer, datagram.bytes.as_slice()),
        }),
        Asked::Received(Err(refusal)) => Err(*refusal),
        _ => Err(Refusal::NotNow),
    }
}

/// The answer of a write of so many bytes: one that takes all of them, unless another is played.
pub fn written_in(asked: &Asked, count: usize) -> Result<usize, Refusal>
    ensures { IfOk result (λ taken. taken ≤ count) }
{
    match asked {
        Asked::Wrote(_, _, Ok(taken)) => Ok((*taken).min(count)),
        Asked::Wrote(_, _, Err(refusal)) => Err(*refusal),
        _ => Ok(count),
    }
}

/// The bytes of a read, as they are recorded.
pub fn copy_read(
    alloc: Global,
    answer: Result<usize, Refusal>,
    buffer: &[u8],
) -> Result<Result<Bytes, Refusal>, NoMemory>
    requires { IfOk answer (λ count. count ≤ length buffer.now) }
    ensures { IfOk result (λ read. read ≡ bytes_read answer buffer.now) }
{
    match answer {
        Ok(count) => {
            let bytes = Bytes::copy_of(alloc, &buffer[..count])?;
            Ok(Ok(bytes))
        }
        Err(refusal) => Ok(Err(refusal)),
    }
}

/// The datagram that was received, as it is recorded.
pub fn copy_received(
    alloc: Global,
    answer: Result<Arrived, Refusal>,
    buffer: &[u8],
) -> Result<Result<ReceivedDatagram, Refusal>, NoMemory>
    requires { IfOk answer (λ arrived. arrived.count ≤ length buffer.now) }
    ensures { IfOk result (λ received. received ≡ datagram_received answer buffer.now) }
{
    match answer {
        Ok(arrived) => {
            let bytes = Bytes::copy_of(alloc, &buffer[..arrived.count])?;
            Ok(Ok(ReceivedDatagram {
                from: arrived.from,
                bytes,
            }))
        }
        Err(refusal) => Ok(Err(refusal)),
    }
}

/// Two pieces, one after the other.
pub fn join(alloc: Global, head: &[u8], body: &[u8]) -> Result<Bytes, NoMemory>
    ensures { IfOk result (λ bytes. bytes ≡ head.now ++ body.now) }
{
    let mut bytes = Vec::from_slice(alloc, head)?;
    bytes.extend_from_slice(body)?;
    Ok(Bytes::from_vec(bytes))
}
