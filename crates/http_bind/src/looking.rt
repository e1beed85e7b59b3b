//! The front of the bytes that are held, with the request that it asks for.

ghost use Rattle.std.specs.Prelude.{◌≡◌, ◌≤◌, ◌&&◌, not, length};
ghost use Rattle.http_wire.specs.Scanned.{front_of};
ghost use Rattle.http_bind.specs.Streams.{expected};
ghost use Rattle.http_bind.specs.Looking.{room_size, Shows, IsWithin};

use crate::owed::Owed;
use http_wire::{BAD_REQUEST, Head, RequestParts, Scanned, TargetFault, request_of, scan, verb_of};
use std::alloc::Global;
use thing_ops::Verb;

/// A step of a connection past a message.
#[derive(Clone, Copy, Drop)]
pub struct MessageStep {
    /// The number of bytes of the message.
    pub used: usize,
    /// The reply that is owed to it.
    pub owed: Owed,
}

/// The front of the bytes that are held.
#[derive(Drop)]
pub enum HeldFront {
    /// Nothing that can be taken.
    Nothing,
    /// Bytes behind a request that isn't replied to yet.
    Interrupted,
    /// A message that asks for a 100 reply, which wasn't sent.
    Continue,
    /// A fault with this status.
    Fault(u16),
    /// A request, if there is memory for its path.
    Message(MessageStep, Option<RequestParts>),
}

/// Reads the front of these bytes, where the 100 reply was sent or wasn't. The query and the body of a request are
/// written into `room`.
pub fn look(alloc: Global, bytes: &[u8], continued: bool, room: &mut [u8]) -> HeldFront
    requires { room_size ≤ length room.old }
    ensures shows { Shows continued bytes.now result room.new }
    ensures within { IsWithin (length bytes.now) result }
{
    let scanned = scan(bytes);
    if wants_continue(&scanned, continued) {
        return HeldFront::Continue;
    }
    match &scanned {
        Scanned::Short { expect: _ } => HeldFront::Nothing,
        Scanned::Fault { status, expect: _ } => HeldFront::Fault(*status),
        Scanned::Whole {
            head,
            body,
            used,
            expect: _,
        } => {
            let step = MessageStep {
                used: *used,
                owed: Owed {
                    bodiless: verb_of(head.method) == Verb::Head,
                    closes: head.close,
                },
            };
            match request_of(alloc, head, body, room) {
                Ok(parts) => HeldFront::Message(step, Some(parts)),
                Err(TargetFault::BadTarget) => HeldFront::Fault(BAD_REQUEST),
                // Taken also where memory is out, since a reply is owed to it.
                Err(TargetFault::NoMemory) => HeldFront::Message(step, None),
            }
        }
    }
}

/// Says whether the 100 reply goes out. It is a function because the prover forgets at the end of a `match` what was matched.
fn wants_continue(scanned: &Scanned<'_>, continued: bool) -> bool
    ensures { result ≡ (expected (front_of scanned.now) && not continued) }
{
    match scanned {
        Scanned::Short { expect }
        | Scanned::Fault { status: _, expect }
        | Scanned::Whole {
            head: _,
            body: _,
            used: _,
            expect,
        } => *expect && !continued,
    }
}
