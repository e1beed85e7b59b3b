//! The request that a message asks for (RFC 9110, sections 7.1 and 9; RFC 9112, section 3).

ghost use Rattle.std.specs.Prelude.{◌≡◌, ◌≤◌, ◌+◌, ◌⊎◌, length, None, IfOk, IfErr, IsSome};
ghost use Rattle.http_wire.specs.Judging.{longest_body};
ghost use Rattle.http_wire.specs.Stream.{longest_head};
ghost use Rattle.http_wire.specs.Reading.{verb_of as verb_named, asked, request_in, IsRead};
ghost use Rattle.http_wire.specs.Scanned.{plain_head};
ghost use Rattle.http_wire.specs.declared.target.TargetFault.TheVariants.{BadTarget, NoMemory as no_memory};

use crate::target::segments;
use crate::{Head, TargetFault};
use http_fields::Body;
use std::alloc::Global;
use thing_ops::{Accept, Conditions, Format, Request, Segments, Verb};

/// The parts of a request, but for its query and its body, which lie in a buffer, one after the other, so that they
/// take no memory.
#[derive(Drop)]
pub struct RequestParts {
    /// Its verb.
    pub verb: Verb,
    /// Its path.
    pub path: Segments,
    /// The types that its sender takes.
    pub accept: Accept,
    /// The format of its body.
    pub format: Format,
    /// The conditions that it makes on the version of a property.
    pub conditions: Conditions,
    /// The number of bytes of its query.
    pub query_length: usize,
    /// The number of bytes of its body.
    pub body_length: usize,
}

/// The request of a message. Its query and its body are written to the beginning of `room`, one after the other; the
/// caller asks that there is room and that both are as short as `scan` says.
pub fn request_of(
    alloc: Global,
    head: &Head<'_>,
    body: &Body<'_>,
    room: &mut [u8],
) -> Result<RequestParts, TargetFault>
    requires room { longest_head + longest_body ≤ length room.old }
    requires target { length head.now.target.now ≤ longest_head }
    requires body { length body.now ≤ longest_body }
    ensures ok { IfOk result (λ p. IsRead (plain_head head.now) body.now room.new p) }
    ensures fault { IfErr result (λ e. ((e ≡ BadTarget) × (asked (plain_head head.now) body.now ≡ None))
        ⊎ ((e ≡ no_memory) × IsSome (asked (plain_head head.now) body.now))) }
{
    let (path, place) = segments(alloc, head.target)?;
    let verb = verb_of(head.method);
    let conditions = head.conditions(alloc, verb)?;
    let query = &head.target[place..];
    let (query_length, body_length) = (query.len(), body.length());
    room[..query_length].copy_from_slice(query);
    body.copy_to(&mut room[query_length..query_length + body_length]);
    Ok(RequestParts {
        verb,
        path,
        accept: head.accept,
        format: head.format,
        conditions,
        query_length,
        body_length,
    })
}

/// The verb of a method. Its name is taken in the case in which it came, since methods are case-sensitive (RFC 9110,
/// section 9.1).
pub fn verb_of(method: &[u8]) -> Verb
    ensures { result ≡ verb_named method.now }
{
    if method == b"GET".as_slice() {
        Verb::Get
    } else if method == b"HEAD".as_slice() {
        Verb::Head
    } else if method == b"PUT".as_slice() {
        Verb::Put
    } else if method == b"POST".as_slice() {
        Verb::Post
    } else if method == b"PATCH".as_slice() {
        Verb::Patch
    } else if method == b"DELETE".as_slice() {
        Verb::Delete
    } else {
        Verb::Other
    }
}

impl RequestParts {
    ghost use Rattle.thing_ops.specs.Requests.{request_seen};

    /// The request with its query and body, which lie at the beginning of `room`.
    pub fn request_in(self, room: &[u8]) -> Request<'_>
        requires { self.query_length + self.body_length ≤ length room.now }
        ensures { request_seen result ≡ request_in self room.now }
    {
        let RequestParts {
            verb,
            path,
            accept,
            format,
            conditions,
            query_length,
            body_length,
        } = self;
        let (query, behind) = room.split_at(query_length);
        Request {
            verb,
            path,
            query,
            accept,
            format,
            body: &behind[..body_length],
            conditions,
        }
    }
}
