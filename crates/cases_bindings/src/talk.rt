//! The talk of an HTTP server with one value on its connections. The value is 7 at first: GET reads it, or gives the
//! query where there is one, PUT writes it, POST changes nothing, and no other method is taken. A request to a path of
//! two segments of which the first is `waits` waits for the target whose number is the second, a digit; of one whose
//! first segment is `versions` the second says the version of the value.
//!
//! The room in which requests are read is lent to all functions here, since to take it anew for each message costs more
//! than all else.

ghost use Rattle.std.specs.Prelude.{◌≡◌, ◌<◌, ◌≤◌, ◌⊎◌, Ok, false, IsSome, OnOk, length, IfSome};
ghost use Rattle.http_bind.specs.Replying.{fault_word};
ghost use Rattle.http_bind.specs.Slots.{HasRoom, IsOwed, IsWaiting, longest_text};

use crate::outcomes::property_verbs;
use http_bind::{HttpBind, HttpNext, HttpOut};
use std::alloc::{AllocError, Global};
use thing_ops::{Outcome, Request, Verb};
use wot_json::Bytes;

/// The value, the bytes that were sent, and the moment.
#[derive(Drop)]
pub struct Talk {
    pub alloc: Global,
    value: Vec<u8>,
    pub sent: Vec<u8>,
    pub now: u64,
}

impl Talk {
    /// No value yet, and nothing sent.
    pub fn new(alloc: Global) -> Talk {
        Talk {
            alloc,
            value: Vec::new(alloc),
            sent: Vec::new(alloc),
            now: 0,
        }
    }

    /// The first value, and nothing sent.
    pub fn begin(&mut self) -> Result<(), AllocError> {
        self.sent.clear();
        self.value.clear();
        self.value.extend_from_slice(b"7")
    }

    /// Writes the value.
    fn write(&mut self, value: &[u8]) -> Result<(), AllocError> {
        self.value.clear();
        self.value.extend_from_slice(value)
    }

    /// Puts down that a connection is closed.
    fn close(&mut self) -> Result<(), AllocError> {
        self.sent.extend_from_slice(b"<closed>")
    }

    /// Puts down a message that is sent.
    fn send(&mut self, out: &HttpOut<'_>) -> Result<(), AllocError> {
        self.sent.extend_from_slice(out.head)?;
        self.sent.extend_from_slice(out.body)?;
        if out.close {
            self.close()?;
        }
        Ok(())
    }
}

/// The target that a request waits for, if it waits.
fn target_of(request: &Request<'_>) -> Option<u32> {
    if request.path.get(0) != Some(b"waits".as_slice()) {
        return None;
    }
    match request.path.get(1) {
        Some([digit]) => Some(u32::from(*digit).saturating_sub(u32::from(b'0'))),
        _ => None,
    }
}

/// The version that the value has for a request, if it has one.
fn version_of(request: &Request<'_>) -> Option<u32> {
    if request.path.get(0) != Some(b"versions".as_slice()) {
        return None;
    }
    let digits = request.path.get(1)?;
    str::from_utf8(digits).ok()?.parse::<u32>().ok()
}

/// The outcome of a request.
fn perform(request: &Request<'_>, talk: &mut Talk) -> Result<Outcome, AllocError> {
    match target_of(request) {
        Some(target) => Ok(Outcome::Wait(target)),
        None => judge(request, talk),
    }
}

/// The outcome by a request's conditions on the version, if there is one, and else by the value.
fn judge(request: &Request<'_>, talk: &mut Talk) -> Result<Outcome, AllocError> {
    let tag = version_of(request);
    match tag {
        Some(version) if is_refused(request, version) => Ok(Outcome::PreconditionFailed),
        Some(version) if reads(request) && request.conditions.known.has(version) => {
            Ok(Outcome::NotModified(version))
        }
        _ => perform_on_value(request, tag, talk),
    }
}

/// Whether a request only reads.
fn reads(request: &Request<'_>) -> bool {
    matches!(request.verb, Verb::Get | Verb::Head)
}

/// Whether the version fails the conditions of a request.
fn is_refused(request: &Request<'_>, version: u32) -> bool {
    if reads(request) {
        request.conditions.fails(version)
    } else {
        request.conditions.fails_to_write(version)
    }
}

/// The outcome of a request for the one value.
fn perform_on_value(
    request: &Request<'_>,
    tag: Option<u32>,
    talk: &mut Talk,
) -> Result<Outcome, AllocError> {
    match request.verb {
        Verb::Get | Verb::Head => {
            let text = if request.query.is_empty() {
                talk.value.as_slice()
            } else {
                request.query
            };
            Ok(Outcome::Content {
                text: Bytes::copy_of(talk.alloc, text)?,
                tag,
            })
        }
        Verb::Put => {
            talk.write(request.body)?;
            Ok(Outcome::Changed)
        }
        Verb::Post => Ok(Outcome::Changed),
        Verb::Patch | Verb::Delete | Verb::Other => Ok(Outcome::NotAllowed(property_verbs())),
    }
}

/// Puts down the refusal of a message on a connection, or the 100 reply.
fn refuse(http: &mut HttpBind, c: u32, status: u16, talk: &mut Talk) -> Result<(), AllocError>
    requires connection { c < 64 }
    requires status { (status ≡ 100) ⊎ IsSome (fault_word status) }
{
    let mut out = [0; 4096];
    let mut word = [0; 32];
    talk.send(&http.refused(c, status, &mut out, &mut word))
}

/// Puts down the reply to a request with this outcome.
fn answer(http: &mut HttpBind, c: u32, outcome: &Outcome, talk: &mut Talk) -> Result<(), AllocError>
    requires connection { c < 64 }
    requires owed { IsOwed c http.old }
{
    let mut out = [0; 4096];
    let mut word = [0; 32];
    talk.send(&http.answered(c, outcome, talk.now, &mut out, &mut word))
}

/// Puts down the reply to a request that waits.
pub fn wake(
    http: &mut HttpBind,
    c: u32,
    text: Option<&[u8]>,
    talk: &mut Talk,
) -> Result<(), AllocError>
    requires waits { IsWaiting c http.old }
    requires text { IfSome text (λ t. length t.now ≤ longest_text) }
{
    let mut out = [0; 4096];
    talk.send(&http.woken(c, text, talk.now, &mut out))
}

/// Does the next work on a connection; false where there is none.
fn turn(http: &mut HttpBind, c: u32, talk: &mut Talk, room: &mut [u8]) -> Result<bool, AllocError>
    requires connection { c < 64 }
    requires room { 24576 ≤ length room.old }
    ensures { result ≡ Ok false → HasRoom c http.new }
{
    match http.next(c, room) {
        HttpNext::Idle => return Ok(false),
        HttpNext::Continue => refuse(http, c, 100, talk)?,
        HttpNext::Refuse(status) => refuse(http, c, status, talk)?,
        HttpNext::Ask(request) => {
            let outcome = perform(&request, talk)?;
            answer(http, c, &outcome, talk)?;
        }
        HttpNext::Memory => return Err(AllocError),
        HttpNext::Close => talk.close()?,
    }
    Ok(true)
}

/// Does the work on a connection, until none is left; more than 16 messages count as being out of memory.
pub fn handle(
    http: &mut HttpBind,
    c: u32,
    talk: &mut Talk,
    room: &mut [u8],
) -> Result<(), AllocError>
    requires connection { c < 64 }
    requires room { 24576 ≤ length room.old }
    ensures { OnOk result (HasRoom c http.new) }
{
    for _ in 0..16 {
        if !turn(http, c, talk, room)? {
            return Ok(());
        }
    }
    Err(AllocError)
}
