//! Outcomes over HTTP, each the answer to a POST request: the name of an outcome, its content after a colon, and the
//! bytes that are sent.

ghost use Rattle.std.specs.Prelude.{◌<◌};
ghost use Rattle.http_bind.specs.Slots.{IsOwed};

use crate::outcomes::{copied, number_in, outcome_of};
use cases_notation::{bytes_of, put_plain_runs};
use http_bind::{HttpBind, HttpNext, HttpOut, new_room};
use std::alloc::{AllocError, Global};
use thing_ops::{Outcome, Segments};
use wot_json::Text;

/// An action that was started at the path of one segment, with the status 1.
fn started_at(alloc: Global, segment: &[u8]) -> Result<Outcome, AllocError> {
    let mut place = Segments::new(alloc);
    place.push(segment)?;
    Ok(Outcome::Started(place, copied(alloc, "1")?))
}

/// A new entry of the directory, of an id that it chose unless that is empty.
fn created(alloc: Global, id: &str) -> Result<Outcome, AllocError> {
    if id.is_empty() {
        return Ok(Outcome::Created(None));
    }
    Ok(Outcome::Created(Some(Text::copy_of(alloc, id)?)))
}

/// The outcome of a request, also of those that HTTP alone has.
fn any_outcome_of(alloc: Global, word: &str) -> Result<Outcome, AllocError> {
    let (name, carried) = word.split_once(':').unwrap_or((word, ""));
    match name {
        "StartedAt" => started_at(alloc, bytes_of(alloc, carried)?.as_slice()),
        "Created" => created(alloc, carried),
        "Listed" => Ok(Outcome::Listed(copied(alloc, carried)?)),
        "Invalid" => Ok(Outcome::Invalid(u8::try_from(number_in(carried)).unwrap_or(0))),
        "IdDiffers" => Ok(Outcome::IdDiffers),
        "HasId" => Ok(Outcome::HasId),
        "BadTtl" => Ok(Outcome::BadTtl),
        "DirectoryFull" => Ok(Outcome::DirectoryFull),
        _ => outcome_of(alloc, word),
    }
}

/// Writes the bytes that are sent, or that the request waits.
pub fn put_out(text: &mut String, out: &HttpOut<'_>) -> Result<(), AllocError> {
    if out.waits {
        text.push_str("waits")?;
    }
    put_plain_runs(text, out.head)?;
    put_plain_runs(text, out.body)?;
    if out.close {
        text.push_str("<closed>")?;
    }
    Ok(())
}

/// Writes the bytes that are sent for an outcome on an open connection.
fn put_answer(
    text: &mut String,
    http: &mut HttpBind,
    c: u32,
    outcome: &Outcome,
) -> Result<(), AllocError>
    requires connection { c < 64 }
    requires owed { IsOwed c http.old }
{
    let mut out = [0; 4096];
    let mut word = [0; 32];
    put_out(text, &http.answered(c, outcome, 0, &mut out, &mut word))
}

/// Writes the bytes that are sent for an outcome of the request that a new connection brings.
fn put_reply(
    text: &mut String,
    alloc: Global,
    http: &mut HttpBind,
    outcome: &Outcome,
) -> Result<(), AllocError> {
    let mut room = new_room(alloc)?;
    http.opened(0, 0);
    http.bytes(0, b"POST /a HTTP/1.1\r\nHost: h\r\n\r\n", 0);
    match http.next(0, room.as_mut_slice()) {
        HttpNext::Ask(_) => put_answer(text, http, 0, outcome),
        _ => text.push_str("no request"),
    }
}

/// The same with a server of its own.
fn put_outcome(text: &mut String, alloc: Global, outcome: &Outcome) -> Result<(), AllocError> {
    let mut http = HttpBind::new(alloc)?;
    put_reply(text, alloc, &mut http, outcome)
}

pub fn put(text: &mut String, alloc: Global, given: &str) -> Result<(), AllocError> {
    put_outcome(text, alloc, &any_outcome_of(alloc, given)?)
}
