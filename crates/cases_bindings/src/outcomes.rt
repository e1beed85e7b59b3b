//! Outcomes of requests, by words: the name of an outcome, and its content after a colon. `Tagged:2:7` is the value 7
//! whose version is 2.

ghost use Rattle.std.specs.Prelude.{IfOk};
ghost use Rattle.thing_ops.specs.Outcomes.{HasCode};
ghost use Rattle.coap_bind.specs.Laws.{HasShortPlace};

use cases_notation::{bytes_of, number};
use std::alloc::{AllocError, Global};
use std::fmt::Write;
use thing_ops::{Allow, Outcome, Segments};
use wot_json::Bytes;

/// The bytes of a text.
pub fn copied(alloc: Global, text: &str) -> Result<Bytes, AllocError> {
    let bytes = bytes_of(alloc, text)?;
    Ok(Bytes::copy_of(alloc, bytes.as_slice())?)
}

/// The status of an invocation of this digit.
fn status_of(alloc: Global, id: &str) -> Result<Bytes, AllocError> {
    let mut text = String::new(alloc);
    write!(text, "{{\"id\":{id},\"status\":\"running\"}}")?;
    Ok(Bytes::copy_of(alloc, text.as_str().as_bytes())?)
}

/// The action of the lamp that runs as the invocation of this digit.
fn started(alloc: Global, id: &str) -> Result<Outcome, AllocError>
    ensures { IfOk result (λ o. HasCode o × HasShortPlace o) }
{
    let status = if id.len() == 1 {
        status_of(alloc, id)?
    } else {
        Bytes::new(alloc)
    };
    if status.len() > 100 || id.len() > 255 {
        return Ok(Outcome::Memory);
    }
    let mut place = Segments::new(alloc);
    place.push(b"lamp")?;
    place.push(b"actions")?;
    place.push(b"fade")?;
    place.push(id.as_bytes())?;
    Ok(Outcome::Started(place, status))
}

/// The number that an outcome carries.
pub fn number_in(text: &str) -> u16 {
    u16::try_from(number(Some(text))).unwrap_or(0)
}

/// The version of these digits.
fn version_in(digits: &str) -> u32 {
    digits.parse::<u32>().unwrap_or(0)
}

/// A value and its version.
fn tagged(alloc: Global, carried: &str) -> Result<Outcome, AllocError>
    ensures { IfOk result (λ o. HasCode o × HasShortPlace o) }
{
    let (version, text) = carried.split_once(':').unwrap_or(("0", carried));
    Ok(Outcome::Content {
        text: copied(alloc, text)?,
        tag: Some(version_in(version)),
    })
}

/// The verbs of a property that is read and written.
pub fn property_verbs() -> Allow {
    Allow {
        get: true,
        head: true,
        put: true,
        post: false,
        patch: false,
        delete: false,
    }
}

/// An outcome that carries no bytes; any other word is Memory.
fn plain(name: &str, carried: &str) -> Outcome
    ensures code { HasCode result }
    ensures place { HasShortPlace result }
{
    match name {
        "NotModified" => Outcome::NotModified(version_in(carried)),
        "Empty" => Outcome::Empty,
        "Changed" => Outcome::Changed,
        "Deleted" => Outcome::Deleted,
        "Wait" => Outcome::Wait(0),
        "NotFound" => Outcome::NotFound,
        "NotAllowed" => Outcome::NotAllowed(property_verbs()),
        "NotAcceptable" => Outcome::NotAcceptable,
        "Format" => Outcome::Format,
        "BadValue" => Outcome::BadValue,
        "TooLarge" => Outcome::TooLarge,
        "PreconditionFailed" => Outcome::PreconditionFailed,
        "Refused" => Outcome::Refused(number_in(carried)),
        "DeviceFault" => Outcome::DeviceFault(number_in(carried)),
        "BadAnswer" => Outcome::BadAnswer,
        "InvocationsFull" => Outcome::InvocationsFull,
        "CallsUsed" => Outcome::CallsUsed,
        _ => Outcome::Memory,
    }
}

/// The outcome of a request.
pub fn outcome_of(alloc: Global, word: &str) -> Result<Outcome, AllocError>
    ensures { IfOk result (λ o. HasCode o × HasShortPlace o) }
{
    let (name, carried) = word.split_once(':').unwrap_or((word, ""));
    match name {
        "Content" => Ok(Outcome::Content {
            text: copied(alloc, carried)?,
            tag: None,
        }),
        "Tagged" => tagged(alloc, carried),
        "Output" => Ok(Outcome::Output(copied(alloc, carried)?)),
        "Td" => Ok(Outcome::Description(copied(alloc, carried)?, true)),
        "Description" => Ok(Outcome::Description(copied(alloc, carried)?, false)),
        "Started" => started(alloc, carried),
        _ => Ok(plain(name, carried)),
    }
}
