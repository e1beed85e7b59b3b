//! The answers to outcomes: HTTP status, CoAP code, and the payload, which is the text that an outcome carries or its
//! word.

use crate::paths::{path_of, put_path};
use crate::routes::put_line;
use cases_notation::{number, put};
use std::alloc::{AllocError, Global};
use std::fmt::Write;
use thing_ops::{Allow, LONGEST_WORD, Outcome, coap_code, http_status, word};
use wot_json::{Bytes, Text};

/// The verbs of a property that is read-only.
const READ: Allow = Allow {
    get: true,
    head: true,
    put: false,
    post: false,
    patch: false,
    delete: false,
};

/// The outcome of a word alone; `Memory` for any other word.
fn plain(word: &str) -> Outcome {
    match word {
        "Empty" => Outcome::Empty,
        "Changed" => Outcome::Changed,
        "Deleted" => Outcome::Deleted,
        "Created" => Outcome::Created(None),
        "NotFound" => Outcome::NotFound,
        "NotAllowed" => Outcome::NotAllowed(READ),
        "NotAcceptable" => Outcome::NotAcceptable,
        "Format" => Outcome::Format,
        "BadValue" => Outcome::BadValue,
        "TooLarge" => Outcome::TooLarge,
        "PreconditionFailed" => Outcome::PreconditionFailed,
        "BadAnswer" => Outcome::BadAnswer,
        "InvocationsFull" => Outcome::InvocationsFull,
        "CallsUsed" => Outcome::CallsUsed,
        "IdDiffers" => Outcome::IdDiffers,
        "HasId" => Outcome::HasId,
        "BadTtl" => Outcome::BadTtl,
        "DirectoryFull" => Outcome::DirectoryFull,
        _ => Outcome::Memory,
    }
}

/// The outcome of a word and a number, if the word has one.
fn numbered(word: &str, number: u64) -> Option<Outcome> {
    let wide = u32::try_from(number).unwrap_or(0);
    let middle = u16::try_from(number).unwrap_or(0);
    let small = u8::try_from(number).unwrap_or(0);
    match word {
        "NotModified" => Some(Outcome::NotModified(wide)),
        "Wait" => Some(Outcome::Wait(wide)),
        "Refused" => Some(Outcome::Refused(middle)),
        "DeviceFault" => Some(Outcome::DeviceFault(middle)),
        "Invalid" => Some(Outcome::Invalid(small)),
        _ => None,
    }
}

/// The outcome of a path and a text.
fn started(alloc: Global, rest: &str) -> Result<Outcome, AllocError> {
    let (place, text) = rest.split_once(' ').unwrap_or((rest, ""));
    let bytes = Bytes::copy_of(alloc, text.as_bytes())?;
    Ok(Outcome::Started(path_of(alloc, place)?, bytes))
}

/// The outcome of a word and a text.
fn carrying(alloc: Global, word: &str, rest: &str) -> Result<Outcome, AllocError> {
    let bytes = Bytes::copy_of(alloc, rest.as_bytes())?;
    Ok(match word {
        "Content" => Outcome::Content {
            text: bytes,
            tag: None,
        },
        "Description" => Outcome::Description(bytes, true),
        "Output" => Outcome::Output(bytes),
        _ => Outcome::Listed(bytes),
    })
}

/// The outcome of a row.
fn outcome_of(alloc: Global, given: &str) -> Result<Outcome, AllocError> {
    let Some((word, rest)) = given.split_once(' ') else {
        return Ok(plain(given));
    };
    if let Some(outcome) = numbered(word, number(Some(rest))) {
        return Ok(outcome);
    }
    match word {
        "Created" => Ok(Outcome::Created(Some(Text::copy_of(alloc, rest)?))),
        "Started" => started(alloc, rest),
        _ => carrying(alloc, word, rest),
    }
}

/// The status, where there is one.
fn status_of(outcome: &Outcome) -> Option<u16> {
    match outcome {
        Outcome::Wait(_) => None,
        _ => Some(http_status(outcome)),
    }
}

/// The code, where there is one.
fn code_of(outcome: &Outcome) -> Option<u8> {
    match outcome {
        Outcome::Created(_)
        | Outcome::Listed(_)
        | Outcome::Invalid(_)
        | Outcome::IdDiffers
        | Outcome::HasId
        | Outcome::BadTtl
        | Outcome::DirectoryFull => None,
        _ => Some(coap_code(outcome)),
    }
}

/// Writes the status and the code, `-` where there is none.
fn put_codes(text: &mut String, outcome: &Outcome) -> Result<(), AllocError> {
    match status_of(outcome) {
        Some(status) => write!(text, "{status} ")?,
        None => text.push_str("- ")?,
    }
    match code_of(outcome) {
        Some(code) => write!(text, "{}.{:02} ", code / 32, code % 32),
        None => text.push_str("- "),
    }
}

/// Writes the word.
fn put_word(text: &mut String, outcome: &Outcome) -> Result<(), AllocError> {
    let mut out = [b'.'; LONGEST_WORD];
    let count = word(outcome, &mut out);
    put(text, out.get(..count).unwrap_or(b"too long"))
}

/// Writes the parts of an outcome besides its payload.
fn put_further(text: &mut String, outcome: &Outcome) -> Result<(), AllocError> {
    match outcome {
        Outcome::Started(place, _) => {
            text.push_str("; at ")?;
            put_path(text, place)
        }
        Outcome::NotAllowed(allow) => {
            text.push_str("; allow ")?;
            put_line(text, *allow)
        }
        Outcome::Content { tag: Some(tag), .. } => write!(text, "; tag {tag}"),
        Outcome::NotModified(tag) => write!(text, "; tag {tag}"),
        Outcome::Wait(target) => write!(text, "; waits for {target}"),
        Outcome::Description(_, true) => text.push_str("; as td"),
        Outcome::Created(Some(id)) => write!(text, "; id {id}"),
        _ => Ok(()),
    }
}

/// Writes the answer to an outcome.
///
/// # Errors
///
/// Out of memory alone.
pub fn put_answer(text: &mut String, outcome: &Outcome) -> Result<(), AllocError> {
    put_codes(text, outcome)?;
    match outcome.text() {
        Some(payload) => put(text, payload)?,
        None => put_word(text, outcome)?,
    }
    put_further(text, outcome)
}

/// Writes the answer to the outcome of a row; its word and its text apart.
///
/// # Errors
///
/// Out of memory alone.
pub fn put_row(text: &mut String, alloc: Global, given: &str) -> Result<(), AllocError> {
    let outcome = outcome_of(alloc, given)?;
    put_codes(text, &outcome)?;
    put_word(text, &outcome)?;
    text.push_str(" ")?;
    match outcome.text() {
        Some(payload) => put(text, payload)?,
        None => text.push_str("none")?,
    }
    put_further(text, &outcome)
}
