//! The formats in which answers are sent and bodies are taken, and the refusals of a request for its formats.

ghost use Rattle.std.specs.Prelude.{◌≡◌, OnOk, IfErr};
ghost use Rattle.thing_ops.specs.Requests.{request_seen};
ghost use Rattle.thing_site.specs.Refusals as refusal;
ghost use Rattle.thing_site.specs.HandedIn.{AreFormatsTaken, AreFormatsRefused};

use thing_ops::{Format, Outcome, Request};

/// The formats in which the answer of an act can be sent.
#[derive(Clone, Copy, Debug, PartialEq, Eq, Drop)]
pub enum AnswerFormat {
    /// As anything: it has no text that a sender would have to take.
    Any,
    /// A value, as `application/json`.
    Json,
    /// A description, as `application/json` or as `application/td+json`.
    Description,
}

/// The formats in which the body of an act is taken. `application/json` is taken everywhere; a body that names no
/// format is of that one.
#[derive(Clone, Copy, Debug, PartialEq, Eq, Drop)]
pub enum BodyFormat {
    /// As that alone.
    Json,
    /// A description, as `application/td+json` too.
    Description,
    /// A merge patch, as `application/merge-patch+json` too (RFC 7396).
    Patch,
}

/// Judges a request by the formats that an act asks for: its sender takes the answer, and its body, if it has one, is
/// in a format that is taken.
pub fn judge_formats(
    answer: AnswerFormat,
    body: BodyFormat,
    request: &Request<'_>,
) -> Result<(), Outcome>
    ensures ok { OnOk result (AreFormatsTaken answer body (request_seen request.now)) }
    ensures fault { IfErr result (λ o. AreFormatsRefused answer body (request_seen request.now) o) }
{
    let is_acceptable = match answer {
        AnswerFormat::Any => true,
        AnswerFormat::Json => request.accept.json,
        AnswerFormat::Description => request.accept.json || request.accept.td,
    };
    if !is_acceptable {
        return Err(Outcome::NotAcceptable);
    }
    let is_taken = match (body, request.format) {
        (_, Format::Absent | Format::Json) => true,
        (BodyFormat::Description, Format::Td) => true,
        (BodyFormat::Patch, Format::Patch) => true,
        _ => false,
    };
    if !is_taken && !request.body.is_empty() {
        return Err(Outcome::Format);
    }
    Ok(())
}
