//! The verdict on an answer, and the bytes of the connection on which it comes.

ghost use Rattle.std.specs.Prelude.{◌≡◌, ◌/◌, IfOk, true};
ghost use Rattle.network_consumer.specs.Answers.{is_success as is_success_status, AnswersAs, CanBeAsked, CanBeJudged, LinksComeTo, ReceivesAs, ScansAs, SucceedsAs, ValueComesTo};

use crate::judgement::{Judged, judge_payload};
use crate::{ClientTask, ConsumedOutcome, Purpose, Status, ThingOperation};
use http_wire::{Body, ReplyScan, scan_reply};
use servient_base::NoMemory;
use std::alloc::Global;
use wot_consumer::things_in;
use wot_json::Bytes;

/// The verdict on an answer.
#[derive(Debug, Drop)]
pub enum Verdict {
    /// The operation is done, and this is the payload.
    Payload(Bytes),
    /// The links were read, and these are the lines of the Things to which they lead.
    Lines(Bytes),
    Outcome(ConsumedOutcome),
    /// Out of memory.
    NoMemory,
}

/// The verdict on these bytes of a connection, which has ended or goes on; nothing while the reply may still come.
pub fn receive(task: &ClientTask<'_>, received: &[u8], ended: bool) -> Option<Verdict>
    requires { CanBeJudged task.now.purpose }
    ensures { ReceivesAs task.now.purpose ended received.now result }
{
    scanned(task, scan_reply(received, ended), ended)
}

/// The verdict on a scan.
fn scanned(task: &ClientTask<'_>, scan: ReplyScan<'_>, ended: bool) -> Option<Verdict>
    requires { CanBeJudged task.now.purpose }
    ensures { ScansAs task.now.purpose ended scan.entry result }
{
    match scan {
        ReplyScan::Short => {
            if ended {
                Some(Verdict::Outcome(ConsumedOutcome::Closed))
            } else {
                None
            }
        }
        ReplyScan::Whole { status, body } => Some(answer(task, status, &body)),
        ReplyScan::Fault => Some(Verdict::Outcome(ConsumedOutcome::Malformed)),
        ReplyScan::TooLong => Some(Verdict::Outcome(ConsumedOutcome::Long)),
    }
}

/// The verdict on an answer over HTTP with this status and this body.
fn answer(task: &ClientTask<'_>, status: u16, body: &Body<'_>) -> Verdict
    requires { CanBeJudged task.now.purpose }
    ensures { AnswersAs task.now.purpose (Status.Http status) body.now result }
{
    let status = Status::Http(status);
    if !is_success(status) {
        return Verdict::Outcome(ConsumedOutcome::Status(status));
    }
    match payload_of(task.alloc, body) {
        Ok(payload) => judge(task, status, payload),
        Err(_) => Verdict::NoMemory,
    }
}

/// The verdict on an answer over CoAP with this code and this payload.
pub fn answer_message(task: &ClientTask<'_>, code: u8, payload: &[u8]) -> Verdict
    requires { CanBeJudged task.now.purpose }
    ensures { AnswersAs task.now.purpose (Status.Coap code) payload.now result }
{
    let status = Status::Coap(code);
    if !is_success(status) {
        return Verdict::Outcome(ConsumedOutcome::Status(status));
    }
    match Bytes::copy_of(task.alloc, payload) {
        Ok(payload) => judge(task, status, payload),
        Err(_) => Verdict::NoMemory,
    }
}

/// The status is one of success (RFC 9110, section 15.3; RFC 7252, section 5.9.1).
fn is_success(status: Status) -> bool
    ensures { result ≡ is_success_status status }
{
    match status {
        Status::Http(status) => 200 <= status && status <= 299,
        Status::Coap(code) => code / 32 == 2,
    }
}

/// The decoded bytes of a body.
fn payload_of(alloc: Global, body: &Body<'_>) -> Result<Bytes, NoMemory>
    ensures { IfOk result (λ bytes. bytes ≡ body.now) }
{
    let mut room = vec![in alloc; 0u8; body.length()]?;
    body.copy_to(room.as_mut_slice());
    Ok(Bytes::from_vec(room))
}

/// The verdict on an answer of success with this payload.
fn judge(task: &ClientTask<'_>, status: Status, payload: Bytes) -> Verdict
    requires { CanBeJudged task.now.purpose }
    ensures { SucceedsAs task.now.purpose status payload result }
{
    match task.purpose {
        Purpose::Operation(operation) => judge_value(task.alloc, &operation, status, payload),
        Purpose::Discovery(server) => judge_links(task.alloc, server, payload.as_slice()),
    }
}

/// The verdict on an answer of success to an operation, with this payload.
fn judge_value(
    alloc: Global,
    operation: &ThingOperation<'_>,
    status: Status,
    payload: Bytes,
) -> Verdict
    requires { CanBeAsked operation.now }
    ensures { ValueComesTo operation.now status payload result }
{
    match judge_payload(alloc, operation, status, payload.as_slice()) {
        Judged::Taken => Verdict::Payload(payload),
        Judged::NotTaken => Verdict::Outcome(ConsumedOutcome::Output),
        Judged::Unread => Verdict::Outcome(ConsumedOutcome::Malformed),
        Judged::NoMemory => Verdict::NoMemory,
    }
}

/// The verdict on the links of the server with this URL.
fn judge_links(alloc: Global, server: &str, payload: &[u8]) -> Verdict
    ensures { LinksComeTo server.now payload.now result }
{
    match things_in(alloc, server, payload) {
        Ok(Some(lines)) => Verdict::Lines(lines),
        Ok(None) => Verdict::Outcome(ConsumedOutcome::Malformed),
        Err(_) => Verdict::NoMemory,
    }
}
