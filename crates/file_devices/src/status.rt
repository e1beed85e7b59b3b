//! The status of an action that runs on: what its content says, and the answer to a Query.

ghost use Rattle.std.specs.Prelude.{◌≡◌, IfOk};
ghost use Rattle.file_devices.specs.Running as spec;

use crate::values::{trimmed, value_in};
use crate::{FileFault, Notation};
use servient_base::NoMemory;
use std::alloc::Global;
use thing_handler::Answer;
use wot_json::{Bytes, Tree};

/// The text of the status while an invocation runs.
pub const RUNNING: &str = "running";

/// A content says that an invocation runs.
pub fn says_running(content: &[u8]) -> bool
    ensures { result ≡ spec.says_running content.now }
{
    trimmed(content) == RUNNING.as_bytes()
}

/// A content says nothing.
fn says_nothing(content: &[u8]) -> bool
    ensures { result ≡ spec.says_nothing content.now }
{
    trimmed(content) == "".as_bytes()
}

/// The answer to a Query of the last invocation, by its status.
pub fn status_answer(
    alloc: Global,
    way: Notation,
    status: Result<Bytes, FileFault>,
) -> Result<Answer, NoMemory>
    ensures { IfOk result (spec.StatusAnswers way status) }
{
    match status {
        Ok(content) => content_answer(alloc, way, content.as_slice()),
        Err(fault) => Ok(Answer::DeviceFault(fault.number())),
    }
}

/// The same by its content.
fn content_answer(alloc: Global, way: Notation, content: &[u8]) -> Result<Answer, NoMemory>
    ensures { IfOk result (spec.ContentAnswers way content.now) }
{
    if says_running(content) {
        return Ok(Answer::Running);
    }
    if says_nothing(content) {
        return Ok(Answer::Finished(None));
    }
    let output = value_in(alloc, way, content)?;
    Ok(output_answer(output))
}

/// The answer by the output.
fn output_answer(output: Result<Tree, FileFault>) -> Answer
    ensures { result ≡ spec.output_answer output }
{
    match output {
        Ok(value) => Answer::Finished(Some(value)),
        Err(fault) => Answer::DeviceFault(fault.number()),
    }
}
