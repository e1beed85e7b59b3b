//! Devices that answer from a list. Values are JSON texts, in which `\*N;` repeats the byte before it N times.

use cases_notation::bytes_of;
use std::alloc::{AllocError, Global};
use thing_handler::{Answer, Kind};
use wot_json::read;

/// A device and its answers.
#[derive(Drop)]
pub struct Device {
    pub kind: Kind,
    pub answers: Vec<Answer>,
}

/// The answer of this word with a JSON text; `done` where it is none.
fn answer_with(alloc: Global, word: &str, text: &str) -> Result<Answer, AllocError> {
    let bytes = bytes_of(alloc, text)?;
    Ok(match read(alloc, bytes.as_slice()) {
        Ok(tree) => match word {
            "value" => Answer::Value(tree),
            "fired" => Answer::Fired(tree),
            _ => Answer::Finished(Some(tree)),
        },
        Err(_) => Answer::Done,
    })
}

/// The answer of these words.
fn answer_of(alloc: Global, text: &str) -> Result<Answer, AllocError> {
    Ok(match text {
        "started" => Answer::Started,
        "running" => Answer::Running,
        "finished" => Answer::Finished(None),
        "cancelled" => Answer::Cancelled,
        "quiet" => Answer::Quiet,
        _ => match text.split_once(' ') {
            Some(("refused", number)) => Answer::Refused(number.parse::<u16>().unwrap_or(0)),
            Some(("fault", number)) => Answer::DeviceFault(number.parse::<u16>().unwrap_or(0)),
            Some((word, value)) => answer_with(alloc, word, value)?,
            None => Answer::Done,
        },
    })
}

/// The device of a line.
pub fn device_of(alloc: Global, text: &str) -> Result<Device, AllocError> {
    let (word, list) = text.split_once(' ').unwrap_or((text, ""));
    let kind = match word {
        "property" => Kind::Property,
        "action" => Kind::Action,
        _ => Kind::Event,
    };
    let mut answers = Vec::new(alloc);
    for answer in list.split("; ") {
        answers.push(answer_of(alloc, answer)?)?;
    }
    Ok(Device { kind, answers })
}
