//! Histories of one device.

use crate::readings::Readings;
use cases_notation::{bytes_of, put_given, put_words};
use file_devices::{
    DeviceFilesMemory, FileCall, FileDevice, Notation, RunningDevice, SlotHandler, Wrote,
    file_handler, free_handler, memory_handler, running_handler,
};
use servient_outside::{Calls, Got, Held, HeldFile};
use std::alloc::{AllocError, Global};
use std::fmt::Write;
use std::str;
use thing_handler::{Answer, CallKind, Handler, Kind};
use wot_json::{Bytes, Text, Tree, read, text_of};

/// The longest text of a value that is written whole.
const LONGEST_WRITTEN: usize = 100;

/// The setting of a device in its history.
#[derive(Drop)]
struct Before {
    files: Held,
    fails: Calls,
    contents: Vec<Option<Bytes>>,
}

/// A device, the number of its next turn, the id of the last Invoke, and the number of calls of files that were written
/// already.
#[derive(Drop)]
struct Device {
    handler: SlotHandler<Readings>,
    turn: u64,
    id: u32,
    told: usize,
}

/// A content, in which `\n` is a line end.
fn content_of(alloc: Global, text: &str) -> Result<Bytes, AllocError> {
    let mut content = Bytes::new(alloc);
    for (place, line) in text.split("\\n").enumerate() {
        if place > 0 {
            content.push(b'\n')?;
        }
        content.extend(bytes_of(alloc, line)?.as_slice())?;
    }
    Ok(content)
}

impl Before {
    /// Takes a line that says a part of the setting.
    fn take(&mut self, alloc: Global, line: &str) -> Result<(), AllocError> {
        match line.split_once(' ') {
            Some(("file", rest)) => {
                let (name, content) = rest.split_once(' ').unwrap_or((rest, ""));
                self.files.push(HeldFile {
                    name: Text::copy_of(alloc, name)?,
                    bytes: content_of(alloc, content)?,
                })
            }
            Some(("reading", content)) => {
                self.contents.push(Some(content_of(alloc, content)?))?;
                Ok(())
            }
            None if line == "absent" => {
                self.contents.push(None)?;
                Ok(())
            }
            Some(("fails", number)) => self.fails.push(number.parse::<u64>().unwrap_or(0)),
            _ => Ok(()),
        }
    }
}

/// The kind of a device of this word.
fn kind_of(word: &str) -> Option<Kind> {
    match word {
        "property" => Some(Kind::Property),
        "action" => Some(Kind::Action),
        "event" => Some(Kind::Event),
        _ => None,
    }
}

/// A device that wasn't called yet.
fn fresh(handler: SlotHandler<Readings>) -> Device {
    Device {
        handler,
        turn: 0,
        id: 0,
        told: 0,
    }
}

/// The notation of a word.
fn notation_of(word: &str) -> Notation {
    match word {
        "text" => Notation::Text,
        _ => Notation::Json,
    }
}

/// The files of a setting.
fn files_of(alloc: Global, before: Before) -> Readings {
    let Before {
        files,
        fails,
        contents,
    } = before;
    Readings {
        files: DeviceFilesMemory::new(alloc, files, fails),
        contents,
        made: 0,
    }
}

/// The device behind a file of a line.
fn device_of(alloc: Global, before: Before, kind: Kind, rest: &str) -> Result<Device, AllocError> {
    let (name, notation) = rest.split_once(' ').unwrap_or((rest, "json"));
    let device = FileDevice {
        kind,
        path: Text::copy_of(alloc, name)?,
        notation: notation_of(notation),
    };
    let files = files_of(alloc, before);
    Ok(fresh(file_handler(alloc, files, &device)?))
}

/// The action that runs on of a line: the names of its file and of its status, the notation, and the name of the file that
/// cancels, where it has one.
fn running_of(alloc: Global, before: Before, rest: &str) -> Result<Device, AllocError> {
    let mut words = rest.split(' ');
    let action = words.next().unwrap_or("");
    let status = words.next().unwrap_or("");
    let notation = words.next().unwrap_or("json");
    let device = RunningDevice {
        action: Text::copy_of(alloc, action)?,
        status: Text::copy_of(alloc, status)?,
        cancel: match words.next() {
            Some(name) => Some(Text::copy_of(alloc, name)?),
            None => None,
        },
        notation: notation_of(notation),
    };
    let files = files_of(alloc, before);
    Ok(fresh(running_handler(alloc, files, &device)?))
}

/// The device of a line that names no file.
fn other_device(alloc: Global, word: &str, rest: &str) -> Result<Option<Device>, AllocError> {
    match word {
        "memory" => {
            let value = value_of(alloc, rest)?;
            Ok(Some(fresh(memory_handler(alloc, &value)?)))
        }
        "slot" => {
            let slot = rest.parse::<usize>().unwrap_or(0);
            Ok(Some(fresh(free_handler(alloc, slot))))
        }
        _ => Ok(None),
    }
}

/// The value of a JSON text.
fn value_of(alloc: Global, text: &str) -> Result<Tree, AllocError> {
    let bytes = bytes_of(alloc, text)?;
    match read(alloc, bytes.as_slice()) {
        Ok(value) => Ok(value),
        Err(_) => Ok(Tree::Null),
    }
}

/// The call of a step, where the last Invoke had this id.
fn call_of(alloc: Global, last: u32, step: &str) -> Result<Option<CallKind>, AllocError> {
    let (word, rest) = step.split_once(' ').unwrap_or((step, ""));
    let id = rest.parse::<u32>().unwrap_or(1);
    let next = last.saturating_add(1);
    Ok(match word {
        "read" => Some(CallKind::Read),
        "write" => Some(CallKind::Write(value_of(alloc, rest)?)),
        "invoke" if rest.is_empty() => Some(CallKind::Invoke(next, None)),
        "invoke" => Some(CallKind::Invoke(next, Some(value_of(alloc, rest)?))),
        "query" => Some(CallKind::Query(id)),
        "cancel" => Some(CallKind::Cancel(id)),
        "poll" => Some(CallKind::Poll),
        _ => None,
    })
}

/// Writes a value behind a word.
fn put_value(text: &mut String, alloc: Global, word: &str, value: &Tree) -> Result<(), AllocError> {
    let value = text_of(alloc, value)?;
    if value.len() > LONGEST_WRITTEN {
        return write!(text, "{word} of {} bytes", value.len());
    }
    let value = str::from_utf8(value.as_slice()).unwrap_or("no text");
    write!(text, "{word} {value}")
}

/// Writes an answer.
fn put_answer(text: &mut String, alloc: Global, answer: &Answer) -> Result<(), AllocError> {
    match answer {
        Answer::Value(value) => put_value(text, alloc, "value", value),
        Answer::Fired(value) => put_value(text, alloc, "fired", value),
        Answer::Done => text.push_str("done"),
        Answer::Started => text.push_str("started"),
        Answer::Running => text.push_str("running"),
        Answer::Finished(Some(value)) => put_value(text, alloc, "finished", value),
        Answer::Finished(None) => text.push_str("finished"),
        Answer::Cancelled => text.push_str("cancelled"),
        Answer::Quiet => text.push_str("quiet"),
        Answer::Refused(number) => write!(text, "refused {number}"),
        Answer::DeviceFault(number) => write!(text, "fault {number}"),
    }
}

/// Writes the content of a file.
fn put_content(text: &mut String, device: &Device, name: &str) -> Result<(), AllocError> {
    let Some(files) = device.handler.files() else {
        return text.push_str("no files");
    };
    for file in files.files.files() {
        if file.name.as_str() == name {
            return text.push_str(str::from_utf8(file.bytes.as_slice()).unwrap_or("no text"));
        }
    }
    text.push_str("no file")
}

/// The word of a read's answer.
fn got_word(got: Got) -> &'static str {
    match got {
        Got::Whole => "whole",
        Got::Absent => "absent",
        Got::TooLong => "too long",
        Got::Failed => "failed",
        Got::NoMemory => "no memory",
    }
}

/// The word of a write's answer.
fn wrote_word(wrote: Wrote) -> &'static str {
    match wrote {
        Wrote::Done => "done",
        Wrote::Absent => "absent",
        Wrote::Failed => "failed",
    }
}

/// Writes a call of files: `read NAME whole CONTENT`, `read NAME absent`, `write NAME CONTENT done`.
fn put_call(text: &mut String, call: &FileCall) -> Result<(), AllocError> {
    match call {
        FileCall::Read(name, bytes, got) => {
            write!(text, "read {} {}", name.as_str(), got_word(*got))?;
            if *got == Got::Whole {
                let content = str::from_utf8(bytes.as_slice()).unwrap_or("no text");
                write!(text, " {content}")?;
            }
            Ok(())
        }
        FileCall::Write(name, bytes, wrote) => {
            let content = str::from_utf8(bytes.as_slice()).unwrap_or("no text");
            write!(
                text,
                "write {} {content} {}",
                name.as_str(),
                wrote_word(*wrote)
            )
        }
    }
}

/// Writes the calls of files since they were written last, and gives the number of all of them.
fn put_calls(text: &mut String, device: &Device) -> Result<usize, AllocError> {
    let Some(files) = device.handler.files() else {
        text.push_str("no files")?;
        return Ok(0);
    };
    if files.files.lost() > 0 {
        text.push_str("lost")?;
        return Ok(0);
    }
    let calls = files.files.calls();
    for (place, call) in calls.iter().enumerate().skip(device.told) {
        if place > device.told {
            text.push_str("; ")?;
        }
        put_call(text, call)?;
    }
    if calls.len() <= device.told {
        text.push_str("none")?;
    }
    Ok(calls.len())
}

/// Makes a step, and writes what comes of it.
fn put_step(
    text: &mut String,
    alloc: Global,
    device: &mut Device,
    step: &str,
) -> Result<(), AllocError> {
    if let Some(("content", name)) = step.split_once(' ') {
        return put_content(text, device, name);
    }
    if step == "calls" {
        device.told = put_calls(text, device)?;
        return Ok(());
    }
    let Some(what) = call_of(alloc, device.id, step)? else {
        return text.push_str("no such step");
    };
    if let CallKind::Invoke(id, _) = &what {
        device.id = *id;
    }
    let answer = device.handler.call(alloc, device.turn, &what)?;
    device.turn = device.turn.saturating_add(1);
    put_answer(text, alloc, &answer)
}

/// The device of a history.
fn device_in(alloc: Global, block: &str) -> Result<Option<Device>, AllocError> {
    let mut before = Before {
        files: Held::new(alloc),
        fails: Calls::new(alloc),
        contents: Vec::new(alloc),
    };
    for line in block.lines() {
        let (word, rest) = line.split_once(' ').unwrap_or((line, ""));
        if let Some(kind) = kind_of(word) {
            return Ok(Some(device_of(alloc, before, kind, rest)?));
        }
        if word == "running" {
            return Ok(Some(running_of(alloc, before, rest)?));
        }
        if let Some(device) = other_device(alloc, word, rest)? {
            return Ok(Some(device));
        }
        before.take(alloc, line)?;
    }
    Ok(None)
}

/// Writes the lines of a history that are no steps.
fn put_setting(text: &mut String, block: &str) -> Result<(), AllocError> {
    for line in block.lines() {
        if line.split_once(" => ").is_none() {
            put_words(text, line)?;
        }
    }
    Ok(())
}

/// Writes the steps of a history, each with what comes of it.
fn put_steps(
    text: &mut String,
    alloc: Global,
    device: &mut Device,
    block: &str,
) -> Result<(), AllocError> {
    for line in block.lines() {
        if let Some((step, _wanted)) = line.split_once(" => ") {
            put_given(text, step)?;
            put_step(text, alloc, device, step)?;
            text.push_str("\n")?;
        }
    }
    Ok(())
}

/// Writes a history with what comes of its steps.
pub fn put_history(text: &mut String, alloc: Global, block: &str) -> Result<(), AllocError> {
    put_setting(text, block)?;
    match device_in(alloc, block)? {
        Some(mut device) => put_steps(text, alloc, &mut device, block),
        None => Ok(()),
    }
}
