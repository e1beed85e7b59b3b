//! Beginning an invocation of an action that runs on.

ghost use Rattle.std.specs.Prelude.{◌≡◌, IfOk};
ghost use Rattle.file_devices.specs.Devices.{call_text};
ghost use Rattle.file_devices.specs.Running as spec;

use crate::content::put_content;
use crate::device::text_by;
use crate::status::{RUNNING, says_running};
use crate::{DeviceFiles, FileFault, Notation, RunningDevice};
use servient_base::NoMemory;
use std::alloc::Global;
use thing_handler::{Answer, CallKind};
use wot_json::Bytes;

/// The number of the refusal of an Invoke while an invocation runs.
const BUSY: u16 = 3;

/// The texts that an Invoke writes, for which memory was taken.
#[derive(Debug, Drop)]
pub struct StartTexts {
    /// That of the status.
    pub running: Bytes,
    /// That of the action.
    pub input: Bytes,
}

/// The texts of an Invoke that finds this status, or its answer where it writes none.
pub fn ready(
    alloc: Global,
    way: Notation,
    status: &Result<Bytes, FileFault>,
    what: &CallKind,
) -> Result<Result<StartTexts, Answer>, NoMemory>
    ensures { IfOk result (λ ready. ready ≡ spec.ready_by (spec.hindrance status.now) (call_text way what.now)) }
{
    if let Some(answer) = hindrance(status) {
        return Ok(Err(answer));
    }
    match text_by(alloc, way, what)? {
        Some(input) => {
            let running = Bytes::copy_of(alloc, RUNNING.as_bytes())?;
            Ok(Ok(StartTexts { running, input }))
        }
        None => Ok(Err(Answer::DeviceFault(FileFault::NoText.number()))),
    }
}

/// The answer to an Invoke that finds this status, where it may not begin.
fn hindrance(status: &Result<Bytes, FileFault>) -> Option<Answer>
    ensures { result ≡ spec.hindrance status.now }
{
    match status {
        Ok(content) => {
            if says_running(content.as_slice()) {
                Some(Answer::Refused(BUSY))
            } else {
                None
            }
        }
        Err(fault) => match fault {
            // Without a status file nothing runs.
            FileFault::Absent => None,
            FileFault::Failed => Some(Answer::DeviceFault(FileFault::Failed.number())),
            FileFault::TooLong => Some(Answer::DeviceFault(FileFault::TooLong.number())),
            FileFault::NoValue => Some(Answer::DeviceFault(FileFault::NoValue.number())),
            FileFault::NoText => Some(Answer::DeviceFault(FileFault::NoText.number())),
        },
    }
}

/// Writes the status, and then hands the input in.
pub fn begin<D: DeviceFiles>(
    files: &mut D,
    device: &RunningDevice,
    alloc: Global,
    texts: StartTexts,
) -> Result<(), FileFault>
    ensures { spec.Begins (D.seen files.old) (D.seen files.new) device.now texts result }
{
    let StartTexts { running, input } = texts;
    match put_content(files, device.status.as_str(), running) {
        Ok(()) => hand_in(files, device, alloc, input),
        Err(fault) => Err(fault),
    }
}

/// Writes the input. Where that can't be done the status is emptied, if it can be.
fn hand_in<D: DeviceFiles>(
    files: &mut D,
    device: &RunningDevice,
    alloc: Global,
    input: Bytes,
) -> Result<(), FileFault>
    ensures { spec.HandsIn (D.seen files.old) (D.seen files.new) device.now input result }
{
    match put_content(files, device.action.as_str(), input) {
        Ok(()) => Ok(()),
        Err(fault) => {
            // The fault that is told is that of the action, whether the status is emptied or not.
            let _emptied = put_content(files, device.status.as_str(), Bytes::new(alloc));
            Err(fault)
        }
    }
}

/// The invocation that was begun last, after that of this id was begun or wasn't.
pub fn last_after(last: Option<u32>, id: u32, begun: Result<(), FileFault>) -> Option<u32>
    ensures { result ≡ spec.last_after last id begun }
{
    match begun {
        Ok(()) => Some(id),
        Err(_) => last,
    }
}
