//! The content of a device's file: reading it whole, and writing it.

ghost use Rattle.std.specs.Prelude.{◌≡◌, IfOk};
ghost use Rattle.file_devices.specs.Devices.{FindsContent, PutsText, put_answer};
ghost use Rattle.file_devices.specs.Once.{ReadsAtMostOnce, Tells};

use crate::FileFault;
use crate::files::{DeviceFiles, Wrote};
use crate::values::LONGEST;
use servient_base::NoMemory;
use servient_outside::Got;
use std::alloc::{AllocError, Global};
use thing_handler::Answer;
use wot_json::Bytes;

/// The content that a file of at most `LONGEST` bytes holds now.
#[tactic(auto, using(crate::proofs::Looks::absent_found, crate::proofs::Looks::too_long_found, crate::proofs::Looks::failed_found, crate::proofs::OnceLaws::read_told))]
pub fn content_in<D: DeviceFiles>(
    files: &mut D,
    alloc: Global,
    name: &str,
) -> Result<Result<Bytes, FileFault>, NoMemory>
    ensures found { IfOk result (FindsContent (D.seen files.old) (D.seen files.new) name.now) }
    ensures held { (D.seen files.new).held ≡ (D.seen files.old).held }
    ensures calls { Tells (ReadsAtMostOnce name.now) (D.seen files.old) (D.seen files.new) }
{
    let mut content = Bytes::new(alloc);
    match files.read(alloc, name, LONGEST, &mut content) {
        Got::Whole => Ok(Ok(content)),
        Got::Absent => Ok(Err(FileFault::Absent)),
        Got::TooLong => Ok(Err(FileFault::TooLong)),
        Got::Failed => Ok(Err(FileFault::Failed)),
        Got::NoMemory => Err(AllocError),
    }
}

/// Writes this text once.
pub fn put_content<D: DeviceFiles>(files: &mut D, name: &str, text: Bytes) -> Result<(), FileFault>
    ensures { PutsText (D.seen files.old) (D.seen files.new) name.now text result }
{
    match files.write(name, text) {
        Wrote::Done => Ok(()),
        Wrote::Absent => Err(FileFault::Absent),
        Wrote::Failed => Err(FileFault::Failed),
    }
}

/// The answer to a call that writes, by the result of its writes: this one where they were done.
pub fn answer_to(put: Result<(), FileFault>, done: Answer) -> Answer
    ensures { result ≡ put_answer done put }
{
    match put {
        Ok(()) => done,
        Err(fault) => Answer::DeviceFault(fault.number()),
    }
}
