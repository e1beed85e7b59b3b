//! One device: its file, and the turns that its handler made.

ghost use Rattle.std.specs.Prelude.{◌≡◌, [], IfOk, OnErr};
ghost use Rattle.wot_terms.specs.declared.kind.Kind.{Kind};
ghost use Rattle.thing_handler.specs.Handler.{AnswersCall};
ghost use Rattle.file_devices.specs.Devices.{DevicePuts, Finds, Puts, call_text, done_answer};
ghost use Rattle.file_devices.specs.Once.{ReadsAtMostOnce, Tells, WritesOnce};
ghost use Rattle.file_devices.specs.Seen.{device_seen};

use crate::content::{answer_to, content_in, put_content};
use crate::files::DeviceFiles;
use crate::values::{value_in, written_input, written_text};
use crate::{FileFault, Notation};
use servient_base::NoMemory;
use std::alloc::Global;
use thing_handler::{Answer, CallKind, TurnLog};
use wot_json::{Bytes, Text, Tree};

/// A device: the name of its file, the notation of the file's content, the files among which it is, and the turns of
/// its handler.
#[derive(Drop)]
pub struct Device<D: DeviceFiles> {
    pub files: D,
    pub name: Text,
    pub notation: Notation,
    pub log: TurnLog,
}

impl<D: DeviceFiles> Device<D> {
    /// A device whose handler wasn't called yet.
    pub fn new(alloc: Global, files: D, name: Text, notation: Notation) -> Self
        ensures files { result.files ≡ files }
        ensures name { result.name ≡ name }
        ensures notation { result.notation ≡ notation }
        ensures turns { result.log.turns.items ≡ [] }
        ensures misses { result.log.misses ≡ 0 }
    {
        Device {
            files,
            name,
            notation,
            log: TurnLog::new(alloc),
        }
    }

    /// The value that the file holds now.
    pub fn value(&mut self, alloc: Global) -> Result<Result<Tree, FileFault>, NoMemory>
        ensures found { IfOk result (Finds (D.seen self.old.files) (D.seen self.new.files) self.old.name self.old.notation) }
        ensures held { (D.seen self.new.files).held ≡ (D.seen self.old.files).held }
        ensures calls { Tells (ReadsAtMostOnce self.old.name) (D.seen self.old.files) (D.seen self.new.files) }
        ensures name { self.new.name ≡ self.old.name }
        ensures notation { self.new.notation ≡ self.old.notation }
        ensures log { self.new.log ≡ self.old.log }
    {
        match content_in(&mut self.files, alloc, self.name.as_str())? {
            Ok(content) => value_in(alloc, self.notation, content.as_slice()),
            Err(fault) => Ok(Err(fault)),
        }
    }

    /// A call that writes: its text is written once, and its turn kept. All memory is taken before, so that a call that
    /// is out of memory has written nothing.
    pub fn write(&mut self, alloc: Global, number: u64, what: &CallKind) -> Result<Answer, NoMemory>
        ensures turn { (kind : Kind) → AnswersCall (device_seen kind self.old) (device_seen kind self.new) number what.now result }
        ensures puts { IfOk result (DevicePuts (D.seen self.old.files) (D.seen self.new.files) self.old.name
            (call_text self.old.notation what.now) (done_answer what.now)) }
        ensures unwritten { OnErr result (self.new.files ≡ self.old.files) }
        ensures calls { Tells (WritesOnce self.old.name (call_text self.old.notation what.now) result)
            (D.seen self.old.files) (D.seen self.new.files) }
        ensures name { self.new.name ≡ self.old.name }
        ensures notation { self.new.notation ≡ self.old.notation }
    {
        let text = match text_by(alloc, self.notation, what) {
            Ok(text) => text,
            Err(error) => return self.log.keep(alloc, number, what, Err(error)),
        };
        let prepared = self.log.prepare(alloc, number, what)?;
        let put = put_text(&mut self.files, self.name.as_str(), text);
        self.log.finish(prepared, answer_to(put, done_by(what)));
        Ok(answer_to(put, done_by(what)))
    }
}

/// The text that a call writes.
pub fn text_by(alloc: Global, way: Notation, what: &CallKind) -> Result<Option<Bytes>, NoMemory>
    ensures { IfOk result (λ text. text ≡ call_text way what.now) }
{
    match what {
        CallKind::Write(value) => written_text(alloc, way, value),
        CallKind::Invoke(_, input) => written_input(alloc, way, input),
        CallKind::Read | CallKind::Query(_) | CallKind::Cancel(_) | CallKind::Poll => Ok(None),
    }
}

/// Writes this text, where there is one.
fn put_text<D: DeviceFiles>(files: &mut D, name: &str, text: Option<Bytes>) -> Result<(), FileFault>
    ensures { Puts (D.seen files.old) (D.seen files.new) name.now text result }
{
    let Some(text) = text else {
        return Err(FileFault::NoText);
    };
    put_content(files, name, text)
}

/// The answer to a call that writes, where the write was done.
fn done_by(what: &CallKind) -> Answer
    ensures { result ≡ done_answer what.now }
{
    match what {
        CallKind::Invoke(_, _) => Answer::Finished(None),
        _ => Answer::Done,
    }
}
