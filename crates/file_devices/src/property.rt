//! A property whose value is in a file.

ghost use Rattle.std.specs.Prelude.{◌≡◌, IfOk};
ghost use Rattle.wot_terms.specs.declared.kind.Kind.TheVariants as kind;
ghost use Rattle.thing_handler.specs.Handler.{fresh_handler};
ghost use Rattle.file_devices.specs.Devices.{PropertyReads, value_answer};
ghost use Rattle.file_devices.specs.Once.{ReadsAtMostOnce, Tells};
ghost use Rattle.file_devices.specs.Seen.{property_seen};

use crate::device::Device;
use crate::{DeviceFiles, FileFault, Notation};
use servient_base::NoMemory;
use std::alloc::Global;
use thing_handler::{Answer, CallKind, Handler, Kind, NOT_ITS_KIND, Turn};
use wot_json::{Text, Tree};

/// A property whose value is in a file: a Read answers what the file holds now, and a Write writes it.
#[derive(Drop)]
pub struct FileProperty<D: DeviceFiles> {
    device: Device<D>,
}

impl<D: DeviceFiles> FileProperty<D> {
    /// The property of the file of this name.
    pub fn new(alloc: Global, files: D, name: Text, notation: Notation) -> Self
        ensures seen { property_seen result ≡ fresh_handler kind.Property }
        ensures files { result.device.files ≡ files }
        ensures name { result.device.name ≡ name }
        ensures notation { result.device.notation ≡ notation }
    {
        FileProperty {
            device: Device::new(alloc, files, name, notation),
        }
    }

    /// The files among which its file is.
    pub fn files(&self) -> &D
        ensures { result.now ≡ self.now.device.files }
    {
        &self.device.files
    }

    /// The answer to a Read.
    fn read(&mut self, alloc: Global) -> Result<Answer, NoMemory>
        ensures answer { IfOk result (PropertyReads (D.seen self.old.device.files) (D.seen self.new.device.files)
            self.old.device.name self.old.device.notation) }
        ensures held { (D.seen self.new.device.files).held ≡ (D.seen self.old.device.files).held }
        ensures calls { Tells (ReadsAtMostOnce self.old.device.name) (D.seen self.old.device.files) (D.seen self.new.device.files) }
        ensures name { self.new.device.name ≡ self.old.device.name }
        ensures notation { self.new.device.notation ≡ self.old.device.notation }
        ensures log { self.new.device.log ≡ self.old.device.log }
    {
        let found = self.device.value(alloc)?;
        Ok(answer_to_read(found))
    }
}

/// The answer to a Read that found this.
fn answer_to_read(found: Result<Tree, FileFault>) -> Answer
    ensures { result ≡ value_answer found }
{
    match found {
        Ok(value) => Answer::Value(value),
        Err(fault) => Answer::DeviceFault(fault.number()),
    }
}

impl<D: DeviceFiles> Handler for FileProperty<D> {
    ghost use Rattle.std.specs.Prelude.{◌≡◌, IfOk, OnErr};
    ghost use Rattle.thing_handler.specs.Handler.{AnswersCall, forgotten};
    ghost use Rattle.file_devices.specs.Devices.{PropertyAnswers};
    ghost use Rattle.file_devices.specs.Once.{PropertyCalls, Tells};
    ghost use Rattle.file_devices.specs.Seen.{property_seen};

    ghost seen = { property_seen };

    fn kind(&self) -> Kind {
        Kind::Property
    }

    #[tactic(auto, using(crate::proofs::OnceLaws::property_refused))]
    fn call(&mut self, alloc: Global, number: u64, what: &CallKind) -> Result<Answer, NoMemory>
        ensures turn { AnswersCall (property_seen self.old) (property_seen self.new) number what.now result }
        ensures answer { IfOk result (PropertyAnswers (D.seen self.old.device.files) (D.seen self.new.device.files)
            self.old.device.name self.old.device.notation what.now) }
        ensures unwritten { OnErr result ((D.seen self.new.device.files).held ≡ (D.seen self.old.device.files).held) }
        ensures calls { Tells (PropertyCalls self.old.device.name self.old.device.notation what.now result)
            (D.seen self.old.device.files) (D.seen self.new.device.files) }
        ensures name { self.new.device.name ≡ self.old.device.name }
        ensures notation { self.new.device.notation ≡ self.old.device.notation }
    {
        match what {
            CallKind::Read => {
                let answer = self.read(alloc);
                self.device.log.keep(alloc, number, what, answer)
            }
            CallKind::Write(_) => self.device.write(alloc, number, what),
            CallKind::Invoke(_, _) | CallKind::Query(_) | CallKind::Cancel(_) | CallKind::Poll => {
                let refused = Ok(Answer::Refused(NOT_ITS_KIND));
                self.device.log.keep(alloc, number, what, refused)
            }
        }
    }

    fn turns(&self) -> &[Turn] {
        self.device.log.turns.as_slice()
    }

    fn forget(&mut self)
        ensures seen { property_seen self.new ≡ forgotten (property_seen self.old) }
        ensures files { self.new.device.files ≡ self.old.device.files }
        ensures name { self.new.device.name ≡ self.old.device.name }
        ensures notation { self.new.device.notation ≡ self.old.device.notation }
    {
        self.device.log.forget();
    }
}
