//! An action that writes its input into a file.

ghost use Rattle.std.specs.Prelude.{◌≡◌};
ghost use Rattle.wot_terms.specs.declared.kind.Kind.TheVariants as kind;
ghost use Rattle.thing_handler.specs.Handler.{fresh_handler};
ghost use Rattle.file_devices.specs.Seen.{action_seen};

use crate::device::Device;
use crate::{DeviceFiles, Notation};
use servient_base::NoMemory;
use std::alloc::Global;
use thing_handler::{Answer, CallKind, Handler, Kind, NOT_ITS_KIND, Turn};
use wot_json::Text;

/// The number of the refusal of a call for an invocation that doesn't run.
pub const NO_INVOCATION: u16 = 1;

/// An action that writes its input into a file, and is finished then.
#[derive(Drop)]
pub struct FileAction<D: DeviceFiles> {
    device: Device<D>,
}

impl<D: DeviceFiles> FileAction<D> {
    /// The action on the file of this name.
    pub fn new(alloc: Global, files: D, name: Text, notation: Notation) -> Self
        ensures seen { action_seen result ≡ fresh_handler kind.Action }
        ensures files { result.device.files ≡ files }
        ensures name { result.device.name ≡ name }
        ensures notation { result.device.notation ≡ notation }
    {
        FileAction {
            device: Device::new(alloc, files, name, notation),
        }
    }

    /// The files among which its file is.
    pub fn files(&self) -> &D
        ensures { result.now ≡ self.now.device.files }
    {
        &self.device.files
    }
}

impl<D: DeviceFiles> Handler for FileAction<D> {
    ghost use Rattle.std.specs.Prelude.{◌≡◌, IfOk, OnErr};
    ghost use Rattle.thing_handler.specs.Handler.{AnswersCall, forgotten};
    ghost use Rattle.file_devices.specs.Devices.{ActionAnswers};
    ghost use Rattle.file_devices.specs.Once.{ActionCalls, Tells};
    ghost use Rattle.file_devices.specs.Seen.{action_seen};

    ghost seen = { action_seen };

    fn kind(&self) -> Kind {
        Kind::Action
    }

    #[tactic(auto, using(crate::proofs::OnceLaws::action_refused))]
    fn call(&mut self, alloc: Global, number: u64, what: &CallKind) -> Result<Answer, NoMemory>
        ensures turn { AnswersCall (action_seen self.old) (action_seen self.new) number what.now result }
        ensures answer { IfOk result (ActionAnswers (D.seen self.old.device.files) (D.seen self.new.device.files)
            self.old.device.name self.old.device.notation what.now) }
        ensures unwritten { OnErr result (self.new.device.files ≡ self.old.device.files) }
        ensures calls { Tells (ActionCalls self.old.device.name self.old.device.notation what.now result)
            (D.seen self.old.device.files) (D.seen self.new.device.files) }
        ensures name { self.new.device.name ≡ self.old.device.name }
        ensures notation { self.new.device.notation ≡ self.old.device.notation }
    {
        let number_of_refusal = match what {
            CallKind::Invoke(_, _) => return self.device.write(alloc, number, what),
            CallKind::Query(_) | CallKind::Cancel(_) => NO_INVOCATION,
            CallKind::Read | CallKind::Write(_) | CallKind::Poll => NOT_ITS_KIND,
        };
        let refused = Ok(Answer::Refused(number_of_refusal));
        self.device.log.keep(alloc, number, what, refused)
    }

    fn turns(&self) -> &[Turn] {
        self.device.log.turns.as_slice()
    }

    fn forget(&mut self)
        ensures seen { action_seen self.new ≡ forgotten (action_seen self.old) }
        ensures files { self.new.device.files ≡ self.old.device.files }
        ensures name { self.new.device.name ≡ self.old.device.name }
        ensures notation { self.new.device.notation ≡ self.old.device.notation }
    {
        self.device.log.forget();
    }
}
