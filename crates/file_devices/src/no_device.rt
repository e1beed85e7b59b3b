//! A property in whose slot there is no device.

ghost use Rattle.std.specs.Prelude.{◌≡◌};
ghost use Rattle.wot_terms.specs.declared.kind.Kind.TheVariants as kind;
ghost use Rattle.thing_handler.specs.Handler.{fresh_handler};
ghost use Rattle.file_devices.specs.Seen.{none_seen};

use servient_base::NoMemory;
use std::alloc::Global;
use thing_handler::{Answer, CallKind, Handler, Kind, Turn, TurnLog};

/// The number of the refusal of a call of a slot without a device.
const NO_DEVICE: u16 = 2;

/// A property without a device: it refuses each call, and touches no file.
#[derive(Drop)]
pub struct NoDevice {
    log: TurnLog,
}

impl NoDevice {
    /// A property without a device, which wasn't called yet.
    pub fn new(alloc: Global) -> Self
        ensures { none_seen result ≡ fresh_handler kind.Property }
    {
        NoDevice {
            log: TurnLog::new(alloc),
        }
    }
}

impl Handler for NoDevice {
    ghost use Rattle.std.specs.Prelude.{◌≡◌, IfOk};
    ghost use Rattle.thing_handler.specs.Handler.{AnswersCall};
    ghost use Rattle.thing_handler.specs.declared.handler.Answer.TheVariants.{Refused};
    ghost use Rattle.file_devices.specs.Seen.{none_seen};

    ghost seen = { none_seen };

    fn kind(&self) -> Kind {
        Kind::Property
    }

    fn call(&mut self, alloc: Global, number: u64, what: &CallKind) -> Result<Answer, NoMemory>
        ensures turn { AnswersCall (none_seen self.old) (none_seen self.new) number what.now result }
        ensures answer { IfOk result (λ answer. answer ≡ Refused 2) }
    {
        let refused = Ok(Answer::Refused(NO_DEVICE));
        self.log.keep(alloc, number, what, refused)
    }

    fn turns(&self) -> &[Turn] {
        self.log.turns.as_slice()
    }

    fn forget(&mut self) {
        self.log.forget();
    }
}
