//! The list of the calls of files that were made, as long as there is memory for each.

ghost use Rattle.std.specs.Prelude.{◌≡◌, [], ◌∷◌, IfOk};
ghost use Rattle.servient_outside.specs.Told.{Continues};
ghost use Rattle.file_devices.specs.declared.files.FileCall.{FileCall};

use crate::FileCall;
use servient_base::NoMemory;
use std::alloc::Global;

/// Calls in the order in which they were made.
#[derive(Drop)]
pub struct CallLog {
    pub calls: Vec<FileCall>,
    /// The number of calls for which there was no memory. At its last value, 2^64 - 1, it stays.
    pub lost: u64,
}

impl CallLog {
    ghost use Rattle.file_devices.specs.InMemory.{told_calls};

    /// No calls yet.
    pub fn new(alloc: Global) -> Self
        ensures calls { result.calls.items ≡ [] }
        ensures lost { result.lost ≡ 0 }
    {
        CallLog {
            calls: Vec::new(alloc),
            lost: 0,
        }
    }

    /// Lists a call, or counts it as lost where there is no memory for it.
    #[tactic(auto, using(crate::proofs::CallLists::listed, crate::proofs::CallLists::lost))]
    pub fn keep(&mut self, call: Result<FileCall, NoMemory>)
        ensures { (made : FileCall) → IfOk call (λ c. c ≡ made)
            → Continues (told_calls self.old) (told_calls self.new) (made ∷ []) }
    {
        match call {
            Ok(call) => match self.calls.push(call) {
                Ok(()) => {}
                Err(_) => self.lost = self.lost.saturating_add(1),
            },
            Err(_) => self.lost = self.lost.saturating_add(1),
        }
    }
}
