//! Files in memory: they record their content and the reads that were made.

ghost use Rattle.std.specs.Prelude.{◌≡◌, ◌≢◌, [], ◌∷◌, ◌++◌, Some, IfOk, OnErr, OnOk};
ghost use Rattle.servient_outside.specs.Files.{AnswersRead};

use crate::calls::CallCount;
use crate::{Calls, FileRead, Files, Got, Held};
use servient_base::NoMemory;
use std::alloc::Global;
use wot_json::{Bytes, Text};

/// The number of reads for which there is memory from the start.
const FIRST_READS: usize = 4;

/// Files in memory, which keep a list of the reads that were made.
#[derive(Drop)]
pub struct FilesMemory {
    alloc: Global,
    held: Held,
    calls: CallCount,
    faults: u64,
    reads: Vec<FileRead>,
}

/// Looks a file up in those that are held.
fn read_held(held: &Held, alloc: Global, name: &str, limit: usize, into: &mut Bytes) -> Got
    ensures answer { AnswersRead (Some held.now) name.now limit result into.new }
    ensures no_failure { result ≢ Got.Failed }
{
    let content = match held.content(name) {
        Some(content) => content,
        None => return Got::Absent,
    };
    if content.len() > limit {
        return Got::TooLong;
    }
    match Bytes::copy_of(alloc, content) {
        Ok(bytes) => {
            *into = bytes;
            Got::Whole
        }
        Err(_) => Got::NoMemory,
    }
}

/// Puts a read after the others, if there is memory for it.
fn list_read(
    alloc: Global,
    reads: &mut Vec<FileRead>,
    name: &str,
    limit: usize,
) -> Result<(), NoMemory>
    ensures ok { OnOk result
        (reads.new.items ≡ reads.old.items ++ record { name = name.now; limit = limit } ∷ []) }
    ensures unchanged { OnErr result (reads.new.items ≡ reads.old.items) }
{
    let name = Text::copy_of(alloc, name)?;
    reads.push(FileRead { name, limit })?;
    Ok(())
}

impl FilesMemory {
    ghost use Rattle.servient_outside.specs.CallCount.{no_calls, none_fails};
    ghost use Rattle.servient_outside.specs.FilesMemory.{calls_of};

    /// Files that hold this, and whose reads of these numbers fail. The list of reads takes memory.
    pub fn new(alloc: Global, files: Held, fails: Calls) -> Result<FilesMemory, NoMemory>
        ensures seen { IfOk result (λ f. ⟦<FilesMemory as Files>⟧.seen f ≡ record { held = Some files; reads = Some []; faults = 0; never_fail = none_fails fails }) }
        ensures calls { IfOk result (λ f. calls_of f ≡ no_calls fails) }
    {
        let reads = Vec::with_capacity(alloc, FIRST_READS)?;
        Ok(FilesMemory {
            alloc,
            held: files,
            calls: CallCount { fails, made: 0 },
            faults: 0,
            reads,
        })
    }

    /// The reads so far, in order.
    pub fn reads(&self) -> &[FileRead]
        ensures { (⟦<FilesMemory as Files>⟧.seen self.now).reads ≡ Some result.now }
    {
        self.reads.as_slice()
    }
}

impl Files for FilesMemory {
    ghost use Rattle.std.specs.Prelude.{◌≡◌, ◌≢◌, ◌⊎◌};
    ghost use Rattle.servient_base.specs.Count.{one_more};
    ghost use Rattle.servient_outside.specs.Files.{AnswersRead, FilesShow};
    ghost use Rattle.servient_outside.specs.CallCount.{FailsNext, after_call};
    ghost use Rattle.servient_outside.specs.FilesMemory.{calls_of, fault_count, seen_of};

    ghost seen = { seen_of };

    /// A read whose number is in the list that `new` took answers `Failed`, or `NoMemory` where there
    /// is none to list it. A read that can't be listed answers `NoMemory`.
    fn read(&mut self, alloc: Global, name: &str, limit: usize, into: &mut Bytes) -> Got
        ensures answer { AnswersRead (seen_of self.old).held name.now limit result into.new }
        ensures shows { FilesShow (seen_of self.old) (seen_of self.new) name.now limit result }

        // The calls that fail, and the files after them.
        ensures fails_only { result ≡ Got.Failed → FailsNext (calls_of self.old) }
        ensures fails { FailsNext (calls_of self.old) → (result ≡ Got.Failed) ⊎ (result ≡ Got.NoMemory) }
        ensures calls { calls_of self.new ≡ after_call (calls_of self.old) }
        ensures counted { result ≡ Got.Failed → fault_count self.new ≡ one_more (fault_count self.old) }
        ensures no_fault { result ≢ Got.Failed → fault_count self.new ≡ fault_count self.old }
    {
        let got = if self.calls.next_fails() {
            Got::Failed
        } else {
            read_held(&self.held, alloc, name, limit, into)
        };
        if got == Got::NoMemory {
            return Got::NoMemory;
        }
        match list_read(self.alloc, &mut self.reads, name, limit) {
            Ok(()) => {}
            Err(_) => return Got::NoMemory,
        }
        if got == Got::Failed {
            self.faults = self.faults.saturating_add(1);
        }
        got
    }
}
