//! Files of devices in memory, which list the calls that were made as long as there is memory for each.

ghost use Rattle.std.specs.Prelude.{◌≡◌, ◌≢◌, ◌↔◌, ℕ, List, [], Some, IfOk, IsTrue, IsFalse};
ghost use Rattle.std.specs.List.{position};
ghost use Rattle.servient_outside.specs.Files.{AnswersRead};
ghost use Rattle.file_devices.specs.Files.{Fails, LeavesWritten, given_bytes};
ghost use Rattle.file_devices.specs.InMemory.{FailsNext, IsCounted, ReadsContent, WritesAmong, is_named, seen_of};
ghost use Rattle.file_devices.specs.InMemory.{listed_calls, lost_calls};

use crate::call_log::CallLog;
use crate::files::{DeviceFiles, FileCall, Wrote};
use servient_base::NoMemory;
use servient_outside::{Calls, Got, Held, HeldFile};
use std::alloc::Global;
use wot_json::{Bytes, Text};

/// Files of devices in memory. Of two files of one name the first counts.
#[derive(Drop)]
pub struct DeviceFilesMemory {
    alloc: Global,
    files: Vec<HeldFile>,
    fails: Calls,
    made: u64,
    faults: u64,
    log: CallLog,
}

impl DeviceFilesMemory {
    /// Files that hold this, and whose calls of these numbers fail, reads and writes counted together from 1.
    pub fn new(alloc: Global, files: Held, fails: Calls) -> Self
        ensures calls { (result.made ≡ 0) × (result.fails ≡ fails) }
        ensures seen { seen_of result ≡ record { held = Some files; calls = Some []; faults = 0 } }
    {
        DeviceFilesMemory {
            alloc,
            files: files.into_vec(),
            fails,
            made: 0,
            faults: 0,
            log: CallLog::new(alloc),
        }
    }

    /// The files, in the order in which they were given.
    pub fn files(&self) -> &[HeldFile]
        ensures { (seen_of self.now).held ≡ Some result.now }
    {
        self.files.as_slice()
    }

    /// The calls that were listed, in order. They are all that were made where `lost` is 0.
    pub fn calls(&self) -> &[FileCall]
        ensures listed { result.now ≡ listed_calls self.now }
        ensures told { lost_calls self.now ≡ 0 → (seen_of self.now).calls ≡ Some result.now }
    {
        self.log.calls.as_slice()
    }

    /// The number of calls for which there was no memory in the list. At its last value, 2^64 - 1, it stays.
    pub fn lost(&self) -> u64
        ensures { result ≡ lost_calls self.now }
    {
        self.log.lost
    }

    /// Counts a call, and says whether it fails. A failure is counted.
    fn fails_now(&mut self) -> bool
        ensures files { self.new.files ≡ self.old.files }
        ensures log { self.new.log ≡ self.old.log }
        ensures next { IsTrue result ↔ FailsNext self.old }
        ensures counted { IsCounted self.old self.new }
        ensures fails { IsTrue result → Fails (seen_of self.old) (seen_of self.new) }
        ensures works { IsFalse result → self.new.faults ≡ self.old.faults }
    {
        self.made = self.made.saturating_add(1);
        let fails = self.fails.contains(self.made);
        if fails {
            self.faults = self.faults.saturating_add(1);
        }
        fails
    }

    /// Reads a file. The call isn't listed.
    fn look(&mut self, alloc: Global, name: &str, limit: usize, into: &mut Bytes) -> Got
        ensures answer { AnswersRead (seen_of self.old).held name.now limit result into.new }
        ensures files { self.new.files ≡ self.old.files }
        ensures log { self.new.log ≡ self.old.log }
        ensures same { result ≢ Got.Failed → self.new.faults ≡ self.old.faults }
        ensures failed { result ≡ Got.Failed → Fails (seen_of self.old) (seen_of self.new) }
        ensures fails_only { result ≡ Got.Failed → FailsNext self.old }
        ensures fails { FailsNext self.old → result ≡ Got.Failed }
        ensures counted { IsCounted self.old self.new }
    {
        if self.fails_now() {
            return Got::Failed;
        }
        read_named(self.files.as_slice(), alloc, name, limit, into)
    }

    /// Writes a file. The call isn't listed.
    fn put(&mut self, name: &str, content: Bytes) -> Wrote
        ensures leaves { LeavesWritten (seen_of self.old) (seen_of self.new) name.now content result }
        ensures log { self.new.log ≡ self.old.log }
        ensures fails_only { result ≡ Wrote.Failed → FailsNext self.old }
        ensures fails { FailsNext self.old → result ≡ Wrote.Failed }
        ensures counted { IsCounted self.old self.new }
    {
        if self.fails_now() {
            return Wrote::Failed;
        }
        write_named(self.files.as_mut_slice(), name, content)
    }
}

/// The call of a read that left these bytes.
fn read_call(alloc: Global, name: &str, got: Got, into: &Bytes) -> Result<FileCall, NoMemory>
    ensures { IfOk result (λ call. call ≡ FileCall.Read name.now (given_bytes got into.now) got) }
{
    let name = Text::copy_of(alloc, name)?;
    let bytes = match got {
        Got::Whole => Bytes::copy_of(alloc, into.as_slice())?,
        Got::Absent | Got::TooLong | Got::Failed | Got::NoMemory => Bytes::new(alloc),
    };
    Ok(FileCall::Read(name, bytes, got))
}

/// A copy of a name and of a content.
fn copy_both(alloc: Global, name: &str, content: &Bytes) -> Result<(Text, Bytes), NoMemory>
    ensures { IfOk result (λ copied. copied ≡ (name.now, content.now)) }
{
    let name = Text::copy_of(alloc, name)?;
    Ok((name, Bytes::copy_of(alloc, content.as_slice())?))
}

/// The call of a write of this content to the file of this name.
#[tactic(auto, using(crate::proofs::CallLists::written_so))]
fn write_call(copied: Result<(Text, Bytes), NoMemory>, wrote: Wrote) -> Result<FileCall, NoMemory>
    ensures { (name content : List ℕ) → IfOk copied (λ c. c ≡ (name, content))
        → IfOk result (λ call. call ≡ FileCall.Write name content wrote) }
{
    let (name, content) = copied?;
    Ok(FileCall::Write(name, content, wrote))
}

impl DeviceFiles for DeviceFilesMemory {
    ghost use Rattle.std.specs.Prelude.{◌≡◌};
    ghost use Rattle.file_devices.specs.Files.{Reads, Writes};
    ghost use Rattle.file_devices.specs.InMemory.{FailsNext, IsCounted, seen_of};

    ghost seen = { seen_of };

    /// A call whose number is in the list that `new` took fails, and no other.
    fn read(&mut self, alloc: Global, name: &str, limit: usize, into: &mut Bytes) -> Got
        ensures reads { Reads (seen_of self.old) (seen_of self.new) name.now limit result into.new }
        ensures fails_only { result ≡ Got.Failed → FailsNext self.old }
        ensures fails { FailsNext self.old → result ≡ Got.Failed }
        ensures counted { IsCounted self.old self.new }
    {
        let got = self.look(alloc, name, limit, into);
        self.log.keep(read_call(self.alloc, name, got, into));
        got
    }

    fn write(&mut self, name: &str, content: Bytes) -> Wrote
        ensures writes { Writes (seen_of self.old) (seen_of self.new) name.now content result }
        ensures fails_only { result ≡ Wrote.Failed → FailsNext self.old }
        ensures fails { FailsNext self.old → result ≡ Wrote.Failed }
        ensures counted { IsCounted self.old self.new }
    {
        let copied = copy_both(self.alloc, name, &content);
        let wrote = self.put(name, content);
        self.log.keep(write_call(copied, wrote));
        wrote
    }
}

/// The place of the first of some files that has this name.
fn place_of(files: &[HeldFile], name: &str) -> Option<usize>
    ensures { result ≡ position (is_named name.now) files.now }
{
    files.iter().position(|file| file.name.as_str() == name)
}

/// Reads a whole file within a limit.
fn read_content(alloc: Global, content: &[u8], limit: usize, into: &mut Bytes) -> Got
    ensures { ReadsContent content.now limit result into.new }
{
    if content.len() > limit {
        return Got::TooLong;
    }
    match Bytes::copy_of(alloc, content) {
        Ok(bytes) => {
            *into = bytes;
            Got::Whole
        }
        Err(_) => Got::NoMemory,
    }
}

/// Reads the first of some files that has this name.
#[tactic(auto, using(crate::proofs::Named::none, crate::proofs::Named::read_there))]
fn read_named(files: &[HeldFile], alloc: Global, name: &str, limit: usize, into: &mut Bytes) -> Got
    ensures answer { AnswersRead (Some files.now) name.now limit result into.new }
    ensures no_failure { result ≢ Got.Failed }
{
    match place_of(files, name) {
        Some(place) => read_content(alloc, files[place].bytes.as_slice(), limit, into),
        None => Got::Absent,
    }
}

/// Writes the first of some files that has this name.
#[tactic(auto, using(crate::proofs::Named::none))]
fn write_named(files: &mut [HeldFile], name: &str, content: Bytes) -> Wrote
    ensures { WritesAmong files.old name.now content result files.new }
{
    match place_of(files, name) {
        Some(place) => {
            files[place].bytes = content;
            Wrote::Done
        }
        None => Wrote::Absent,
    }
}
