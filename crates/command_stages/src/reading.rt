//! Files that a command reads, and the JSON texts in them.

ghost use Rattle.std.specs.Prelude.{◌≡◌, ◌≤◌, length, IfOk};
ghost use Rattle.servient_trace.specs.Trace.{Outside};
ghost use Rattle.command_stages.specs.Stages.{Around, around};
ghost use Rattle.command_stages.specs.Reading.{ReadsFile, ReadsTree};
ghost use Rattle.command_stages.specs.Ending.{Performs};

use crate::ending::{Ended, Ending, end_with};
use servient_outside::{Files, Got};
use std::alloc::Global;
use wot_json::{Bytes, ReadFault, Tree, read};

/// The longest description, plan or model, in bytes.
pub const LONGEST_JSON: usize = 1_048_576;

/// Reads a whole file of at most `limit` bytes.
pub fn read_file<F: Files>(
    alloc: Global,
    name: &str,
    limit: usize,
    files: &mut F,
) -> Result<Bytes, Ended>
    ensures stage { (w : Outside) → Performs (ReadsFile (F.seen files.old).held limit name.now) (around (F.seen files.old) w) (around (F.seen files.new) w) result }
    ensures within { IfOk result (λ content. length content ≤ limit) }
    ensures held { (F.seen files.new).held ≡ (F.seen files.old).held }
{
    let mut content = Bytes::new(alloc);
    match files.read(alloc, name, limit, &mut content) {
        Got::Whole => Ok(content),
        Got::Absent => Err(end_with(Ending::file(alloc, name, "absent"))),
        Got::Failed => Err(end_with(Ending::file(alloc, name, "failed"))),
        Got::TooLong => Err(end_with(Ending::input(alloc, name, "long"))),
        Got::NoMemory => Err(Ended::NoMemory),
    }
}

/// The tree of a JSON text, the content of the file of this name.
pub fn read_tree(alloc: Global, name: &str, content: &[u8]) -> Result<Tree, Ended>
    ensures { (a : Around) → Performs (ReadsTree name.now content.now) a a result }
{
    match read(alloc, content) {
        Ok(tree) => Ok(tree),
        Err(ReadFault::NotJson) => Err(end_with(Ending::input(alloc, name, "json"))),
        Err(ReadFault::TooDeep) => Err(end_with(Ending::input(alloc, name, "deep"))),
        Err(ReadFault::NotInteger(place)) => {
            Err(end_with(Ending::number(alloc, name, place.as_str())))
        }
        Err(ReadFault::NoMemory) => Err(Ended::NoMemory),
    }
}
