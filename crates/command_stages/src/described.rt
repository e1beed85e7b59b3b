//! The files that `consume` reads: a description, which is judged, and a value that is handed in.

ghost use Rattle.std.specs.Prelude.{◌≡◌, IfOk};
ghost use Rattle.wot_json.specs.Meaning.{json_of};
ghost use Rattle.wot_terms.specs.Faults.{IsValid};
ghost use Rattle.servient_trace.specs.Trace.{Outside};
ghost use Rattle.command_stages.specs.Stages.{Around, around};
ghost use Rattle.command_stages.specs.Describing.{DescriptionIn, ReadsDescription, ReadsInput, ReadsValue, TakesDescription};
ghost use Rattle.command_stages.specs.Ending.{Performs};

use crate::ending::{Ended, Ending, end_with};
use crate::reading::{LONGEST_JSON, read_file, read_tree};
use servient_outside::Files;
use std::alloc::Global;
use wot_json::{Text, Tree};
use wot_terms::{CheckFault, check};

/// Reads a description, and judges it.
pub fn read_description<F: Files>(alloc: Global, name: &str, files: &mut F) -> Result<Tree, Ended>
    ensures stage { (w : Outside) → Performs (ReadsDescription (F.seen files.old).held name.now) (around (F.seen files.old) w) (around (F.seen files.new) w) result }
    ensures valid { IfOk result (λ tree. IsValid (json_of tree)) }
    ensures held { (F.seen files.new).held ≡ (F.seen files.old).held }
{
    let content = read_file(alloc, name, LONGEST_JSON, files)?;
    description_in(alloc, name, content.as_slice())
}

/// The description in the content of a file, which is judged.
fn description_in(alloc: Global, name: &str, content: &[u8]) -> Result<Tree, Ended>
    ensures stage { (a : Around) → Performs (DescriptionIn name.now content.now) a a result }
    ensures valid { IfOk result (λ tree. IsValid (json_of tree)) }
{
    let tree = read_tree(alloc, name, content)?;
    judged(alloc, tree)
}

/// A tree that is a valid description.
fn judged(alloc: Global, tree: Tree) -> Result<Tree, Ended>
    ensures stage { (a : Around) → Performs (TakesDescription tree) a a result }
    ensures valid { IfOk result (λ tree. IsValid (json_of tree)) }
{
    match check(alloc, &tree) {
        Ok(()) => Ok(tree),
        Err(CheckFault::Td(fault)) => {
            Err(end_with(Ending::invalid(alloc, fault.number, fault.pointer.as_str())))
        }
        Err(CheckFault::NoMemory) => Err(Ended::NoMemory),
    }
}

/// Reads the value that is handed in, if a file is named.
pub fn read_input<F: Files>(
    alloc: Global,
    name: &Option<Text>,
    files: &mut F,
) -> Result<Option<Tree>, Ended>
    ensures { (w : Outside) → Performs (ReadsInput (F.seen files.old).held name.now) (around (F.seen files.old) w) (around (F.seen files.new) w) result }
{
    match name {
        None => Ok(None),
        Some(name) => {
            let value = read_value(alloc, name.as_str(), files)?;
            Ok(Some(value))
        }
    }
}

/// Reads a value.
fn read_value<F: Files>(alloc: Global, name: &str, files: &mut F) -> Result<Tree, Ended>
    ensures { (w : Outside) → Performs (ReadsValue (F.seen files.old).held name.now) (around (F.seen files.old) w) (around (F.seen files.new) w) result }
{
    let content = read_file(alloc, name, LONGEST_JSON, files)?;
    read_tree(alloc, name, content.as_slice())
}
