//! `check TD`: the verdict on a file's content, a valid Thing Description or its first fault.

ghost use Rattle.command_stages.specs.Stages.{Around};
ghost use Rattle.command_stages.specs.Checking.{Checks, Judges};
ghost use Rattle.command_stages.specs.Ending.{EndsBy, Finishes};

use crate::ending::{Ended, Ending};
use crate::reading::read_tree;
use std::alloc::{AllocError, Global};
use wot_json::{NoMemory, Tree};
use wot_terms::{CheckFault, check};

/// Says whether the content of a file is a valid Thing Description, or its first fault.
pub fn check_file(alloc: Global, name: &str, content: &[u8]) -> Result<Ending, Ended>
    ensures { (a : Around) → EndsBy (Checks name.now content.now) a a result }
{
    let tree = read_tree(alloc, name, content)?;
    Ok(judge(alloc, &tree)?)
}

/// Says whether a tree is a valid description, or its first fault.
fn judge(alloc: Global, tree: &Tree) -> Result<Ending, NoMemory>
    ensures { (a : Around) → Finishes (Judges tree.now) a a result }
{
    match check(alloc, tree) {
        Ok(()) => Ending::valid(alloc),
        Err(CheckFault::Td(fault)) => Ending::invalid(alloc, fault.number, fault.pointer.as_str()),
        Err(CheckFault::NoMemory) => Err(AllocError),
    }
}
