//! The faults of the description of a Thing: a placeholder that is left, or a condition that isn't met.

ghost use Rattle.std.specs.Prelude.{◌≡◌, ◌⊎◌};
ghost use Rattle.wot_json.specs.Meaning.{json_of};
ghost use Rattle.tm_derive.specs.Derivation.{unbound_faults, invalid_faults, tree_faults};
ghost use Rattle.tm_derive.specs.Refusals.{Finds};

use crate::fault::DeriveFault;
use std::alloc::Global;
use tm_parts::first_hole;
use wot_json::{Text, Tree};
use wot_terms::{CheckFault, TdFault, check};

/// Finds the first fault of the description of the Thing of this segment.
pub(crate) fn judge_tree(alloc: Global, segment: &str, tree: &Tree) -> Result<(), DeriveFault>
    ensures { Finds (tree_faults segment.now (json_of tree.now)) result }
{
    judge_holes(alloc, segment, tree)?;
    judge_terms(alloc, segment, tree)
}

/// Finds the first placeholder that is left.
fn judge_holes(alloc: Global, segment: &str, tree: &Tree) -> Result<(), DeriveFault>
    ensures { Finds (unbound_faults segment.now (json_of tree.now)) result }
{
    match first_hole(alloc, tree)? {
        None => Ok(()),
        Some((name, pointer)) => Err(unbound_fault(alloc, segment, name, pointer)),
    }
}

/// Finds the first condition that isn't met.
fn judge_terms(alloc: Global, segment: &str, tree: &Tree) -> Result<(), DeriveFault>
    ensures { Finds (invalid_faults segment.now (json_of tree.now)) result }
{
    match check(alloc, tree) {
        Ok(()) => Ok(()),
        Err(CheckFault::Td(fault)) => Err(invalid_fault(alloc, segment, fault)),
        Err(CheckFault::NoMemory) => Err(DeriveFault::NoMemory),
    }
}

/// The fault of a placeholder that is left.
fn unbound_fault(alloc: Global, segment: &str, name: Text, pointer: Text) -> DeriveFault
    ensures { (result ≡ DeriveFault.NoMemory) ⊎ (result ≡ DeriveFault.Unbound segment.now name pointer) }
{
    match Text::copy_of(alloc, segment) {
        Ok(segment) => DeriveFault::Unbound(segment, name, pointer),
        Err(_) => DeriveFault::NoMemory,
    }
}

/// The fault of a condition that isn't met.
fn invalid_fault(alloc: Global, segment: &str, fault: TdFault) -> DeriveFault
    ensures { (result ≡ DeriveFault.NoMemory) ⊎ (result ≡ DeriveFault.Invalid segment.now fault) }
{
    match Text::copy_of(alloc, segment) {
        Ok(segment) => DeriveFault::Invalid(segment, fault),
        Err(_) => DeriveFault::NoMemory,
    }
}
