//! The faults of a Thing, made from what is borrowed.

ghost use Rattle.std.specs.Prelude.{◌≡◌, ◌⊎◌, IfOk};
ghost use Rattle.tm_resolve.specs.Links.{link_place};

use crate::fault::DeriveFault;
use servient_base::NoMemory;
use std::alloc::Global;
use tm_resolve::{ResolveFault, ResolveKind};
use wot_json::{Text, below_index};

/// Copies of two texts.
fn copies(alloc: Global, first: &str, second: &str) -> Result<(Text, Text), NoMemory>
    ensures { IfOk result (λ texts. texts ≡ (first.now, second.now)) }
{
    Ok((Text::copy_of(alloc, first)?, Text::copy_of(alloc, second)?))
}

/// The fault of a pointer of a Thing, or of a choice for it.
pub(crate) fn optional_fault(alloc: Global, segment: &str, pointer: &str) -> DeriveFault
    ensures { (result ≡ DeriveFault.NoMemory) ⊎ (result ≡ DeriveFault.Optional segment.now pointer.now) }
{
    match copies(alloc, segment, pointer) {
        Ok((segment, pointer)) => DeriveFault::Optional(segment, pointer),
        Err(_) => DeriveFault::NoMemory,
    }
}

/// The segment of a Thing, and the pointer to a link of its model.
fn link_copies(alloc: Global, segment: &str, index: usize) -> Result<(Text, Text), NoMemory>
    ensures { IfOk result (λ texts. texts ≡ (segment.now, link_place index)) }
{
    Ok((
        Text::copy_of(alloc, segment)?,
        below_index(alloc, "/links", index)?,
    ))
}

/// The fault of a link that has no name that an instance may have.
pub(crate) fn instance_fault(alloc: Global, segment: &str, index: usize) -> DeriveFault
    ensures { (result ≡ DeriveFault.NoMemory) ⊎ (result ≡ DeriveFault.Instance segment.now (link_place index)) }
{
    match link_copies(alloc, segment, index) {
        Ok((segment, place)) => DeriveFault::Instance(segment, place),
        Err(_) => DeriveFault::NoMemory,
    }
}

/// The fault of a link that has the name of an earlier one.
pub(crate) fn twice_fault(alloc: Global, segment: &str, index: usize) -> DeriveFault
    ensures { (result ≡ DeriveFault.NoMemory) ⊎ (result ≡ DeriveFault.TwiceInstance segment.now (link_place index)) }
{
    match link_copies(alloc, segment, index) {
        Ok((segment, place)) => DeriveFault::TwiceInstance(segment, place),
        Err(_) => DeriveFault::NoMemory,
    }
}

/// The fault of a link of a model that leads to no submodel.
pub(crate) fn resolve_fault(
    alloc: Global,
    segment: &str,
    kind: ResolveKind,
    model: &str,
    index: usize,
) -> DeriveFault
    ensures { (result ≡ DeriveFault.NoMemory) ⊎ (result ≡ DeriveFault.Resolve segment.now
        (ResolveFault.At kind model.now (link_place index))) }
{
    match (
        link_copies(alloc, segment, index),
        Text::copy_of(alloc, model),
    ) {
        (Ok((segment, place)), Ok(model)) => {
            DeriveFault::Resolve(segment, ResolveFault::At(kind, model, place))
        }
        _ => DeriveFault::NoMemory,
    }
}
