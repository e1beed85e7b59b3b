//! The way to a part: the targets that were stepped into, and the pieces of the pointer to it.
//!
//! A target is put in before a step and taken out after it, so that the parts brought in beside a place don't count
//! there. Each walk ends, because the chain is bounded.

ghost use Rattle.std.specs.Prelude.{◌≡◌, ◌++◌, [], ◌∷◌, ◌<◌, ◌^◌, length, OnOk, IfOk};
ghost use Rattle.wot_json.specs.Places.{step_text, element_step_text};
ghost use Rattle.tm_resolve.specs.Chain as spec;
ghost use Rattle.tm_resolve.specs.Links.{link_place};

use servient_base::NoMemory;
use std::alloc::Global;
use tm_parts::Reference;
use wot_json::{Text, below, below_index};

/// The most targets of a chain.
pub(crate) const MOST_ENTRIES: usize = 16;

/// The target is in the chain.
pub(crate) fn is_in_chain(target: &Reference, chain: &[Reference]) -> bool
    ensures { result ≡ spec.is_in_chain target.now chain.now }
{
    for entry in chain {
        if is_target(target, entry) {
            return true;
        }
    }
    false
}

/// The two lead to one part of one model: their texts are the same, because a pointer that was decoded has
/// one text for each place.
fn is_target(target: &Reference, entry: &Reference) -> bool
    ensures { result ≡ spec.is_target target.now entry.now }
{
    entry.url.as_str() == target.url.as_str() && entry.pointer.as_str() == target.pointer.as_str()
}

/// Puts a copy of a target at the end of the chain.
pub(crate) fn push_target(
    alloc: Global,
    chain: &mut Vec<Reference>,
    target: &Reference,
) -> Result<(), NoMemory>
    ensures ok { OnOk result (chain.new.items ≡ chain.old.items ++ target.now ∷ []) }
    ensures room { OnOk result (length chain.old.items < 2 ^ 64) }
{
    // Read for the proof, because a length that was read is known to be below 2^64.
    let _before = chain.len();
    let url = Text::copy_of(alloc, target.url.as_str())?;
    let pointer = Text::copy_of(alloc, target.pointer.as_str())?;
    chain.push(Reference { url, pointer })?;
    Ok(())
}

/// Puts the step to an element of a list at the end of the pieces of a pointer.
pub(crate) fn push_element(
    alloc: Global,
    place: &mut Vec<Text>,
    index: usize,
) -> Result<(), NoMemory>
    ensures { OnOk result (place.new.items ≡ place.old.items ++ element_step_text index ∷ []) }
{
    let step = below_index(alloc, "", index)?;
    place.push(step)?;
    Ok(())
}

/// Puts the step to a member of an object at the end of the pieces of a pointer.
pub(crate) fn push_member(alloc: Global, place: &mut Vec<Text>, name: &str) -> Result<(), NoMemory>
    ensures { OnOk result (place.new.items ≡ place.old.items ++ step_text name.now ∷ []) }
{
    let step = below(alloc, "", name)?;
    place.push(step)?;
    Ok(())
}

/// The pieces of a pointer, of which this text is the only one.
pub(crate) fn sole_piece(alloc: Global, text: &str) -> Result<Vec<Text>, NoMemory>
    ensures { IfOk result (λ place. place.items ≡ text.now ∷ []) }
{
    let mut place = Vec::new(alloc);
    place.push(Text::copy_of(alloc, text)?)?;
    Ok(place)
}

/// The pieces of the pointer to a link of a model.
pub(crate) fn link_pieces(alloc: Global, index: usize) -> Result<Vec<Text>, NoMemory>
    ensures { IfOk result (λ place. spec.pointer_of place.items ≡ link_place index) }
{
    let mut place = sole_piece(alloc, "/links")?;
    push_element(alloc, &mut place, index)?;
    Ok(place)
}

/// The text of a pointer.
pub(crate) fn pointer_text(alloc: Global, place: &[Text]) -> Result<Text, NoMemory>
    ensures { IfOk result (λ pointer. pointer ≡ spec.pointer_of place.now) }
{
    let mut text = String::new(alloc);
    for piece in place {
        text.push_str(piece.as_str())?;
    }
    Ok(Text::from_string(text))
}
