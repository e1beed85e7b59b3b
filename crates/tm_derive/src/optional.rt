//! The optional affordances of a model, and the choices among them.

ghost use Rattle.std.specs.Prelude.{◌≡◌, ◌⊎◌, ◌++◌, [], ◌∷◌, map, option_map, IfOk, OnOk};
ghost use Rattle.std.specs.List.{flat_map};
ghost use Rattle.wot_json.specs.Meaning.{json_of, json_items};
ghost use Rattle.wot_json.specs.Places.{element_step_text};
ghost use Rattle.wot_json.specs.Pointer.{is_pointer as is_pointer_text};
ghost use Rattle.tm_resolve.specs.Resolver.{resolver_models};
ghost use Rattle.tm_derive.specs.Optional as spec;
ghost use Rattle.tm_derive.specs.Refusals.{Gathers, Finds, ReadsEntry};

use crate::common::Common;
use crate::fault::DeriveFault;
use crate::refusals::optional_fault;
use servient_base::NoMemory;
use std::alloc::Global;
use tm_resolve::{Relation, Resolver};
use wot_json::{Text, Tree, below_index, pointer};

/// The text is a pointer to a property, an action or an event.
fn is_affordance_place(text: &str) -> bool
    ensures { result ≡ spec.is_affordance_place text.now }
{
    let bytes = text.as_bytes();
    is_pointer(text)
        && (is_token_after(b"/properties/", bytes)
            || is_token_after(b"/actions/", bytes)
            || is_token_after(b"/events/", bytes))
}

/// The text is a JSON Pointer (RFC 6901).
fn is_pointer(text: &str) -> bool
    ensures { result ≡ is_pointer_text text.now }
{
    match pointer(&Tree::Null, text) {
        Ok(_) => true,
        Err(_) => false,
    }
}

/// The text is this one, and then a token without a `/`.
fn is_token_after(before: &[u8], text: &[u8]) -> bool
    ensures { result ≡ spec.is_token_after before.now text.now }
{
    text.starts_with(before) && !text[before.len()..].contains(&b'/')
}

/// The text is one of these.
pub(crate) fn is_among(text: &str, texts: &[Text]) -> bool
    ensures { result ≡ spec.is_among text.now texts.now }
{
    for other in texts {
        if text == other.as_str() {
            return true;
        }
    }
    false
}

/// Puts the texts of what is optional in a model at the end: those of the model that it extends, and then its own.
/// At most `room` models are gone through.
#[cycle(push_optional)]
pub(crate) fn push_optional(
    common: &Common<'_>,
    segment: &str,
    url: &str,
    room: usize,
    texts: &mut Vec<Text>,
) -> Result<(), DeriveFault>
    ensures { Gathers texts.old.items texts.new.items (spec.optional_texts room (resolver_models common.now.resolver) url.now)
        (map (DeriveFault.Optional segment.now) (spec.optional_faults room (resolver_models common.now.resolver) url.now)) result }
{
    if room == 0 {
        return Ok(());
    }
    push_base(common, segment, url, room - 1, texts)?;
    let part = common.resolver.optional(url)?;
    push_part(common.alloc, segment, &part, texts)
}

/// Puts the texts of what is optional in the model that a model extends at the end, where it extends one.
#[cycle(push_optional)]
fn push_base(
    common: &Common<'_>,
    segment: &str,
    url: &str,
    room: usize,
    texts: &mut Vec<Text>,
) -> Result<(), DeriveFault>
    ensures { Gathers texts.old.items texts.new.items
        (spec.of_base (spec.optional_texts room (resolver_models common.now.resolver)) (spec.base_url (resolver_models common.now.resolver) url.now))
        (map (DeriveFault.Optional segment.now) (spec.of_base (spec.optional_faults room (resolver_models common.now.resolver))
        (spec.base_url (resolver_models common.now.resolver) url.now))) result }
{
    match base_url(&common.resolver, url)? {
        None => Ok(()),
        Some(base) => push_optional(common, segment, base.as_str(), room, texts),
    }
}

/// The URL of the model that a model extends, where it extends one.
fn base_url(resolver: &Resolver<'_>, url: &str) -> Result<Option<Text>, NoMemory>
    ensures { IfOk result (λ base. base ≡ spec.base_url (resolver_models resolver.now) url.now) }
{
    let mut links = resolver.links(url, Relation::Extends)?;
    let last = links.pop();
    match last {
        Some(link) if links.is_empty() => Ok(link.target),
        _ => Ok(None),
    }
}

/// Puts the texts of a model's list of what is optional at the end, where it has one.
fn push_part(
    alloc: Global,
    segment: &str,
    part: &Option<Tree>,
    texts: &mut Vec<Text>,
) -> Result<(), DeriveFault>
    ensures { Gathers texts.old.items texts.new.items (spec.part_texts (option_map json_of part.now))
        (map (DeriveFault.Optional segment.now) (spec.part_faults (option_map json_of part.now))) result }
{
    match part {
        None => Ok(()),
        Some(list) => push_list(alloc, segment, list, texts),
    }
}

/// Puts the texts of a list of what is optional at the end.
fn push_list(
    alloc: Global,
    segment: &str,
    list: &Tree,
    texts: &mut Vec<Text>,
) -> Result<(), DeriveFault>
    ensures { Gathers texts.old.items texts.new.items (spec.list_texts (json_of list.now))
        (map (DeriveFault.Optional segment.now) (spec.list_faults (json_of list.now))) result }
{
    match list {
        Tree::List(entries) => push_entries(alloc, segment, entries.as_slice(), texts),
        _ => Err(optional_fault(alloc, segment, "/tm:optional")),
    }
}

/// Puts the texts of entries at the end.
fn push_entries(
    alloc: Global,
    segment: &str,
    entries: &[Tree],
    texts: &mut Vec<Text>,
) -> Result<(), DeriveFault>
    ensures { Gathers texts.old.items texts.new.items (flat_map spec.entry_texts (json_items entries.now))
        (map (DeriveFault.Optional segment.now) (spec.faulty_entries 0 (json_items entries.now))) result }
{
    for (index, entry) in entries.iter().enumerate() {
        match entry_text(entry) {
            Some(text) => push_copy(alloc, texts, text)?,
            None => return Err(entry_fault(alloc, segment, index)),
        }
    }
    Ok(())
}

/// Puts a copy of a text at the end.
pub(crate) fn push_copy(alloc: Global, texts: &mut Vec<Text>, text: &str) -> Result<(), NoMemory>
    ensures { OnOk result (texts.new.items ≡ texts.old.items ++ text.now ∷ []) }
{
    texts.push(Text::copy_of(alloc, text)?)?;
    Ok(())
}

/// The text of an entry that is as it should be.
fn entry_text(entry: &Tree) -> Option<&str>
    ensures { ReadsEntry (json_of entry.now) (option_map (λ text. text.now) result) }
{
    match entry {
        Tree::Text(text) if is_affordance_place(text.as_str()) => Some(text.as_str()),
        _ => None,
    }
}

/// The fault of an entry.
fn entry_fault(alloc: Global, segment: &str, index: usize) -> DeriveFault
    ensures { (result ≡ DeriveFault.NoMemory)
        ⊎ (result ≡ DeriveFault.Optional segment.now (spec.optional_place ++ element_step_text index)) }
{
    match below_index(alloc, "/tm:optional", index) {
        Ok(place) => optional_fault(alloc, segment, place.as_str()),
        Err(_) => DeriveFault::NoMemory,
    }
}

/// Finds the first choice for a Thing of what isn't optional there.
pub(crate) fn judge_choices(
    alloc: Global,
    segment: &str,
    texts: &[Text],
    choices: &[(Text, Text)],
) -> Result<(), DeriveFault>
    ensures { Finds (map (DeriveFault.Optional segment.now) (spec.unlisted_choices texts.now segment.now choices.now)) result }
{
    for (chosen_for, place) in choices {
        if chosen_for.as_str() == segment && !is_among(place.as_str(), texts) {
            return Err(optional_fault(alloc, segment, place.as_str()));
        }
    }
    Ok(())
}

/// The text is chosen for the Thing of this segment.
pub(crate) fn is_chosen(choices: &[(Text, Text)], segment: &str, text: &str) -> bool
    ensures { result ≡ spec.is_chosen choices.now segment.now text.now }
{
    for (chosen_for, place) in choices {
        if chosen_for.as_str() == segment && place.as_str() == text {
            return true;
        }
    }
    false
}
