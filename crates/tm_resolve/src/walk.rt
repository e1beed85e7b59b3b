//! The walk through the parts of models that makes values, or finds the first fault.
//!
//! Each function is handed the chain so far, and with the pieces of the pointer to its part, and leaves
//! both as they were. Where it finds a fault the whole walk ends, so the first fault that is met is the first in order,
//! and only then is the text of a pointer made.

ghost use Rattle.std.specs.Prelude.{◌≡◌, ◌≤◌, ◌++◌, [], ◌∷◌, List, Some, IfOk, IfErr, OnOk, length};
ghost use Rattle.wot_json.specs.Meaning.{json_of};
ghost use Rattle.wot_json.specs.Tree.{Json, object};
ghost use Rattle.tm_parts.specs.References.{reference as part_at};
ghost use Rattle.tm_parts.specs.Sources.{source_named as source_under};
ghost use Rattle.tm_parts.specs.Views.{seen, seen_elements, seen_members};
ghost use Rattle.tm_resolve.specs.Chain.{pointer_of};
ghost use Rattle.tm_resolve.specs.Links.{extensions};
ghost use Rattle.tm_resolve.specs.Weight.{most_entries, entered_part};
ghost use Rattle.tm_resolve.specs.Value as value;
ghost use Rattle.tm_resolve.specs.Faults as faults;
ghost use Rattle.tm_resolve.specs.declared.fault.ResolveFault.{ResolveFault as FaultValue};
ghost use Rattle.tm_resolve.specs.Faults.{part_faults, element_faults, member_faults, reference_faults, extension_faults, target_faults, step_faults};
ghost use Rattle.tm_resolve.specs.Walking.{next_steps, Gives, GivesElements, GivesMembers, IsRefusal};

use crate::chain::{
    MOST_ENTRIES, is_in_chain, link_pieces, push_element, push_member, push_target, sole_piece,
};
use crate::fault::{ResolveFault, ResolveKind};
use crate::links::{Extensions, REFERENCE, extensions_of, link_target, reference_target};
use crate::merging::{merged, without_links};
use crate::sources::{Part, StepSources};
use tm_parts::{ListView, Location, Node, ObjectView, Reference, View};
use wot_json::{Items, Members, Text, Tree};

/// The value of the target to which the part at a place of the model `url` leads.
#[cycle(walk)]
pub(crate) fn target_value(
    sources: &StepSources<'_>,
    url: &str,
    place: &[Text],
    target: &Reference,
    chain: &mut Vec<Reference>,
) -> Result<Tree, ResolveFault>
    requires { length chain.old.items ≤ most_entries }
    ensures outcome { Gives ((next_steps sources.now chain.old.items).value chain.old.items target.now)
        ((next_steps sources.now chain.old.items).faults (part_at url.now (pointer_of place.now)) chain.old.items target.now) result }
    ensures chain { OnOk result (chain.new.items ≡ chain.old.items) }
{
    let part = match target_part(sources, url, place, target, chain) {
        Ok(part) => part,
        Err(fault) => return Err(fault),
    };
    if chain.len() >= MOST_ENTRIES {
        // Such a model is too large, and refused before the walk begins.
        return Ok(Tree::Null);
    }
    push_target(sources.alloc, chain, target)?;
    let value = stepped_value(sources, target, part, chain)?;
    let _target = chain.pop();
    Ok(value)
}

/// The part that a step to the target enters, or why it can't be entered.
fn target_part<'a>(
    sources: &'a StepSources<'_>,
    url: &str,
    place: &[Text],
    target: &Reference,
    chain: &[Reference],
) -> Result<Part<'a>, ResolveFault>
    ensures ok { IfOk result (λ part. entered_part sources.now.models chain.now target.now ≡ Some (seen part.view)) }
    ensures from { IfOk result (λ part. part.from.now ≡ target.now.url) }
    ensures fault { IfErr result (λ e. (inside : Json → List FaultValue)
        → IsRefusal e (step_faults inside (part_at url.now (pointer_of place.now)) chain.now target.now
        (source_under target.now.url sources.now.models))) }
{
    let alloc = sources.alloc;
    let source = match sources.models.get(target.url.as_str()) {
        Some(source) => source,
        None => return Err(ResolveFault::at_place(alloc, ResolveKind::MissingModel, url, place)),
    };
    if is_in_chain(target, chain) {
        return Err(ResolveFault::at_place(alloc, ResolveKind::Circular, url, place));
    }
    let whole = match source.model {
        Ok(whole) => whole,
        Err(fault) => return Err(ResolveFault::of_part(alloc, target.url.as_str(), fault)),
    };
    match whole.part(target.pointer.as_str()) {
        Some(view) => Ok(Part {
            from: source.location,
            view,
        }),
        None => Err(ResolveFault::at_place(alloc, ResolveKind::MissingNode, url, place)),
    }
}

/// The value of the part of the last target of the chain, which is a whole model or a part of one.
#[cycle(walk)]
fn stepped_value(
    sources: &StepSources<'_>,
    target: &Reference,
    part: Part<'_>,
    chain: &mut Vec<Reference>,
) -> Result<Tree, ResolveFault>
    requires chain { length chain.old.items ≤ most_entries }
    requires from { part.from.now ≡ target.now.url }
    ensures outcome { Gives (value.target_value (next_steps sources.now chain.old.items).value chain.old.items target.now (seen part.entry.view))
        (target_faults (next_steps sources.now chain.old.items) chain.old.items target.now (seen part.entry.view)) result }
    ensures chain { OnOk result (chain.new.items ≡ chain.old.items) }
{
    if target.pointer.as_str().is_empty() {
        return model_value(sources, part.from, part.view, chain);
    }
    let mut place = sole_piece(sources.alloc, target.pointer.as_str())?;
    part_value(sources, part.from, &mut place, part.view, chain)
}

/// The value of a whole model, with the model that it extends.
#[cycle(walk)]
fn model_value(
    sources: &StepSources<'_>,
    from: &Location,
    whole: View<'_>,
    chain: &mut Vec<Reference>,
) -> Result<Tree, ResolveFault>
    requires { length chain.old.items ≤ most_entries }
    ensures outcome { Gives (value.extended_value (next_steps sources.now chain.old.items).value from.now chain.old.items
        (extensions (seen whole.entry)) (value.part_value (next_steps sources.now chain.old.items).value from.now chain.old.items (seen whole.entry)))
        (extension_faults (next_steps sources.now chain.old.items) chain.old.items from.now (extensions (seen whole.entry))
        ++ part_faults (next_steps sources.now chain.old.items) chain.old.items (part_at from.now []) (seen whole.entry)) result }
    ensures chain { OnOk result (chain.new.items ≡ chain.old.items) }
{
    let alloc = sources.alloc;
    match extensions_of(whole) {
        Extensions::None => root_value(sources, from, whole, chain),
        Extensions::One(index, link) => {
            let extended = base_value(sources, from, index, link, chain)?;
            let changes = root_value(sources, from, whole, chain)?;
            let extended = without_links(alloc, extended);
            Ok(merged(alloc, extended, changes)?)
        }
        Extensions::Several => Err(ResolveFault::at(
            alloc,
            ResolveKind::TwoExtends,
            from.as_str(),
            "/links",
        )),
    }
}

/// The value of the model to which this link of a model leads, the only one to a model that it extends.
#[cycle(walk)]
fn base_value(
    sources: &StepSources<'_>,
    from: &Location,
    index: usize,
    link: View<'_>,
    chain: &mut Vec<Reference>,
) -> Result<Tree, ResolveFault>
    requires { length chain.old.items ≤ most_entries }
    ensures outcome { Gives (value.link_value (next_steps sources.now chain.old.items).value from.now chain.old.items (seen link.entry))
        (extension_faults (next_steps sources.now chain.old.items) chain.old.items from.now ((index, seen link.entry) ∷ [])) result }
    ensures chain { OnOk result (chain.new.items ≡ chain.old.items) }
{
    let alloc = sources.alloc;
    let place = link_pieces(alloc, index)?;
    let url = from.as_str();
    match link_target(alloc, from, link)? {
        Some(base) => target_value(sources, url, &place, &base, chain),
        None => Err(ResolveFault::at_place(alloc, ResolveKind::BadHref, url, &place)),
    }
}

/// The value of a whole model without the model that it extends.
#[cycle(walk)]
fn root_value(
    sources: &StepSources<'_>,
    from: &Location,
    whole: View<'_>,
    chain: &mut Vec<Reference>,
) -> Result<Tree, ResolveFault>
    requires { length chain.old.items ≤ most_entries }
    ensures outcome { Gives (value.part_value (next_steps sources.now chain.old.items).value from.now chain.old.items (seen whole.entry))
        (part_faults (next_steps sources.now chain.old.items) chain.old.items (part_at from.now []) (seen whole.entry)) result }
    ensures chain { OnOk result (chain.new.items ≡ chain.old.items) }
{
    let mut place = Vec::new(sources.alloc);
    part_value(sources, from, &mut place, whole, chain)
}

/// The value of a part.
#[cycle(walk)]
fn part_value(
    sources: &StepSources<'_>,
    from: &Location,
    place: &mut Vec<Text>,
    part: View<'_>,
    chain: &mut Vec<Reference>,
) -> Result<Tree, ResolveFault>
    requires { length chain.old.items ≤ most_entries }
    ensures outcome { Gives (value.part_value (next_steps sources.now chain.old.items).value from.now chain.old.items (seen part.entry))
        (part_faults (next_steps sources.now chain.old.items) chain.old.items (part_at from.now (pointer_of place.old.items)) (seen part.entry)) result }
    ensures chain { OnOk result (chain.new.items ≡ chain.old.items) }
    ensures place { OnOk result (place.new.items ≡ place.old.items) }
{
    match part.node() {
        Node::List(list) => Ok(Tree::List(items_value(sources, from, place, list, chain)?)),
        Node::Object(members) => object_value(sources, from, place, members, chain),
        Node::Null => Ok(Tree::Null),
        Node::Bool(truth) => Ok(Tree::Bool(truth)),
        Node::Int(number) => Ok(Tree::Int(number)),
        Node::Text(text) => Ok(Tree::Text(text.build(sources.alloc)?)),
    }
}

/// The values of the elements of a list.
#[cycle(walk)]
fn items_value(
    sources: &StepSources<'_>,
    from: &Location,
    place: &mut Vec<Text>,
    list: ListView<'_>,
    chain: &mut Vec<Reference>,
) -> Result<Items, ResolveFault>
    requires { length chain.old.items ≤ most_entries }
    ensures outcome { GivesElements (value.elements_value (next_steps sources.now chain.old.items).value from.now chain.old.items (seen_elements list.entry))
        (element_faults (next_steps sources.now chain.old.items) chain.old.items (part_at from.now (pointer_of place.old.items)) 0 (seen_elements list.entry)) result }
    ensures chain { OnOk result (chain.new.items ≡ chain.old.items) }
    ensures place { OnOk result (place.new.items ≡ place.old.items) }
{
    let items = list.items;
    let mut values = Items::new(sources.alloc);
    for (index, tree) in items.iter().enumerate() {
        let item = View {
            tree,
            values: list.values,
        };
        push_element(sources.alloc, place, index)?;
        let value = part_value(sources, from, place, item, chain)?;
        let _step = place.pop();
        values.push(value)?;
    }
    Ok(values)
}

/// The value of an object: with `tm:ref` its other members are a merge patch on what that leads to.
#[cycle(walk)]
fn object_value(
    sources: &StepSources<'_>,
    from: &Location,
    place: &mut Vec<Text>,
    members: ObjectView<'_>,
    chain: &mut Vec<Reference>,
) -> Result<Tree, ResolveFault>
    requires { length chain.old.items ≤ most_entries }
    ensures outcome { Gives (value.part_value (next_steps sources.now chain.old.items).value from.now chain.old.items (object (seen_members members.entry)))
        (part_faults (next_steps sources.now chain.old.items) chain.old.items (part_at from.now (pointer_of place.old.items)) (object (seen_members members.entry))) result }
    ensures chain { OnOk result (chain.new.items ≡ chain.old.items) }
    ensures place { OnOk result (place.new.items ≡ place.old.items) }
{
    let reference = match members.get(REFERENCE) {
        Some(reference) => reference,
        None => return Ok(Tree::Obj(members_value(sources, from, place, members, chain)?)),
    };
    let imported = imported_value(sources, from, place, reference, chain)?;
    let changes = Tree::Obj(members_value(sources, from, place, members, chain)?);
    Ok(merged(sources.alloc, imported, changes)?)
}

/// The value of what the value of a `tm:ref` leads to, which has to be an object.
#[cycle(walk)]
fn imported_value(
    sources: &StepSources<'_>,
    from: &Location,
    place: &[Text],
    reference: View<'_>,
    chain: &mut Vec<Reference>,
) -> Result<Tree, ResolveFault>
    requires { length chain.old.items ≤ most_entries }
    ensures outcome { Gives (value.reference_value (next_steps sources.now chain.old.items).value from.now chain.old.items (seen reference.entry))
        (reference_faults (next_steps sources.now chain.old.items) chain.old.items (part_at from.now (pointer_of place.now)) (Some (seen reference.entry))) result }
    ensures chain { OnOk result (chain.new.items ≡ chain.old.items) }
{
    let alloc = sources.alloc;
    let url = from.as_str();
    let target = match reference_target(alloc, from, reference)? {
        Some(target) => target,
        None => return Err(ResolveFault::at_place(alloc, ResolveKind::BadRef, url, place)),
    };
    let imported = target_value(sources, url, place, &target, chain)?;
    if !is_object(&imported) {
        return Err(ResolveFault::at_place(alloc, ResolveKind::NotObject, url, place));
    }
    Ok(imported)
}

/// The tree is an object.
fn is_object(tree: &Tree) -> bool
    ensures { result ≡ faults.is_object (json_of tree.now) }
{
    matches!(tree, Tree::Obj(_))
}

/// The values of the members of an object, but for `tm:ref`.
#[cycle(walk)]
fn members_value(
    sources: &StepSources<'_>,
    from: &Location,
    place: &mut Vec<Text>,
    members: ObjectView<'_>,
    chain: &mut Vec<Reference>,
) -> Result<Members, ResolveFault>
    requires { length chain.old.items ≤ most_entries }
    ensures outcome { GivesMembers (value.members_value (next_steps sources.now chain.old.items).value from.now chain.old.items (seen_members members.entry))
        (member_faults (next_steps sources.now chain.old.items) chain.old.items (part_at from.now (pointer_of place.old.items)) (seen_members members.entry)) result }
    ensures chain { OnOk result (chain.new.items ≡ chain.old.items) }
    ensures place { OnOk result (place.new.items ≡ place.old.items) }
{
    let list = members.members.as_slice();
    let mut values = Members::new(sources.alloc);
    for (name, tree) in list {
        if name.as_str() == REFERENCE {
            continue;
        }
        let member = View {
            tree,
            values: members.values,
        };
        push_member(sources.alloc, place, name.as_str())?;
        let value = part_value(sources, from, place, member, chain)?;
        let _step = place.pop();
        values.push(Text::copy_of(sources.alloc, name.as_str())?, value)?;
    }
    Ok(values)
}
