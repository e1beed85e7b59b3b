//! The weight of a model's expansion, counted without building anything.
//!
//! The nodes of the expansion are visited one by one, and the weight of each is taken from the rest of the limit: each
//! function is handed the rest before its visits, and answers the rest after them. Counting stops at the first visit
//! that passes a limit. A node weighs at least 2, so no more than 131,072 are counted and one more is begun, however
//! large the expansion is.

ghost use Rattle.std.specs.Prelude.{◌≡◌, ◌+◌, ◌≤◌, List, [], ◌∷◌, ◌++◌, length, Some, IfOk, OnOk};
ghost use Rattle.std.specs.List.{flat_map};
ghost use Rattle.wot_json.specs.Lookup.{member_list, member_named};
ghost use Rattle.tm_parts.specs.Views.{seen, seen_elements, seen_members, node_value};
ghost use Rattle.tm_parts.specs.declared.reference.Reference.{Reference as TargetValue};
ghost use Rattle.tm_resolve.specs.Links.{reference_name, extensions};
ghost use Rattle.tm_resolve.specs.Seen.{seen_items};
ghost use Rattle.tm_resolve.specs.Weight.{most_depth, most_entries, own_visit, reference_visits, part_visits, element_visits, member_visits, link_visits, extension_visits, submodel_visits, links_visits, target_visits, visits_within};
ghost use Rattle.tm_resolve.specs.Weight as spec;
ghost use Rattle.tm_resolve.specs.Counting.{next_step, Weighs};

use crate::chain::{MOST_ENTRIES, push_target};
use crate::links::{
    Extensions, REFERENCE, SUBMODEL, extensions_of, is_link, link_target, links_under,
    reference_target,
};
use crate::sources::{Part, StepSources, entered_part};
use crate::spending::spend_node;
use servient_base::NoMemory;
use std::alloc::{AllocError, Global};
use tm_parts::{ListView, Location, Node, ObjectView, Reference, View};

/// The most that an expansion may weigh.
const MOST_WEIGHT: usize = 262_144;

/// The greatest depth of a node.
const MOST_DEPTH: usize = 64;

/// The role of a step's target.
#[derive(Debug, Clone, Copy)]
pub enum Role {
    /// The model of a Thing, which comes with its submodels.
    Thing,
    /// A part of one: the model that it extends, or what a `tm:ref` leads to.
    Part,
}

/// The reason for which counting stopped.
#[derive(Debug, Drop)]
pub(crate) enum Stop {
    /// The weight, a depth or a chain passed its limit.
    TooLarge,
    /// Out of memory.
    NoMemory,
}

impl From<AllocError> for Stop {
    ghost use Rattle.std.specs.Prelude.{◌≡◌};
    ghost use Rattle.tm_resolve.specs.declared.weight.Stop.TheVariants.{NoMemory};

    ghost from_gives = { λ _ stop. stop ≡ NoMemory };

    fn from(_error: AllocError) -> Stop {
        Stop::NoMemory
    }
}

/// Whether the expansion of the model of a Thing passes a limit, where `root` is the whole of that model.
pub(crate) fn is_too_large(sources: &StepSources<'_>, root: &Reference) -> Result<bool, NoMemory>
    ensures { IfOk result (λ large. large ≡ spec.is_too_large (visits_within most_entries sources.now.models
        Role.Thing 0 [] root.now)) }
{
    let mut chain = Vec::new(sources.alloc);
    match weigh_step(sources, Role::Thing, 0, root, &mut chain, MOST_WEIGHT) {
        Ok(_) => Ok(false),
        Err(Stop::TooLarge) => Ok(true),
        Err(Stop::NoMemory) => Err(AllocError),
    }
}

/// Visits what a step to a target leads to, at this depth.
#[cycle(weigh)]
fn weigh_step(
    sources: &StepSources<'_>,
    role: Role,
    depth: usize,
    target: &Reference,
    chain: &mut Vec<Reference>,
    left: usize,
) -> Result<usize, Stop>
    ensures weight { Weighs (next_step sources.now chain.old.items role depth chain.old.items target.now)
        left result }
    ensures chain { OnOk result (chain.new.items ≡ chain.old.items) }
{
    let Some(part) = entered_part(sources, target, chain) else {
        return Ok(left);
    };
    if chain.len() >= MOST_ENTRIES {
        return Err(Stop::TooLarge);
    }
    push_target(sources.alloc, chain, target)?;
    let left = weigh_target(sources, role, depth, target, part, chain, left)?;
    let _target = chain.pop();
    Ok(left)
}

/// Visits the part of the last target of the chain, and where it is a whole model what its links lead to.
#[cycle(weigh)]
fn weigh_target(
    sources: &StepSources<'_>,
    role: Role,
    depth: usize,
    target: &Reference,
    part: Part<'_>,
    chain: &mut Vec<Reference>,
    left: usize,
) -> Result<usize, Stop>
    requires chain { length chain.old.items ≤ most_entries }
    requires from { part.from.now ≡ target.now.url }
    ensures weight { Weighs (target_visits (next_step sources.now chain.old.items) role depth
        chain.old.items target.now (seen part.entry.view)) left result }
    ensures chain { OnOk result (chain.new.items ≡ chain.old.items) }
{
    let from = part.from;
    let left = weigh_part(sources, from, depth, part.view, chain, left)?;
    if target.pointer.as_str().is_empty() {
        weigh_links(sources, role, from, part.view, chain, left)
    } else {
        Ok(left)
    }
}

/// Visits what the links of a whole model lead to: the model that it extends, and where it is that of a Thing its
/// submodels.
#[cycle(weigh)]
fn weigh_links(
    sources: &StepSources<'_>,
    role: Role,
    from: &Location,
    whole: View<'_>,
    chain: &mut Vec<Reference>,
    left: usize,
) -> Result<usize, Stop>
    requires { length chain.old.items ≤ most_entries }
    ensures weight { Weighs (links_visits (next_step sources.now chain.old.items) role from.now
        chain.old.items (seen whole.entry)) left result }
    ensures chain { OnOk result (chain.new.items ≡ chain.old.items) }
{
    let left = weigh_extension(sources, from, whole, chain, left)?;
    match role {
        Role::Thing => weigh_submodels(sources, from, links_under(whole), chain, left),
        Role::Part => Ok(left),
    }
}

/// Visits the model that a model extends, where it extends one.
#[cycle(weigh)]
fn weigh_extension(
    sources: &StepSources<'_>,
    from: &Location,
    whole: View<'_>,
    chain: &mut Vec<Reference>,
    left: usize,
) -> Result<usize, Stop>
    requires { length chain.old.items ≤ most_entries }
    ensures weight { Weighs (extension_visits (next_step sources.now chain.old.items) from.now chain.old.items
        (extensions (seen whole.entry))) left result }
    ensures chain { OnOk result (chain.new.items ≡ chain.old.items) }
{
    match extensions_of(whole) {
        Extensions::One(_, link) => weigh_link(sources, Role::Part, from, link, chain, left),
        Extensions::None | Extensions::Several => Ok(left),
    }
}

/// Visits the submodels among links.
#[cycle(weigh)]
fn weigh_submodels(
    sources: &StepSources<'_>,
    from: &Location,
    links: ListView<'_>,
    chain: &mut Vec<Reference>,
    left: usize,
) -> Result<usize, Stop>
    requires { length chain.old.items ≤ most_entries }
    ensures weight { Weighs (flat_map (submodel_visits (next_step sources.now chain.old.items) from.now
        chain.old.items) (seen_items links.entry)) left result }
    ensures chain { OnOk result (chain.new.items ≡ chain.old.items) }
{
    let items = links.items;
    let mut left = left;
    for tree in items {
        let link = View {
            tree,
            values: links.values,
        };
        left = weigh_submodel(sources, from, link, chain, left)?;
    }
    Ok(left)
}

/// Visits the submodel that a link leads to, where it is such a link.
#[cycle(weigh)]
fn weigh_submodel(
    sources: &StepSources<'_>,
    from: &Location,
    link: View<'_>,
    chain: &mut Vec<Reference>,
    left: usize,
) -> Result<usize, Stop>
    requires { length chain.old.items ≤ most_entries }
    ensures weight { Weighs (submodel_visits (next_step sources.now chain.old.items) from.now chain.old.items
        (seen link.entry)) left result }
    ensures chain { OnOk result (chain.new.items ≡ chain.old.items) }
{
    if is_link(link, SUBMODEL) {
        weigh_link(sources, Role::Thing, from, link, chain, left)
    } else {
        Ok(left)
    }
}

/// Visits the model that a link leads to, where it leads to one.
#[cycle(weigh)]
fn weigh_link(
    sources: &StepSources<'_>,
    role: Role,
    from: &Location,
    link: View<'_>,
    chain: &mut Vec<Reference>,
    left: usize,
) -> Result<usize, Stop>
    requires { length chain.old.items ≤ most_entries }
    ensures weight { Weighs (link_visits (next_step sources.now chain.old.items) role from.now
        chain.old.items (seen link.entry)) left result }
    ensures chain { OnOk result (chain.new.items ≡ chain.old.items) }
{
    match link_target(sources.alloc, from, link)? {
        Some(model) => weigh_step(sources, role, 0, &model, chain, left),
        None => Ok(left),
    }
}

/// Visits a part at this depth, what it refers to, and what is in it.
#[cycle(weigh)]
fn weigh_part(
    sources: &StepSources<'_>,
    from: &Location,
    depth: usize,
    part: View<'_>,
    chain: &mut Vec<Reference>,
    left: usize,
) -> Result<usize, Stop>
    requires { length chain.old.items ≤ most_entries }
    ensures weight { Weighs (part_visits (next_step sources.now chain.old.items) from.now chain.old.items depth
        (seen part.entry)) left result }
    ensures chain { OnOk result (chain.new.items ≡ chain.old.items) }
{
    let node = part.node();
    let left = weigh_node(node, depth, left)?;
    match node {
        Node::List(list) => weigh_elements(sources, from, depth + 1, list, chain, left),
        Node::Object(members) => weigh_object(sources, from, depth, members, chain, left),
        _ => Ok(left),
    }
}

/// Visits the members of an object, and what it refers to. The members come first, so that the text of a reference
/// isn't made before it is known not to be too long.
#[cycle(weigh)]
fn weigh_object(
    sources: &StepSources<'_>,
    from: &Location,
    depth: usize,
    members: ObjectView<'_>,
    chain: &mut Vec<Reference>,
    left: usize,
) -> Result<usize, Stop>
    requires depth { depth ≤ most_depth }
    requires chain { length chain.old.items ≤ most_entries }
    ensures weight { Weighs (reference_visits (next_step sources.now chain.old.items) from.now chain.old.items
        depth (member_named reference_name (member_list (seen_members members.entry)))
        ++ member_visits (next_step sources.now chain.old.items) from.now chain.old.items (depth + 1)
        (seen_members members.entry)) left result }
    ensures chain { OnOk result (chain.new.items ≡ chain.old.items) }
{
    let left = weigh_members(sources, from, depth + 1, members, chain, left)?;
    match members.get(REFERENCE) {
        Some(reference) => weigh_reference(sources, from, depth, reference, chain, left),
        None => Ok(left),
    }
}

/// Visits what the value of a `tm:ref` refers to, at the depth of the object that has it.
#[cycle(weigh)]
fn weigh_reference(
    sources: &StepSources<'_>,
    from: &Location,
    depth: usize,
    reference: View<'_>,
    chain: &mut Vec<Reference>,
    left: usize,
) -> Result<usize, Stop>
    requires { length chain.old.items ≤ most_entries }
    ensures weight { Weighs (reference_visits (next_step sources.now chain.old.items) from.now chain.old.items
        depth (Some (seen reference.entry))) left result }
    ensures chain { OnOk result (chain.new.items ≡ chain.old.items) }
{
    match reference_target(sources.alloc, from, reference)? {
        Some(target) => weigh_step(sources, Role::Part, depth, &target, chain, left),
        None => Ok(left),
    }
}

/// Visits the elements of a list.
#[cycle(weigh)]
fn weigh_elements(
    sources: &StepSources<'_>,
    from: &Location,
    depth: usize,
    list: ListView<'_>,
    chain: &mut Vec<Reference>,
    left: usize,
) -> Result<usize, Stop>
    requires { length chain.old.items ≤ most_entries }
    ensures weight { Weighs (element_visits (next_step sources.now chain.old.items) from.now chain.old.items
        depth (seen_elements list.entry)) left result }
    ensures chain { OnOk result (chain.new.items ≡ chain.old.items) }
{
    let items = list.items;
    let mut left = left;
    for tree in items {
        let item = View {
            tree,
            values: list.values,
        };
        left = weigh_part(sources, from, depth, item, chain, left)?;
    }
    Ok(left)
}

/// Visits the members of an object.
#[cycle(weigh)]
fn weigh_members(
    sources: &StepSources<'_>,
    from: &Location,
    depth: usize,
    members: ObjectView<'_>,
    chain: &mut Vec<Reference>,
    left: usize,
) -> Result<usize, Stop>
    requires { length chain.old.items ≤ most_entries }
    ensures weight { Weighs (member_visits (next_step sources.now chain.old.items) from.now chain.old.items
        depth (seen_members members.entry)) left result }
    ensures chain { OnOk result (chain.new.items ≡ chain.old.items) }
{
    let list = members.members.as_slice();
    let mut left = left;
    for (_, tree) in list {
        let member = View {
            tree,
            values: members.values,
        };
        left = weigh_part(sources, from, depth, member, chain, left)?;
    }
    Ok(left)
}

/// Visits a node at this depth, by a chain within its limit.
fn weigh_node(node: Node<'_>, depth: usize, left: usize) -> Result<usize, Stop>
    ensures weight { (chain : List TargetValue) → length chain ≤ most_entries → Weighs (own_visit chain depth
        (node_value node.entry) ∷ []) left result }
    ensures depth { OnOk result (depth ≤ most_depth) }
{
    if depth > MOST_DEPTH {
        return Err(Stop::TooLarge);
    }
    match spend_node(node, left) {
        Some(left) => Ok(left),
        None => Err(Stop::TooLarge),
    }
}
