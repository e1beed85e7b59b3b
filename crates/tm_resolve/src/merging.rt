//! Merge patch (RFC 7396) on trees that are given away: the result is put together of their parts, none of which is
//! copied, because both were made for it. `wot_json::merge_patch` is lent both, and copies.

ghost use Rattle.std.specs.Prelude.{◌≡◌, ◌++◌, ◌∷◌, ◌↔◌, length, option_map, unwrap_or, Some, None, IfOk, OnOk, IsTrue, MatchOption};
ghost use Rattle.wot_json.specs.Cutting.{IsBefore, with_first};
ghost use Rattle.wot_json.specs.Meaning.{json_of, json_members};
ghost use Rattle.wot_json.specs.Merge.{merge, merged_members, members_under, added_members};
ghost use Rattle.wot_json.specs.Tree.{AreOrdered, members_of, null};
ghost use Rattle.tm_resolve.specs.Links as spec;
ghost use Rattle.tm_resolve.specs.Merging.{BeginsBefore, BeginsAt, TakesAt};

use crate::links::LINKS;
use servient_base::NoMemory;
use std::alloc::Global;
use std::cmp::Ordering;
use std::collections::VecDeque;
use wot_json::{Members, Text, Tree};

/// The target as the patch changes it (RFC 7396, section 2), put together of the parts of both.
///
/// The members of both are in order and are gone through side by side. A part that stays as it is moves whole.
#[cycle(merging)]
pub(crate) fn merged(alloc: Global, target: Tree, patch: Tree) -> Result<Tree, NoMemory>
    ensures { IfOk result (λ t. json_of t ≡ merge (json_of target) (json_of patch)) }
{
    match patch {
        Tree::Obj(changes) => {
            let members = members_of_target(alloc, target);
            Ok(Tree::Obj(merge_members(alloc, members, changes)?))
        }
        other => Ok(other),
    }
}

/// The members of the target, which has none where it is no object.
fn members_of_target(alloc: Global, target: Tree) -> Members
    ensures { result ≡ members_under (json_of target) }
{
    match target {
        Tree::Obj(members) => members,
        _ => Members::new(alloc),
    }
}

/// The members as the patch's members change them.
#[cycle(merging)]
fn merge_members(alloc: Global, members: Members, changes: Members) -> Result<Members, NoMemory>
    ensures { IfOk result (λ m. m ≡ merged_members members (members_of changes)) }
{
    let mut rest = VecDeque::from_vec(members.into_vec());
    let mut done = Vec::with_capacity(alloc, rest.len())?;
    for (name, change) in changes.into_vec() {
        let value = take_at(&mut rest, name.as_str(), &mut done)?;
        push_change(alloc, name, value, change, &mut done)?;
    }
    let mut left = rest.into_vec();
    done.append(&mut left)?;
    Ok(Members::from_vec(done))
}

/// Puts what a member of the patch makes of that of the target at the end, if anything is left.
#[cycle(merging)]
fn push_change(
    alloc: Global,
    name: Text,
    value: Option<Tree>,
    change: Tree,
    into: &mut Vec<(Text, Tree)>,
) -> Result<(), NoMemory>
    ensures { OnOk result (json_members into.new.items ≡ json_members into.old.items
        ++ added_members name (json_of change) (merge (unwrap_or (option_map json_of value) null) (json_of change))) }
{
    if matches!(change, Tree::Null) {
        return Ok(());
    }
    let changed = match value {
        Some(value) => merged(alloc, value, change)?,
        None => merged(alloc, Tree::Null, change)?,
    };
    into.push((name, changed))?;
    Ok(())
}

/// Moves the members before a name to the end of others, and takes out the value of the name, if there is one.
fn take_at(
    rest: &mut VecDeque<(Text, Tree)>,
    name: &str,
    into: &mut Vec<(Text, Tree)>,
) -> Result<Option<Tree>, NoMemory>
    requires { AreOrdered (json_members rest.old.items) }
    ensures { IfOk result (λ value. TakesAt name.now (json_members rest.old.items) (json_members into.old.items)
        (option_map json_of value) (json_members rest.new.items) (json_members into.new.items)) }
{
    while let Some(member) = take_before(rest, name) {
        into.push(member)?;
    }
    Ok(take_named(rest, name))
}

/// Takes the first member, where its name is before this one.
fn take_before(rest: &mut VecDeque<(Text, Tree)>, name: &str) -> Option<(Text, Tree)>
    ensures { MatchOption result
        ((rest.new.items ≡ rest.old.items) × (BeginsBefore name.now (json_members rest.old.items) → ⊥))
        (λ member. (rest.old.items ≡ member ∷ rest.new.items) × IsBefore member.0 name.now) }
{
    if begins_before(rest, name) {
        rest.pop_front()
    } else {
        None
    }
}

/// Takes the value of the first member, where it has this name.
fn take_named(rest: &mut VecDeque<(Text, Tree)>, name: &str) -> Option<Tree>
    ensures parts { json_members rest.old.items ≡ with_first name.now (option_map json_of result) (json_members rest.new.items) }
    ensures none { MatchOption result (BeginsAt name.now (json_members rest.old.items) → ⊥) (λ value. Unit {0}) }
{
    if !begins_at(rest, name) {
        return None;
    }
    match rest.pop_front() {
        Some((_name, value)) => Some(value),
        None => None,
    }
}

/// There is a first member, and its name is before this one.
fn begins_before(members: &VecDeque<(Text, Tree)>, name: &str) -> bool
    ensures { IsTrue result ↔ BeginsBefore name.now (json_members members.now.items) }
{
    match members.front() {
        Some(member) => member.0.as_str().cmp(name) == Ordering::Less,
        None => false,
    }
}

/// There is a first member, and it has this name.
fn begins_at(members: &VecDeque<(Text, Tree)>, name: &str) -> bool
    ensures { IsTrue result ↔ BeginsAt name.now (json_members members.now.items) }
{
    match members.front() {
        Some(member) => member.0.as_str() == name,
        None => false,
    }
}

/// The members of a model but for its links.
pub(crate) fn without_links(alloc: Global, model: Tree) -> Tree
    ensures { json_of result ≡ spec.without_links (json_of model) }
{
    let mut members = members_of_target(alloc, model).into_vec();
    members.retain(|member| member.0.as_str() != LINKS);
    Tree::Obj(Members::from_vec(members))
}
