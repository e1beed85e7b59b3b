//! Merge patch (RFC 7396): a tree that changes another.

ghost use Rattle.std.specs.Prelude.{◌≡◌, ◌≤◌, ◌<◌, ◌++◌, [], ◌∷◌, ℕ, List, length, option_map, unwrap_or, slice_index_or, IfOk, OnOk};
ghost use Rattle.wot_json.specs.Cutting.{IsCutAt, IsBefore, with_first};
ghost use Rattle.wot_json.specs.Lookup.{member_list};
ghost use Rattle.wot_json.specs.Meaning.{json_of, json_members};
ghost use Rattle.wot_json.specs.Merge.{merge, merged_members, members_under, added_members};
ghost use Rattle.wot_json.specs.Tree.{AreOrdered, members_of, null};

use crate::{Members, Text, Tree, copy};
use servient_base::NoMemory;
use std::alloc::Global;
use std::cmp::Ordering;

/// The target as the patch changes it (RFC 7396, section 2). A patch that is no object is the result itself; one
/// that is changes the members that it names, takes those away that it names with `null`, and leaves all others.
///
/// The members of both are in order and are gone through side by side, so the time is in proportion to the sizes
/// of target and patch together.
#[cycle(merge)]
pub fn merge_patch(alloc: Global, target: &Tree, patch: &Tree) -> Result<Tree, NoMemory>
    ensures { IfOk result (λ t. json_of t ≡ merge (json_of target.now) (json_of patch.now)) }
{
    match patch {
        Tree::Obj(changes) => {
            let members = merge_members(alloc, members_of_target(target), changes)?;
            Ok(Tree::Obj(members))
        }
        _ => copy(alloc, patch),
    }
}

/// The members of the target, which has none where it is no object.
fn members_of_target(target: &Tree) -> &[(Text, Tree)]
    ensures members { json_members result.now ≡ members_under (json_of target.now) }
    ensures order { AreOrdered (json_members result.now) }
{
    match target {
        Tree::Obj(members) => members.list.as_slice(),
        _ => &[],
    }
}

/// The members as the patch's members change them.
#[cycle(merge)]
fn merge_members(
    alloc: Global,
    members: &[(Text, Tree)],
    changes: &Members,
) -> Result<Members, NoMemory>
    requires { AreOrdered (json_members members.now) }
    ensures { IfOk result (λ m. m ≡ merged_members (json_members members.now) (members_of changes.now)) }
{
    let mut merged = Vec::new(alloc);
    let mut rest = members;
    for member in &changes.list {
        let (before, value, after) = cut_at(rest, member.0.as_str());
        push_copies(alloc, before, &mut merged)?;
        push_change(alloc, &member.0, value, &member.1, &mut merged)?;
        rest = after;
    }
    push_copies(alloc, rest, &mut merged)?;
    Ok(Members { list: merged })
}

/// Puts what a member of the patch makes of that of the target at the end, if anything is left.
#[cycle(merge)]
fn push_change(
    alloc: Global,
    name: &Text,
    value: Option<&Tree>,
    change: &Tree,
    into: &mut Vec<(Text, Tree)>,
) -> Result<(), NoMemory>
    ensures { OnOk result (json_members into.new.items ≡ json_members into.old.items
        ++ added_members name.now (json_of change.now) (merge (unwrap_or (option_map (λ t. json_of t.now) value.entry) null) (json_of change.now))) }
{
    if matches!(change, Tree::Null) {
        return Ok(());
    }
    let merged = match value {
        Some(value) => merge_patch(alloc, value, change)?,
        None => merge_patch(alloc, &Tree::Null, change)?,
    };
    let name = Text::copy_of(alloc, name.as_str())?;
    into.push((name, merged))?;
    Ok(())
}

/// Puts copies of members at the end.
fn push_copies(
    alloc: Global,
    members: &[(Text, Tree)],
    into: &mut Vec<(Text, Tree)>,
) -> Result<(), NoMemory>
    ensures { OnOk result (into.new.items ≡ into.old.items ++ members.now) }
{
    for member in members {
        let name = Text::copy_of(alloc, member.0.as_str())?;
        let value = copy(alloc, &member.1)?;
        into.push((name, value))?;
    }
    Ok(())
}

/// The members before a name, the value of that of the name, and the members after it.
fn cut_at<'a>(
    members: &'a [(Text, Tree)],
    name: &str,
) -> (&'a [(Text, Tree)], Option<&'a Tree>, &'a [(Text, Tree)])
    requires { AreOrdered (json_members members.now) }
    ensures cut { IsCutAt name.now (json_members members.now) (json_members result.0.now)
        (option_map (λ t. json_of t.now) result.1) (json_members result.2.now) }
    ensures order { AreOrdered (json_members result.2.now) }
{
    let (before, from) = members.split_at(count_before(members, name));
    match from.split_first() {
        Some((member, after)) => {
            if member.0.as_str() == name {
                (before, Some(&member.1), after)
            } else {
                (before, None, from)
            }
        }
        None => (before, None, from),
    }
}

/// The number of members whose names are before this one.
fn count_before(members: &[(Text, Tree)], name: &str) -> usize
    ensures bound { result ≤ length members.now }
    ensures before { (k : ℕ) → (d : List ℕ × Tree) → k < result → IsBefore (slice_index_or members.now k d).0 name.now }
    ensures next { (d : List ℕ × Tree) → result < length members.now → IsBefore (slice_index_or members.now result d).0 name.now → ⊥ }
{
    for (place, member) in members.iter().enumerate() {
        if member.0.as_str().cmp(name) != Ordering::Less {
            return place;
        }
    }
    members.len()
}
