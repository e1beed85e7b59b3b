//! A model's value without what is optional in it and wasn't chosen.

ghost use Rattle.std.specs.Prelude.{◌≡◌, ◌++◌, [], ◌∷◌, option_map, IfOk, OnOk};
ghost use Rattle.wot_json.specs.Meaning.{json_of, json_members};
ghost use Rattle.wot_json.specs.Tree.{AreOrdered, null};
ghost use Rattle.tm_derive.specs.Dropping as spec;
ghost use Rattle.tm_derive.specs.Selected.{is_out};

use crate::changes::push_change;
use crate::optional::{is_among, is_chosen};
use servient_base::NoMemory;
use std::alloc::Global;
use wot_json::{Members, Text, Tree, below, merge_patch};

/// The optional affordances of a Thing, and all choices.
#[derive(Drop)]
pub(crate) struct Selection<'a> {
    pub(crate) segment: &'a str,
    pub(crate) texts: &'a [Text],
    pub(crate) choices: &'a [(Text, Text)],
}

/// The affordance at this place is optional and wasn't chosen.
fn is_left_out(selection: &Selection<'_>, place: &str) -> bool
    ensures { result ≡ is_out selection.now place.now }
{
    is_among(place, selection.texts) && !is_chosen(selection.choices, selection.segment, place)
}

/// The value without what is optional and wasn't chosen, and without the list of what is optional.
pub(crate) fn chosen_value(
    alloc: Global,
    selection: &Selection<'_>,
    value: &Tree,
) -> Result<Tree, NoMemory>
    ensures { IfOk result (λ t. json_of t ≡ spec.chosen_value (is_out selection.now) (json_of value.now)) }
{
    let mut patch = Vec::new(alloc);
    push_holder(alloc, selection, "actions", value, &mut patch)?;
    push_holder(alloc, selection, "events", value, &mut patch)?;
    push_holder(alloc, selection, "properties", value, &mut patch)?;
    push_change(alloc, &mut patch, "tm:optional", Some(Tree::Null))?;
    merge_patch(alloc, value, &Tree::Obj(Members::from_vec(patch)))
}

/// Puts the patch of the affordances that the value holds under a name at the end, where it holds such.
fn push_holder(
    alloc: Global,
    selection: &Selection<'_>,
    holder: &str,
    value: &Tree,
    patch: &mut Vec<(Text, Tree)>,
) -> Result<(), NoMemory>
    ensures { OnOk result (json_members patch.new.items ≡ json_members patch.old.items
        ++ spec.holder_patch (is_out selection.now) holder.now (json_of value.now)) }
{
    match value.member(holder) {
        None => Ok(()),
        Some(held) => {
            let change = holder_change(alloc, selection, holder, held)?;
            push_change(alloc, patch, holder, change)
        }
    }
}

/// The patch of the affordances of a kind, where the value is an object of them.
fn holder_change(
    alloc: Global,
    selection: &Selection<'_>,
    holder: &str,
    held: &Tree,
) -> Result<Option<Tree>, NoMemory>
    ensures { IfOk result (λ change. option_map json_of change ≡ spec.holder_change (is_out selection.now) holder.now (json_of held.now)) }
{
    match held {
        Tree::Obj(members) => Ok(Some(Tree::Obj(dropped_members(
            alloc, selection, holder, members,
        )?))),
        _ => Ok(None),
    }
}

/// A patch that takes away the members that are left out.
fn dropped_members(
    alloc: Global,
    selection: &Selection<'_>,
    holder: &str,
    members: &Members,
) -> Result<Members, NoMemory>
    ensures { IfOk result (λ m. m ≡ spec.dropped_members (is_out selection.now) holder.now members.now) }
{
    let list = members.as_slice();
    let mut dropped = Members::new(alloc);
    for (name, _) in list {
        push_dropped(alloc, selection, holder, name.as_str(), &mut dropped)?;
    }
    Ok(dropped)
}

/// Puts the change that takes a member away at the end, where it is left out.
fn push_dropped(
    alloc: Global,
    selection: &Selection<'_>,
    holder: &str,
    name: &str,
    dropped: &mut Members,
) -> Result<(), NoMemory>
    requires { AreOrdered (dropped.old ++ (name.now, null) ∷ []) }
    ensures { OnOk result (dropped.new ≡ dropped.old ++ spec.dropped_member (is_out selection.now) holder.now name.now) }
{
    let place = member_place(alloc, holder, name)?;
    if is_left_out(selection, place.as_str()) {
        dropped.push(Text::copy_of(alloc, name)?, Tree::Null)?;
    }
    Ok(())
}

/// The pointer to a member of what the value holds under a name.
fn member_place(alloc: Global, holder: &str, name: &str) -> Result<Text, NoMemory>
    ensures { IfOk result (λ t. t ≡ spec.member_place holder.now name.now) }
{
    let above = below(alloc, "", holder)?;
    below(alloc, above.as_str(), name)
}
