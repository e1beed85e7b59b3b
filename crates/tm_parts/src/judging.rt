//! Whether a model has a value with values in place of its placeholders.

ghost use Rattle.std.specs.Prelude.{◌≡◌, ◌⊎◌, ℕ, [], ◌++◌, IfErr, OnOk};
ghost use Rattle.std.specs.List.{flat_map};
ghost use Rattle.wot_json.specs.Tree.{elements_of, members_of};
ghost use Rattle.wot_json.specs.Meaning.{json_of, json_members};
ghost use Rattle.wot_json.specs.Places.{step_text, element_step_text};
ghost use Rattle.tm_parts.specs.Placeholders.{pieces, placeholder as placeholder_piece};
ghost use Rattle.tm_parts.specs.Pieces.{pieces_of};
ghost use Rattle.tm_parts.specs.Substitution.{faults_of, element_faults, member_faults, name_faults, text_faults, piece_faults, faults_inside, IsSubstitutionRefusal};

use crate::placeholder::{Piece, first_piece, first_placeholder, whole_placeholder};
use crate::substitution::PartFault;
use crate::values::Values;
use std::alloc::Global;
use wot_json::{Items, Members, Text, Tree, below, through_element, through_member};

impl PartFault {
    /// The fault as it is seen from the object around the member that has it.
    fn inside_member(self, alloc: Global, name: &str) -> PartFault
        ensures { (result ≡ PartFault.NoMemory) ⊎ (result ≡ faults_inside (step_text name.now) self) }
    {
        match self {
            PartFault::InName(pointer) => match through_member(alloc, name, pointer.as_str()) {
                Ok(pointer) => PartFault::InName(pointer),
                Err(_) => PartFault::NoMemory,
            },
            other => other,
        }
    }

    /// The fault as it is seen from the list around the element that has it.
    fn inside_element(self, alloc: Global, index: usize) -> PartFault
        ensures { (result ≡ PartFault.NoMemory) ⊎ (result ≡ faults_inside (element_step_text index) self) }
    {
        match self {
            PartFault::InName(pointer) => match through_element(alloc, index, pointer.as_str()) {
                Ok(pointer) => PartFault::InName(pointer),
                Err(_) => PartFault::NoMemory,
            },
            other => other,
        }
    }
}

/// Finds the first fault of a model with these values, in preorder: a member's name that holds a placeholder is one,
/// and an object's names are judged before its members. It takes memory for the fault alone. Its time is in proportion
/// to the model, and for each placeholder to the logarithm of the number of values; how long values are doesn't matter.
#[cycle(judge)]
pub(crate) fn judge(alloc: Global, tree: &Tree, values: &Values<'_>) -> Result<(), PartFault>
    ensures ok { OnOk result (faults_of (json_of tree.now) values.now ≡ []) }
    ensures fault { IfErr result (λ e. IsSubstitutionRefusal e (faults_of (json_of tree.now) values.now)) }
{
    match tree {
        Tree::Null | Tree::Bool(_) | Tree::Int(_) => Ok(()),
        Tree::Text(text) => judge_text(alloc, text.as_str(), values),
        Tree::List(items) => judge_items(alloc, items, values),
        Tree::Obj(members) => {
            judge_names(alloc, members.as_slice())?;
            judge_members(alloc, members, values)
        }
    }
}

#[cycle(judge)]
fn judge_items(alloc: Global, items: &Items, values: &Values<'_>) -> Result<(), PartFault>
    ensures ok { OnOk result (element_faults 0 (elements_of items.now) values.now ≡ []) }
    ensures fault { IfErr result (λ e. IsSubstitutionRefusal e (element_faults 0 (elements_of items.now) values.now)) }
{
    let list = items.as_slice();
    for (place, item) in list.iter().enumerate() {
        if let Err(fault) = judge(alloc, item, values) {
            return Err(fault.inside_element(alloc, place));
        }
    }
    Ok(())
}

#[cycle(judge)]
fn judge_members(alloc: Global, members: &Members, values: &Values<'_>) -> Result<(), PartFault>
    ensures ok { OnOk result (member_faults (members_of members.now) values.now ≡ []) }
    ensures fault { IfErr result (λ e. IsSubstitutionRefusal e (member_faults (members_of members.now) values.now)) }
{
    let list = members.as_slice();
    for (name, member) in list {
        if let Err(fault) = judge(alloc, member, values) {
            return Err(fault.inside_member(alloc, name.as_str()));
        }
    }
    Ok(())
}

/// Finds the first member whose name holds a placeholder.
fn judge_names(alloc: Global, members: &[(Text, Tree)]) -> Result<(), PartFault>
    ensures ok { OnOk result (name_faults (members_of (json_members members.now)) ≡ []) }
    ensures fault { IfErr result (λ e. IsSubstitutionRefusal e (name_faults (members_of (json_members members.now)))) }
{
    for (name, _) in members {
        if first_placeholder(name.as_str()).is_some() {
            return Err(PartFault::InName(below(alloc, "", name.as_str())?));
        }
    }
    Ok(())
}

/// Finds the first fault of a text, which has none where it is exactly one placeholder.
fn judge_text(alloc: Global, text: &str, values: &Values<'_>) -> Result<(), PartFault>
    ensures ok { OnOk result (text_faults text.now values.now ≡ []) }
    ensures fault { IfErr result (λ e. IsSubstitutionRefusal e (text_faults text.now values.now)) }
{
    match whole_placeholder(text) {
        Some(_) => Ok(()),
        None => judge_pieces(alloc, text, values),
    }
}

/// Finds the first placeholder of a longer text that is bound to a value which is no text.
fn judge_pieces(alloc: Global, text: &str, values: &Values<'_>) -> Result<(), PartFault>
    ensures ok { OnOk result (flat_map (piece_faults values.now) (pieces text.now) ≡ []) }
    ensures fault { IfErr result (λ e. IsSubstitutionRefusal e (flat_map (piece_faults values.now) (pieces text.now))) }
{
    let mut rest = text;
    while !rest.is_empty() {
        let (piece, after) = first_piece(rest);
        judge_piece(alloc, piece, values)?;
        rest = after;
    }
    Ok(())
}

/// Judges a piece of a longer text.
fn judge_piece(alloc: Global, piece: Piece<'_>, values: &Values<'_>) -> Result<(), PartFault>
    ensures ok { OnOk result (flat_map (piece_faults values.now) (pieces_of piece.entry) ≡ []) }
    ensures fault { IfErr result (λ e. IsSubstitutionRefusal e (flat_map (piece_faults values.now) (pieces_of piece.entry))) }
{
    match piece {
        Piece::Plain(_) => Ok(()),
        Piece::Placeholder(name) => judge_placeholder(alloc, name, values),
    }
}

/// Judges a placeholder in a longer text.
fn judge_placeholder(alloc: Global, name: &str, values: &Values<'_>) -> Result<(), PartFault>
    ensures ok { OnOk result (piece_faults values.now (placeholder_piece name.now) ≡ []) }
    ensures fault { IfErr result (λ e. IsSubstitutionRefusal e (piece_faults values.now (placeholder_piece name.now))) }
{
    match values.get(name) {
        None | Some(Tree::Text(_)) => Ok(()),
        Some(_) => Err(PartFault::NotText(Text::copy_of(alloc, name)?)),
    }
}
