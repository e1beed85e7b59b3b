//! A model with values in place of its placeholders, built.

ghost use Rattle.std.specs.Prelude.{◌≡◌, IfOk};
ghost use Rattle.wot_json.specs.Tree.{elements_of, members_of};
ghost use Rattle.wot_json.specs.Meaning.{json_of};
ghost use Rattle.tm_parts.specs.Substitution.{substituted_value, substituted_elements, substituted_members, text_value};

use crate::values::Values;
use crate::view::{TextView, value_of};
use servient_base::NoMemory;
use std::alloc::Global;
use wot_json::{Items, Members, Text, Tree, copy};

/// The model with the values in place of its placeholders. A text that is exactly one placeholder becomes the value, of
/// any type, and into a longer text go texts alone. The content of a value isn't read again.
#[cycle(built)]
pub(crate) fn built(alloc: Global, tree: &Tree, values: &Values<'_>) -> Result<Tree, NoMemory>
    ensures { IfOk result (λ t. json_of t ≡ substituted_value (json_of tree.now) values.now) }
{
    match tree {
        Tree::Null => Ok(Tree::Null),
        Tree::Bool(truth) => Ok(Tree::Bool(*truth)),
        Tree::Int(number) => Ok(Tree::Int(*number)),
        Tree::Text(text) => built_text(alloc, text.as_str(), values),
        Tree::List(items) => Ok(Tree::List(built_items(alloc, items, values)?)),
        Tree::Obj(members) => Ok(Tree::Obj(built_members(alloc, members, values)?)),
    }
}

#[cycle(built)]
fn built_items(alloc: Global, items: &Items, values: &Values<'_>) -> Result<Items, NoMemory>
    ensures { IfOk result (λ i. elements_of i ≡ substituted_elements (elements_of items.now) values.now) }
{
    let list = items.as_slice();
    let mut built_list = Items::new(alloc);
    for item in list {
        built_list.push(built(alloc, item, values)?)?;
    }
    Ok(built_list)
}

#[cycle(built)]
fn built_members(alloc: Global, members: &Members, values: &Values<'_>) -> Result<Members, NoMemory>
    ensures { IfOk result (λ m. members_of m ≡ substituted_members (members_of members.now) values.now) }
{
    let list = members.as_slice();
    let mut built_list = Members::new(alloc);
    for (name, member) in list {
        let value = built(alloc, member, values)?;
        built_list.push(Text::copy_of(alloc, name.as_str())?, value)?;
    }
    Ok(built_list)
}

/// The value of a text.
#[tactic(auto, using(crate::proofs::Unread::built_unbound))]
fn built_text<'a>(alloc: Global, text: &'a str, values: &'a Values<'a>) -> Result<Tree, NoMemory>
    ensures { IfOk result (λ t. json_of t ≡ text_value text.now values.now) }
{
    match value_of(text, Some(values)) {
        Some(value) => copy(alloc, value),
        None => {
            let view = TextView {
                text,
                values: Some(values),
            };
            Ok(Tree::Text(view.build(alloc)?))
        }
    }
}
