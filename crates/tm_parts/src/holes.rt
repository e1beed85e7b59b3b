//! The placeholders that are left in a value.

ghost use Rattle.std.specs.Prelude.{◌≡◌, IfOk};
ghost use Rattle.wot_json.specs.Tree.{elements_of, members_of};
ghost use Rattle.wot_json.specs.Meaning.{json_of};
ghost use Rattle.tm_parts.specs.Placeholders.{first_of};
ghost use Rattle.tm_parts.specs.Holes.{holes_of, element_holes, member_holes, text_holes};

use crate::placeholder::first_placeholder;
use servient_base::NoMemory;
use std::alloc::Global;
use wot_json::{Items, Members, Text, Tree, through_element, through_member};

/// The name of the first placeholder in a text of this value, and the pointer to that text (RFC 6901).
/// The order is preorder, in one text from the left. Names of members aren't looked at, because
/// a name with a placeholder is a fault of `substitute`. Its time is in proportion
/// to the value.
#[cycle(first_hole)]
pub fn first_hole(alloc: Global, tree: &Tree) -> Result<Option<(Text, Text)>, NoMemory>
    ensures { IfOk result (λ hole. hole ≡ first_of (holes_of (json_of tree.now))) }
{
    match tree {
        Tree::Null | Tree::Bool(_) | Tree::Int(_) => Ok(None),
        Tree::Text(text) => first_hole_of_text(alloc, text),
        Tree::List(items) => first_hole_of_items(alloc, items),
        Tree::Obj(members) => first_hole_of_members(alloc, members),
    }
}

fn first_hole_of_text(alloc: Global, text: &Text) -> Result<Option<(Text, Text)>, NoMemory>
    ensures { IfOk result (λ hole. hole ≡ first_of (text_holes text.now)) }
{
    match first_placeholder(text.as_str()) {
        Some(name) => Ok(Some((Text::copy_of(alloc, name)?, Text::copy_of(alloc, "")?))),
        None => Ok(None),
    }
}

#[cycle(first_hole)]
fn first_hole_of_items(alloc: Global, items: &Items) -> Result<Option<(Text, Text)>, NoMemory>
    ensures { IfOk result (λ hole. hole ≡ first_of (element_holes 0 (elements_of items.now))) }
{
    let list = items.as_slice();
    for (place, item) in list.iter().enumerate() {
        if let Some((name, pointer)) = first_hole(alloc, item)? {
            return Ok(Some((name, through_element(alloc, place, pointer.as_str())?)));
        }
    }
    Ok(None)
}

#[cycle(first_hole)]
fn first_hole_of_members(alloc: Global, members: &Members) -> Result<Option<(Text, Text)>, NoMemory>
    ensures { IfOk result (λ hole. hole ≡ first_of (member_holes (members_of members.now))) }
{
    let list = members.as_slice();
    for (name, member) in list {
        if let Some((hole, pointer)) = first_hole(alloc, member)? {
            return Ok(Some((
                hole,
                through_member(alloc, name.as_str(), pointer.as_str())?,
            )));
        }
    }
    Ok(None)
}
