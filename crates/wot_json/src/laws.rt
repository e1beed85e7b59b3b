//! Laws of trees and their texts, as contracts of functions that no code needs to call.

ghost use Rattle.std.specs.Prelude.{◌≡◌, ◌≤◌, ◌↔◌, List, ℕ, Some, IsTrue};
ghost use Rattle.wot_json.specs.Json.{text_of};
ghost use Rattle.wot_json.specs.Meaning.{json_of};
ghost use Rattle.wot_json.specs.Lookup.{member_named, value_under};
ghost use Rattle.wot_json.specs.Merge.{merge, members_under, patched_member};
ghost use Rattle.wot_json.specs.Places.{place_text};
ghost use Rattle.wot_json.specs.Pointer.{IsPointer, is_pointer, tokens_in};
ghost use Rattle.wot_json.specs.Reading.{tree_of};
ghost use Rattle.wot_json.specs.Tree.{Json, Members as JsonMembers, object, nesting, elements_of, members_of, AreOrdered};
ghost use Rattle.wot_json.specs.WellFormed.{IsWellFormed, ElementsAreWellFormed, MembersAreWellFormed};

use crate::{Items, MAX_DEPTH, Members, Tree};

/// The text of a well-formed value that nests no deeper than is allowed is read as that value.
pub fn text_is_read_back()
    ensures { (v : Json) → IsWellFormed v → nesting v ≤ MAX_DEPTH → tree_of (text_of v) ≡ Some v }
{}

/// The most levels that a text that is read may nest, as a number.
pub fn constants_are_these()
    ensures max_depth { MAX_DEPTH ≡ 64 }
{}

/// A merge patch acts member by member (RFC 7396, section 2), and its result is well formed.
///
/// A member of the result is the target's where the patch doesn't name it, there is none where the patch has null, and
/// else it is the merge of the patch's member on the target's, or on null where the target has none.
pub fn merge_goes_by_members()
    ensures members { (target : Json) → (changes : JsonMembers) → (name : List ℕ) → IsWellFormed (object changes)
        → member_named name (members_under (merge target (object changes)))
        ≡ patched_member (member_named name (members_under target)) (value_under name changes) }
    ensures formed { (target patch : Json) → IsWellFormed target → IsWellFormed patch
        → IsWellFormed (merge target patch) }
{}

/// Merging a patch twice is merging it once.
pub fn merging_twice_is_merging_once()
    ensures { (target patch : Json) → IsWellFormed patch → merge (merge target patch) patch ≡ merge target patch }
{}

/// A text is a JSON Pointer exactly where it passes the test, and its tokens are those that it was written from. So a
/// contract may cite either form.
pub fn pointers_are_their_tokens()
    ensures test { (text : List ℕ) → IsTrue (is_pointer text) ↔ IsPointer text }
    ensures tokens { (tokens : List (List ℕ)) → tokens_in (place_text tokens) ≡ tokens }
{}

/// Each tree is well formed, so that the laws above hold of it. It goes through the whole tree, because what a type
/// keeps can't be said of all its values at once.
#[cycle(formed)]
pub fn tree_is_well_formed(tree: &Tree)
    ensures { IsWellFormed (json_of tree.now) }
{
    match tree {
        Tree::Null => {}
        Tree::Bool(_truth) => {}
        Tree::Int(number) => {
            // Read for the proof, because a number that was read is known to have 64 bits with sign.
            let _fits = *number;
        }
        Tree::Text(text) => {
            // Read for the proof, because a text that was read is known to be UTF-8.
            let _utf8 = text.as_str();
        }
        Tree::List(items) => items_are_well_formed(items),
        Tree::Obj(members) => members_are_well_formed(members),
    }
}

#[cycle(formed)]
fn items_are_well_formed(items: &Items)
    ensures { ElementsAreWellFormed (elements_of items.now) }
{
    for item in &items.list {
        tree_is_well_formed(item);
    }
}

#[cycle(formed)]
fn members_are_well_formed(members: &Members)
    ensures ordered { AreOrdered members.now }
    ensures members { MembersAreWellFormed (members_of members.now) }
{
    for (name, member) in &members.list {
        // Read for the proof, because a name that was read is known to be UTF-8.
        let _utf8 = name.as_str();
        tree_is_well_formed(member);
    }
}
