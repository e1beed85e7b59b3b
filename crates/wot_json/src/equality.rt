//! Whether two trees are the same value.

ghost use Rattle.std.specs.Prelude.{◌≡◌, ◌↔◌, IsTrue};
ghost use Rattle.wot_json.specs.Meaning.{json_of, json_member};

use crate::{Items, Members, Text, Tree};

/// The trees are the same JSON value: `1` is neither `true` nor `"1"`, and the members of an object are compared
/// by name. It takes no memory, and its time is in proportion to the smaller tree.
#[cycle(equality)]
pub fn is_equal(left: &Tree, right: &Tree) -> bool
    ensures { IsTrue result ↔ (json_of left.now ≡ json_of right.now) }
{
    match (left, right) {
        (Tree::Null, Tree::Null) => true,
        (Tree::Bool(truth), Tree::Bool(other)) => truth == other,
        (Tree::Int(number), Tree::Int(other)) => number == other,
        (Tree::Text(text), Tree::Text(other)) => text.as_str() == other.as_str(),
        (Tree::List(items), Tree::List(others)) => are_equal_items(items, others),
        (Tree::Obj(members), Tree::Obj(others)) => are_equal_members(members, others),
        _ => false,
    }
}

#[cycle(equality)]
fn are_equal_items(left: &Items, right: &Items) -> bool
    ensures { IsTrue result ↔ (left.now ≡ right.now) }
{
    if left.list.len() != right.list.len() {
        return false;
    }
    for (place, item) in left.list.iter().enumerate() {
        if !is_equal(item, &right.list[place]) {
            return false;
        }
    }
    true
}

#[cycle(equality)]
fn are_equal_members(left: &Members, right: &Members) -> bool
    ensures { IsTrue result ↔ (left.now ≡ right.now) }
{
    if left.list.len() != right.list.len() {
        return false;
    }
    for (place, member) in left.list.iter().enumerate() {
        if !is_equal_member(member, &right.list[place]) {
            return false;
        }
    }
    true
}

#[cycle(equality)]
fn is_equal_member(left: &(Text, Tree), right: &(Text, Tree)) -> bool
    ensures { IsTrue result ↔ (json_member left.now ≡ json_member right.now) }
{
    left.0.as_str() == right.0.as_str() && is_equal(&left.1, &right.1)
}
