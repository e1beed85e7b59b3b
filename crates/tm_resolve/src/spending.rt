//! The rest of a weight once a node is taken from it.

ghost use Rattle.std.specs.Prelude.{◌+◌, length};
ghost use Rattle.std.specs.List.{sum_by};
ghost use Rattle.wot_json.specs.Json.{json_string};
ghost use Rattle.wot_json.specs.Meaning.{json_members};
ghost use Rattle.tm_parts.specs.Views.{seen_text, node_value};
ghost use Rattle.tm_resolve.specs.Weight.{name_weight, own_weight};
ghost use Rattle.tm_resolve.specs.Counting.{Spends};

use tm_parts::{Node, TextView};
use wot_json::{Text, Tree, quoted_length};

/// The rest once a node is taken, without the nodes in it.
pub(crate) fn spend_node(node: Node<'_>, left: usize) -> Option<usize>
    ensures { Spends (own_weight (node_value node.entry)) left result }
{
    match node {
        Node::Null => spend(4, left),
        Node::Bool(_) => spend(5, left),
        Node::Int(_) => spend(20, left),
        Node::Text(text) => spend_seen_text(text, left),
        Node::List(list) => spend(list.items.len(), spend(2, left)?),
        Node::Object(object) => spend_names(object.members.as_slice(), spend(2, left)?),
    }
}

/// The rest once a text with values in it is taken, as it is written.
fn spend_seen_text(text: TextView<'_>, left: usize) -> Option<usize>
    ensures { Spends (length (json_string (seen_text text.entry))) left result }
{
    match text.quoted_length(left) {
        Some(length) => Some(left - length),
        None => None,
    }
}

/// The rest once the names of members are taken, and 2 for each.
fn spend_names(members: &[(Text, Tree)], left: usize) -> Option<usize>
    ensures { Spends (sum_by name_weight (json_members members.now)) left result }
{
    let mut left = left;
    for (name, _) in members {
        // A match and not `?`, since that gives the proof of the loop facts on `ControlFlow` alone.
        match spend_name(name.as_str(), left) {
            Some(rest) => left = rest,
            None => return None,
        }
    }
    Some(left)
}

/// The rest once a name of a member is taken, and 2.
fn spend_name(name: &str, left: usize) -> Option<usize>
    ensures { Spends (length (json_string name.now) + 2) left result }
{
    spend(2, spend_text(name, left)?)
}

/// The rest once this much is taken.
fn spend(amount: usize, left: usize) -> Option<usize>
    ensures { Spends amount left result }
{
    left.checked_sub(amount)
}

/// The rest once a text is taken, as it is written.
fn spend_text(text: &str, left: usize) -> Option<usize>
    ensures { Spends (length (json_string text.now)) left result }
{
    match quoted_length(text, left) {
        Some(length) => Some(left - length),
        None => None,
    }
}
