//! Whether a compiled schema accepts a value.

ghost use Rattle.std.specs.Prelude.{◌≡◌, ◌↔◌, map, IsTrue};
ghost use Rattle.wot_json.specs.Tree.{elements_of, members_of};
ghost use Rattle.wot_json.specs.Meaning.{json_of, json_items};
ghost use Rattle.wot_schema.specs.Acceptance.{Accepts, ExactlyOne, InOrder, AcceptMembers, Within, items as items_row, properties as properties_row};
ghost use Rattle.wot_schema.specs.Values.{EachElement};
ghost use Rattle.wot_schema.specs.Nodes.{schema_of, schemas_of};

use crate::node::{ItemRule, SchemaNode};
use wot_json::{Members, Text, Tree};

/// The schema accepts the value.
#[cycle(acceptance)]
pub(crate) fn accepts(node: &SchemaNode, value: &Tree) -> bool
    ensures { IsTrue result ↔ Accepts (schema_of node.now) (json_of value.now) }
{
    if !node.rules.accept(value) {
        return false;
    }
    match &node.alternatives {
        None => contents_are_accepted(node, value),
        Some(nodes) => exactly_one_accepts(nodes, value) && contents_are_accepted(node, value),
    }
}

#[cycle(acceptance)]
fn exactly_one_accepts(nodes: &[SchemaNode], value: &Tree) -> bool
    ensures { IsTrue result ↔ ExactlyOne (elements_of (map schema_of nodes.now)) (json_of value.now) }
{
    let mut accepted = false;
    for node in nodes {
        if accepts(node, value) {
            if accepted {
                return false;
            }
            accepted = true;
        }
    }
    accepted
}

/// The schemas below `items` accept the elements of a list, and those below `properties` the members of an
/// object.
#[cycle(acceptance)]
fn contents_are_accepted(node: &SchemaNode, value: &Tree) -> bool
    ensures { IsTrue result ↔ (Within items_row (members_of node.now) (json_of value.now)
        × Within properties_row (members_of node.now) (json_of value.now)) }
{
    match value {
        Tree::List(items) => match &node.items {
            ItemRule::Each(each) => accepts_each(each, items.as_slice()),
            ItemRule::InOrder(nodes) => accept_in_order(nodes, items.as_slice()),
        },
        Tree::Obj(members) => members_are_accepted(&node.properties, members),
        _ => true,
    }
}

#[cycle(acceptance)]
fn accepts_each(node: &SchemaNode, items: &[Tree]) -> bool
    ensures { IsTrue result ↔ EachElement (Accepts (schema_of node.now)) (elements_of (json_items items.now)) }
{
    for item in items {
        if !accepts(node, item) {
            return false;
        }
    }
    true
}

/// The i-th schema accepts the i-th element, as far as there are both.
#[cycle(acceptance)]
fn accept_in_order(nodes: &[SchemaNode], items: &[Tree]) -> bool
    ensures { IsTrue result ↔
        InOrder (elements_of (map schema_of nodes.now)) (elements_of (json_items items.now)) }
{
    for (place, node) in nodes.iter().enumerate() {
        if place < items.len() && !accepts(node, &items[place]) {
            return false;
        }
    }
    true
}

/// Each member that a schema is for is accepted by it.
#[cycle(acceptance)]
fn members_are_accepted(properties: &[(Text, SchemaNode)], members: &Members) -> bool
    ensures { IsTrue result ↔
        AcceptMembers (members_of (schemas_of properties.now)) (members_of members.now) }
{
    for (name, node) in properties {
        match members.value_under(name.as_str()) {
            Some(value) if !accepts(node, value) => return false,
            _ => {}
        }
    }
    true
}
