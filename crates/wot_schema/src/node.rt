//! Schemas in the form in which values are held against them.

use crate::rules::Rules;
use std::marker::Model;
use wot_json::Text;

/// A compiled schema. Contracts see it as the members that would give its rules.
#[derive(Debug, Drop)]
#[cycle(node)]
pub(crate) struct SchemaNode {
    pub(crate) rules: Rules,
    pub(crate) alternatives: Option<Vec<SchemaNode>>,
    pub(crate) items: ItemRule,
    pub(crate) properties: Vec<(Text, SchemaNode)>,
}

/// The schemas against which the elements of a list are held.
#[derive(Debug, Drop)]
#[cycle(node)]
pub(crate) enum ItemRule {
    /// Each against one schema.
    Each(Box<SchemaNode>),
    /// The i-th against the i-th, and further ones against none.
    InOrder(Vec<SchemaNode>),
}

impl Model for SchemaNode {
    ghost use Rattle.std.specs.Prelude.{List, ℕ};
    ghost use Rattle.wot_json.specs.JsonCodes.{members_code};
    ghost use Rattle.wot_json.specs.Tree.{Json, most_member_nesting};

    ghost Value = { List (List ℕ × Json) };

    ghost coded = { members_code };

    ghost use Rattle.wot_schema.specs.Nodes.{node_members};

    ghost view = { node_members };

    ghost size = { most_member_nesting };

    ghost use Rattle.std.proofs.Common.{arith};
    ghost use Rattle.wot_schema.specs.NodeFalls.{node_le};

    ghost size_decreases = { λ a h. omega (arith, node_le a) };
}
