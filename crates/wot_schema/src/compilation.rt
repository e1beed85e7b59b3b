//! Compiling the tree of a schema that has no fault.

ghost use Rattle.std.specs.Prelude.{◌≡◌, ◌↔◌, ◌++◌, ◌∷◌, [], map, IfSome, IfOk, OnOk};
ghost use Rattle.wot_json.specs.Tree.{Json, object, elements_of, members_of};
ghost use Rattle.wot_json.specs.Meaning.{json_of, json_items, json_members};
ghost use Rattle.wot_schema.specs.Acceptance.{Asks, Within, one_of, items as items_row, properties as properties_row};
ghost use Rattle.wot_schema.specs.Faults.{schema_faults, faults_within, faults_below, faults_of_list, faults_of_members};
ghost use Rattle.wot_schema.specs.Alike.{AcceptAlike, AllAlike, NamedAlike};
ghost use Rattle.wot_schema.specs.Nodes.{schema_of, schemas_of, list_of, items_of, properties_of};

use crate::node::{ItemRule, SchemaNode};
use crate::rules::Rules;
use std::alloc::Global;
use wot_json::{Members, NoMemory, Text, Tree};

/// The compiled form of a schema.
#[cycle(compilation)]
pub(crate) fn compile(alloc: Global, tree: &Tree) -> Result<SchemaNode, NoMemory>
    requires { schema_faults (json_of tree.now) ≡ [] }
    ensures { IfOk result (λ n. AcceptAlike (schema_of n) (json_of tree.now)) }
{
    match tree {
        Tree::Obj(members) => compile_members(alloc, members),
        _ => unreachable!(),
    }
}

#[cycle(compilation)]
fn compile_members(alloc: Global, members: &Members) -> Result<SchemaNode, NoMemory>
    requires { schema_faults (object (members_of members.now)) ≡ [] }
    ensures { IfOk result (λ n. AcceptAlike (schema_of n) (object (members_of members.now))) }
{
    let rules = Rules::read(alloc, members)?;
    let alternatives = compile_alternatives(alloc, members)?;
    let items = compile_items(alloc, members)?;
    let properties = compile_properties(alloc, members)?;
    Ok(SchemaNode {
        rules,
        alternatives,
        items,
        properties,
    })
}

/// Compiles the value of `oneOf`.
#[cycle(compilation)]
fn compile_alternatives(
    alloc: Global,
    members: &Members,
) -> Result<Option<Vec<SchemaNode>>, NoMemory>
    requires { faults_within one_of (members_of members.now) ≡ [] }
    ensures { IfOk result (λ o. (v : Json) →
        (IfSome o (λ nodes. Asks one_of (list_of nodes.items) v) ↔ Within one_of (members_of members.now) v)) }
{
    match members.value_under("oneOf") {
        None => Ok(None),
        Some(tree) => alternatives_in(alloc, tree),
    }
}

#[cycle(compilation)]
fn alternatives_in(alloc: Global, tree: &Tree) -> Result<Option<Vec<SchemaNode>>, NoMemory>
    requires { faults_below one_of (json_of tree.now) ≡ [] }
    ensures { IfOk result (λ o. (v : Json) →
        (IfSome o (λ nodes. Asks one_of (list_of nodes.items) v) ↔ Asks one_of (json_of tree.now) v)) }
{
    match tree {
        Tree::List(schemas) => Ok(Some(compile_list(alloc, schemas.as_slice())?)),
        _ => Ok(None),
    }
}

/// Compiles the value of `items`.
#[cycle(compilation)]
fn compile_items(alloc: Global, members: &Members) -> Result<ItemRule, NoMemory>
    requires { faults_within items_row (members_of members.now) ≡ [] }
    ensures { IfOk result (λ rule. (v : Json) →
        (Asks items_row (items_of rule) v ↔ Within items_row (members_of members.now) v)) }
{
    match members.value_under("items") {
        None => Ok(ItemRule::InOrder(Vec::new(alloc))),
        Some(tree) => item_rule_in(alloc, tree),
    }
}

#[cycle(compilation)]
fn item_rule_in(alloc: Global, tree: &Tree) -> Result<ItemRule, NoMemory>
    requires { faults_below items_row (json_of tree.now) ≡ [] }
    ensures { IfOk result (λ rule. (v : Json) →
        (Asks items_row (items_of rule) v ↔ Asks items_row (json_of tree.now) v)) }
{
    match tree {
        Tree::Obj(schema) => {
            let node = compile_members(alloc, schema)?;
            Ok(ItemRule::Each(boxed(alloc, node)?))
        }
        Tree::List(schemas) => {
            let nodes = compile_list(alloc, schemas.as_slice())?;
            Ok(ItemRule::InOrder(nodes))
        }
        _ => Ok(ItemRule::InOrder(Vec::new(alloc))),
    }
}

fn boxed(alloc: Global, node: SchemaNode) -> Result<Box<SchemaNode>, NoMemory>
    ensures { IfOk result (λ b. b.value ≡ node) }
{
    let node = Box::new(alloc, node)?;
    Ok(node)
}

/// Compiles the value of `properties`.
#[cycle(compilation)]
fn compile_properties(alloc: Global, members: &Members) -> Result<Vec<(Text, SchemaNode)>, NoMemory>
    requires { faults_within properties_row (members_of members.now) ≡ [] }
    ensures { IfOk result (λ named. (v : Json) →
        (Asks properties_row (properties_of named.items) v ↔ Within properties_row (members_of members.now) v)) }
{
    match members.value_under("properties") {
        None => Ok(Vec::new(alloc)),
        Some(tree) => properties_in(alloc, tree),
    }
}

#[cycle(compilation)]
fn properties_in(alloc: Global, tree: &Tree) -> Result<Vec<(Text, SchemaNode)>, NoMemory>
    requires { faults_below properties_row (json_of tree.now) ≡ [] }
    ensures { IfOk result (λ named. (v : Json) →
        (Asks properties_row (properties_of named.items) v ↔ Asks properties_row (json_of tree.now) v)) }
{
    match tree {
        Tree::Obj(schemas) => compile_named(alloc, schemas.as_slice()),
        _ => Ok(Vec::new(alloc)),
    }
}

/// The schemas of a list.
#[cycle(compilation)]
fn compile_list(alloc: Global, schemas: &[Tree]) -> Result<Vec<SchemaNode>, NoMemory>
    requires { faults_of_list 0 (elements_of (json_items schemas.now)) ≡ [] }
    ensures { IfOk result (λ nodes. AllAlike (map schema_of nodes.items) (json_items schemas.now)) }
{
    let mut nodes = Vec::with_capacity(alloc, schemas.len())?;
    for schema in schemas {
        let node = compile(alloc, schema)?;
        push_node(&mut nodes, node)?;
    }
    Ok(nodes)
}

fn push_node(nodes: &mut Vec<SchemaNode>, node: SchemaNode) -> Result<(), NoMemory>
    ensures { OnOk result (nodes.new.items ≡ nodes.old.items ++ node ∷ []) }
{
    nodes.push(node)?;
    Ok(())
}

/// The schemas of an object's members, with their names.
#[cycle(compilation)]
fn compile_named(
    alloc: Global,
    schemas: &[(Text, Tree)],
) -> Result<Vec<(Text, SchemaNode)>, NoMemory>
    requires { faults_of_members (members_of (json_members schemas.now)) ≡ [] }
    ensures { IfOk result (λ named. NamedAlike (schemas_of named.items) (json_members schemas.now)) }
{
    let mut named = Vec::with_capacity(alloc, schemas.len())?;
    for (name, schema) in schemas {
        let node = compile(alloc, schema)?;
        let name = Text::copy_of(alloc, name.as_str())?;
        push_named(&mut named, name, node)?;
    }
    Ok(named)
}

fn push_named(
    nodes: &mut Vec<(Text, SchemaNode)>,
    name: Text,
    node: SchemaNode,
) -> Result<(), NoMemory>
    ensures { OnOk result (nodes.new.items ≡ nodes.old.items ++ (name, node) ∷ []) }
{
    nodes.push((name, node))?;
    Ok(())
}
