//! Whether a tree is a data schema: a walk over it, without compiling it.

ghost use Rattle.std.specs.Prelude.{◌≡◌, [], IsOk, OnOk, IfErr};
ghost use Rattle.wot_json.specs.Tree.{object, elements_of, members_of};
ghost use Rattle.wot_json.specs.Meaning.{json_of, json_items, json_members};
ghost use Rattle.wot_schema.specs.Acceptance.{one_of, items as items_row, properties as properties_row};
ghost use Rattle.wot_schema.specs.Checks.{FindsFirst};
ghost use Rattle.wot_schema.specs.Faults.{schema_faults, faults_within, faults_below, faults_of_list, faults_of_members, IsSchemaRefusal};

use crate::SchemaFault;
use crate::fault::{Checked, in_element, in_member, malformed};
use crate::shape::check_table;
use std::alloc::Global;
use wot_json::{Members, Text, Tree};

/// The first fault of a schema, if it has one: those of the table in docs/REFERENCE.md come in its order, and then those
/// of the schemas below, of `oneOf`, of `items` and of `properties`. Each has the JSON Pointer (RFC 6901) of its place.
///
/// It takes memory for the pointer alone, and so none where there is no fault. The time is in proportion to the size
/// of the tree.
pub fn check(alloc: Global, tree: &Tree) -> Result<(), SchemaFault>
    ensures ok { OnOk result (schema_faults (json_of tree.now) ≡ []) }
    // Where nothing is wrong it is never out of memory: contracts can't speak of allocations.
    ensures complete { schema_faults (json_of tree.now) ≡ [] → IsOk result }
    ensures fault { IfErr result (IsSchemaRefusal (schema_faults (json_of tree.now))) }
{
    check_schema(alloc, tree)
}

#[cycle(checking)]
fn check_schema(alloc: Global, tree: &Tree) -> Checked
    ensures { FindsFirst (schema_faults (json_of tree.now)) result }
{
    match tree {
        Tree::Obj(members) => check_members(alloc, members),
        _ => malformed(alloc),
    }
}

#[cycle(checking)]
fn check_members(alloc: Global, members: &Members) -> Checked
    ensures { FindsFirst (schema_faults (object (members_of members.now))) result }
{
    check_table(alloc, members)?;
    check_alternatives(alloc, members)?;
    check_items(alloc, members)?;
    check_properties(alloc, members)
}

/// The schemas that `oneOf` holds.
#[cycle(checking)]
fn check_alternatives(alloc: Global, members: &Members) -> Checked
    ensures { FindsFirst (faults_within one_of (members_of members.now)) result }
{
    match members.value_under("oneOf") {
        None => Ok(()),
        Some(tree) => in_member(alloc, "oneOf", alternatives_found(alloc, tree)),
    }
}

#[cycle(checking)]
fn alternatives_found(alloc: Global, tree: &Tree) -> Checked
    ensures { FindsFirst (faults_below one_of (json_of tree.now)) result }
{
    match tree {
        Tree::List(schemas) => check_list(alloc, schemas.as_slice()),
        _ => Ok(()),
    }
}

/// The schema or the schemas that `items` holds.
#[cycle(checking)]
fn check_items(alloc: Global, members: &Members) -> Checked
    ensures { FindsFirst (faults_within items_row (members_of members.now)) result }
{
    match members.value_under("items") {
        None => Ok(()),
        Some(tree) => in_member(alloc, "items", items_found(alloc, tree)),
    }
}

#[cycle(checking)]
fn items_found(alloc: Global, tree: &Tree) -> Checked
    ensures { FindsFirst (faults_below items_row (json_of tree.now)) result }
{
    match tree {
        Tree::Obj(schema) => check_members(alloc, schema),
        Tree::List(schemas) => check_list(alloc, schemas.as_slice()),
        _ => Ok(()),
    }
}

/// The schemas that `properties` holds.
#[cycle(checking)]
fn check_properties(alloc: Global, members: &Members) -> Checked
    ensures { FindsFirst (faults_within properties_row (members_of members.now)) result }
{
    match members.value_under("properties") {
        None => Ok(()),
        Some(tree) => in_member(alloc, "properties", properties_found(alloc, tree)),
    }
}

#[cycle(checking)]
fn properties_found(alloc: Global, tree: &Tree) -> Checked
    ensures { FindsFirst (faults_below properties_row (json_of tree.now)) result }
{
    match tree {
        Tree::Obj(schemas) => check_named(alloc, schemas.as_slice()),
        _ => Ok(()),
    }
}

#[cycle(checking)]
fn check_list(alloc: Global, schemas: &[Tree]) -> Checked
    ensures { FindsFirst (faults_of_list 0 (elements_of (json_items schemas.now))) result }
{
    for (index, schema) in schemas.iter().enumerate() {
        in_element(alloc, index, check_schema(alloc, schema))?;
    }
    Ok(())
}

#[cycle(checking)]
fn check_named(alloc: Global, schemas: &[(Text, Tree)]) -> Checked
    ensures { FindsFirst (faults_of_members (members_of (json_members schemas.now))) result }
{
    for (name, schema) in schemas {
        in_member(alloc, name.as_str(), check_schema(alloc, schema))?;
    }
    Ok(())
}
