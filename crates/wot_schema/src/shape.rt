//! The table of the members that a schema may have, and what each must be.

ghost use Rattle.std.specs.Prelude.{◌≡◌, ◌↔◌, map, IsTrue};
ghost use Rattle.std.specs.List.{flat_map};
ghost use Rattle.wot_json.specs.Tree.{Json, elements_of, members_of};
ghost use Rattle.wot_json.specs.Meaning.{json_of};
ghost use Rattle.wot_schema.specs.Checks.{FindsFirst, judge_of};
ghost use Rattle.wot_schema.specs.Faults.{row_faults, table_faults, type_name as type_name_judge, list_with_element as list_judge, number_above_zero, count, object_or_list, list_of_texts, are_texts as texts_test};

use crate::fault::{Checked, in_member, malformed, unsupported};
use crate::kind::kind_named;
use std::alloc::Global;
use wot_json::{Items, Members, Tree};

/// The form that a member of a schema must have.
#[derive(Clone, Copy, Debug)]
pub(crate) enum Shape {
    /// No schema may have the member.
    Nothing,
    TypeName,
    Anything,
    ListWithElement,
    Integer,
    IntegerAboveZero,
    /// An integer from 0 on.
    Count,
    ObjectOrList,
    Object,
    ListOfTexts,
}

/// The table (docs/REFERENCE.md has it too), in the order in which faults count. It is one const, because the proof then
/// compares it with that of the definitions as a whole.
const TABLE: [(&str, Shape); 19] = [
    ("pattern", Shape::Nothing),
    ("contentEncoding", Shape::Nothing),
    ("contentMediaType", Shape::Nothing),
    ("type", Shape::TypeName),
    ("const", Shape::Anything),
    ("enum", Shape::ListWithElement),
    ("oneOf", Shape::ListWithElement),
    ("minimum", Shape::Integer),
    ("maximum", Shape::Integer),
    ("exclusiveMinimum", Shape::Integer),
    ("exclusiveMaximum", Shape::Integer),
    ("multipleOf", Shape::IntegerAboveZero),
    ("minLength", Shape::Count),
    ("maxLength", Shape::Count),
    ("items", Shape::ObjectOrList),
    ("minItems", Shape::Count),
    ("maxItems", Shape::Count),
    ("properties", Shape::Object),
    ("required", Shape::ListOfTexts),
];

/// The members that the table speaks of are as it asks.
pub(crate) fn check_table(alloc: Global, members: &Members) -> Checked
    ensures { FindsFirst (table_faults (members_of members.now)) result }
{
    check_rows(alloc, members, &TABLE)
}

fn check_rows(alloc: Global, members: &Members, rows: &[(&'static str, Shape)]) -> Checked
    ensures { FindsFirst (flat_map (row_faults (members_of members.now)) (map (λ r. (r.0.now, judge_of r.0.now r.1)) rows.now)) result }
{
    for (name, shape) in rows {
        check_row(alloc, members, name, *shape)?;
    }
    Ok(())
}

fn check_row(alloc: Global, members: &Members, name: &str, shape: Shape) -> Checked
    ensures { FindsFirst (row_faults (members_of members.now) (name.now, judge_of name.now shape)) result }
{
    match members.value_under(name) {
        None => Ok(()),
        Some(value) => in_member(alloc, name, shape.check(alloc, name, value)),
    }
}

impl Shape {
    fn check(self, alloc: Global, name: &str, value: &Tree) -> Checked
        ensures { FindsFirst (judge_of name.now self (json_of value.now)) result }
    {
        match (self, value) {
            (Shape::Nothing, _) => unsupported(alloc, name),
            (Shape::TypeName, _) => type_name(alloc, value),
            (Shape::ListWithElement, _) => list_with_element(alloc, value),
            (Shape::IntegerAboveZero, Tree::Int(number)) if *number > 0 => Ok(()),
            (Shape::Count, Tree::Int(number)) if *number >= 0 => Ok(()),
            (Shape::ListOfTexts, Tree::List(items)) if are_texts(items) => Ok(()),
            (Shape::Anything, _)
            | (Shape::Integer, Tree::Int(_))
            | (Shape::ObjectOrList, Tree::Obj(_) | Tree::List(_))
            | (Shape::Object, Tree::Obj(_)) => Ok(()),
            _ => malformed(alloc),
        }
    }
}

fn type_name(alloc: Global, value: &Tree) -> Checked
    ensures { FindsFirst (type_name_judge (json_of value.now)) result }
{
    match value {
        Tree::Text(name) => match kind_named(name.as_str()) {
            Some(_) => Ok(()),
            None if name.as_str() == "number" => unsupported(alloc, name.as_str()),
            None => malformed(alloc),
        },
        _ => malformed(alloc),
    }
}

fn list_with_element(alloc: Global, value: &Tree) -> Checked
    ensures { FindsFirst (list_judge (json_of value.now)) result }
{
    match value {
        Tree::List(items) if items.len() > 0 => Ok(()),
        _ => malformed(alloc),
    }
}

fn are_texts(items: &Items) -> bool
    ensures { result ≡ texts_test (elements_of items.now) }
{
    for item in items.as_slice() {
        if !matches!(item, Tree::Text(_)) {
            return false;
        }
    }
    true
}
