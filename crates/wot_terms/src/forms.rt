//! The demands of the rows on forms (TD 1.1, section 5.3.4.2).

ghost use Rattle.std.specs.Prelude.{◌≡◌};
ghost use Rattle.wot_json.specs.Tree.{elements_of, members_of};
ghost use Rattle.wot_json.specs.Meaning.{json_of, json_items};
ghost use Rattle.wot_terms.specs.Operations.{is_operation as is_operation_of};
ghost use Rattle.wot_terms.specs.Faults.{is, is_text_with, each_element, texts, form_operations};
ghost use Rattle.wot_terms.specs.Rows.{IsFinding, form_judge};

use crate::Kind;
use crate::demand::{Demand, optional_each, required};
use crate::fault::{Finding, in_element, in_member, wrong_unless};
use crate::op::is_operation;
use std::alloc::Global;
use wot_json::{Members, Tree};

/// The rows that speak of forms.
#[derive(Clone, Copy, Debug)]
pub(crate) enum FormRow {
    Href,
    Operations,
    Texts,
}

/// The texts of a form, in byte order of their names.
const TEXTS: [&str; 4] = ["contentType", "cov:method", "htv:methodName", "subprotocol"];

/// The finding of a row in the form of an affordance of a kind, or, with none, of the root.
pub(crate) fn form(alloc: Global, members: &Members, row: FormRow, place: Option<Kind>) -> Finding
    ensures { IsFinding (form_judge row place (members_of members.now)) result }
{
    match row {
        FormRow::Href => required(alloc, members, "href", Demand::Text),
        FormRow::Operations => operations(alloc, members, place),
        FormRow::Texts => optional_each(alloc, members, &TEXTS, Demand::Text),
    }
}

#[tactic(auto, using(crate::proofs::Findings::named_among))]
fn operations(alloc: Global, members: &Members, place: Option<Kind>) -> Finding
    ensures { IsFinding (form_operations place (members_of members.now)) result }
{
    match members.get("op") {
        None => Ok(()),
        Some(value) => in_member(alloc, "op", operation_names(alloc, value, place)),
    }
}

/// The value is the name of an operation of the place, or a list, not empty, of such names.
fn operation_names(alloc: Global, value: &Tree, place: Option<Kind>) -> Finding
    ensures { IsFinding (texts (is_operation_of place) (json_of value.now)) result }
{
    match value {
        Tree::List(names) if names.len() > 0 => each_operation(alloc, names.as_slice(), place),
        _ => wrong_unless(alloc, names_operation(place, value)),
    }
}

fn each_operation(alloc: Global, names: &[Tree], place: Option<Kind>) -> Finding
    ensures { IsFinding
        (each_element (is (is_text_with (is_operation_of place))) 0 (elements_of (json_items names.now)))
        result }
{
    for (index, name) in names.iter().enumerate() {
        let passes = names_operation(place, name);
        in_element(alloc, index, wrong_unless(alloc, passes))?;
    }
    Ok(())
}

/// The value is the name of an operation of the place.
fn names_operation(place: Option<Kind>, value: &Tree) -> bool
    ensures { result ≡ is_text_with (is_operation_of place) (json_of value.now) }
{
    match value {
        Tree::Text(name) => is_operation(place, name.as_str()),
        _ => false,
    }
}
