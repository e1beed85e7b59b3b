//! The rows that speak of each affordance or of each form: one walk for all of them.

ghost use Rattle.std.specs.Prelude.{◌≡◌, Some};
ghost use Rattle.wot_json.specs.Tree.{members_of};
ghost use Rattle.wot_json.specs.Meaning.{json_of, json_members};
ghost use Rattle.wot_terms.specs.Faults.{affordances_of as affordances_row, each_affordance as each_affordance_row, each_form as each_form_row, forms_of as forms_row, affordance_forms, affordance_schemas, if_object, if_list, each_member};
ghost use Rattle.wot_terms.specs.Rows.{IsFinding, affordance_judge, form_judge};

use crate::Kind;
use crate::demand::{Demand, optional_each, schema};
use crate::entries::{EntryRule, each_element, list_of_some};
use crate::fault::{Finding, in_member, missing};
use crate::forms::FormRow;
use std::alloc::Global;
use wot_json::{Members, Text, Tree};

/// The rows that speak of affordances.
#[derive(Clone, Copy, Debug)]
pub(crate) enum AffordanceRow {
    Forms,
    EachForm(FormRow),
    Flags,
    Schemas,
}

/// The truth values of an affordance, in byte order of their names.
const FLAGS: [&str; 5] = ["idempotent", "observable", "readOnly", "safe", "writeOnly"];

/// The finding of a row in the affordances of every kind. One walk serves all rows of this sort; `row` says what is
/// asked of each affordance.
#[tactic(auto, using(crate::proofs::Findings::stops))]
pub(crate) fn each_affordance(alloc: Global, root: &Members, row: AffordanceRow) -> Finding
    ensures { IsFinding (each_affordance_row (affordance_judge row) (members_of root.now)) result }
{
    affordances_of(alloc, root, Kind::Action, row)?;
    affordances_of(alloc, root, Kind::Event, row)?;
    affordances_of(alloc, root, Kind::Property, row)
}

/// The finding of a row in all forms.
#[tactic(auto, using(crate::proofs::Findings::stops))]
pub(crate) fn each_form(alloc: Global, root: &Members, row: FormRow) -> Finding
    ensures { IsFinding (each_form_row (form_judge row) (members_of root.now)) result }
{
    affordances_of(alloc, root, Kind::Action, AffordanceRow::EachForm(row))?;
    affordances_of(alloc, root, Kind::Event, AffordanceRow::EachForm(row))?;
    forms_of(alloc, root, row, None)?;
    affordances_of(alloc, root, Kind::Property, AffordanceRow::EachForm(row))
}

/// The finding of a row in the affordances of one kind.
#[tactic(auto, using(crate::proofs::Findings::named_among))]
fn affordances_of(alloc: Global, root: &Members, kind: Kind, row: AffordanceRow) -> Finding
    ensures { IsFinding (affordances_row (affordance_judge row) kind (members_of root.now)) result }
{
    let holder = kind.holder();
    match root.get(holder) {
        None => Ok(()),
        Some(value) => in_member(alloc, holder, affordances_in(alloc, value, kind, row)),
    }
}

fn affordances_in(alloc: Global, value: &Tree, kind: Kind, row: AffordanceRow) -> Finding
    ensures { IsFinding
        (if_object (each_member (if_object (affordance_judge row kind))) (json_of value.now))
        result }
{
    match value {
        Tree::Obj(affordances) => each_named(alloc, affordances.as_slice(), kind, row),
        _ => Ok(()),
    }
}

fn each_named(
    alloc: Global,
    affordances: &[(Text, Tree)],
    kind: Kind,
    row: AffordanceRow,
) -> Finding
    ensures { IsFinding
        (each_member (if_object (affordance_judge row kind)) (members_of (json_members affordances.now)))
        result }
{
    for (name, value) in affordances {
        in_member(alloc, name.as_str(), affordance(alloc, value, kind, row))?;
    }
    Ok(())
}

fn affordance(alloc: Global, value: &Tree, kind: Kind, row: AffordanceRow) -> Finding
    ensures { IsFinding (if_object (affordance_judge row kind) (json_of value.now)) result }
{
    match value {
        Tree::Obj(members) => match row {
            AffordanceRow::Forms => forms(alloc, members),
            AffordanceRow::EachForm(row) => forms_of(alloc, members, row, Some(kind)),
            AffordanceRow::Flags => optional_each(alloc, members, &FLAGS, Demand::TruthValue),
            AffordanceRow::Schemas => match kind {
                Kind::Property => schema(alloc, value),
                Kind::Action => optional_each(alloc, members, &["input", "output"], Demand::Schema),
                Kind::Event => optional_each(
                    alloc,
                    members,
                    &["cancellation", "data", "subscription"],
                    Demand::Schema,
                ),
            },
        },
        _ => Ok(()),
    }
}

/// The forms of an affordance.
#[tactic(auto, using(crate::proofs::Findings::named_among))]
fn forms(alloc: Global, affordance: &Members) -> Finding
    ensures { (k : Kind) → IsFinding (affordance_forms k (members_of affordance.now)) result }
{
    match affordance.get("forms") {
        None => missing(alloc, "forms"),
        Some(value) => in_member(
            alloc,
            "forms",
            list_of_some(alloc, value, EntryRule::Object),
        ),
    }
}

/// The finding of a row in the forms of an affordance of a kind, or, with none, of the root.
#[tactic(auto, using(crate::proofs::Findings::named_among))]
fn forms_of(alloc: Global, holder: &Members, row: FormRow, place: Option<Kind>) -> Finding
    ensures { IsFinding (forms_row (form_judge row) place (members_of holder.now)) result }
{
    match holder.get("forms") {
        None => Ok(()),
        Some(value) => in_member(alloc, "forms", forms_in(alloc, value, row, place)),
    }
}

fn forms_in(alloc: Global, value: &Tree, row: FormRow, place: Option<Kind>) -> Finding
    ensures { IsFinding (if_list (if_object (form_judge row place)) (json_of value.now)) result }
{
    match value {
        Tree::List(forms) => each_element(alloc, forms.as_slice(), EntryRule::Form(row, place)),
        _ => Ok(()),
    }
}
