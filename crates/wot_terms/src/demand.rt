//! The demands on one value, and on a member that has such a value.

ghost use Rattle.std.specs.Prelude.{◌≡◌, map};
ghost use Rattle.wot_json.specs.Tree.{members_of};
ghost use Rattle.wot_json.specs.Meaning.{json_of};
ghost use Rattle.wot_terms.specs.Faults.{required_member, optional_member, optional_members, schema as schema_judge};
ghost use Rattle.wot_terms.specs.Rows.{IsFinding, judge_of};

use crate::fault::{Finding, RowFault, in_member, missing, wrong};
use std::alloc::Global;
use wot_json::{Members, Tree};
use wot_schema::SchemaFault;

/// A demand on a value.
#[derive(Clone, Copy, Debug)]
pub(crate) enum Demand {
    Anything,
    Text,
    TextNotEmpty,
    TruthValue,
    /// The name of the security scheme that asks for nothing (TD 1.1, section 5.3.3.1).
    NoSecurity,
    /// A data schema without a fault.
    Schema,
}

impl Demand {
    pub(crate) fn check(self, alloc: Global, value: &Tree) -> Finding
        ensures { IsFinding (judge_of self (json_of value.now)) result }
    {
        match (self, value) {
            (Demand::Anything, _)
            | (Demand::Text, Tree::Text(_))
            | (Demand::TruthValue, Tree::Bool(_)) => Ok(()),
            (Demand::TextNotEmpty, Tree::Text(text)) if !text.as_str().is_empty() => Ok(()),
            (Demand::NoSecurity, Tree::Text(text)) if text.as_str() == "nosec" => Ok(()),
            (Demand::Schema, _) => schema(alloc, value),
            _ => wrong(alloc),
        }
    }
}

/// The first fault of a data schema.
pub(crate) fn schema(alloc: Global, value: &Tree) -> Finding
    ensures { IsFinding (schema_judge (json_of value.now)) result }
{
    match wot_schema::check(alloc, value) {
        Ok(()) => Ok(()),
        Err(SchemaFault::Unsupported(place, _word)) => Err(RowFault::At(place)),
        Err(SchemaFault::Malformed(place)) => Err(RowFault::At(place)),
        Err(SchemaFault::NoMemory) => Err(RowFault::NoMemory),
    }
}

/// The member of this name is there and is as asked.
#[tactic(auto, using(crate::proofs::Findings::named_among))]
pub(crate) fn required(alloc: Global, members: &Members, name: &str, demand: Demand) -> Finding
    ensures { IsFinding (required_member name.now (judge_of demand) (members_of members.now)) result }
{
    match members.get(name) {
        None => missing(alloc, name),
        Some(value) => in_member(alloc, name, demand.check(alloc, value)),
    }
}

/// The member of this name, where it is there, is as asked.
#[tactic(auto, using(crate::proofs::Findings::named_among))]
pub(crate) fn optional(alloc: Global, members: &Members, name: &str, demand: Demand) -> Finding
    ensures { IsFinding (optional_member name.now (judge_of demand) (members_of members.now)) result }
{
    match members.get(name) {
        None => Ok(()),
        Some(value) => in_member(alloc, name, demand.check(alloc, value)),
    }
}

/// The members of these names, as far as they are there, are as asked.
pub(crate) fn optional_each(
    alloc: Global,
    members: &Members,
    names: &[&'static str],
    demand: Demand,
) -> Finding
    ensures { IsFinding
        (optional_members (map (λ s. s.now) names.now) (judge_of demand) (members_of members.now))
        result }
{
    for name in names {
        optional(alloc, members, name, demand)?;
    }
    Ok(())
}
