//! The demands on the elements of a list and on the members of an object.

ghost use Rattle.std.specs.Prelude.{◌≡◌, []};
ghost use Rattle.wot_json.specs.Tree.{elements_of, members_of};
ghost use Rattle.wot_json.specs.Meaning.{json_of, json_items, json_members};
ghost use Rattle.wot_terms.specs.Faults.{each_element as each_of, each_member as each_named, list_of as list_judge, list_of_some as list_of_some_judge, object_with as object_judge, link as link_judge};
ghost use Rattle.wot_terms.specs.Rows.{IsFinding, entry_judge};

use crate::Kind;
use crate::demand::{Demand, optional, required};
use crate::fault::{Finding, in_element, in_member, wrong};
use crate::forms::{FormRow, form};
use std::alloc::Global;
use wot_json::{Members, Text, Tree};

/// A demand on each element of a list, or on each member of an object.
#[derive(Clone, Copy, Debug)]
pub(crate) enum EntryRule {
    Object,
    Text,
    /// A security definition (TD 1.1, section 5.3.3.1).
    Definition,
    /// A form of the root (section 5.3.4.2).
    RootForm,
    /// A link (section 5.3.4.1).
    Link,
    /// The demands of a row on a form in an affordance of a kind, or, with none, in the root.
    Form(FormRow, Option<Kind>),
}

impl EntryRule {
    fn check(self, alloc: Global, value: &Tree) -> Finding
        ensures { IsFinding (entry_judge self (json_of value.now)) result }
    {
        match (self, value) {
            (EntryRule::Object, Tree::Obj(_)) | (EntryRule::Text, Tree::Text(_)) => Ok(()),
            (EntryRule::Definition, Tree::Obj(members)) => {
                required(alloc, members, "scheme", Demand::NoSecurity)
            }
            (EntryRule::RootForm, Tree::Obj(members)) => {
                required(alloc, members, "op", Demand::Anything)
            }
            (EntryRule::Link, Tree::Obj(members)) => link(alloc, members),
            (EntryRule::Form(row, place), Tree::Obj(members)) => form(alloc, members, row, place),
            (EntryRule::Form(_, _), _) => Ok(()),
            _ => wrong(alloc),
        }
    }
}

fn link(alloc: Global, members: &Members) -> Finding
    ensures { IsFinding (link_judge (members_of members.now)) result }
{
    required(alloc, members, "href", Demand::Text)?;
    optional(alloc, members, "rel", Demand::Text)
}

/// Each element of a list is as asked.
pub(crate) fn each_element(alloc: Global, items: &[Tree], entry: EntryRule) -> Finding
    ensures { IsFinding (each_of (entry_judge entry) 0 (elements_of (json_items items.now))) result }
{
    for (index, item) in items.iter().enumerate() {
        in_element(alloc, index, entry.check(alloc, item))?;
    }
    Ok(())
}

/// Each member of an object is as asked.
pub(crate) fn each_member(alloc: Global, members: &[(Text, Tree)], entry: EntryRule) -> Finding
    ensures { IsFinding
        (each_named (entry_judge entry) (members_of (json_members members.now)))
        result }
{
    for (name, member) in members {
        in_member(alloc, name.as_str(), entry.check(alloc, member))?;
    }
    Ok(())
}

/// The value is a list of such elements.
pub(crate) fn list_of(alloc: Global, value: &Tree, entry: EntryRule) -> Finding
    ensures { IsFinding (list_judge (entry_judge entry) (json_of value.now)) result }
{
    match value {
        Tree::List(items) => each_element(alloc, items.as_slice(), entry),
        _ => wrong(alloc),
    }
}

/// The value is a list, not empty, of such elements.
pub(crate) fn list_of_some(alloc: Global, value: &Tree, entry: EntryRule) -> Finding
    ensures { IsFinding (list_of_some_judge (entry_judge entry) (json_of value.now)) result }
{
    match value {
        Tree::List(items) if items.len() > 0 => each_element(alloc, items.as_slice(), entry),
        _ => wrong(alloc),
    }
}
