//! The rows that speak of the root's own members.

ghost use Rattle.std.specs.Prelude.{◌≡◌, codes};
ghost use Rattle.wot_json.specs.Tree.{elements_of, members_of};
ghost use Rattle.wot_json.specs.Meaning.{json_of, json_items};
ghost use Rattle.wot_terms.specs.Faults.{is, is_text_with, each_element as each_of, each_member as each_named, object_with, object_of_some, required_member, texts, context as context_row, security_definitions as security_definitions_row, security as security_row, is_defined as is_defined_in, types as types_row, type_of_thing as type_of_thing_judge, affordances as affordances_row, affordance_maps as affordance_maps_row, root_forms as root_forms_row, links as links_row, version as version_row};
ghost use Rattle.wot_terms.specs.Rows.{IsFinding, entry_judge, judge_of};
ghost use Rattle.wot_terms.specs.declared.demand.Demand.{Demand};
ghost use Rattle.wot_terms.specs.declared.entries.EntryRule.{EntryRule};

use crate::Kind;
use crate::demand::{Demand, required};
use crate::entries::{EntryRule, each_element, each_member, list_of};
use crate::fault::{Finding, in_element, in_member, missing, wrong, wrong_unless};
use std::alloc::Global;
use wot_json::{Members, Tree, has_text};

/// The context of a description (TD 1.1, section 5.3.1.1).
const TD_CONTEXT: &str = "https://www.w3.org/2022/wot/td/v1.1";

/// The type of a Thing Model (section "Thing Model").
const THING_MODEL: &str = "tm:ThingModel";

/// `@context` is that of TD 1.1, or a list that has it.
#[tactic(auto, using(crate::proofs::Findings::named_among))]
pub(crate) fn context(alloc: Global, root: &Members) -> Finding
    ensures { IsFinding (context_row (members_of root.now)) result }
{
    match root.get("@context") {
        None => missing(alloc, "@context"),
        Some(value) => {
            let passes = has_text(value, TD_CONTEXT);
            in_member(alloc, "@context", wrong_unless(alloc, passes))
        }
    }
}

/// `securityDefinitions` is an object, not empty, of definitions.
#[tactic(auto, using(crate::proofs::Findings::named_among))]
pub(crate) fn security_definitions(alloc: Global, root: &Members) -> Finding
    ensures { IsFinding (security_definitions_row (members_of root.now)) result }
{
    match root.get("securityDefinitions") {
        None => missing(alloc, "securityDefinitions"),
        Some(value) => in_member(alloc, "securityDefinitions", definitions(alloc, value)),
    }
}

fn definitions(alloc: Global, value: &Tree) -> Finding
    ensures { IsFinding (object_of_some (entry_judge EntryRule.Definition) (json_of value.now)) result }
{
    match value {
        Tree::Obj(definitions) if definitions.len() > 0 => {
            each_member(alloc, definitions.as_slice(), EntryRule::Definition)
        }
        _ => wrong(alloc),
    }
}

/// `security` is the name of a definition, or a list, not empty, of such names.
#[tactic(auto, using(crate::proofs::Findings::named_among))]
pub(crate) fn security(alloc: Global, root: &Members) -> Finding
    ensures { IsFinding (security_row (members_of root.now)) result }
{
    match root.get("security") {
        None => missing(alloc, "security"),
        Some(value) => in_member(alloc, "security", definition_names(alloc, value, root)),
    }
}

fn definition_names(alloc: Global, value: &Tree, root: &Members) -> Finding
    ensures { IsFinding (texts (is_defined_in (members_of root.now)) (json_of value.now)) result }
{
    match value {
        Tree::List(names) if names.len() > 0 => each_definition(alloc, names.as_slice(), root),
        _ => wrong_unless(alloc, names_definition(root, value)),
    }
}

fn each_definition(alloc: Global, names: &[Tree], root: &Members) -> Finding
    ensures { IsFinding
        (each_of (is (is_text_with (is_defined_in (members_of root.now)))) 0 (elements_of (json_items names.now)))
        result }
{
    for (index, name) in names.iter().enumerate() {
        let passes = names_definition(root, name);
        in_element(alloc, index, wrong_unless(alloc, passes))?;
    }
    Ok(())
}

/// The value is the name of a security definition.
fn names_definition(root: &Members, value: &Tree) -> bool
    ensures { result ≡ is_text_with (is_defined_in (members_of root.now)) (json_of value.now) }
{
    match value {
        Tree::Text(name) => is_defined(root, name.as_str()),
        _ => false,
    }
}

/// There is a security definition of this name.
#[tactic(auto, using(crate::proofs::Findings::named_among))]
fn is_defined(root: &Members, name: &str) -> bool
    ensures { result ≡ is_defined_in (members_of root.now) name.now }
{
    match root.get("securityDefinitions") {
        Some(Tree::Obj(definitions)) => definitions.get(name).is_some(),
        _ => false,
    }
}

/// `@type` is a text or a list of texts, and not that of a Thing Model.
#[tactic(auto, using(crate::proofs::Findings::named_among))]
pub(crate) fn types(alloc: Global, root: &Members) -> Finding
    ensures { IsFinding (types_row (members_of root.now)) result }
{
    match root.get("@type") {
        None => Ok(()),
        Some(value) => in_member(alloc, "@type", type_of_thing(alloc, value)),
    }
}

fn type_of_thing(alloc: Global, value: &Tree) -> Finding
    ensures { IsFinding (type_of_thing_judge (json_of value.now)) result }
{
    if has_text(value, THING_MODEL) {
        return wrong(alloc);
    }
    match value {
        Tree::Text(_) => Ok(()),
        Tree::List(items) => each_element(alloc, items.as_slice(), EntryRule::Text),
        _ => wrong(alloc),
    }
}

/// `actions`, `events` and `properties` are objects of objects.
#[tactic(auto, using(crate::proofs::Findings::stops))]
pub(crate) fn affordance_maps(alloc: Global, root: &Members) -> Finding
    ensures { IsFinding (affordance_maps_row (members_of root.now)) result }
{
    affordance_map(alloc, root, Kind::Action)?;
    affordance_map(alloc, root, Kind::Event)?;
    affordance_map(alloc, root, Kind::Property)
}

#[tactic(auto, using(crate::proofs::Findings::named_among))]
fn affordance_map(alloc: Global, root: &Members, kind: Kind) -> Finding
    ensures { IsFinding (affordances_row kind (members_of root.now)) result }
{
    let holder = kind.holder();
    match root.get(holder) {
        None => Ok(()),
        Some(value) => in_member(alloc, holder, objects(alloc, value)),
    }
}

/// The value is an object of objects.
fn objects(alloc: Global, value: &Tree) -> Finding
    ensures { IsFinding
        (object_with (each_named (entry_judge EntryRule.Object)) (json_of value.now))
        result }
{
    match value {
        Tree::Obj(members) => each_member(alloc, members.as_slice(), EntryRule::Object),
        _ => wrong(alloc),
    }
}

/// `forms` of the root is a list of objects with `op`.
#[tactic(auto, using(crate::proofs::Findings::named_among))]
pub(crate) fn root_forms(alloc: Global, root: &Members) -> Finding
    ensures { IsFinding (root_forms_row (members_of root.now)) result }
{
    match root.get("forms") {
        None => Ok(()),
        Some(value) => in_member(alloc, "forms", list_of(alloc, value, EntryRule::RootForm)),
    }
}

/// `links` is a list of links.
#[tactic(auto, using(crate::proofs::Findings::named_among))]
pub(crate) fn links(alloc: Global, root: &Members) -> Finding
    ensures { IsFinding (links_row (members_of root.now)) result }
{
    match root.get("links") {
        None => Ok(()),
        Some(value) => in_member(alloc, "links", list_of(alloc, value, EntryRule::Link)),
    }
}

/// `version` is an object whose `instance` is a text.
#[tactic(auto, using(crate::proofs::Findings::named_among))]
pub(crate) fn version(alloc: Global, root: &Members) -> Finding
    ensures { IsFinding (version_row (members_of root.now)) result }
{
    match root.get("version") {
        None => Ok(()),
        Some(value) => in_member(alloc, "version", version_info(alloc, value)),
    }
}

fn version_info(alloc: Global, value: &Tree) -> Finding
    ensures { IsFinding
        (object_with (required_member (codes "instance") (judge_of Demand.Text)) (json_of value.now))
        result }
{
    match value {
        Tree::Obj(members) => required(alloc, members, "instance", Demand::Text),
        _ => wrong(alloc),
    }
}
