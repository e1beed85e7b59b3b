//! Whether a description takes a value that an operation hands in, and one that comes back.

ghost use Rattle.std.specs.Prelude.{◌≡◌, ◌↔◌, IfOk, IfSome, IsTrue, option_map};
ghost use Rattle.wot_json.specs.Meaning.{json_of, json_members};
ghost use Rattle.wot_json.specs.Tree.{members_of};
ghost use Rattle.wot_schema.specs.Acceptance.{Accepts};
ghost use Rattle.wot_terms.specs.Faults.{IsValid};
ghost use Rattle.wot_terms.specs.Schemas.{IsSchema};
ghost use Rattle.wot_consumer.specs.Operations.{is_consumed};
ghost use Rattle.wot_consumer.specs.Judgement as spec;

use servient_base::NoMemory;
use std::alloc::Global;
use wot_json::{Text, Tree};
use wot_schema::Schema;
use wot_terms::{Kind, Op};

/// A value may be handed in to an operation: it is accepted by the schema of the property that is written or of the
/// action's input, and where no such schema stands there is none.
pub fn judge_input(
    alloc: Global,
    tree: &Tree,
    op: Op,
    name: &str,
    value: Option<&Tree>,
) -> Result<bool, NoMemory>
    requires valid { IsValid (json_of tree.now) }
    requires consumed { IsTrue (is_consumed op) }
    requires affordance { spec.HasAffordance (json_of tree.now) op name.now }
    ensures { IfOk result (λ b. IsTrue b ↔
        spec.AcceptsInput (json_of tree.now) op name.now (option_map (λ v. json_of v.now) value.entry)) }
{
    let schema = schema_in(tree, op, name);
    match (schema, value) {
        (Some(schema), Some(value)) => accepts(alloc, schema, value),
        (Some(_), None) | (None, Some(_)) => Ok(false),
        (None, None) => Ok(true),
    }
}

/// The schema that stands for what an operation hands in.
fn schema_in<'a>(tree: &'a Tree, op: Op, name: &str) -> Option<&'a Tree>
    requires { IsValid (json_of tree.now) }
    ensures schema { option_map (λ t. json_of t.now) result ≡ spec.schema_in (json_of tree.now) op name.now }
    ensures faultless { IfSome result (λ t. IsSchema (json_of t.now)) }
{
    match op {
        Op::WriteProperty => property_schema(tree, name),
        Op::InvokeAction => input_schema(tree, name),
        _ => None,
    }
}

/// The schema of the property of this name.
fn property_schema<'a>(tree: &'a Tree, name: &str) -> Option<&'a Tree>
    requires { IsValid (json_of tree.now) }
    ensures schema { option_map (λ t. json_of t.now) result ≡ spec.property_schema (json_of tree.now) name.now }
    ensures faultless { IfSome result (λ t. IsSchema (json_of t.now)) }
{
    affordance(tree, Kind::Property, name)
}

/// The schema of the input of the action of this name.
fn input_schema<'a>(tree: &'a Tree, name: &str) -> Option<&'a Tree>
    requires { IsValid (json_of tree.now) }
    ensures schema { option_map (λ t. json_of t.now) result ≡ spec.input_schema (json_of tree.now) name.now }
    ensures faultless { IfSome result (λ t. IsSchema (json_of t.now)) }
{
    match affordance(tree, Kind::Action, name) {
        Some(action) => action.member("input"),
        None => None,
    }
}

/// The schema of the output of the action of this name.
fn output_schema<'a>(tree: &'a Tree, name: &str) -> Option<&'a Tree>
    requires { IsValid (json_of tree.now) }
    ensures schema { option_map (λ t. json_of t.now) result ≡ spec.output_schema (json_of tree.now) name.now }
    ensures faultless { IfSome result (λ t. IsSchema (json_of t.now)) }
{
    match affordance(tree, Kind::Action, name) {
        Some(action) => action.member("output"),
        None => None,
    }
}

/// The affordance of this kind and name.
fn affordance<'a>(tree: &'a Tree, kind: Kind, name: &str) -> Option<&'a Tree>
    ensures { option_map (λ t. json_of t.now) result ≡ spec.affordance_named kind name.now (json_of tree.now) }
{
    match tree.member(kind.holder()) {
        Some(held) => held.member(name),
        None => None,
    }
}

/// The schema accepts the value.
fn accepts(alloc: Global, schema: &Tree, value: &Tree) -> Result<bool, NoMemory>
    requires { IsSchema (json_of schema.now) }
    ensures { IfOk result (λ b. IsTrue b ↔ Accepts (json_of schema.now) (json_of value.now)) }
{
    let schema = Schema::compile(alloc, schema)?;
    Ok(schema.accepts(value))
}

/// A value may be what comes back of an operation: for a property that is read or observed there has to be one, and the
/// property's schema accepts it; for all properties an object, whose members that name properties are accepted by their
/// schemas; for an action it is accepted by the schema of the output, where that and a value are there.
pub fn judge_output(
    alloc: Global,
    tree: &Tree,
    op: Op,
    name: &str,
    value: Option<&Tree>,
) -> Result<bool, NoMemory>
    requires valid { IsValid (json_of tree.now) }
    requires consumed { IsTrue (is_consumed op) }
    requires affordance { spec.HasAffordance (json_of tree.now) op name.now }
    ensures { IfOk result (λ b. IsTrue b ↔
        spec.AcceptsOutput (json_of tree.now) op name.now (option_map (λ v. json_of v.now) value.entry)) }
{
    match op {
        Op::ReadProperty | Op::ObserveProperty => is_of_property(alloc, tree, name, value),
        Op::ReadAllProperties => is_of_all_properties(alloc, tree, value),
        Op::InvokeAction => is_of_action(alloc, tree, name, value),
        _ => Ok(true),
    }
}

/// There is a value, and the schema of the property of this name accepts it, where that stands.
fn is_of_property(
    alloc: Global,
    tree: &Tree,
    name: &str,
    value: Option<&Tree>,
) -> Result<bool, NoMemory>
    requires { IsValid (json_of tree.now) }
    ensures { IfOk result (λ b. IsTrue b ↔ spec.IsThere
        (spec.IsAcceptedBy (spec.property_schema (json_of tree.now) name.now)) (option_map (λ v. json_of v.now) value.entry)) }
{
    match value {
        Some(value) => is_accepted_by(alloc, property_schema(tree, name), value),
        None => Ok(false),
    }
}

/// The output of the action of this name, where there is one, is accepted.
fn is_of_action(
    alloc: Global,
    tree: &Tree,
    name: &str,
    value: Option<&Tree>,
) -> Result<bool, NoMemory>
    requires { IsValid (json_of tree.now) }
    ensures { IfOk result (λ b. IsTrue b ↔ IfSome (option_map (λ v. json_of v.now) value.entry)
        (spec.IsAcceptedBy (spec.output_schema (json_of tree.now) name.now))) }
{
    match value {
        Some(value) => is_accepted_by(alloc, output_schema(tree, name), value),
        None => Ok(true),
    }
}

/// The schema accepts the value, where it stands.
fn is_accepted_by(alloc: Global, schema: Option<&Tree>, value: &Tree) -> Result<bool, NoMemory>
    requires { IfSome schema (λ t. IsSchema (json_of t.now)) }
    ensures { IfOk result (λ b. IsTrue b ↔
        spec.IsAcceptedBy (option_map (λ t. json_of t.now) schema.entry) (json_of value.now)) }
{
    match schema {
        Some(schema) => accepts(alloc, schema, value),
        None => Ok(true),
    }
}

/// The value is an object whose members that name properties are accepted by their schemas.
fn is_of_all_properties(alloc: Global, tree: &Tree, value: Option<&Tree>) -> Result<bool, NoMemory>
    requires { IsValid (json_of tree.now) }
    ensures { IfOk result (λ b. IsTrue b ↔ spec.IsThere
        (spec.IsOfAllProperties (json_of tree.now)) (option_map (λ v. json_of v.now) value.entry)) }
{
    match value {
        Some(Tree::Obj(members)) => are_properties(alloc, tree, members.as_slice()),
        _ => Ok(false),
    }
}

/// Each member that names a property is accepted by its schema.
fn are_properties(alloc: Global, tree: &Tree, members: &[(Text, Tree)]) -> Result<bool, NoMemory>
    requires { IsValid (json_of tree.now) }
    ensures { IfOk result (λ b. IsTrue b ↔
        spec.AreProperties (json_of tree.now) (members_of (json_members members.now))) }
{
    for (name, value) in members {
        if !is_accepted_by(alloc, property_schema(tree, name.as_str()), value)? {
            return Ok(false);
        }
    }
    Ok(true)
}
