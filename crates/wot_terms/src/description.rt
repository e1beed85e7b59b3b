//! The affordances of a valid description.

use crate::{Affordance, Kind};
use servient_base::NoMemory;
use std::alloc::Global;
use std::marker::Model;
use wot_json::{Members, Text, Tree};
use wot_schema::Schema;

/// The affordances of a description. Contracts see the list of them.
#[derive(Debug, Drop)]
pub struct Description {
    list: Vec<Affordance>,
}

impl Model for Description {
    ghost use Rattle.std.specs.Prelude.{List};
    ghost use Rattle.wot_terms.specs.declared.affordance.Affordance.{Affordance};
    ghost use Rattle.wot_terms.specs.AffordanceCodes.{affordances_code};

    ghost Value = { List Affordance };

    ghost coded = { affordances_code };

    ghost view = { λ d. d.list.items };
}

ghost use Rattle.std.specs.Prelude.{◌≡◌, ◌++◌, [], ◌∷◌, codes, Some, IfOk, IfSome, OnOk, option_map};
ghost use Rattle.std.specs.Option.{option_map_or};
ghost use Rattle.wot_json.specs.Tree.{members_of};
ghost use Rattle.wot_json.specs.Meaning.{json_of, json_members};
ghost use Rattle.wot_terms.specs.Faults.{IsValid};
ghost use Rattle.wot_terms.specs.Schemas.{IsSchema, HasSchemas, HaveSchemas, HoldsSchemas, HoldSchemas};
ghost use Rattle.wot_terms.specs.Affordances.{affordances_of, affordances_in, held_affordances, named_affordances, affordance_of, input_of, output_of, flag_of, is_true as is_true_value};

impl Description {
    /// The affordances of a description that `check` takes: properties, actions and events, in the order in
    /// which the standard introduces them, each in the byte order of their names. The time is in proportion
    /// to the size of the tree.
    ///
    /// The schemas are compiled here and not by `check`, because descriptions are checked where they come in and listed
    /// where they are exposed.
    pub fn of(alloc: Global, tree: &Tree) -> Result<Description, NoMemory>
        requires { IsValid (json_of tree.now) }
        ensures { IfOk result (λ d. d ≡ affordances_of (json_of tree.now)) }
    {
        let mut list = Vec::new(alloc);
        if let Tree::Obj(root) = tree {
            push_affordances(alloc, &mut list, root, Kind::Property)?;
            push_affordances(alloc, &mut list, root, Kind::Action)?;
            push_affordances(alloc, &mut list, root, Kind::Event)?;
        }
        Ok(Description { list })
    }

    /// The affordances, in their order.
    pub fn affordances(&self) -> &[Affordance]
        ensures { result.now ≡ self.now }
    {
        self.list.as_slice()
    }
}

/// Puts the affordances of one kind at the end.
#[tactic(auto, using(crate::proofs::Findings::named_among))]
fn push_affordances(
    alloc: Global,
    list: &mut Vec<Affordance>,
    root: &Members,
    kind: Kind,
) -> Result<(), NoMemory>
    requires { HoldSchemas kind (members_of root.now) }
    ensures { OnOk result (list.new.items ≡
        list.old.items ++ affordances_in kind (members_of root.now)) }
{
    match root.get(kind.holder()) {
        Some(held) => push_held(alloc, list, held, kind),
        None => Ok(()),
    }
}

/// Puts the affordances at the end that the member of their kind holds.
fn push_held(
    alloc: Global,
    list: &mut Vec<Affordance>,
    held: &Tree,
    kind: Kind,
) -> Result<(), NoMemory>
    requires { HoldsSchemas kind (json_of held.now) }
    ensures { OnOk result (list.new.items ≡
        list.old.items ++ held_affordances kind (json_of held.now)) }
{
    match held {
        Tree::Obj(affordances) => push_named(alloc, list, affordances.as_slice(), kind),
        _ => Ok(()),
    }
}

fn push_named(
    alloc: Global,
    list: &mut Vec<Affordance>,
    affordances: &[(Text, Tree)],
    kind: Kind,
) -> Result<(), NoMemory>
    requires { HaveSchemas kind (members_of (json_members affordances.now)) }
    ensures { OnOk result (list.new.items ≡
        list.old.items ++ named_affordances kind (members_of (json_members affordances.now))) }
{
    for (name, value) in affordances {
        let affordance = described(alloc, kind, name.as_str(), value)?;
        push(list, affordance)?;
    }
    Ok(())
}

fn push(list: &mut Vec<Affordance>, affordance: Affordance) -> Result<(), NoMemory>
    ensures { OnOk result (list.new.items ≡ list.old.items ++ affordance ∷ []) }
{
    list.push(affordance)?;
    Ok(())
}

fn described(alloc: Global, kind: Kind, name: &str, value: &Tree) -> Result<Affordance, NoMemory>
    requires { HasSchemas kind (json_of value.now) }
    ensures { IfOk result (λ a. a ≡ affordance_of kind name.now (json_of value.now)) }
{
    let name = Text::copy_of(alloc, name)?;
    let input = input(alloc, kind, value)?;
    let output = output(alloc, kind, value)?;
    Ok(Affordance {
        kind,
        name,
        input,
        output,
        read_only: flag(value, "readOnly"),
        write_only: flag(value, "writeOnly"),
        observable: flag(value, "observable"),
    })
}

fn input(alloc: Global, kind: Kind, value: &Tree) -> Result<Option<Schema>, NoMemory>
    requires { IfSome (input_of kind (json_of value.now)) IsSchema }
    ensures { IfOk result (λ o. o ≡ input_of kind (json_of value.now)) }
{
    match kind {
        Kind::Property => schema(alloc, Some(value)),
        Kind::Action => schema(alloc, value.member("input")),
        Kind::Event => Ok(None),
    }
}

fn output(alloc: Global, kind: Kind, value: &Tree) -> Result<Option<Schema>, NoMemory>
    requires { IfSome (output_of kind (json_of value.now)) IsSchema }
    ensures { IfOk result (λ o. o ≡ output_of kind (json_of value.now)) }
{
    match kind {
        Kind::Property => schema(alloc, Some(value)),
        Kind::Action => schema(alloc, value.member("output")),
        Kind::Event => schema(alloc, value.member("data")),
    }
}

/// The schema of a tree, where there is one.
fn schema(alloc: Global, tree: Option<&Tree>) -> Result<Option<Schema>, NoMemory>
    requires { IfSome (option_map (λ t. json_of t.now) tree) IsSchema }
    ensures { IfOk result (λ o. o ≡ option_map (λ t. json_of t.now) tree.entry) }
{
    match tree {
        None => Ok(None),
        Some(tree) => Ok(Some(Schema::compile(alloc, tree)?)),
    }
}

/// The truth value that an affordance has under this name, as `readOnly`; false where it is
/// absent (TD 1.1, section 5.4).
pub fn flag(affordance: &Tree, name: &str) -> bool
    ensures { result ≡ flag_of name.now (json_of affordance.now) }
{
    match affordance.member(name) {
        Some(value) => is_true(value),
        None => false,
    }
}

fn is_true(value: &Tree) -> bool
    ensures { result ≡ is_true_value (Some (json_of value.now)) }
{
    match value {
        Tree::Bool(truth) => *truth,
        _ => false,
    }
}
