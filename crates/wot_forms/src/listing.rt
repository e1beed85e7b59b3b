//! The forms of a description.

ghost use Rattle.std.specs.Prelude.{◌≡◌, ◌++◌, IfOk, OnOk, map, option_map, option_and_then, unwrap_or};
ghost use Rattle.std.specs.List.{flat_map};
ghost use Rattle.wot_json.specs.Meaning.{json_of, json_items};
ghost use Rattle.wot_terms.specs.Affordances.{part};
ghost use Rattle.wot_terms.specs.Faults.{IsValid, holder as holder_of};
ghost use Rattle.wot_forms.specs.Forms.{affordance_forms, form_of, ops_among, forms_in, forms_under as forms_under_of, ops_named, ops_of, text_of};

use crate::ops::fixed_ops;
use crate::{Form, Forms, Ops};
use std::alloc::Global;
use wot_json::{NoMemory, Text, Tree};
use wot_terms::{Kind, Op, flag};

/// The media type of a form that names none (TD 1.1, section 5.4).
const DEFAULT_CONTENT_TYPE: &str = "application/json";

/// The forms of the affordance of this kind and name in a valid description, where it has that; without a kind those
/// of the description as a whole, and then the name says nothing. Its time is in proportion to the size of the forms;
/// members are found by binary search.
pub fn forms_of(
    alloc: Global,
    tree: &Tree,
    kind: Option<Kind>,
    name: &str,
) -> Result<Option<Forms>, NoMemory>
    requires { IsValid (json_of tree.now) }
    ensures { IfOk result (λ forms. forms ≡ forms_in (json_of tree.now) kind name.now) }
{
    match kind {
        None => Ok(Some(forms_under(alloc, tree, &[])?)),
        Some(kind) => match affordance(tree, kind, name) {
            None => Ok(None),
            Some(affordance) => Ok(Some(forms_of_affordance(alloc, affordance, kind)?)),
        },
    }
}

/// The affordance of this kind and name, where the description has it.
fn affordance<'a>(tree: &'a Tree, kind: Kind, name: &str) -> Option<&'a Tree>
    ensures { option_map (λ t. json_of t.now) result
        ≡ option_and_then (part name.now) (part (holder_of kind) (json_of tree.now)) }
{
    match tree.member(kind.holder()) {
        Some(held) => held.member(name),
        None => None,
    }
}

/// The forms of an affordance.
fn forms_of_affordance(alloc: Global, affordance: &Tree, kind: Kind) -> Result<Forms, NoMemory>
    ensures { IfOk result (λ forms. forms ≡ affordance_forms kind (json_of affordance.now)) }
{
    let read_only = flag(affordance, "readOnly");
    let write_only = flag(affordance, "writeOnly");
    forms_under(alloc, affordance, fixed_ops(kind, read_only, write_only))
}

/// The forms in the member `forms`; one that names no operations has the default ones.
#[tactic(auto, using(crate::proofs::FormLists::forms_in_list))]
fn forms_under(alloc: Global, tree: &Tree, defaults: &'static [Op]) -> Result<Forms, NoMemory>
    ensures { IfOk result (λ list. list ≡ forms_under_of defaults.now (json_of tree.now)) }
{
    match tree.member("forms") {
        Some(Tree::List(items)) => listed_forms(alloc, items.as_slice(), defaults),
        _ => Ok(Forms::new(alloc)),
    }
}

/// The forms of a list.
fn listed_forms(alloc: Global, items: &[Tree], defaults: &'static [Op]) -> Result<Forms, NoMemory>
    ensures { IfOk result (λ list. list ≡ map (form_of defaults.now) (json_items items.now)) }
{
    let mut list = Forms::new(alloc);
    for item in items {
        list.push(form(alloc, item, defaults)?)?;
    }
    Ok(list)
}

/// One form.
fn form(alloc: Global, tree: &Tree, defaults: &'static [Op]) -> Result<Form, NoMemory>
    ensures { IfOk result (λ form. form ≡ form_of defaults.now (json_of tree.now)) }
{
    Ok(Form {
        href: text_or(alloc, tree.member("href"), "")?,
        ops: operations(alloc, tree.member("op"), defaults)?,
        content_type: text_or(alloc, tree.member("contentType"), DEFAULT_CONTENT_TYPE)?,
        subprotocol: text(alloc, tree.member("subprotocol"))?,
        method: text(alloc, tree.member("htv:methodName"))?,
    })
}

/// The operations that `op` names, and else the default ones.
fn operations(alloc: Global, named: Option<&Tree>, defaults: &'static [Op]) -> Result<Ops, NoMemory>
    ensures { IfOk result (λ ops. ops
        ≡ ops_of defaults.now (option_map (λ t. json_of t.now) named.entry)) }
{
    match named {
        None => Ok(Ops::fixed(defaults)),
        Some(named) => named_operations(alloc, named),
    }
}

/// The operations that a text or a list of texts names.
#[tactic(auto, using(crate::proofs::FormLists::ops_in_list))]
fn named_operations(alloc: Global, named: &Tree) -> Result<Ops, NoMemory>
    ensures { IfOk result (λ ops. ops ≡ ops_among (json_of named.now)) }
{
    if let Tree::List(items) = named {
        return listed_operations(alloc, items.as_slice());
    }
    let mut ops = Vec::new(alloc);
    push_named(named, &mut ops)?;
    Ok(Ops::from_vec(ops))
}

/// The operations that the texts of a list name.
fn listed_operations(alloc: Global, names: &[Tree]) -> Result<Ops, NoMemory>
    ensures { IfOk result (λ ops. ops ≡ flat_map ops_named (json_items names.now)) }
{
    let mut ops = Vec::new(alloc);
    for name in names {
        push_named(name, &mut ops)?;
    }
    Ok(Ops::from_vec(ops))
}

/// Puts the operation that a text names at the end.
fn push_named(name: &Tree, ops: &mut Vec<Op>) -> Result<(), NoMemory>
    ensures { OnOk result (ops.new.items ≡ ops.old.items ++ ops_named (json_of name.now)) }
{
    if let Tree::Text(name) = name {
        if let Some(op) = Op::named(name.as_str()) {
            ops.push(op)?;
        }
    }
    Ok(())
}

/// The text of a member, where it is one.
fn text(alloc: Global, value: Option<&Tree>) -> Result<Option<Text>, NoMemory>
    ensures { IfOk result (λ text. text ≡ text_of (option_map (λ t. json_of t.now) value.entry)) }
{
    match value {
        Some(Tree::Text(text)) => Ok(Some(Text::copy_of(alloc, text.as_str())?)),
        _ => Ok(None),
    }
}

/// The text of a member, and another where it is none.
fn text_or(alloc: Global, value: Option<&Tree>, other: &str) -> Result<Text, NoMemory>
    ensures { IfOk result (λ text. text
        ≡ unwrap_or (text_of (option_map (λ t. json_of t.now) value.entry)) other.now) }
{
    match value {
        Some(Tree::Text(text)) => Text::copy_of(alloc, text.as_str()),
        _ => Text::copy_of(alloc, other),
    }
}
