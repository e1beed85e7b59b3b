//! A generated form as a value of a description (TD 1.1, section 5.3.4.2).

ghost use Rattle.std.specs.Prelude.{◌≡◌, ◌++◌, [], ◌∷◌, List, IfOk, OnOk, codes, map};
ghost use Rattle.std.specs.Option.{option_copied};
ghost use Rattle.wot_json.specs.Meaning.{json_of, json_members};
ghost use Rattle.wot_json.specs.Tree.{string};
ghost use Rattle.wot_terms.specs.Operations.{op_name};
ghost use Rattle.wot_forms.specs.Generated.{form as form_of, plain_form, subprotocol_member};

use std::alloc::Global;
use wot_json::{Items, Members, NoMemory, Text, Tree};
use wot_terms::Op;

/// Puts a form without a subprotocol at the end, where it is for something.
pub(crate) fn push_plain_form(
    alloc: Global,
    url: &str,
    ops: &[Op],
    forms: &mut Items,
) -> Result<(), NoMemory>
    ensures { OnOk result (forms.new ≡ forms.old ++ plain_form url.now ops.now) }
{
    match ops {
        [] => Ok(()),
        _ => forms.push(form(alloc, Text::copy_of(alloc, url)?, ops, None)?),
    }
}

/// A form.
pub(crate) fn form(
    alloc: Global,
    href: Text,
    ops: &[Op],
    subprotocol: Option<&str>,
) -> Result<Tree, NoMemory>
    ensures { IfOk result (λ tree. json_of tree ≡ form_of href ops.now (option_copied subprotocol.entry)) }
{
    let mut members = Vec::new(alloc);
    put_text(alloc, &mut members, "contentType", "application/json")?;
    put(alloc, &mut members, "href", Tree::Text(href))?;
    put(alloc, &mut members, "op", Tree::List(names_of(alloc, ops)?))?;
    put_subprotocol(alloc, &mut members, subprotocol)?;
    Ok(Tree::Obj(Members::from_vec(members)))
}

/// The names of operations.
fn names_of(alloc: Global, ops: &[Op]) -> Result<Items, NoMemory>
    ensures { IfOk result (λ names. names ≡ map (λ o. string (op_name o)) ops.now) }
{
    let mut names = Items::new(alloc);
    for op in ops {
        names.push(Tree::Text(Text::copy_of(alloc, op.name())?))?;
    }
    Ok(names)
}

/// Puts the member `subprotocol` at the end, where there is one.
fn put_subprotocol(
    alloc: Global,
    members: &mut Vec<(Text, Tree)>,
    subprotocol: Option<&str>,
) -> Result<(), NoMemory>
    ensures { OnOk result (json_members members.new.items
        ≡ json_members members.old.items ++ subprotocol_member (option_copied subprotocol.entry)) }
{
    match subprotocol {
        Some(name) => put_text(alloc, members, "subprotocol", name),
        None => Ok(()),
    }
}

/// Puts a member that is a text at the end.
fn put_text(
    alloc: Global,
    members: &mut Vec<(Text, Tree)>,
    name: &str,
    text: &str,
) -> Result<(), NoMemory>
    ensures { OnOk result (json_members members.new.items
        ≡ json_members members.old.items ++ (name.now, string text.now) ∷ []) }
{
    let text = Text::copy_of(alloc, text)?;
    put(alloc, members, name, Tree::Text(text))
}

/// Puts a member at the end.
pub(crate) fn put(
    alloc: Global,
    members: &mut Vec<(Text, Tree)>,
    name: &str,
    value: Tree,
) -> Result<(), NoMemory>
    ensures { OnOk result (json_members members.new.items
        ≡ json_members members.old.items ++ (name.now, json_of value) ∷ []) }
{
    let name = Text::copy_of(alloc, name)?;
    members.push((name, value))?;
    Ok(())
}
