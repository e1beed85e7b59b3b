//! The description of a Thing with all its forms generated.

ghost use Rattle.std.specs.Prelude.{◌≡◌, ◌++◌, ◌&&◌, IfOk, OnOk, option_map, not};
ghost use Rattle.wot_json.specs.Meaning.{json_of, json_members};
ghost use Rattle.wot_json.specs.Merge.{merge};
ghost use Rattle.wot_json.specs.Tree.{AreOrdered, members_of, object};
ghost use Rattle.wot_terms.specs.declared.kind.Kind.TheVariants as kind;
ghost use Rattle.wot_terms.specs.Affordances.{flag_of};
ghost use Rattle.wot_forms.specs.FormsPatch.{IsOrderedWithin, affordance_patch, affordances_patch as affordances_patch_of, forms_alone as forms_alone_of, holder_patch, root_patch as root_patch_of};
ghost use Rattle.wot_forms.specs.Generated.{base_of, generated, holder_path, is_object, plain_form, generated_root_forms as root_forms_of, root_ops as root_ops_of, some_without as some_without_of};

use crate::Bases;
use crate::affordance_forms::{Address, NamedAffordance, generated_forms};
use crate::bases::Protocol;
use crate::form_values::{push_plain_form, put};
use crate::urls::holder_url;
use std::alloc::Global;
use wot_json::{Items, Members, NoMemory, Text, Tree, copy, merge_patch};
use wot_terms::{Kind, Op, flag};

/// The description with all its forms generated (TD 1.1, section 5.3.4.2), as the Thing of this segment has them over
/// HTTP and CoAP. They take the place of those that it had; a value that is no affordance stays, and so does a
/// description that is no object. In URLs, names and the segment are percent-encoded.
///
/// It makes the forms alone and puts them in by one merge patch, because that walk is proved already; `generated`
/// speaks of no patch. Its time is in proportion to the sizes of the description and of the forms.
pub fn generate(alloc: Global, tree: &Tree, bases: &Bases, segment: &str) -> Result<Tree, NoMemory>
    ensures { IfOk result (λ t. json_of t ≡ generated (json_of tree.now) bases.now segment.now) }
{
    match tree {
        Tree::Obj(members) => {
            let patch = forms_patch(alloc, &Address { bases, segment }, members)?;
            merge_patch(alloc, tree, &patch)
        }
        _ => copy(alloc, tree),
    }
}

/// The merge patch (RFC 7396) that puts the generated forms into a description with these members.
fn forms_patch(alloc: Global, at: &Address<'_>, members: &Members) -> Result<Tree, NoMemory>
    ensures { IfOk result (λ patch. merge (object (members_of members.now)) (json_of patch)
        ≡ generated (object (members_of members.now)) at.now.bases.now at.now.segment.now) }
{
    let actions = members.value_under("actions");
    let events = members.value_under("events");
    let properties = members.value_under("properties");
    let mut patch = Vec::new(alloc);
    put_holder(alloc, at, Kind::Action, actions, &mut patch)?;
    put_holder(alloc, at, Kind::Event, events, &mut patch)?;
    let forms = root_patch(alloc, at, properties)?;
    put(alloc, &mut patch, "forms", forms)?;
    put_holder(alloc, at, Kind::Property, properties, &mut patch)?;
    Ok(Tree::Obj(Members::from_vec(patch)))
}

/// Puts the patch of what a description has for a kind at the end, where it is an object.
#[tactic(auto, using(crate::proofs::PatchedForms::holder_patch_of, crate::proofs::PatchedForms::ordered_within))]
fn put_holder(
    alloc: Global,
    at: &Address<'_>,
    kind: Kind,
    held: Option<&Tree>,
    patch: &mut Vec<(Text, Tree)>,
) -> Result<(), NoMemory>
    ensures ok { OnOk result (json_members patch.new.items ≡ json_members patch.old.items
        ++ holder_patch at.now.bases.now at.now.segment.now kind (option_map (λ t. json_of t.now) held.entry)) }
    ensures ordered { OnOk result (IsOrderedWithin (option_map (λ t. json_of t.now) held.entry)) }
{
    match held {
        Some(Tree::Obj(affordances)) => {
            let affordances = affordances_patch(alloc, at, kind, affordances)?;
            put(alloc, patch, kind.holder(), Tree::Obj(affordances))
        }
        _ => Ok(()),
    }
}

/// The patch of the affordances of a kind.
fn affordances_patch(
    alloc: Global,
    at: &Address<'_>,
    kind: Kind,
    affordances: &Members,
) -> Result<Members, NoMemory>
    ensures ok { IfOk result (λ patch. patch
        ≡ affordances_patch_of at.now.bases.now at.now.segment.now kind affordances.now) }
    ensures ordered { OnOk result (AreOrdered affordances.now) }
{
    let list = affordances.as_slice();
    let mut patch = Vec::new(alloc);
    for member in list {
        put_affordance(alloc, at, kind, member, &mut patch)?;
    }
    Ok(Members::from_vec(patch))
}

/// Puts the patch of an affordance at the end; a value that is no object is none.
fn put_affordance(
    alloc: Global,
    at: &Address<'_>,
    kind: Kind,
    member: &(Text, Tree),
    patch: &mut Vec<(Text, Tree)>,
) -> Result<(), NoMemory>
    ensures { OnOk result (json_members patch.new.items ≡ json_members patch.old.items
        ++ affordance_patch at.now.bases.now at.now.segment.now kind member.now.0 (json_of member.now.1)) }
{
    if let Tree::Obj(_) = &member.1 {
        let affordance = NamedAffordance {
            kind,
            name: member.0.as_str(),
            value: &member.1,
        };
        let forms = generated_forms(alloc, at, &affordance)?;
        put(alloc, patch, affordance.name, forms_alone(alloc, forms)?)?;
    }
    Ok(())
}

/// An object that has these forms alone.
fn forms_alone(alloc: Global, forms: Items) -> Result<Tree, NoMemory>
    ensures { IfOk result (λ tree. json_of tree ≡ forms_alone_of forms) }
{
    let mut members = Vec::new(alloc);
    put(alloc, &mut members, "forms", Tree::List(forms))?;
    Ok(Tree::Obj(Members::from_vec(members)))
}

/// The patch of the forms of the description as a whole: null where it has no properties.
#[tactic(auto, using(crate::proofs::PatchedForms::root_patch_of))]
fn root_patch(alloc: Global, at: &Address<'_>, properties: Option<&Tree>) -> Result<Tree, NoMemory>
    ensures { IfOk result (λ tree. json_of tree
        ≡ root_patch_of at.now.bases.now at.now.segment.now (option_map (λ t. json_of t.now) properties.entry)) }
{
    match properties {
        Some(Tree::Obj(properties)) => {
            Ok(Tree::List(root_forms(alloc, at, properties.as_slice())?))
        }
        _ => Ok(Tree::Null),
    }
}

/// The forms of a description with these properties.
fn root_forms(
    alloc: Global,
    at: &Address<'_>,
    properties: &[(Text, Tree)],
) -> Result<Items, NoMemory>
    ensures { IfOk result (λ forms. forms
        ≡ root_forms_of at.now.bases.now at.now.segment.now (json_members properties.now)) }
{
    let ops = root_ops(properties);
    let mut forms = Items::new(alloc);
    push_root_form(alloc, at, Protocol::Http, ops, &mut forms)?;
    push_root_form(alloc, at, Protocol::Coap, ops, &mut forms)?;
    Ok(forms)
}

/// Puts the form of the description as a whole for one protocol at the end, where it is for something.
fn push_root_form(
    alloc: Global,
    at: &Address<'_>,
    protocol: Protocol,
    ops: &[Op],
    forms: &mut Items,
) -> Result<(), NoMemory>
    ensures { OnOk result (forms.new ≡ forms.old
        ++ plain_form (holder_path (base_of at.now.bases.now protocol) at.now.segment.now kind.Property) ops.now) }
{
    let base = protocol.base(at.bases);
    let url = holder_url(alloc, base, at.segment, Kind::Property)?;
    push_plain_form(alloc, url.as_str(), ops, forms)
}

/// The operations of the forms of a description with these properties.
fn root_ops(properties: &[(Text, Tree)]) -> &'static [Op]
    ensures { result.now ≡ root_ops_of (json_members properties.now) }
{
    let readable = some_without("writeOnly", properties);
    let writable = some_without("readOnly", properties);
    match (readable, writable) {
        (true, true) => &[Op::ReadAllProperties, Op::WriteMultipleProperties],
        (true, false) => &[Op::ReadAllProperties],
        (false, true) => &[Op::WriteMultipleProperties],
        (false, false) => &[],
    }
}

/// Whether one of the properties doesn't have this flag.
fn some_without(name: &str, properties: &[(Text, Tree)]) -> bool
    ensures { result ≡ some_without_of name.now (json_members properties.now) }
{
    for (_, property) in properties {
        if is_without(name, property) {
            return true;
        }
    }
    false
}

/// Whether a value is a property that doesn't have this flag.
fn is_without(name: &str, property: &Tree) -> bool
    ensures { result ≡ (is_object (json_of property.now) && not (flag_of name.now (json_of property.now))) }
{
    match property {
        Tree::Obj(_) => !flag(property, name),
        _ => false,
    }
}
