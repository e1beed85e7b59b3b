//! A model's value becomes a description by merge patches (RFC 7396), and by the forms that are generated.

ghost use Rattle.std.specs.Prelude.{◌≡◌, [], ◌∷◌, codes, filter, not, option_map, option_and_then, IfOk};
ghost use Rattle.wot_json.specs.Meaning.{json_of, json_items};
ghost use Rattle.wot_json.specs.Tree.{object, members_of};
ghost use Rattle.tm_derive.specs.Changes.{part_under};
ghost use Rattle.tm_derive.specs.Submodels.{segments_of};
ghost use Rattle.tm_derive.specs.Finishing as spec;

use crate::changes::push_change;
use crate::links::{links_change, new_links};
use crate::place::ThingPlace;
use servient_base::NoMemory;
use std::alloc::Global;
use wot_forms::{Frame, generate};
use wot_json::{Items, Members, Text, Tree, copy, merge_patch};

/// The place of a Thing among others, as its description says it.
#[derive(Drop)]
pub(crate) struct Setting<'a> {
    pub(crate) frame: &'a Frame,
    pub(crate) place: &'a ThingPlace,
    /// The indices of the links of its model to other models.
    pub(crate) leaving: &'a [usize],
    /// The Things that it is composed of.
    pub(crate) parts: &'a [ThingPlace],
}

/// The description of a Thing, from the value of its model: finished, and with its forms.
pub(crate) fn description(
    alloc: Global,
    setting: &Setting<'_>,
    value: &Tree,
) -> Result<Tree, NoMemory>
    ensures { IfOk result (λ t. json_of t ≡ spec.description setting.now.frame.now setting.now.place.now setting.now.leaving.now
        (segments_of setting.now.parts.now) (json_of value.now)) }
{
    let finished = finished_value(alloc, setting, value)?;
    generate(
        alloc,
        &finished,
        &setting.frame.bases,
        setting.place.segment.as_str(),
    )
}

/// The value with the members of a description in place of those of a model.
fn finished_value(alloc: Global, setting: &Setting<'_>, value: &Tree) -> Result<Tree, NoMemory>
    ensures { IfOk result (λ t. json_of t ≡ spec.finished_value setting.now.frame.now setting.now.place.now setting.now.leaving.now
        (spec.new_links setting.now.frame.now.bases setting.now.place.now (segments_of setting.now.parts.now)) (json_of value.now)) }
{
    let added = new_links(alloc, &setting.frame.bases, setting.place, setting.parts)?;
    let links = links_change(alloc, setting.leaving, added, value.member("links"))?;
    let patch = finishing_patch(alloc, setting, links, value)?;
    let cleared = merge_patch(alloc, value, &clearing_patch(alloc)?)?;
    merge_patch(alloc, &cleared, &Tree::Obj(patch))
}

/// A patch that takes away the security definitions of a model.
fn clearing_patch(alloc: Global) -> Result<Tree, NoMemory>
    ensures { IfOk result (λ t. json_of t ≡ object (members_of spec.clearing_patch)) }
{
    let mut patch = Members::new(alloc);
    patch.push(Text::copy_of(alloc, "securityDefinitions")?, Tree::Null)?;
    Ok(Tree::Obj(patch))
}

/// The patch that makes a description of the value, with this change of its links.
fn finishing_patch(
    alloc: Global,
    setting: &Setting<'_>,
    links: Option<Tree>,
    value: &Tree,
) -> Result<Members, NoMemory>
    ensures { IfOk result (λ m. m ≡ spec.patch_with setting.now.frame.now.instance setting.now.place.now.id (option_map json_of links) (json_of value.now)) }
{
    let mut patch = Vec::new(alloc);
    let types = type_change(alloc, value)?;
    push_change(alloc, &mut patch, "@type", types)?;
    push_change(alloc, &mut patch, "base", Some(Tree::Null))?;
    let id = Tree::Text(Text::copy_of(alloc, setting.place.id.as_str())?);
    push_change(alloc, &mut patch, "id", Some(id))?;
    push_change(alloc, &mut patch, "links", links)?;
    let names = security_names(alloc)?;
    push_change(alloc, &mut patch, "security", Some(names))?;
    let definitions = security_definitions(alloc)?;
    push_change(alloc, &mut patch, "securityDefinitions", Some(definitions))?;
    let version = version_change(alloc, &setting.frame.instance, value)?;
    push_change(alloc, &mut patch, "version", version)?;
    Ok(Members::from_vec(patch))
}

/// The change of `@type`, where there is one.
fn type_change(alloc: Global, value: &Tree) -> Result<Option<Tree>, NoMemory>
    ensures { IfOk result (λ change. option_map json_of change
        ≡ option_and_then spec.type_change (part_under (codes "@type") (json_of value.now))) }
{
    match value.member("@type") {
        None => Ok(None),
        Some(types) => changed_types(alloc, types),
    }
}

/// The types without that of Thing Models, where they change.
fn changed_types(alloc: Global, types: &Tree) -> Result<Option<Tree>, NoMemory>
    ensures { IfOk result (λ change. option_map json_of change ≡ spec.type_change (json_of types.now)) }
{
    match types {
        Tree::List(list) => Ok(Some(types_left(alloc, list.as_slice())?)),
        _ => {
            if is_model_type(types) {
                Ok(Some(Tree::Null))
            } else {
                Ok(None)
            }
        }
    }
}

/// The type of Thing Models.
fn is_model_type(value: &Tree) -> bool
    ensures { result ≡ spec.is_model_type (json_of value.now) }
{
    match value {
        Tree::Text(text) => "tm:ThingModel" == text.as_str(),
        _ => false,
    }
}

/// The types of a list without that of Thing Models; null where none is left.
fn types_left(alloc: Global, list: &[Tree]) -> Result<Tree, NoMemory>
    ensures { IfOk result (λ t. json_of t ≡ spec.types_left (filter (λ v. not (spec.is_model_type v)) (json_items list.now))) }
{
    let left = other_types(alloc, list)?;
    if left.len() == 0 {
        Ok(Tree::Null)
    } else {
        Ok(Tree::List(left))
    }
}

/// The types of a list without that of Thing Models.
fn other_types(alloc: Global, list: &[Tree]) -> Result<Items, NoMemory>
    ensures { IfOk result (λ items. items ≡ filter (λ v. not (spec.is_model_type v)) (json_items list.now)) }
{
    let mut left = Items::new(alloc);
    for value in list {
        if !is_model_type(value) {
            left.push(copy(alloc, value)?)?;
        }
    }
    Ok(left)
}

/// The change of `version`, where there is one.
fn version_change(
    alloc: Global,
    instance: &Option<Text>,
    value: &Tree,
) -> Result<Option<Tree>, NoMemory>
    ensures { IfOk result (λ change. option_map json_of change ≡ option_and_then (λ version. option_and_then (spec.version_change version)
        (part_under (codes "version") (json_of value.now))) instance.now) }
{
    match instance {
        None => Ok(None),
        Some(instance) => match value.member("version") {
            None => Ok(None),
            Some(version) => changed_version(alloc, instance.as_str(), version),
        },
    }
}

/// The instance's version, for a `version` that doesn't say it.
fn changed_version(alloc: Global, instance: &str, version: &Tree) -> Result<Option<Tree>, NoMemory>
    ensures { IfOk result (λ change. option_map json_of change ≡ spec.version_change instance.now (json_of version.now)) }
{
    match version {
        Tree::Obj(members) => match members.get("instance") {
            None => Ok(Some(instance_patch(alloc, instance)?)),
            Some(_) => Ok(None),
        },
        _ => Ok(None),
    }
}

/// An object with `instance` alone.
fn instance_patch(alloc: Global, instance: &str) -> Result<Tree, NoMemory>
    ensures { IfOk result (λ t. json_of t ≡ spec.instance_patch instance.now) }
{
    sole_member(
        alloc,
        "instance",
        Tree::Text(Text::copy_of(alloc, instance)?),
    )
}

/// An object with one member.
fn sole_member(alloc: Global, name: &str, value: Tree) -> Result<Tree, NoMemory>
    ensures { IfOk result (λ t. json_of t ≡ object (members_of ((name.now, json_of value) ∷ []))) }
{
    let mut members = Members::new(alloc);
    members.push(Text::copy_of(alloc, name)?, value)?;
    Ok(Tree::Obj(members))
}

/// The list of the one security definition.
fn security_names(alloc: Global) -> Result<Tree, NoMemory>
    ensures { IfOk result (λ t. json_of t ≡ spec.security_names) }
{
    let mut names = Items::new(alloc);
    names.push(Tree::Text(Text::copy_of(alloc, "nosec_sc")?))?;
    Ok(Tree::List(names))
}

/// The one security definition: there is no security.
fn security_definitions(alloc: Global) -> Result<Tree, NoMemory>
    ensures { IfOk result (λ t. json_of t ≡ spec.security_definitions) }
{
    let scheme = Tree::Text(Text::copy_of(alloc, "nosec")?);
    let definition = sole_member(alloc, "scheme", scheme)?;
    sole_member(alloc, "nosec_sc", definition)
}
