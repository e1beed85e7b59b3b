//! The links of a description.

ghost use Rattle.std.specs.Prelude.{◌≡◌, ◌++◌, codes, map, option_map, IfOk, OnOk};
ghost use Rattle.std.specs.List.{list_all};
ghost use Rattle.wot_json.specs.Meaning.{json_of, json_items};
ghost use Rattle.wot_forms.specs.Generated.{is_object as is_object_value};
ghost use Rattle.tm_resolve.specs.ModelLinks.{kept_links};
ghost use Rattle.tm_derive.specs.Submodels.{segments_of};
ghost use Rattle.tm_derive.specs.Finishing as spec;

use crate::changes::push_change;
use crate::place::ThingPlace;
use servient_base::NoMemory;
use std::alloc::Global;
use tm_resolve::CountedLink;
use wot_forms::Bases;
use wot_json::{Items, Members, Text, Tree, copy};

/// The change of `links`, with these after those that stay: all but those at some indices. None where the links aren't
/// a list of objects.
pub(crate) fn links_change(
    alloc: Global,
    leaving: &[usize],
    added: Items,
    links: Option<&Tree>,
) -> Result<Option<Tree>, NoMemory>
    ensures { IfOk result (λ change. option_map json_of change ≡ spec.links_change leaving.now added (option_map (λ t. json_of t.now) links.entry)) }
{
    match links {
        None => Ok(Some(Tree::List(added))),
        Some(links) => changed_links(alloc, leaving, added, links),
    }
}

/// The same of links that there are.
fn changed_links(
    alloc: Global,
    leaving: &[usize],
    added: Items,
    links: &Tree,
) -> Result<Option<Tree>, NoMemory>
    ensures { IfOk result (λ change. option_map json_of change ≡ spec.changed_links leaving.now added (json_of links.now)) }
{
    match links {
        Tree::List(list) => {
            if are_objects(list.as_slice()) {
                let mut changed = staying_links(alloc, leaving, list.as_slice())?;
                push_all(&mut changed, added)?;
                Ok(Some(Tree::List(changed)))
            } else {
                Ok(None)
            }
        }
        _ => Ok(None),
    }
}

/// All of these are objects.
fn are_objects(list: &[Tree]) -> bool
    ensures { result ≡ list_all is_object_value (json_items list.now) }
{
    for value in list {
        if !is_object(value) {
            return false;
        }
    }
    true
}

/// The value is an object.
fn is_object(value: &Tree) -> bool
    ensures { result ≡ is_object_value (json_of value.now) }
{
    matches!(value, Tree::Obj(_))
}

/// Puts values at the end of others.
fn push_all(items: &mut Items, added: Items) -> Result<(), NoMemory>
    ensures { OnOk result (items.new ≡ items.old ++ added) }
{
    for value in added.into_vec() {
        items.push(value)?;
    }
    Ok(())
}

/// The links but for those at these indices.
fn staying_links(alloc: Global, leaving: &[usize], list: &[Tree]) -> Result<Items, NoMemory>
    ensures { IfOk result (λ items. items ≡ spec.staying_links leaving.now 0 (json_items list.now)) }
{
    let mut staying = Items::new(alloc);
    for (index, link) in list.iter().enumerate() {
        if !is_at(index, leaving) {
            staying.push(copy(alloc, link)?)?;
        }
    }
    Ok(staying)
}

/// The index is one of these.
fn is_at(index: usize, indices: &[usize]) -> bool
    ensures { result ≡ spec.is_at index indices.now }
{
    indices.contains(&index)
}

/// Puts the indices of links at the end of others.
pub(crate) fn push_indices(indices: &mut Vec<usize>, links: &[CountedLink]) -> Result<(), NoMemory>
    ensures { OnOk result (indices.new.items ≡ indices.old.items ++ spec.indices_of (kept_links links.now)) }
{
    for link in links {
        indices.push(link.index)?;
    }
    Ok(())
}

/// The links that a description gets: to its model, to the Thing of which it is a part, and to its parts.
pub(crate) fn new_links(
    alloc: Global,
    bases: &Bases,
    place: &ThingPlace,
    parts: &[ThingPlace],
) -> Result<Items, NoMemory>
    ensures { IfOk result (λ items. items ≡ spec.new_links bases.now place.now (segments_of parts.now)) }
{
    let mut links = Items::new(alloc);
    let model = Text::copy_of(alloc, place.model.as_str())?;
    links.push(link(alloc, model, "type", "application/tm+json")?)?;
    if let Some(parent) = &place.parent {
        links.push(thing_link(alloc, bases, "collection", parent.as_str())?)?;
    }
    push_parts(alloc, bases, parts, &mut links)?;
    Ok(links)
}

/// Puts the links to the parts of a Thing at the end.
fn push_parts(
    alloc: Global,
    bases: &Bases,
    parts: &[ThingPlace],
    links: &mut Items,
) -> Result<(), NoMemory>
    ensures { OnOk result (links.new ≡ links.old ++ map (spec.thing_link bases.now (codes "item")) (segments_of parts.now)) }
{
    for part in parts {
        links.push(thing_link(alloc, bases, "item", part.segment.as_str())?)?;
    }
    Ok(())
}

/// A link to the description of another Thing.
fn thing_link(alloc: Global, bases: &Bases, relation: &str, segment: &str) -> Result<Tree, NoMemory>
    ensures { IfOk result (λ t. json_of t ≡ spec.thing_link bases.now relation.now segment.now) }
{
    let href = description_url(alloc, bases, segment)?;
    link(alloc, href, relation, "application/td+json")
}

/// The URL at which the description of the Thing of this segment is read.
fn description_url(alloc: Global, bases: &Bases, segment: &str) -> Result<Text, NoMemory>
    ensures { IfOk result (λ t. t ≡ spec.description_url bases.now segment.now) }
{
    let mut url = String::from_str(alloc, bases.http.as_str())?;
    url.push_str("/")?;
    url.push_str(segment)?;
    Ok(Text::from_string(url))
}

/// A link.
fn link(alloc: Global, href: Text, relation: &str, media_type: &str) -> Result<Tree, NoMemory>
    ensures { IfOk result (λ t. json_of t ≡ spec.link href relation.now media_type.now) }
{
    let mut members = Vec::new(alloc);
    let relation = Tree::Text(Text::copy_of(alloc, relation)?);
    let media_type = Tree::Text(Text::copy_of(alloc, media_type)?);
    push_change(alloc, &mut members, "href", Some(Tree::Text(href)))?;
    push_change(alloc, &mut members, "rel", Some(relation))?;
    push_change(alloc, &mut members, "type", Some(media_type))?;
    Ok(Tree::Obj(Members::from_vec(members)))
}
