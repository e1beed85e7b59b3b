//! The Things that a Thing is composed of, by the links of its model.

ghost use Rattle.std.specs.Prelude.{◌≡◌, ◌⊎◌, ◌++◌, [], ◌∷◌, option_map, codes, decimal, IfOk, OnOk};
ghost use Rattle.wot_json.specs.Meaning.{json_of};
ghost use Rattle.tm_resolve.specs.Links.{link_place as place_of_link};
ghost use Rattle.tm_resolve.specs.ModelLinks.{kept_link, kept_links};
ghost use Rattle.tm_derive.specs.Optional.{is_among as is_among_texts};
ghost use Rattle.tm_derive.specs.Submodels as spec;
ghost use Rattle.tm_derive.specs.Refusals.{FindsName, FindsChild, FindsPlaces};

use crate::fault::DeriveFault;
use crate::optional::is_among;
use crate::place::ThingPlace;
use crate::refusals::{instance_fault, resolve_fault, twice_fault};
use itoa::Buffer;
use servient_base::NoMemory;
use std::alloc::Global;
use tm_parts::Library;
use tm_resolve::{CountedLink, ResolveFault, ResolveKind};
use wot_forms::has_name_bytes;
use wot_json::{Text, Tree, below_index};

/// The most bytes of an instance name.
const MOST_NAME: usize = 32;

/// The most bytes of a segment.
const MOST_SEGMENT: usize = 255;

/// The instance name of a link, the submodel link of this number, where it has one.
fn instance_name(alloc: Global, number: usize, link: &CountedLink) -> Result<Option<Text>, NoMemory>
    ensures { IfOk result (λ name. name ≡ spec.instance_name number (option_map json_of link.now.instance_name)) }
{
    match &link.instance_name {
        None => Ok(Some(default_name(alloc, number)?)),
        Some(Tree::Text(name)) => Ok(Some(Text::copy_of(alloc, name.as_str())?)),
        Some(_) => Ok(None),
    }
}

/// `sub` and a number.
fn default_name(alloc: Global, number: usize) -> Result<Text, NoMemory>
    ensures { IfOk result (λ name. name ≡ codes "sub" ++ decimal number) }
{
    let mut buffer = Buffer::new();
    let mut name = String::from_str(alloc, "sub")?;
    name.push_str(buffer.format(number))?;
    Ok(Text::from_string(name))
}

/// A Thing of this segment may have an instance of this name.
fn may_name(segment: &str, name: &str) -> bool
    ensures { result ≡ spec.may_name segment.now name.now }
{
    has_name_bytes(name.as_bytes())
        && !name.is_empty()
        && name.len() <= MOST_NAME
        && segment.len() < MOST_SEGMENT
        && segment.len() + name.len() < MOST_SEGMENT
}

/// The instance name of a link, where it has one that it may have.
fn child_name(
    alloc: Global,
    segment: &str,
    number: usize,
    link: &CountedLink,
) -> Result<Option<Text>, NoMemory>
    ensures { IfOk result (λ name. name ≡ spec.child_name segment.now number (kept_link link.now)) }
{
    match instance_name(alloc, number, link)? {
        Some(name) if may_name(segment, name.as_str()) => Ok(Some(name)),
        _ => Ok(None),
    }
}

/// The segment or the id of a Thing that the Thing of this segment or id is composed of.
fn below(alloc: Global, above: &str, name: &str) -> Result<Text, NoMemory>
    ensures { IfOk result (λ t. t ≡ spec.below above.now name.now) }
{
    let mut text = String::from_str(alloc, above)?;
    text.push_str("~")?;
    text.push_str(name)?;
    Ok(Text::from_string(text))
}

/// The pointer to a link.
fn link_place(alloc: Global, index: usize) -> Result<Text, NoMemory>
    ensures { IfOk result (λ t. t ≡ place_of_link index) }
{
    below_index(alloc, "/links", index)
}

/// The Thing of this name and model below a Thing.
fn child_place(
    alloc: Global,
    place: &ThingPlace,
    name: &str,
    url: &str,
) -> Result<ThingPlace, NoMemory>
    ensures { IfOk result (λ child. child ≡ spec.child_place place.now name.now url.now) }
{
    Ok(ThingPlace {
        segment: below(alloc, place.segment.as_str(), name)?,
        id: below(alloc, place.id.as_str(), name)?,
        model: Text::copy_of(alloc, url)?,
        parent: Some(Text::copy_of(alloc, place.segment.as_str())?),
    })
}

/// The values with which all links of a model are judged.
#[derive(Drop)]
pub(crate) struct Parent<'a> {
    pub(crate) alloc: Global,
    pub(crate) library: &'a Library,
    /// The URLs of the models of the Things above, from the root on.
    pub(crate) above: &'a [Text],
    pub(crate) place: &'a ThingPlace,
}

/// One of these Things has this segment.
fn is_taken(segment: &str, things: &[ThingPlace]) -> bool
    ensures { result ≡ is_among_texts segment.now (spec.segments_of things.now) }
{
    for thing in things {
        if segment == thing.segment.as_str() {
            return true;
        }
    }
    false
}

/// The instance name of a link, which is one that it may have, and none that an earlier link has.
fn judge_name(
    parent: &Parent<'_>,
    earlier: &[ThingPlace],
    number: usize,
    link: &CountedLink,
) -> Result<Text, DeriveFault>
    ensures { FindsName parent.now.place.now (spec.segments_of earlier.now) link.now.index
        (spec.child_name parent.now.place.now.segment number (kept_link link.now)) result }
{
    let segment = parent.place.segment.as_str();
    match child_name(parent.alloc, segment, number, link)? {
        None => Err(instance_fault(parent.alloc, segment, link.index)),
        Some(name) => {
            let child = below(parent.alloc, segment, name.as_str())?;
            if is_taken(child.as_str(), earlier) {
                Err(twice_fault(parent.alloc, segment, link.index))
            } else {
                Ok(name)
            }
        }
    }
}

/// The kind of the fault of the model that a link leads to, where it has one.
fn target_kind(parent: &Parent<'_>, url: &str) -> Option<ResolveKind>
    ensures { spec.target_kind parent.now.library.now parent.now.above.now parent.now.place.now.model url.now ≡ result }
{
    if parent.library.get(url).is_none() {
        Some(ResolveKind::MissingModel)
    } else if is_among(url, parent.above) || url == parent.place.model.as_str() {
        Some(ResolveKind::Circular)
    } else {
        None
    }
}

/// The Thing that a link leads to.
fn child_of(
    parent: &Parent<'_>,
    earlier: &[ThingPlace],
    number: usize,
    link: &CountedLink,
) -> Result<ThingPlace, DeriveFault>
    ensures { FindsChild parent.now.place.now number (kept_link link.now)
        (spec.link_faults parent.now.library.now parent.now.above.now parent.now.place.now
        (spec.segments_of earlier.now) number (kept_link link.now)) result }
{
    let name = judge_name(parent, earlier, number, link)?;
    match &link.target {
        None => Err(target_fault(parent, ResolveKind::BadHref, link.index)),
        Some(url) => match target_kind(parent, url.as_str()) {
            Some(kind) => Err(target_fault(parent, kind, link.index)),
            None => Ok(child_place(parent.alloc, parent.place, name.as_str(), url.as_str())?),
        },
    }
}

/// The fault of a link that leads to no submodel that the Thing may have.
fn target_fault(parent: &Parent<'_>, kind: ResolveKind, index: usize) -> DeriveFault
    ensures { (result ≡ DeriveFault.NoMemory) ⊎ (result ≡ DeriveFault.Resolve parent.now.place.now.segment
        (ResolveFault.At kind parent.now.place.now.model (place_of_link index))) }
{
    resolve_fault(
        parent.alloc,
        parent.place.segment.as_str(),
        kind,
        parent.place.model.as_str(),
        index,
    )
}

/// The Things that the links of a model to submodels lead to, in their order.
pub(crate) fn children_of(
    parent: &Parent<'_>,
    links: &[CountedLink],
) -> Result<Vec<ThingPlace>, DeriveFault>
    ensures { FindsPlaces (spec.children_from parent.now.place.now 1 (kept_links links.now))
        (spec.submodel_faults parent.now.library.now parent.now.above.now parent.now.place.now [] 1 (kept_links links.now)) result }
{
    let mut children = Vec::new(parent.alloc);
    for (index, link) in links.iter().enumerate() {
        let child = child_of(parent, children.as_slice(), index + 1, link)?;
        push_child(&mut children, child)?;
    }
    Ok(children)
}

/// Puts a Thing at the end.
fn push_child(children: &mut Vec<ThingPlace>, child: ThingPlace) -> Result<(), NoMemory>
    ensures { OnOk result (children.new.items ≡ children.old.items ++ child ∷ []) }
{
    children.push(child)?;
    Ok(())
}
