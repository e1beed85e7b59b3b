//! The links from one Thing Model to another: to the model that it extends, and to its submodels.

ghost use Rattle.std.specs.Prelude.{◌≡◌, ◌+◌, ◌<◌, [], ◌∷◌, length, codes, option_map, option_and_then, Some, None, IfOk, IfSome, MatchOption};
ghost use Rattle.url.specs.Parts.{serialize};
ghost use Rattle.url.specs.Setters.{set_fragment};
ghost use Rattle.wot_json.specs.Lookup.{member_list, member_named};
ghost use Rattle.wot_json.specs.Merge.{members_under};
ghost use Rattle.tm_parts.specs.References.{reference_target as reference_target_of};
ghost use Rattle.tm_parts.specs.Views.{seen, seen_members};
ghost use Rattle.tm_resolve.specs.Links.{links_from, extensions, located_url, linked_model, text_under as text_of, reference_of};
ghost use Rattle.tm_resolve.specs.Links as spec;
ghost use Rattle.tm_resolve.specs.ExtensionLinks.{ShowsExtensions};
ghost use Rattle.tm_resolve.specs.Seen.{seen_items, items_from};

use servient_base::NoMemory;
use std::alloc::{AllocError, Global};
use tm_parts::{ListView, Location, Node, ObjectView, RefFault, Reference, View};
use url::Url;
use wot_json::Text;

/// The name of the member that refers to a part of a model.
pub(crate) const REFERENCE: &str = "tm:ref";

/// The name of the member that holds a model's links.
pub(crate) const LINKS: &str = "links";

/// The relation of a link to a model that is extended.
pub(crate) const EXTENDS: &str = "tm:extends";

/// The relation of a link to a submodel.
pub(crate) const SUBMODEL: &str = "tm:submodel";

/// The links of a model that lead to models which it extends, as far as they count.
pub(crate) enum Extensions<'a> {
    None,
    /// The place of the link among all links, and the link.
    One(usize, View<'a>),
    Several,
}

/// Finds the links of a model that lead to models which it extends.
pub(crate) fn extensions_of(model: View<'_>) -> Extensions<'_>
    ensures { ShowsExtensions result (extensions (seen model.entry)) }
{
    let links = links_under(model);
    match next_extension(links, 0) {
        None => Extensions::None,
        Some((index, link)) => match next_extension(links, index + 1) {
            None => Extensions::One(index, link),
            Some(_) => Extensions::Several,
        },
    }
}

/// All links of a model, of every relation.
pub(crate) fn links_under(model: View<'_>) -> ListView<'_>
    ensures { seen_items result ≡ spec.links_under (seen model.entry) }
{
    match model.member(LINKS) {
        Some(links) => elements_under(links),
        None => no_elements(),
    }
}

/// The elements of a value, which has none where it is no list.
fn elements_under(value: View<'_>) -> ListView<'_>
    ensures { seen_items result ≡ spec.elements_under (seen value.entry) }
{
    match value.node() {
        Node::List(list) => list,
        _ => no_elements(),
    }
}

/// A list without elements.
fn no_elements<'a>() -> ListView<'a>
    ensures { seen_items result ≡ [] }
{
    ListView {
        items: &[],
        values: None,
    }
}

/// The first link to a model that is extended at this place or after it, and its place.
fn next_extension(links: ListView<'_>, from: usize) -> Option<(usize, View<'_>)>
    ensures next { MatchOption result (links_from (codes "tm:extends") from (items_from links.entry from) ≡ [])
        (λ x. links_from (codes "tm:extends") from (items_from links.entry from)
        ≡ (x.0, seen x.1) ∷ links_from (codes "tm:extends") (x.0 + 1) (items_from links.entry (x.0 + 1))) }
    ensures within { IfSome result (λ x. x.0 < length links.entry.items.now) }
{
    let items = links.items;
    for index in from..items.len() {
        let link = View {
            tree: &items[index],
            values: links.values,
        };
        if is_link(link, EXTENDS) {
            return Some((index, link));
        }
    }
    None
}

/// The link has this relation, and doesn't itself come from elsewhere.
pub(crate) fn is_link(link: View<'_>, relation: &str) -> bool
    ensures { result ≡ spec.is_link relation.now (seen link.entry) }
{
    match link.node() {
        Node::Object(members) => {
            members.get(REFERENCE).is_none() && has_relation(members, relation)
        }
        _ => false,
    }
}

/// The members say that they are a link with this relation.
fn has_relation(members: ObjectView<'_>, relation: &str) -> bool
    ensures { result ≡ spec.has_relation relation.now (member_list (seen_members members.entry)) }
{
    match members.get("rel") {
        Some(value) => is_this_text(value, relation),
        None => false,
    }
}

/// The value is this text.
fn is_this_text(value: View<'_>, text: &str) -> bool
    ensures { result ≡ spec.is_this_text text.now (seen value.entry) }
{
    match value.node() {
        Node::Text(value) => value.is(text),
        _ => false,
    }
}

/// The target that the value of a `tm:ref` in the model `from` refers to, where it refers to one.
pub(crate) fn reference_target(
    alloc: Global,
    from: &Location,
    reference: View<'_>,
) -> Result<Option<Reference>, NoMemory>
    ensures { IfOk result (λ found. found ≡ reference_of from.now (seen reference.entry)) }
{
    match text_under(alloc, reference)? {
        Some(text) => target_of(alloc, from, text.as_str()),
        None => Ok(None),
    }
}

/// The target that a text in the model `from` refers to, where it refers to one.
fn target_of(alloc: Global, from: &Location, text: &str) -> Result<Option<Reference>, NoMemory>
    ensures { IfOk result (λ found. found ≡ reference_target_of from.now text.now) }
{
    match from.target(alloc, text) {
        Ok(target) => Ok(Some(target)),
        Err(RefFault::NoMemory) => Err(AllocError),
        Err(RefFault::BadRef) => Ok(None),
    }
}

/// The whole model that a link of the model `from` leads to, where it leads to one.
pub(crate) fn link_target(
    alloc: Global,
    from: &Location,
    link: View<'_>,
) -> Result<Option<Reference>, NoMemory>
    ensures { IfOk result (λ found. found ≡ linked_model from.now (seen link.entry)) }
{
    let Some(href) = href_of(alloc, link)? else {
        return Ok(None);
    };
    match located_url(alloc, from, href.as_str())? {
        None => Ok(None),
        Some(url) => Ok(Some(Reference {
            url,
            pointer: Text::copy_of(alloc, "")?,
        })),
    }
}

/// The `href` of a link, where it is a text.
fn href_of(alloc: Global, link: View<'_>) -> Result<Option<Text>, NoMemory>
    ensures { IfOk result (λ href. href ≡ option_and_then text_of (member_named (codes "href") (members_under (seen link.entry)))) }
{
    match link.member("href") {
        Some(href) => text_under(alloc, href),
        None => Ok(None),
    }
}

/// The text of a value that is one.
fn text_under(alloc: Global, value: View<'_>) -> Result<Option<Text>, NoMemory>
    ensures { IfOk result (λ text. text ≡ text_of (seen value.entry)) }
{
    match value.node() {
        Node::Text(text) => Ok(Some(text.build(alloc)?)),
        _ => Ok(None),
    }
}

/// The URL of the model that a text locates from the model `from`, where it can be joined. The empty text is joined
/// too; in a `tm:ref` the empty location is the model itself.
fn located_url(alloc: Global, from: &Location, text: &str) -> Result<Option<Text>, NoMemory>
    ensures { IfOk result (λ found. found ≡ located_url from.now text.now) }
{
    match from.join(text)? {
        None => Ok(None),
        Some(url) => Ok(Some(without_fragment(alloc, url)?)),
    }
}

/// The text of a URL, without its fragment.
fn without_fragment(alloc: Global, url: Url) -> Result<Text, NoMemory>
    ensures { IfOk result (λ t. t ≡ serialize (set_fragment url None)) }
{
    let mut whole = url;
    match whole.set_fragment(None) {
        Ok(()) => Text::copy_of(alloc, whole.as_str()),
        Err(_) => Err(AllocError),
    }
}
