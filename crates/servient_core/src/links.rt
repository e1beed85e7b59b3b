//! The text of the links to the Things.

ghost use Rattle.std.specs.Prelude.{◌≡◌, ◌++◌, IfOk, OnOk};
ghost use Rattle.std.specs.List.{flat_map};
ghost use Rattle.core_links.specs.Writing.{further_text, link_text, links_text};
ghost use Rattle.wot_terms.specs.ThingLists.{segments_in};
ghost use Rattle.servient_core.specs.Links.{link_to, links_to, text_of_links};

use servient_base::NoMemory;
use std::alloc::Global;
use wot_json::Bytes;
use wot_terms::Thing;

/// The text of the links to these Things, as `core_links` writes links. It is written here part by part, because so it
/// needs no copy of a segment.
pub fn text_of_links(alloc: Global, things: &[Thing]) -> Result<Bytes, NoMemory>
    ensures { IfOk result (λ text. text ≡ text_of_links (segments_in things.now)) }
{
    match things.split_first() {
        Some((first, rest)) => text_of_some(alloc, first, rest),
        None => Ok(Bytes::new(alloc)),
    }
}

/// The same of one Thing or more.
fn text_of_some(alloc: Global, first: &Thing, rest: &[Thing]) -> Result<Bytes, NoMemory>
    ensures { IfOk result (λ text. text ≡ link_text (link_to first.now.segment) ++ flat_map further_text (links_to (segments_in rest.now))) }
{
    let mut text = Bytes::new(alloc);
    put_link(&mut text, first.segment.as_str())?;
    put_further(&mut text, rest)?;
    Ok(text)
}

/// Puts the links to Things at the end, each after a comma.
fn put_further(text: &mut Bytes, things: &[Thing]) -> Result<(), NoMemory>
    ensures { OnOk result (text.new ≡ text.old ++ flat_map further_text (links_to (segments_in things.now))) }
{
    for thing in things {
        put_after_comma(text, thing.segment.as_str())?;
    }
    Ok(())
}

/// Puts a comma and the link to the Thing of a segment at the end.
fn put_after_comma(text: &mut Bytes, segment: &str) -> Result<(), NoMemory>
    ensures { OnOk result (text.new ≡ text.old ++ further_text (link_to segment.now)) }
{
    text.extend(b",")?;
    put_link(text, segment)
}

/// Puts the link to the Thing of a segment at the end.
fn put_link(text: &mut Bytes, segment: &str) -> Result<(), NoMemory>
    ensures { OnOk result (text.new ≡ text.old ++ link_text (link_to segment.now)) }
{
    text.extend(b"</")?;
    text.extend(segment.as_bytes())?;
    text.extend(b">;rt=\"wot.thing\";ct=432")
}
