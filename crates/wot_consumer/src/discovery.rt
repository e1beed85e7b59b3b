//! The Things that a server says that it has (RFC 6690).

ghost use Rattle.std.specs.Prelude.{◌≡◌, ◌++◌, true, None, IfOk, OnOk, option_map, string_bytes};
ghost use Rattle.std.specs.List.{list_all, list_any};
ghost use Rattle.url.specs.Parts.{serialize};
ghost use Rattle.core_links.specs.Links.{is_target_byte};
ghost use Rattle.wot_consumer.specs.Discovery as spec;

use crate::Chosen;
use core_links::{Link, LinkFault, Param, read};
use itoa::Buffer;
use servient_base::{NoMemory, join};
use std::alloc::{AllocError, Global};
use thing_ops::{Segments, Verb};
use url::Url;
use wot_forms::Scheme;
use wot_json::{Bytes, Text};

/// The resource type of a Thing (WoT Discovery).
const THING: &[u8] = b"wot.thing";

/// The request for the links of the server at this host and port: a GET of `/.well-known/core` over CoAP.
pub fn links_request(alloc: Global, host: &str, port: u16) -> Result<Chosen, NoMemory>
    ensures { IfOk result (λ c. c ≡ spec.links_of host.now port) }
{
    let mut path = Segments::new(alloc);
    path.push(b".well-known")?;
    path.push(b"core")?;
    let host = Text::copy_of(alloc, host)?;
    Ok(Chosen {
        scheme: Scheme::Coap,
        host,
        port,
        path,
        verb: Verb::Get,
        observe: false,
    })
}

/// The URL of the server at this host and port, to which the targets of its links are joined.
pub fn server_url(alloc: Global, host: &str, port: u16) -> Result<Text, NoMemory>
    ensures { IfOk result (λ t. t ≡ spec.server_url host.now port) }
{
    let mut buffer = Buffer::new();
    let mut text = String::new(alloc);
    text.push_str("coap://")?;
    text.push_str(host)?;
    text.push_str(":")?;
    text.push_str(buffer.format(port))?;
    text.push_str("/")?;
    Ok(Text::from_string(text))
}

/// The URLs of the Things to which the links of a link text lead, one a line, where this is the URL of the server that has
/// them. None where the bytes are no link text, or the target of such a link can't be joined. Bytes whose number doesn't
/// fit into 32 bits are out of memory.
pub fn things_in(alloc: Global, server: &str, bytes: &[u8]) -> Result<Option<Bytes>, NoMemory>
    ensures { IfOk result (λ said. spec.SaysOfThings server.now bytes.now said) }
{
    if bytes.len() > u32::MAX as usize {
        return Err(AllocError);
    }
    match read(alloc, bytes) {
        Ok(links) => lines_of(alloc, server, links.as_slice()),
        Err(LinkFault::At(_)) => Ok(None),
        Err(LinkFault::NoMemory) => Err(AllocError),
    }
}

/// The URLs to which the links to Things lead, one a line; none where one of them can't be joined.
fn lines_of(alloc: Global, server: &str, links: &[Link]) -> Result<Option<Bytes>, NoMemory>
    requires { spec.have_targets links.now ≡ true }
    ensures { IfOk result (λ lines. lines ≡ option_map spec.lines_of (spec.thing_urls server.now links.now)) }
{
    let mut lines = Bytes::new(alloc);
    for link in links {
        if !put_line(&mut lines, alloc, server, link)? {
            return Ok(None);
        }
    }
    Ok(Some(lines))
}

/// Puts the line of a link at the end, where it leads to a Thing. It says whether its target could be joined.
fn put_line(lines: &mut Bytes, alloc: Global, server: &str, link: &Link) -> Result<bool, NoMemory>
    requires { list_all is_target_byte link.now.target ≡ true }
    ensures { IfOk result (λ joined. spec.PutsLine server.now link.now lines.old lines.new joined) }
{
    if !leads_to_thing(link) {
        return Ok(true);
    }
    match url_of(alloc, server, link.target.as_slice())? {
        Some(url) => {
            lines.extend(url.as_str().as_bytes())?;
            lines.extend(b"\n")?;
            Ok(true)
        }
        None => Ok(false),
    }
}

/// The URL that a target gives when it is joined to that of the server, where it gives one.
fn url_of(alloc: Global, server: &str, target: &[u8]) -> Result<Option<Url>, NoMemory>
    requires { list_all is_target_byte target.now ≡ true }
    ensures { IfOk result (λ url. option_map serialize url ≡ spec.target_url server.now target.now) }
{
    match str::from_utf8(target) {
        Ok(target) => join(alloc, Some(server), target),
        Err(_) => Ok(None),
    }
}

/// A link leads to a Thing.
fn leads_to_thing(link: &Link) -> bool
    ensures { result ≡ spec.leads_to_thing link.now }
{
    link.params.as_slice().iter().any(|param| says_thing(param))
}

/// A parameter says that the link leads to a Thing.
fn says_thing(param: &Param) -> bool
    ensures { result ≡ spec.says_thing param.now }
{
    is_resource_type(param.name.as_slice()) && has_thing_word(&param.value)
}

/// The name is that of a resource type.
fn is_resource_type(name: &[u8]) -> bool
    ensures { result ≡ spec.is_resource_type name.now }
{
    name == b"rt".as_slice()
}

/// One of the words of a value says that there is a Thing.
fn has_thing_word(value: &Option<Bytes>) -> bool
    ensures { result ≡ spec.has_thing_word value.now }
{
    match value {
        Some(value) => is_among_words(value.as_slice()),
        None => false,
    }
}

/// One of the words between the spaces of a value says that there is a Thing.
fn is_among_words(value: &[u8]) -> bool
    ensures { result ≡ list_any spec.is_thing_word (spec.words_of value.now) }
{
    value
        .split(|byte| *byte == b' ')
        .any(|word| is_thing_word(word))
}

/// A word says that there is a Thing.
fn is_thing_word(word: &[u8]) -> bool
    ensures { result ≡ spec.is_thing_word word.now }
{
    word == THING
}
