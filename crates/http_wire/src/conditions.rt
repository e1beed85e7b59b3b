//! The demands of the header lines of a request on the version of a property (RFC 9110, section 13.1). The lines are
//! read only where one of them is If-Match or If-None-Match.

ghost use Rattle.std.specs.Prelude.{◌≡◌, ◌≤◌, ◌∷◌, [], ◌==◌, length, true, IfOk, OnOk};
ghost use Rattle.std.specs.List.{slice_split};
ghost use Rattle.http_wire.specs.Conditions.{version_of as version_named, is_star as is_star_item, tags_of, conditions_of, reads as reads_alone, asking_lines};
ghost use Rattle.http_fields.specs.Pieces.{pieces_left};
ghost use Rattle.http_wire.specs.Asked.{line_in, lines_in, both_tags, noted_of, noted_then, opened as opened_item, named_in, is_quoted as stands_quoted, number_named, asked_by as asked_by_noted};

use crate::Head;
use http_fields::{Pieces, cut, cut_at_each, is_alike, trim};
use servient_base::parse_decimal;
use std::alloc::Global;
use thing_ops::{Conditions, NoMemory, Tags, Verb};

/// The bytes of the `W/` of a weak tag.
const WEAK_MARK: usize = 2;

/// The bytes of the quotes round a tag.
const QUOTES: usize = 2;

impl Head<'_> {
    ghost use Rattle.std.specs.Prelude.{◌≡◌, true, IfOk, IfErr};
    ghost use Rattle.http_wire.specs.Conditions.{conditions_of};
    ghost use Rattle.http_wire.specs.Scanned.{plain_head};

    /// Its demands on the version of a property, where its verb is this one. Memory is taken only where a line asks
    /// for a version.
    pub fn conditions(&self, alloc: Global, verb: Verb) -> Result<Conditions, NoMemory>
        ensures asked { IfOk result (λ c. c ≡ conditions_of verb (plain_head self.now).asking) }
        ensures memory { IfErr result (λ _. self.now.conditional ≡ true) }
    {
        // Asked first, so that a request without conditions takes no memory.
        if self.conditional {
            conditions_in(alloc, verb, self.lines)
        } else {
            Ok(Conditions::none(alloc))
        }
    }
}

/// The notes of some header lines.
#[derive(Drop)]
pub struct NotedFields {
    /// One of them is If-Match.
    pub stands: bool,
    /// The versions that the lines If-Match name.
    pub matched: Tags,
    /// The versions that the lines If-None-Match name.
    pub named: Tags,
}

/// The demands of header lines.
fn conditions_in(alloc: Global, verb: Verb, lines: &[u8]) -> Result<Conditions, NoMemory>
    ensures { IfOk result (λ c. c ≡ conditions_of verb (asking_lines (lines_in lines.now))) }
{
    let mut noted = NotedFields {
        stands: false,
        matched: Tags::none(alloc),
        named: Tags::none(alloc),
    };
    note_lines(&mut noted, lines)?;
    Ok(asked_by(noted, verb))
}

/// Notes what header lines say. The notes are lent, since a function that owned them would give them up at each `?`.
fn note_lines(noted: &mut NotedFields, lines: &[u8]) -> Result<(), NoMemory>
    ensures { OnOk result (noted.new ≡ noted_then noted.old (noted_of (lines_in lines.now))) }
{
    for line in cut_at_each(b'\n', lines) {
        note_line(noted, line)?;
    }
    Ok(())
}

/// Notes what one header line says.
fn note_line(noted: &mut NotedFields, line: &[u8]) -> Result<(), NoMemory>
    ensures { OnOk result (noted.new ≡ noted_then noted.old (noted_of (line_in line.now ∷ []))) }
{
    let (name, behind) = cut(b':', line);
    let value = trim(behind);
    if is_alike(name, b"if-match") {
        noted.stands = true;
        note_items(&mut noted.matched, value, false)
    } else if is_alike(name, b"if-none-match") {
        note_items(&mut noted.named, value, true)
    } else {
        Ok(())
    }
}

/// Notes what the items of a value name, which may be of weak tags.
fn note_items(tags: &mut Tags, value: &[u8], weak: bool) -> Result<(), NoMemory>
    ensures { OnOk result (tags.new ≡ both_tags tags.old (named_in weak (slice_split (λ b. b == 44) value.now))) }
{
    for item in items(value) {
        note_item(tags, opened(trim(item), weak))?;
    }
    Ok(())
}

/// The items of a value.
fn items(value: &[u8]) -> Pieces<'_>
    ensures { pieces_left result ≡ slice_split (λ b. b == 44) value.now }
{
    cut_at_each(b',', value)
}

/// Notes what one item names.
fn note_item(tags: &mut Tags, item: &[u8]) -> Result<(), NoMemory>
    ensures { OnOk result (tags.new ≡ both_tags tags.old (tags_of (item.now ∷ []))) }
{
    tags.any = tags.any || is_star(item);
    match version_of(item) {
        Some(version) => tags.list.push(version),
        None => Ok(()),
    }
}

/// Whether an item is `*`.
fn is_star(item: &[u8]) -> bool
    ensures { result ≡ is_star_item item.now }
{
    item == b"*".as_slice()
}

/// An item without the `W/` of a weak tag, where it may be one.
fn opened(item: &[u8], weak: bool) -> &[u8]
    ensures { result.now ≡ opened_item weak item.now }
{
    if weak && item.starts_with(b"W/") {
        &item[WEAK_MARK..]
    } else {
        item
    }
}

/// The version that an item names.
fn version_of(item: &[u8]) -> Option<u32>
    ensures { result ≡ version_named item.now }
{
    if is_quoted(item) {
        number_of_digits(&item[1..item.len() - 1])
    } else {
        None
    }
}

/// Whether bytes stand in double quotes.
fn is_quoted(item: &[u8]) -> bool
    ensures ok { result ≡ stands_quoted item.now }
    ensures bound { result ≡ true → 2 ≤ length item.now }
{
    QUOTES <= item.len() && item[0] == b'"' && item[item.len() - 1] == b'"'
}

/// The number from 1 to 4,294,967,295 that bytes say in decimal.
fn number_of_digits(digits: &[u8]) -> Option<u32>
    ensures { result ≡ number_named digits.now }
{
    match str::from_utf8(digits) {
        Ok(text) => number_in(text),
        Err(_) => None,
    }
}

/// The number from 1 to 4,294,967,295 that a text says in decimal.
fn number_in(text: &str) -> Option<u32>
    ensures { result ≡ number_named text.now }
{
    match parse_decimal(text, u64::from(u32::MAX)) {
        Some(0) | None => None,
        Some(number) => Some(number as u32),
    }
}

/// The demands of the notes, where the verb is this one.
fn asked_by(noted: NotedFields, verb: Verb) -> Conditions
    ensures { result ≡ asked_by_noted verb noted }
{
    let reads = reads(verb);
    let Tags { any, list } = noted.named;
    Conditions {
        if_match: if noted.stands {
            Some(noted.matched)
        } else {
            None
        },
        known: Tags {
            any: any && reads,
            list,
        },
        absent: any && !reads,
    }
}

/// Whether a verb is GET or HEAD.
fn reads(verb: Verb) -> bool
    ensures { result ≡ reads_alone verb }
{
    matches!(verb, Verb::Get | Verb::Head)
}
