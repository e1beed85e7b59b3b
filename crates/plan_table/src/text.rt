//! The text of the table.

ghost use Rattle.std.specs.Prelude.{◌≡◌, ◌++◌, [], decimal, option_map, IfOk, OnOk};
ghost use Rattle.std.specs.List.{AllByRecursion, flat_map};
ghost use Rattle.wot_json.specs.Json.{json_string};
ghost use Rattle.wot_json.specs.Meaning.{json_of};
ghost use Rattle.wot_terms.specs.Faults.{IsValid};
ghost use Rattle.wot_terms.specs.ThingLists.{kept_things};
ghost use Rattle.thing_site.specs.Exposing.{kinds_of};
ghost use Rattle.plan_table.specs.Table as table;

use crate::Row;
use crate::row::rows_of;
use crate::unused::put_unused;
use servient_base::NoMemory;
use servient_plan::Plan;
use servient_script::put_number;
use std::alloc::Global;
use thing_handler::Handlers;
use wot_json::{Bytes, Text, quoted};
use wot_terms::{Kind, Thing};

/// The text of the table of a plan and the Things that are derived from it: what the plan gives each affordance on this
/// rack, and which of its members give nothing.
pub fn table_text<R: Handlers>(
    alloc: Global,
    plan: &Plan,
    things: &[Thing],
    rack: &R,
) -> Result<Bytes, NoMemory>
    requires { AllByRecursion (λ t. IsValid (json_of t.tree)) things.now }
    ensures { IfOk result (λ text. text ≡ table.table_text plan.now (kept_things things.now) (kinds_of (R.slots rack.now))) }
{
    let rows = rows_of(alloc, &plan.slots, things, rack)?;
    let mut text = Bytes::new(alloc);
    put_rows(alloc, &mut text, rows.as_slice())?;
    put_unused(alloc, &mut text, rows.as_slice(), plan.slots.as_slice())?;
    put_unknown(alloc, &mut text, plan.unknown.as_slice())?;
    Ok(text)
}

/// Puts the lines of rows at the end.
fn put_rows(alloc: Global, text: &mut Bytes, rows: &[Row]) -> Result<(), NoMemory>
    ensures { OnOk result (text.new ≡ text.old ++ flat_map table.row_text rows.now) }
{
    for row in rows {
        let line = line_of(alloc, row)?;
        text.extend(line.as_slice())?;
    }
    Ok(())
}

/// The line of a row.
fn line_of(alloc: Global, row: &Row) -> Result<Bytes, NoMemory>
    ensures { IfOk result (λ line. line ≡ table.row_text row.now) }
{
    let mut line = quoted(alloc, row.segment.as_str())?;
    put_word(&mut line, kind_word(row.kind))?;
    put_quoted_word(alloc, &mut line, row.name.as_str())?;
    put_slot(&mut line, row.slot)?;
    put_word(&mut line, handler_word(row.handler))?;
    put_word(&mut line, observable_word(row.observable))?;
    put_word(&mut line, href_word(&row.name, &row.http))?;
    put_word(&mut line, href_word(&row.name, &row.coap))?;
    line.extend(b"\n")?;
    Ok(line)
}

/// The word for a kind of affordances.
fn kind_word(kind: Kind) -> &'static str
    ensures { result.now ≡ table.kind_word kind }
{
    match kind {
        Kind::Property => "property",
        Kind::Action => "action",
        Kind::Event => "event",
    }
}

/// The word for the handler that may be in a slot.
fn handler_word(handler: Option<Kind>) -> &'static str
    ensures { result.now ≡ table.word_or_hyphen (option_map table.kind_word handler) }
{
    match handler {
        Some(kind) => kind_word(kind),
        None => "-",
    }
}

/// The word for a property that can be observed.
fn observable_word(observable: bool) -> &'static str
    ensures { result.now ≡ table.observable_word observable }
{
    if observable { "observable" } else { "-" }
}

/// The word for the first `href` of an affordance of this name, which no URL may lead to.
fn href_word<'a>(name: &Text, href: &'a Option<Text>) -> &'a str
    ensures { result.now ≡ table.href_word name.now href.now }
{
    match href {
        Some(_) if is_dot_segment(name.as_str()) => "unreachable",
        Some(href) => href.as_str(),
        None => "-",
    }
}

/// The URL Standard takes a segment of this name out of a path.
fn is_dot_segment(name: &str) -> bool
    ensures { result ≡ table.is_dot_segment name.now }
{
    name == "." || name == ".."
}

/// Puts the slot that an affordance may have as a further word at the end.
fn put_slot(text: &mut Bytes, slot: Option<usize>) -> Result<(), NoMemory>
    ensures { OnOk result (text.new ≡ text.old ++ table.next_word (table.word_or_hyphen (option_map decimal slot))) }
{
    match slot {
        Some(slot) => put_number_word(text, slot),
        None => put_word(text, "-"),
    }
}

/// Puts a line at the end for each member that no plan has.
fn put_unknown(alloc: Global, text: &mut Bytes, names: &[Text]) -> Result<(), NoMemory>
    ensures { OnOk result (text.new ≡ text.old ++ flat_map table.unknown_line names.now) }
{
    for name in names {
        put_unknown_line(alloc, text, name)?;
    }
    Ok(())
}

/// Puts the line on a member at the end.
fn put_unknown_line(alloc: Global, text: &mut Bytes, name: &Text) -> Result<(), NoMemory>
    ensures { OnOk result (text.new ≡ text.old ++ table.unknown_line name.now) }
{
    text.extend(b"unknown ")?;
    put_quoted(alloc, text, name.as_str())?;
    text.extend(b"\n")
}

/// Puts a further word at the end.
fn put_word(text: &mut Bytes, word: &str) -> Result<(), NoMemory>
    ensures { OnOk result (text.new ≡ text.old ++ table.next_word word.now) }
{
    text.extend(b" ")?;
    text.extend(word.as_bytes())
}

/// Puts a number as a further word at the end.
pub(crate) fn put_number_word(text: &mut Bytes, number: usize) -> Result<(), NoMemory>
    ensures { OnOk result (text.new ≡ text.old ++ table.next_word (decimal number)) }
{
    text.extend(b" ")?;
    put_number(text, number)
}

/// Puts a JSON text as a further word at the end.
pub(crate) fn put_quoted_word(alloc: Global, text: &mut Bytes, word: &str) -> Result<(), NoMemory>
    ensures { OnOk result (text.new ≡ text.old ++ table.next_word (json_string word.now)) }
{
    text.extend(b" ")?;
    put_quoted(alloc, text, word)
}

/// Puts the JSON text of a text at the end.
pub(crate) fn put_quoted(alloc: Global, text: &mut Bytes, word: &str) -> Result<(), NoMemory>
    ensures { OnOk result (text.new ≡ text.old ++ json_string word.now) }
{
    let word = quoted(alloc, word)?;
    text.extend(word.as_slice())
}
