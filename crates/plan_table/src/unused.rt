//! The lines on entries of `slots` that no affordance has.

ghost use Rattle.std.specs.Prelude.{◌≡◌, ◌++◌, [], IfOk, OnOk, if◌then◌else◌};
ghost use Rattle.std.specs.List.{list_any};
ghost use Rattle.plan_table.specs.Table as table;

use crate::Row;
use crate::text::{put_number_word, put_quoted, put_quoted_word};
use servient_base::NoMemory;
use std::alloc::Global;
use wot_json::{Bytes, Text};

/// An entry of `slots`: the segment of a Thing, a pointer and a slot.
type Entry = (Text, Text, usize);

/// Puts a line at the end for each entry that no affordance has.
pub(crate) fn put_unused(
    alloc: Global,
    text: &mut Bytes,
    rows: &[Row],
    entries: &[Entry],
) -> Result<(), NoMemory>
    ensures { OnOk result (text.new ≡ text.old ++ table.unused_text rows.now [] entries.now) }
{
    for index in 0..entries.len() {
        put_if_unused(alloc, text, rows, &entries[..index], &entries[index])?;
    }
    Ok(())
}

/// Puts the line on an entry at the end, where no affordance has it; these entries are before it.
fn put_if_unused(
    alloc: Global,
    text: &mut Bytes,
    rows: &[Row],
    earlier: &[Entry],
    entry: &Entry,
) -> Result<(), NoMemory>
    ensures { OnOk result (text.new ≡ text.old ++ (if table.is_used rows.now earlier.now entry.now then [] else table.unused_line entry.now)) }
{
    if is_used(rows, earlier, entry) {
        return Ok(());
    }
    let line = unused_line(alloc, entry)?;
    text.extend(line.as_slice())
}

/// The line on an entry that no affordance has.
fn unused_line(alloc: Global, entry: &Entry) -> Result<Bytes, NoMemory>
    ensures { IfOk result (λ line. line ≡ table.unused_line entry.now) }
{
    let mut line = Bytes::copy_of(alloc, b"unused slot ")?;
    put_quoted(alloc, &mut line, entry.0.as_str())?;
    put_quoted_word(alloc, &mut line, entry.1.as_str())?;
    put_number_word(&mut line, entry.2)?;
    line.extend(b"\n")?;
    Ok(line)
}

/// The entry gives an affordance its slot.
fn is_used(rows: &[Row], earlier: &[Entry], entry: &Entry) -> bool
    ensures { result ≡ table.is_used rows.now earlier.now entry.now }
{
    has_affordance(rows, entry) && !is_repeated(earlier, entry)
}

/// The entry is for one of these affordances.
fn has_affordance(rows: &[Row], entry: &Entry) -> bool
    ensures { result ≡ list_any (table.is_for entry.now) rows.now }
{
    for row in rows {
        if is_for(entry, row) {
            return true;
        }
    }
    false
}

/// One of these entries is for the same affordance.
fn is_repeated(earlier: &[Entry], entry: &Entry) -> bool
    ensures { result ≡ list_any (table.is_for_the_same entry.now) earlier.now }
{
    for other in earlier {
        if is_for_the_same(entry, other) {
            return true;
        }
    }
    false
}

/// The entry is for this affordance.
fn is_for(entry: &Entry, row: &Row) -> bool
    ensures { result ≡ table.is_for entry.now row.now }
{
    entry.0.as_str() == row.segment.as_str() && entry.1.as_str() == row.pointer.as_str()
}

/// Both entries are for one affordance.
fn is_for_the_same(entry: &Entry, other: &Entry) -> bool
    ensures { result ≡ table.is_for_the_same entry.now other.now }
{
    entry.0.as_str() == other.0.as_str() && entry.1.as_str() == other.1.as_str()
}
