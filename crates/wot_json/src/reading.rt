//! Reading a JSON text (RFC 8259) as a tree.
//!
//! `serde_json` reads the text. Its value becomes the tree where it nests at most `MAX_DEPTH` deep and its numbers
//! are whole and have 64 bits with sign. Texts and names move from the one into the other.

ghost use Rattle.std.specs.Prelude.{◌≡◌, ◌≢◌, ◌≤◌, ◌↔◌, ◌++◌, List, ℕ, Some, None, Err, IfOk, IfErr, IsTrue, string_bytes};
ghost use Rattle.serde_json.specs.Data.{depth, items_depth, members_depth};
ghost use Rattle.serde_json.specs.View.{view, items_view, members_view};
ghost use Rattle.wot_json.specs.Faults.{HasReadFault, NamesFirst};
ghost use Rattle.wot_json.specs.Meaning.{json_of};
ghost use Rattle.wot_json.specs.Places.{index_text, step_text};
ghost use Rattle.wot_json.specs.Reading.{value_of, tree_of, tree_of_value, tree_of_items, tree_of_members, places_below, wrong_numbers, wrong_in_items, wrong_in_members, IsTooDeep, IsFirstWrong};
ghost use Rattle.wot_json.specs.Tree.{elements_of, members_of};

use crate::{Items, Members, Text, Tree, through_element, through_member};
use serde_json::{Map, Value};
use std::alloc::{AllocError, Global};
use thiserror::Error;

/// The most levels that lists and objects may nest. One that is empty counts 1.
pub const MAX_DEPTH: u8 = 64;

/// The reason for which bytes are no tree.
#[derive(Debug, Drop, Error)]
pub enum ReadFault {
    /// The bytes are not one JSON text in UTF-8 (RFC 8259, sections 2 and 8.1).
    #[error("the bytes are no JSON text")]
    NotJson,
    /// Lists and objects nest more than `MAX_DEPTH` deep.
    #[error("lists and objects nest more than {MAX_DEPTH} deep")]
    TooDeep,
    /// A number isn't whole or needs more than 64 bits with sign; the pointer (RFC 6901) to the first one. `-0`, `1e2`
    /// and `1.0` aren't whole here (docs/DECISIONS.md, "JSON").
    #[error("the number at `{0}` is not whole or needs more than 64 bits with sign")]
    NotInteger(Text),
    /// Out of memory.
    #[error("out of memory")]
    NoMemory,
}

impl From<AllocError> for ReadFault {
    ghost use Rattle.std.specs.Prelude.{◌≡◌};
    ghost use Rattle.wot_json.specs.declared.reading.ReadFault.TheVariants.{NoMemory};

    ghost from_gives = { λ _ fault. fault ≡ NoMemory };

    fn from(_error: AllocError) -> ReadFault {
        ReadFault::NoMemory
    }
}

/// The tree of a JSON text. Of members with one name the last counts.
///
/// A text that is no JSON is refused first, one that nests too deep next, and then the first wrong number, a list
/// in the order of its elements and an object in the byte order of its names, is named. A number or a depth in a
/// member that a later one of its name replaces doesn't count.
///
/// Its time is in proportion to the length of the text, but for ordering the n members of an object, which takes
/// n log n comparisons of names.
pub fn read(alloc: Global, bytes: &[u8]) -> Result<Tree, ReadFault>
    ensures ok { IfOk result (λ t. tree_of bytes.now ≡ Some (json_of t)) }
    ensures complete { IfErr result (λ f. f ≢ ReadFault.NoMemory → tree_of bytes.now ≡ None) }
    ensures fault { IfErr result (HasReadFault bytes.now) }
{
    let value = parse(alloc, bytes)?;
    // The depth is judged before the numbers, in a pass of its own, because of two faults the same one is named then
    // wherever they are.
    if !nests_within(&value, MAX_DEPTH) {
        return Err(ReadFault::TooDeep);
    }
    convert(alloc, value)
}

/// The value of a JSON text.
fn parse(alloc: Global, bytes: &[u8]) -> Result<Value, ReadFault>
    ensures ok { IfOk result (λ v. value_of bytes.now ≡ Some (view v)) }
    ensures fault { IfErr result (HasReadFault bytes.now) }
{
    match Value::from_slice(alloc, bytes) {
        Ok(value) => Ok(value),
        Err(error) if error.is_memory() => Err(ReadFault::NoMemory),
        Err(_) => Err(ReadFault::NotJson),
    }
}

/// Lists and objects nest at most this many levels deep.
#[cycle(nests)]
fn nests_within(value: &Value, levels: u8) -> bool
    ensures { IsTrue result ↔ (depth (view value.now) ≤ levels) }
{
    match value {
        Value::Array(items) => levels > 0 && items_nest_within(items, levels - 1),
        Value::Object(members) => levels > 0 && members_nest_within(members, levels - 1),
        Value::Null | Value::Bool(_) | Value::Number(_) | Value::String(_) => true,
    }
}

#[cycle(nests)]
fn items_nest_within(items: &[Value], levels: u8) -> bool
    ensures { IsTrue result ↔ (items_depth (items_view items.now) ≤ levels) }
{
    for item in items {
        if !nests_within(item, levels) {
            return false;
        }
    }
    true
}

#[cycle(nests)]
fn members_nest_within(members: &Map<String, Value>, levels: u8) -> bool
    ensures { IsTrue result ↔ (members_depth (members_view members.now.entries) ≤ levels) }
{
    for (_name, member) in members.iter() {
        if !nests_within(member, levels) {
            return false;
        }
    }
    true
}

/// The tree of a value.
#[cycle(convert)]
fn convert(alloc: Global, value: Value) -> Result<Tree, ReadFault>
    ensures ok { IfOk result (λ t. tree_of_value (view value) ≡ Some (json_of t)) }
    ensures fault { IfErr result (NamesFirst (wrong_numbers (view value))) }
{
    match value {
        Value::Null => Ok(Tree::Null),
        Value::Bool(truth) => Ok(Tree::Bool(truth)),
        Value::Number(number) => match number.as_i64() {
            Some(number) => Ok(Tree::Int(number)),
            None => Err(ReadFault::NotInteger(Text::from_string(String::new(alloc)))),
        },
        Value::String(text) => Ok(Tree::Text(Text::from_string(text))),
        Value::Array(items) => Ok(Tree::List(convert_items(alloc, items)?)),
        Value::Object(members) => Ok(Tree::Obj(convert_members(alloc, members)?)),
    }
}

#[cycle(convert)]
fn convert_items(alloc: Global, items: Vec<Value>) -> Result<Items, ReadFault>
    ensures ok { IfOk result (λ i. tree_of_items (items_view items.items) ≡ Some (elements_of i)) }
    ensures fault { IfErr result (NamesFirst (wrong_in_items 0 (items_view items.items))) }
{
    let mut elements = Items {
        list: Vec::with_capacity(alloc, items.len())?,
    };
    for item in items {
        match convert(alloc, item) {
            Ok(tree) => elements.push(tree)?,
            Err(fault) => return Err(below_element(alloc, elements.len(), fault)),
        }
    }
    Ok(elements)
}

#[cycle(convert)]
fn convert_members(alloc: Global, members: Map<String, Value>) -> Result<Members, ReadFault>
    ensures ok { IfOk result (λ m. tree_of_members (members_view members.entries) ≡ Some (members_of m)) }
    ensures fault { IfErr result (NamesFirst (wrong_in_members (members_view members.entries))) }
{
    let mut list = Vec::with_capacity(alloc, members.len())?;
    for (name, member) in members {
        match convert(alloc, member) {
            Ok(tree) => list
                .push((Text::from_string(name), tree))
                .map_err(AllocError::from)?,
            Err(fault) => return Err(below_member(alloc, name.as_str(), fault)),
        }
    }
    Ok(Members { list })
}

/// The fault of an element, with its place in the list.
fn below_element(alloc: Global, index: usize, fault: ReadFault) -> ReadFault
    ensures { (places : List (List (List ℕ))) → NamesFirst places fault
        → NamesFirst (places_below (index_text index) places) result }
{
    match fault {
        ReadFault::NotInteger(place) => match through_element(alloc, index, place.as_str()) {
            Ok(pointer) => ReadFault::NotInteger(pointer),
            Err(_) => ReadFault::NoMemory,
        },
        other => other,
    }
}

/// The fault of a member, with its place in the object.
fn below_member(alloc: Global, name: &str, fault: ReadFault) -> ReadFault
    ensures { (places : List (List (List ℕ))) → NamesFirst places fault
        → NamesFirst (places_below name.now places) result }
{
    match fault {
        ReadFault::NotInteger(place) => match through_member(alloc, name, place.as_str()) {
            Ok(pointer) => ReadFault::NotInteger(pointer),
            Err(_) => ReadFault::NoMemory,
        },
        other => other,
    }
}
