//! The text of a tree: into a caller's slice, or as bytes of its own.

ghost use Rattle.std.specs.Prelude.{◌≡◌, ◌≤◌, ◌<◌, length, drop, ◌++◌, ◌↔◌, IfSome, IsNone, IfOk};
ghost use Rattle.std.specs.List.{flat_map};
ghost use Rattle.wot_json.specs.Json.{json_text, json_string, escaped_byte, hex_digit as digit_of, text_of as text_of_value, field_text, further_element, further_field};
ghost use Rattle.wot_json.specs.Tree.{array, object, elements_of, members_of};
ghost use Rattle.servient_base.specs.Writing.{PutsIfRoom};

use crate::{Bytes, Items, Members, Text, Tree};
use itoa::Buffer;
use servient_base::{NoMemory, put_piece};
use std::alloc::{AllocError, Global};

/// The bytes for which there is room at first.
const FIRST_ROOM: usize = 64;

/// Writes the text of a tree to the beginning of `out`, and returns its length. It takes no memory, and its time
/// is in proportion to that length. There is no answer where the text is longer than `out`; part of it may then have
/// been written.
pub fn write(tree: &Tree, out: &mut [u8]) -> Option<usize>
    ensures ok { IfSome result (λ n. (n ≡ length (json_text tree.now))
        × (out.new ≡ json_text tree.now ++ drop n out.old)) }
    ensures no_room { IsNone result ↔ (length out.old < length (json_text tree.now)) }
{
    put_tree(tree, out, 0)
}

/// The text of a tree. It is written into room that is doubled until the text fits, so that texts are written by one
/// function and none has to be measured first.
pub fn text_of(alloc: Global, tree: &Tree) -> Result<Bytes, NoMemory>
    ensures { IfOk result (λ b. b ≡ json_text tree.now) }
{
    let mut size = FIRST_ROOM;
    loop {
        let mut room = vec![in alloc; 0u8; size]?;
        if let Some(count) = write(tree, room.as_mut_slice()) {
            room.truncate(count);
            return Ok(Bytes::from_vec(room));
        }
        match size.checked_mul(2) {
            Some(double) => size = double,
            None => return Err(AllocError),
        }
    }
}

/// The JSON text of a text (RFC 8259, section 7): in quotation marks, with escapes where they are needed.
pub fn quoted(alloc: Global, text: &str) -> Result<Bytes, NoMemory>
    ensures { IfOk result (λ b. b ≡ json_string text.now) }
{
    let tree = Tree::Text(Text::copy_of(alloc, text)?);
    text_of(alloc, &tree)
}

/// The length of the JSON text of a text (RFC 8259, section 7), where it is at most `most`. It takes no memory,
/// and stops as soon as `most` is passed.
pub fn quoted_length(text: &str, most: usize) -> Option<usize>
    ensures ok { IfSome result (λ n. n ≡ length (json_string text.now)) }
    ensures no_room { IsNone result ↔ (most < length (json_string text.now)) }
{
    if most < 2 {
        return None;
    }
    let mut left = most - 2;
    for byte in text.as_bytes() {
        let length = escaped_length(*byte);
        if left < length {
            return None;
        }
        left -= length;
    }
    Some(most - left)
}

/// The number of bytes that are written for one byte of a text.
fn escaped_length(byte: u8) -> usize
    ensures { result ≡ length (escaped_byte byte) }
{
    match byte {
        b'"' | b'\\' | 8 | b'\t' | b'\n' | 12 | b'\r' => 2,
        0..=31 => 6,
        _ => 1,
    }
}

/// Writes one byte of a text, escaped where it needs to be.
fn put_escaped(out: &mut [u8], at: usize, byte: u8) -> Option<usize>
    requires { at ≤ length out.old }
    ensures { PutsIfRoom (escaped_byte byte) at out.old out.new result }
{
    match byte {
        b'"' => put_piece(out, at, b"\\\""),
        b'\\' => put_piece(out, at, b"\\\\"),
        8 => put_piece(out, at, b"\\b"),
        b'\t' => put_piece(out, at, b"\\t"),
        b'\n' => put_piece(out, at, b"\\n"),
        12 => put_piece(out, at, b"\\f"),
        b'\r' => put_piece(out, at, b"\\r"),
        0..=31 => {
            let digits = [hex_digit(byte / 16), hex_digit(byte % 16)];
            put_piece(out, at, &[b'\\', b'u', b'0', b'0', digits[0], digits[1]])
        }
        _ => put_piece(out, at, &[byte]),
    }
}

/// Writes the text of a text.
fn put_string(text: &Text, out: &mut [u8], at: usize) -> Option<usize>
    requires { at ≤ length out.old }
    ensures { PutsIfRoom (json_string text.now) at out.old out.new result }
{
    let at = put_piece(out, at, b"\"")?;
    let at = put_all_escaped(text.as_str().as_bytes(), out, at)?;
    put_piece(out, at, b"\"")
}

/// Writes the bytes of a text, each escaped where it needs to be.
fn put_all_escaped(bytes: &[u8], out: &mut [u8], at: usize) -> Option<usize>
    requires { at ≤ length out.old }
    ensures { PutsIfRoom (flat_map escaped_byte bytes.now) at out.old out.new result }
{
    let mut end = at;
    for byte in bytes {
        // A match and not `?`, since that gives the proof of the loop facts on `ControlFlow` alone.
        match put_escaped(out, end, *byte) {
            Some(next) => end = next,
            None => return None,
        }
    }
    Some(end)
}

/// Writes the text of a tree.
#[cycle(put)]
fn put_tree(tree: &Tree, out: &mut [u8], at: usize) -> Option<usize>
    requires { at ≤ length out.old }
    ensures { PutsIfRoom (json_text tree.now) at out.old out.new result }
{
    match tree {
        Tree::Null => put_piece(out, at, b"null"),
        Tree::Bool(true) => put_piece(out, at, b"true"),
        Tree::Bool(false) => put_piece(out, at, b"false"),
        Tree::Int(number) => {
            let mut buffer = Buffer::new();
            put_piece(out, at, buffer.format(*number).as_bytes())
        }
        Tree::Text(text) => put_string(text, out, at),
        Tree::List(items) => put_items(items, out, at),
        Tree::Obj(members) => put_members(members, out, at),
    }
}

/// Writes the text of a list: the first element, and each further one after a comma.
#[cycle(put)]
fn put_items(items: &Items, out: &mut [u8], at: usize) -> Option<usize>
    requires { at ≤ length out.old }
    ensures { PutsIfRoom (text_of_value (array (elements_of items.now))) at out.old out.new result }
{
    match items.list.split_first() {
        None => put_piece(out, at, b"[]"),
        Some((first, others)) => {
            let at = put_piece(out, at, b"[")?;
            let at = put_tree(first, out, at)?;
            let at = put_further_elements(others, out, at)?;
            put_piece(out, at, b"]")
        }
    }
}

/// Writes a comma and an element, for each.
#[cycle(put)]
fn put_further_elements(items: &[Tree], out: &mut [u8], at: usize) -> Option<usize>
    requires { at ≤ length out.old }
    ensures { PutsIfRoom (flat_map further_element items.now) at out.old out.new result }
{
    let mut end = at;
    for item in items {
        match put_further_element(item, out, end) {
            Some(next) => end = next,
            None => return None,
        }
    }
    Some(end)
}

/// Writes a comma and an element.
#[cycle(put)]
fn put_further_element(item: &Tree, out: &mut [u8], at: usize) -> Option<usize>
    requires { at ≤ length out.old }
    ensures { PutsIfRoom (further_element item.now) at out.old out.new result }
{
    let at = put_piece(out, at, b",")?;
    put_tree(item, out, at)
}

/// Writes the text of an object: the first member, and each further one after a comma.
#[cycle(put)]
fn put_members(members: &Members, out: &mut [u8], at: usize) -> Option<usize>
    requires { at ≤ length out.old }
    ensures { PutsIfRoom (text_of_value (object (members_of members.now))) at out.old out.new result }
{
    match members.list.split_first() {
        None => put_piece(out, at, b"{}"),
        Some(((name, value), others)) => {
            let at = put_piece(out, at, b"{")?;
            let at = put_field(name, value, out, at)?;
            let at = put_further_fields(others, out, at)?;
            put_piece(out, at, b"}")
        }
    }
}

/// Writes a comma and a member, for each.
#[cycle(put)]
fn put_further_fields(fields: &[(Text, Tree)], out: &mut [u8], at: usize) -> Option<usize>
    requires { at ≤ length out.old }
    ensures { PutsIfRoom (flat_map further_field fields.now) at out.old out.new result }
{
    let mut end = at;
    for (name, value) in fields {
        match put_further_field(name, value, out, end) {
            Some(next) => end = next,
            None => return None,
        }
    }
    Some(end)
}

/// Writes a comma and a member.
#[cycle(put)]
fn put_further_field(name: &Text, value: &Tree, out: &mut [u8], at: usize) -> Option<usize>
    requires { at ≤ length out.old }
    ensures { PutsIfRoom (further_field (name.now, value.now)) at out.old out.new result }
{
    let at = put_piece(out, at, b",")?;
    put_field(name, value, out, at)
}

/// Writes a member: its name, a colon and its value.
#[cycle(put)]
fn put_field(name: &Text, value: &Tree, out: &mut [u8], at: usize) -> Option<usize>
    requires { at ≤ length out.old }
    ensures { PutsIfRoom (field_text (name.now, value.now)) at out.old out.new result }
{
    let at = put_string(name, out, at)?;
    let at = put_piece(out, at, b":")?;
    put_tree(value, out, at)
}

/// The lower-case hexadecimal digit of a number below 16.
fn hex_digit(number: u8) -> u8
    requires { number < 16 }
    ensures { result ≡ digit_of number }
{
    if number < 10 {
        b'0' + number
    } else {
        b'a' + (number - 10)
    }
}
