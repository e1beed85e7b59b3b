//! The text of a JSON tree, put into a buffer before an output. It takes no memory, of whatever length the text is, and its
//! time is in proportion to that length.

ghost use Rattle.std.specs.Prelude.{◌≡◌, ◌<◌};
ghost use Rattle.std.specs.List.{flat_map};
ghost use Rattle.wot_json.specs.Json.{json_text, json_string, escaped_byte, hex_digit as digit_of, text_of, field_text, further_element, further_field};
ghost use Rattle.wot_json.specs.Tree.{array, object, elements_of, members_of};
ghost use Rattle.wot_json.specs.Meaning.{json_items, json_members};
ghost use Rattle.turn_lines.specs.Buffer.{buffered_of, HasPut};

use crate::buffer::LineBuffer;
use servient_outside::Out;
use wot_json::{Text, Tree};

/// Puts the text of a tree (RFC 8259).
#[cycle(put)]
pub fn put_tree<O: Out>(tree: &Tree, lines: &mut LineBuffer, out: &mut O)
    ensures { HasPut (json_text tree.now) (buffered_of lines.old) (buffered_of lines.new) (O.seen out.old) (O.seen out.new) }
{
    match tree {
        Tree::Null => lines.push(out, b"null"),
        Tree::Bool(true) => lines.push(out, b"true"),
        Tree::Bool(false) => lines.push(out, b"false"),
        Tree::Int(number) => lines.push_number(out, *number),
        Tree::Text(text) => put_string(text.as_str().as_bytes(), lines, out),
        Tree::List(items) => put_items(items.as_slice(), lines, out),
        Tree::Obj(members) => put_members(members.as_slice(), lines, out),
    }
}

/// Puts a list: the first element, and each further one after a comma.
#[cycle(put)]
fn put_items<O: Out>(items: &[Tree], lines: &mut LineBuffer, out: &mut O)
    ensures { HasPut (text_of (array (elements_of (json_items items.now)))) (buffered_of lines.old) (buffered_of lines.new) (O.seen out.old) (O.seen out.new) }
{
    match items.split_first() {
        None => lines.push(out, b"[]"),
        Some((first, others)) => {
            lines.push(out, b"[");
            put_tree(first, lines, out);
            put_further_elements(others, lines, out);
            lines.push(out, b"]");
        }
    }
}

/// Puts a comma and an element, for each.
#[cycle(put)]
fn put_further_elements<O: Out>(items: &[Tree], lines: &mut LineBuffer, out: &mut O)
    ensures { HasPut (flat_map further_element items.now) (buffered_of lines.old) (buffered_of lines.new) (O.seen out.old) (O.seen out.new) }
{
    for item in items {
        lines.push(out, b",");
        put_tree(item, lines, out);
    }
}

/// Puts an object: the first member, and each further one after a comma.
#[cycle(put)]
fn put_members<O: Out>(members: &[(Text, Tree)], lines: &mut LineBuffer, out: &mut O)
    ensures { HasPut (text_of (object (members_of (json_members members.now)))) (buffered_of lines.old) (buffered_of lines.new) (O.seen out.old) (O.seen out.new) }
{
    match members.split_first() {
        None => lines.push(out, b"{}"),
        Some(((name, value), others)) => {
            lines.push(out, b"{");
            put_field(name, value, lines, out);
            put_further_fields(others, lines, out);
            lines.push(out, b"}");
        }
    }
}

/// Puts a comma and a member, for each.
#[cycle(put)]
fn put_further_fields<O: Out>(fields: &[(Text, Tree)], lines: &mut LineBuffer, out: &mut O)
    ensures { HasPut (flat_map further_field fields.now) (buffered_of lines.old) (buffered_of lines.new) (O.seen out.old) (O.seen out.new) }
{
    for (name, value) in fields {
        lines.push(out, b",");
        put_field(name, value, lines, out);
    }
}

/// Puts a member: its name, a colon and its value.
#[cycle(put)]
fn put_field<O: Out>(name: &Text, value: &Tree, lines: &mut LineBuffer, out: &mut O)
    ensures { HasPut (field_text (name.now, value.now)) (buffered_of lines.old) (buffered_of lines.new) (O.seen out.old) (O.seen out.new) }
{
    put_string(name.as_str().as_bytes(), lines, out);
    lines.push(out, b":");
    put_tree(value, lines, out);
}

/// Puts the JSON string of a text of these bytes.
fn put_string<O: Out>(bytes: &[u8], lines: &mut LineBuffer, out: &mut O)
    ensures { HasPut (json_string bytes.now) (buffered_of lines.old) (buffered_of lines.new) (O.seen out.old) (O.seen out.new) }
{
    lines.push(out, b"\"");
    put_all_escaped(bytes, lines, out);
    lines.push(out, b"\"");
}

/// Puts bytes, each escaped where it needs to be.
fn put_all_escaped<O: Out>(bytes: &[u8], lines: &mut LineBuffer, out: &mut O)
    ensures { HasPut (flat_map escaped_byte bytes.now) (buffered_of lines.old) (buffered_of lines.new) (O.seen out.old) (O.seen out.new) }
{
    for byte in bytes {
        put_escaped(*byte, lines, out);
    }
}

/// Puts a byte of a text, escaped where it needs to be.
fn put_escaped<O: Out>(byte: u8, lines: &mut LineBuffer, out: &mut O)
    ensures { HasPut (escaped_byte byte) (buffered_of lines.old) (buffered_of lines.new) (O.seen out.old) (O.seen out.new) }
{
    match byte {
        b'"' => lines.push(out, b"\\\""),
        b'\\' => lines.push(out, b"\\\\"),
        8 => lines.push(out, b"\\b"),
        b'\t' => lines.push(out, b"\\t"),
        b'\n' => lines.push(out, b"\\n"),
        12 => lines.push(out, b"\\f"),
        b'\r' => lines.push(out, b"\\r"),
        0..=31 => {
            let digits = [hex_digit(byte / 16), hex_digit(byte % 16)];
            lines.push(out, &[b'\\', b'u', b'0', b'0', digits[0], digits[1]]);
        }
        _ => lines.push(out, &[byte]),
    }
}

/// The lower-case hexadecimal digit of a number below 16.
fn hex_digit(number: u8) -> u8
    requires { number < 16 }
    ensures { result ≡ digit_of number }
{
    if number < 10 {
        b'0' + number
    } else {
        b'a' + (number - 10)
    }
}
