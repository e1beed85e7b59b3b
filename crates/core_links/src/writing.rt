//! Writing links into a caller's slice (RFC 6690, section 2).

ghost use Rattle.std.specs.Prelude.{◌≡◌, ◌↔◌, ◌≤◌, [], ◌∷◌, ◌++◌, length, IsTrue, true};
ghost use Rattle.std.specs.List.{flat_map, list_all};
ghost use Rattle.std.specs.Char.{is_ascii_digit};
ghost use Rattle.servient_base.specs.Writing.{PutsIfRoom};
ghost use Rattle.core_links.specs.Links.{is_escaped};
ghost use Rattle.core_links.specs.Writing.{quoted_byte, quoted, are_digits, value_text, set_text, param_text, link_text, further_text, links_text};

use crate::{Link, Links, Param};
use servient_base::put_piece;
use wot_json::Bytes;

/// Writes links at the front of `out`, and returns the length of their text; None where that is longer than `out`.
///
/// Values of one digit or more and nothing else are written as they are, all others in quotes; there are no spaces. The
/// text can be read back where targets and names are of the grammar, and values have no byte below 32
/// (`links_are_read_back`).
pub fn write(links: &Links, out: &mut [u8]) -> Option<usize>
    ensures { PutsIfRoom (links_text links.now) 0 out.old out.new result }
{
    match links.as_slice().split_first() {
        None => Some(0),
        Some((first, rest)) => put_links(first, rest, out),
    }
}

/// Writes one link or more.
fn put_links(first: &Link, rest: &[Link], out: &mut [u8]) -> Option<usize>
    ensures { PutsIfRoom (link_text first.now ++ flat_map further_text rest.now) 0 out.old out.new result }
{
    let at = put_link(first, out, 0)?;
    put_further(rest, out, at)
}

/// Writes links after others.
fn put_further(links: &[Link], out: &mut [u8], at: usize) -> Option<usize>
    requires { at ≤ length out.old }
    ensures { PutsIfRoom (flat_map further_text links.now) at out.old out.new result }
{
    let mut end = at;
    for link in links {
        // A match and not `?`, since that gives the proof of the loop facts on `ControlFlow` alone.
        match put_further_link(link, out, end) {
            Some(next) => end = next,
            None => return None,
        }
    }
    Some(end)
}

/// Writes a link after others.
fn put_further_link(link: &Link, out: &mut [u8], at: usize) -> Option<usize>
    requires { at ≤ length out.old }
    ensures { PutsIfRoom (further_text link.now) at out.old out.new result }
{
    let at = put_piece(out, at, b",")?;
    put_link(link, out, at)
}

/// Writes a link.
fn put_link(link: &Link, out: &mut [u8], at: usize) -> Option<usize>
    requires { at ≤ length out.old }
    ensures { PutsIfRoom (link_text link.now) at out.old out.new result }
{
    let at = put_target(link.target.as_slice(), out, at)?;
    put_params(link.params.as_slice(), out, at)
}

/// Writes a target.
fn put_target(target: &[u8], out: &mut [u8], at: usize) -> Option<usize>
    requires { at ≤ length out.old }
    ensures { PutsIfRoom (60 ∷ target.now ++ 62 ∷ []) at out.old out.new result }
{
    let at = put_piece(out, at, b"<")?;
    let at = put_piece(out, at, target)?;
    put_piece(out, at, b">")
}

/// Writes the parameters of a link.
fn put_params(params: &[Param], out: &mut [u8], at: usize) -> Option<usize>
    requires { at ≤ length out.old }
    ensures { PutsIfRoom (flat_map param_text params.now) at out.old out.new result }
{
    let mut end = at;
    for param in params {
        match put_param(param, out, end) {
            Some(next) => end = next,
            None => return None,
        }
    }
    Some(end)
}

/// Writes a parameter.
fn put_param(param: &Param, out: &mut [u8], at: usize) -> Option<usize>
    requires { at ≤ length out.old }
    ensures { PutsIfRoom (param_text param.now) at out.old out.new result }
{
    let at = put_piece(out, at, b";")?;
    let at = put_piece(out, at, param.name.as_slice())?;
    put_set(param, out, at)
}

/// Writes the value of a parameter, if it has one.
fn put_set(param: &Param, out: &mut [u8], at: usize) -> Option<usize>
    requires { at ≤ length out.old }
    ensures { PutsIfRoom (set_text param.now.value) at out.old out.new result }
{
    match &param.value {
        None => Some(at),
        Some(value) => put_value(value.as_slice(), out, at),
    }
}

/// Writes a value after its `=`.
fn put_value(value: &[u8], out: &mut [u8], at: usize) -> Option<usize>
    requires { at ≤ length out.old }
    ensures { PutsIfRoom (61 ∷ value_text value.now) at out.old out.new result }
{
    let at = put_piece(out, at, b"=")?;
    if has_digits_alone(value) {
        put_piece(out, at, value)
    } else {
        put_quoted(value, out, at)
    }
}

/// There is a digit, and nothing but digits.
fn has_digits_alone(value: &[u8]) -> bool
    ensures { result ≡ are_digits value.now }
{
    !value.is_empty() && are_all_digits(value)
}

/// There is nothing but digits.
fn are_all_digits(value: &[u8]) -> bool
    ensures { result ≡ list_all is_ascii_digit value.now }
{
    value.iter().all(|byte| byte.is_ascii_digit())
}

/// Writes a value in quotes.
fn put_quoted(value: &[u8], out: &mut [u8], at: usize) -> Option<usize>
    requires { at ≤ length out.old }
    ensures { PutsIfRoom (quoted value.now) at out.old out.new result }
{
    let at = put_piece(out, at, b"\"")?;
    let at = put_bytes(value, out, at)?;
    put_piece(out, at, b"\"")
}

/// Writes the bytes of a value between its quotes.
fn put_bytes(value: &[u8], out: &mut [u8], at: usize) -> Option<usize>
    requires { at ≤ length out.old }
    ensures { PutsIfRoom (flat_map quoted_byte value.now) at out.old out.new result }
{
    let mut end = at;
    for byte in value {
        match put_byte(*byte, out, end) {
            Some(next) => end = next,
            None => return None,
        }
    }
    Some(end)
}

/// Writes a byte between quotes.
fn put_byte(byte: u8, out: &mut [u8], at: usize) -> Option<usize>
    requires { at ≤ length out.old }
    ensures { PutsIfRoom (quoted_byte byte) at out.old out.new result }
{
    match byte {
        b'"' | b'\\' => put_piece(out, at, &[b'\\', byte]),
        _ => put_piece(out, at, &[byte]),
    }
}
