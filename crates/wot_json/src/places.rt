//! The texts of places in a value: JSON Pointers (RFC 6901), each grown from that of the place above.
//!
//! The pointer to the whole value is the empty text.

ghost use Rattle.std.specs.Prelude.{◌≡◌, ◌++◌, codes, IfOk, OnOk, string_bytes};
ghost use Rattle.std.specs.Char.{encode_utf8};
ghost use Rattle.wot_json.specs.Places.{token_text, index_text, step_text, element_step_text};

use crate::Text;
use itoa::Buffer;
use servient_base::NoMemory;
use std::alloc::Global;

/// The place of a member of the object at `place`: `/` and its name go after that, `~` written
/// as `~0` and `/` as `~1` (RFC 6901, section 3). Its time is in proportion to the length of the result.
pub fn below(alloc: Global, place: &str, name: &str) -> Result<Text, NoMemory>
    ensures { IfOk result (λ t. t ≡ place.now ++ codes "/" ++ token_text name.now) }
{
    let mut text = String::from_str(alloc, place)?;
    push_step(&mut text, name)?;
    Ok(Text::from_string(text))
}

/// The place of an element of the list at `place`: `/` and its index, counted from 0, go after
/// that (RFC 6901, section 4).
pub fn below_index(alloc: Global, place: &str, index: usize) -> Result<Text, NoMemory>
    ensures { IfOk result (λ t. t ≡ place.now ++ codes "/" ++ index_text index) }
{
    let mut buffer = Buffer::new();
    let mut text = String::from_str(alloc, place)?;
    text.push_str("/")?;
    text.push_str(buffer.format(index))?;
    Ok(Text::from_string(text))
}

/// The place that is reached through the member of this name, and from there by `rest`. A walk that finds something on
/// its way down makes the pointer to it on its way back, one step for each value around it, because nothing is made
/// then for a value in which nothing is found.
pub fn through_member(alloc: Global, name: &str, rest: &str) -> Result<Text, NoMemory>
    ensures { IfOk result (λ t. t ≡ step_text name.now ++ rest.now) }
{
    let mut text = String::new(alloc);
    push_step(&mut text, name)?;
    text.push_str(rest)?;
    Ok(Text::from_string(text))
}

/// The place that is reached through the element of this index, counted from 0, and from there by `rest`.
pub fn through_element(alloc: Global, index: usize, rest: &str) -> Result<Text, NoMemory>
    ensures { IfOk result (λ t. t ≡ element_step_text index ++ rest.now) }
{
    let mut buffer = Buffer::new();
    let mut text = String::new(alloc);
    text.push_str("/")?;
    text.push_str(buffer.format(index))?;
    text.push_str(rest)?;
    Ok(Text::from_string(text))
}

/// Puts `/` and a token at the end of a pointer.
pub(crate) fn push_step(pointer: &mut String, token: &str) -> Result<(), NoMemory>
    ensures { OnOk result (string_bytes pointer.new ≡ string_bytes pointer.old ++ step_text token.now) }
{
    pointer.push_str("/")?;
    for character in token.chars() {
        push_escaped(pointer, character)?;
    }
    Ok(())
}

/// Puts a character of a token at the end of a pointer.
fn push_escaped(pointer: &mut String, character: char) -> Result<(), NoMemory>
    ensures { OnOk result
        (string_bytes pointer.new ≡ string_bytes pointer.old ++ token_text (encode_utf8 character)) }
{
    match character {
        '~' => pointer.push_str("~0"),
        '/' => pointer.push_str("~1"),
        _ => pointer.push(character),
    }
}
