//! The value of the content of a device's file, and the text that is written of a value.

ghost use Rattle.std.specs.Prelude.{◌≡◌, IfOk};
ghost use Rattle.wot_json.specs.Json.{json_text};
ghost use Rattle.file_devices.specs.Values.{ComesTo, Says, input_written, text_written, trimmed as trimmed_of};

use crate::{FileFault, Notation};
use servient_base::NoMemory;
use std::alloc::{AllocError, Global};
use std::str;
use wot_json::{Bytes, ReadFault, Text, Tree, read, text_of};

/// The most bytes that a content may have, and the JSON text of its value.
pub const LONGEST: usize = 1024;

/// The value that a content of at most `LONGEST` bytes says.

pub fn value_in(
    alloc: Global,
    way: Notation,
    content: &[u8],
) -> Result<Result<Tree, FileFault>, NoMemory>
    ensures { IfOk result (λ found. ComesTo way content.now found) }
{
    let value = match said(alloc, way, trimmed(content))? {
        Some(value) => value,
        None => return Ok(Err(FileFault::NoValue)),
    };
    if text_of(alloc, &value)?.len() > LONGEST {
        return Ok(Err(FileFault::TooLong));
    }
    Ok(Ok(value))
}

/// A content without the blanks and line ends around it.
pub fn trimmed(content: &[u8]) -> &[u8]
    ensures { result.now ≡ trimmed_of content.now }
{
    content.trim_ascii()
}

/// The value that a trimmed content says.
fn said(alloc: Global, way: Notation, content: &[u8]) -> Result<Option<Tree>, NoMemory>
    ensures { IfOk result (Says way content.now) }
{
    match way {
        Notation::Json => match read(alloc, content) {
            Ok(value) => Ok(Some(value)),
            Err(ReadFault::NoMemory) => Err(AllocError),
            Err(_) => Ok(None),
        },
        Notation::Text => match str::from_utf8(content) {
            Ok(text) => Ok(Some(Tree::Text(Text::copy_of(alloc, text)?))),
            Err(_) => Ok(None),
        },
    }
}

/// The text that is written of a value.
pub fn written_text(alloc: Global, way: Notation, value: &Tree) -> Result<Option<Bytes>, NoMemory>
    ensures { IfOk result (λ text. text ≡ text_written way value.now) }
{
    match (way, value) {
        (Notation::Json, value) => Ok(Some(text_of(alloc, value)?)),
        (Notation::Text, Tree::Text(text)) => {
            Ok(Some(Bytes::copy_of(alloc, text.as_str().as_bytes())?))
        }
        (Notation::Text, _) => Ok(None),
    }
}

/// The text that is written of an input.
pub fn written_input(
    alloc: Global,
    way: Notation,
    input: &Option<Tree>,
) -> Result<Option<Bytes>, NoMemory>
    ensures { IfOk result (λ text. text ≡ input_written way input.now) }
{
    match input {
        Some(value) => written_text(alloc, way, value),
        None => Ok(Some(Bytes::new(alloc))),
    }
}
