//! The parts of a command: texts, numbers and names, each as the words give it.

ghost use Rattle.std.specs.Prelude.{◌≡◌, ◌≤◌, Some, None, option_and_then};
ghost use Rattle.std.specs.Option.{option_map_or};
ghost use Rattle.servient_base.specs.HostPorts.{point_in as point_of};
ghost use Rattle.command_words.specs.Grammar.{file_of, is_file_name as names_file, name_of, number_between, operation_of, scheme_of};
ghost use Rattle.command_words.specs.Parts.{Reads, text_in};

use crate::command::Operation;
use crate::fault::WordsFault;
use servient_base::{parse_decimal, point_in};
use std::alloc::Global;
use wot_forms::Scheme;
use wot_json::Text;

/// The text of a word that has to be there.
pub fn required(alloc: Global, word: Option<&str>) -> Result<Text, WordsFault>
    ensures { Reads (text_in word.entry) result }
{
    match word {
        Some(text) => Ok(Text::copy_of(alloc, text)?),
        None => Err(WordsFault::Usage),
    }
}

/// The text of a word that may be there.
pub fn optional(alloc: Global, word: Option<&str>) -> Result<Option<Text>, WordsFault>
    ensures { Reads (Some (text_in word.entry)) result }
{
    match word {
        Some(text) => Ok(Some(Text::copy_of(alloc, text)?)),
        None => Ok(None),
    }
}

/// The name of a file that an option may give.
pub fn file(alloc: Global, word: Option<&str>) -> Result<Option<Text>, WordsFault>
    ensures { Reads (option_map_or file_of (text_in word.entry) (Some None)) result }
{
    match word {
        Some(text) if !is_file_name(text) => Err(WordsFault::Usage),
        _ => optional(alloc, word),
    }
}

/// The word isn't empty and doesn't begin with `-`.
fn is_file_name(word: &str) -> bool
    ensures { result ≡ names_file word.now }
{
    !word.is_empty() && !word.starts_with('-')
}

/// The number from `least` to `most` that a word writes.
fn number_in_word(word: &str, least: u32, most: u32) -> Result<u32, WordsFault>
    ensures { Reads (number_between least most word.now) result }
{
    match parse_decimal(word, u64::from(most)) {
        Some(number) if u64::from(least) <= number => Ok(number as u32),
        _ => Err(WordsFault::Usage),
    }
}

/// The number of a word that has to be there.
pub fn number(word: Option<&str>, least: u32, most: u32) -> Result<u32, WordsFault>
    ensures { Reads (option_and_then (number_between least most) (text_in word.entry)) result }
{
    match word {
        Some(text) => number_in_word(text, least, most),
        None => Err(WordsFault::Usage),
    }
}

/// The number of a word that may be there, or the default.
pub fn number_or(default: u32, word: Option<&str>, least: u32, most: u32) -> Result<u32, WordsFault>
    ensures { Reads (option_map_or (number_between least most) (text_in word.entry) (Some default)) result }
{
    match word {
        Some(text) => number_in_word(text, least, most),
        None => Ok(default),
    }
}

/// The number of events that a run may take.
pub fn events(word: Option<&str>) -> Result<u32, WordsFault>
    ensures { Reads (option_map_or (number_between 1 1000000) (text_in word.entry) (Some 100000)) result }
{
    number_or(100_000, word, 1, 1_000_000)
}

/// The number of seconds without traffic after which a run ends; 0 is no such end.
pub fn idle(word: Option<&str>) -> Result<u32, WordsFault>
    ensures { Reads (option_map_or (number_between 0 86400) (text_in word.entry) (Some 0)) result }
{
    number_or(0, word, 0, 86_400)
}

/// The scheme that an option may give.
pub fn scheme(word: Option<&str>) -> Result<Option<Scheme>, WordsFault>
    ensures { Reads (option_map_or scheme_of (text_in word.entry) (Some None)) result }
{
    match word {
        Some("http") => Ok(Some(Scheme::Http)),
        Some("coap") => Ok(Some(Scheme::Coap)),
        Some(_) => Err(WordsFault::Usage),
        None => Ok(None),
    }
}

/// The operation of this name.
pub fn operation(word: Option<&str>) -> Result<Operation, WordsFault>
    ensures { Reads (option_and_then operation_of (text_in word.entry)) result }
{
    match word {
        Some(text) => operation_named(text),
        None => Err(WordsFault::Usage),
    }
}

fn operation_named(name: &str) -> Result<Operation, WordsFault>
    ensures { Reads (operation_of name.now) result }
{
    match name {
        "readproperty" => Ok(Operation::ReadProperty),
        "writeproperty" => Ok(Operation::WriteProperty),
        "invokeaction" => Ok(Operation::InvokeAction),
        "readallproperties" => Ok(Operation::ReadAllProperties),
        "observeproperty" => Ok(Operation::ObserveProperty),
        _ => Err(WordsFault::Usage),
    }
}

/// The name of what the operation is done on; for all properties it is `-`.
pub fn name(alloc: Global, operation: Operation, word: Option<&str>) -> Result<Text, WordsFault>
    ensures { Reads (option_and_then (name_of operation) (text_in word.entry)) result }
{
    let text = required(alloc, word)?;
    match operation {
        Operation::ReadAllProperties if text.as_str() != "-" => Err(WordsFault::Usage),
        _ => Ok(text),
    }
}

/// The host and the port of a word that has to be there.
pub fn server(alloc: Global, word: Option<&str>) -> Result<(Text, u16), WordsFault>
    ensures { Reads (option_and_then point_of (text_in word.entry)) result }
{
    match word {
        Some(text) => server_at(alloc, text),
        None => Err(WordsFault::Usage),
    }
}

/// The host and the port that a word writes.
fn server_at(alloc: Global, word: &str) -> Result<(Text, u16), WordsFault>
    ensures { Reads (point_of word.now) result }
{
    match point_in(word) {
        Some((host, port)) => Ok((Text::copy_of(alloc, host)?, port)),
        None => Err(WordsFault::Usage),
    }
}
