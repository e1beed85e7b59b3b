//! The form that is used for an operation, and the request to it.
//!
//! ```text
//! given JSON                      members of a description, beside those that each has to have
//! OPERATION NAME SCHEME => ..     the choice: method, scheme, host and port, the segments of the path in brackets, and
//!                                 `observing`; SCHEME is http, coap or any
//! ```

ghost use Rattle.std.specs.Prelude.{IsTrue};
ghost use Rattle.wot_json.specs.Meaning.{json_of};
ghost use Rattle.wot_terms.specs.Faults.{IsValid};
ghost use Rattle.wot_consumer.specs.Operations.{is_consumed};

use crate::descriptions::{description_of, op_of, scheme_of};
use cases_notation::put as put_bytes;
use std::alloc::{AllocError, Global};
use std::fmt::Write;
use thing_ops::Segments;
use wot_consumer::{ChooseFault, Chosen, Scheme, choose};
use wot_json::Tree;
use wot_terms::Op;

/// Writes a segment in brackets; of a long one how many bytes it has.
fn put_segment(text: &mut String, segment: &[u8]) -> Result<(), AllocError> {
    if segment.len() > 40 {
        return write!(text, " [{} bytes]", segment.len());
    }
    text.push_str(" [")?;
    put_bytes(text, segment)?;
    text.push_str("]")
}

/// Writes a path, segment by segment.
fn put_path(text: &mut String, path: &Segments) -> Result<(), AllocError> {
    for index in 0..path.len() {
        if let Some(segment) = path.get(index) {
            put_segment(text, segment)?;
        }
    }
    Ok(())
}

/// The word of a scheme.
fn scheme_word(scheme: Scheme) -> &'static str {
    match scheme {
        Scheme::Http => "http",
        Scheme::Coap => "coap",
    }
}

/// Writes what is chosen.
fn put_chosen(text: &mut String, chosen: &Chosen) -> Result<(), AllocError> {
    let scheme = scheme_word(chosen.scheme);
    write!(
        text,
        "{:?} {scheme} {}:{}",
        chosen.verb, chosen.host, chosen.port
    )?;
    put_path(text, &chosen.path)?;
    text.push_str(if chosen.observe { " observing" } else { "" })
}

/// Chooses, and writes what comes of it.
fn put_choice(
    text: &mut String,
    alloc: Global,
    tree: &Tree,
    op: Op,
    words: &str,
) -> Result<(), AllocError>
    requires valid { IsValid (json_of tree.now) }
    requires consumed { IsTrue (is_consumed op) }
{
    let (name, scheme) = words.split_once(' ').unwrap_or((words, ""));
    match choose(alloc, tree, op, name, scheme_of(scheme)) {
        Ok(chosen) => put_chosen(text, &chosen),
        Err(ChooseFault::NoMemory) => Err(AllocError),
        Err(fault) => write!(text, "{fault}"),
    }
}

/// Writes what comes of a row over a description.
fn put_row(text: &mut String, alloc: Global, tree: &Tree, given: &str) -> Result<(), AllocError>
    requires { IsValid (json_of tree.now) }
{
    let (op, words) = given.split_once(' ').unwrap_or((given, ""));
    match op_of(op) {
        Some(op) => put_choice(text, alloc, tree, op, words),
        None => text.push_str("no such operation"),
    }
}

/// Writes what comes of a row over the description with these members.
pub fn put(text: &mut String, alloc: Global, members: &str, given: &str) -> Result<(), AllocError> {
    match description_of(alloc, members)? {
        Some(tree) => put_row(text, alloc, &tree, given),
        None => text.push_str("no valid description"),
    }
}
