//! Thing Descriptions: their conditions, and the affordances of a valid one.
//!
//! ```text
//! given TEXT                     what `..` stands for, where a description begins with it
//! JSON => valid                  whether a description is valid, or its first fault
//! count JSON => N                how many affordances it has
//! list JSON => AFFORDANCE; ..    kind and name of each, and what it has
//! operation NAME => OPERATION    the operation of a name, and its name
//! ```

use std::alloc::{AllocError, Global};
use std::fmt::Write;
use wot_json::{Tree, read};
use wot_terms::{Affordance, Description, Op, check};

/// Writes a word if this holds.
fn put_if(said: &mut String, holds: bool, word: &str) -> Result<(), AllocError> {
    if holds {
        said.push_str(word)?;
    }
    Ok(())
}

/// Writes an affordance.
fn put_affordance(said: &mut String, affordance: &Affordance) -> Result<(), AllocError> {
    write!(said, "{:?} {}", affordance.kind, affordance.name.as_str())?;
    put_if(said, affordance.input.is_some(), " input")?;
    put_if(said, affordance.output.is_some(), " output")?;
    put_if(said, affordance.read_only, " readOnly")?;
    put_if(said, affordance.write_only, " writeOnly")?;
    put_if(said, affordance.observable, " observable")
}

/// Writes affordances, or how many they are.
fn put_list(said: &mut String, word: &str, list: &[Affordance]) -> Result<(), AllocError> {
    if word == "count" {
        return write!(said, "{}", list.len());
    }
    for (place, affordance) in list.iter().enumerate() {
        put_if(said, place > 0, "; ")?;
        put_affordance(said, affordance)?;
    }
    Ok(())
}

/// Writes what comes of a description.
fn put_judged(said: &mut String, alloc: Global, word: &str, tree: &Tree) -> Result<(), AllocError> {
    match check(alloc, tree) {
        Ok(()) if word == "valid" => said.push_str("valid"),
        Ok(()) => put_list(said, word, Description::of(alloc, tree)?.affordances()),
        Err(fault) => write!(said, "{fault}"),
    }
}

/// The same of a text.
fn put_read(said: &mut String, alloc: Global, word: &str, text: &str) -> Result<(), AllocError> {
    match read(alloc, text.as_bytes()) {
        Ok(tree) => put_judged(said, alloc, word, &tree),
        Err(fault) => write!(said, "{fault}"),
    }
}

/// The same of a text whose beginning may be shared with others.
fn put_started(
    said: &mut String,
    alloc: Global,
    start: &str,
    word: &str,
    text: &str,
) -> Result<(), AllocError> {
    match text.strip_prefix("..") {
        Some(rest) => {
            let whole = format!(in alloc; "{start}{rest}")?;
            put_read(said, alloc, word, whole.as_str())
        }
        None => put_read(said, alloc, word, text),
    }
}

/// Writes the operation of a name.
fn put_operation(said: &mut String, name: &str) -> Result<(), AllocError> {
    match Op::named(name) {
        Some(operation) => write!(said, "{operation:?} {}", operation.name()),
        None => said.push_str("nothing"),
    }
}

/// Writes what comes of a row.
pub fn put(said: &mut String, alloc: Global, start: &str, given: &str) -> Result<(), AllocError> {
    match given.split_once(' ') {
        Some(("operation", name)) => put_operation(said, name),
        Some(("count", text)) => put_started(said, alloc, start, "count", text),
        Some(("list", text)) => put_started(said, alloc, start, "list", text),
        _ => put_started(said, alloc, start, "valid", given),
    }
}
