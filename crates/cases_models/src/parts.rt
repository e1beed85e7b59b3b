//! Placeholders, libraries, and where texts of models lead.

use crate::case::{Case, put_tree, word_of};
use std::alloc::{AllocError, Global};
use std::fmt::Write;
use tm_parts::{AddFault, PartFault, RefFault, Source, Sources, first_hole, substitute, target};
use tm_resolve::ResolveFault;
use wot_json::{Tree, read};

/// Writes a model with its values, or the fault.
fn put_substituted(said: &mut String, case: &Case, tree: &Tree) -> Result<(), AllocError> {
    match substitute(case.alloc, tree, &case.bindings) {
        Ok(value) => put_tree(said, case.alloc, &value),
        Err(fault) => write!(said, "{fault}"),
    }
}

/// Writes the first placeholder that is left, and the pointer to its text.
fn put_hole(said: &mut String, alloc: Global, tree: &Tree) -> Result<(), AllocError> {
    match first_hole(alloc, tree)? {
        Some((name, pointer)) => write!(said, "{name} at {pointer}"),
        None => said.push_str("none"),
    }
}

/// The same of a JSON text.
fn put_read(said: &mut String, case: &Case, word: &str, text: &str) -> Result<(), AllocError> {
    match read(case.alloc, text.as_bytes()) {
        Err(fault) => write!(said, "{fault}"),
        Ok(tree) if word == "hole" => put_hole(said, case.alloc, &tree),
        Ok(tree) => put_substituted(said, case, &tree),
    }
}

/// Writes what a library has under a URL with values.
fn put_model(said: &mut String, alloc: Global, source: Source<'_>) -> Result<(), AllocError> {
    match source.model {
        Ok(view) => put_tree(said, alloc, &view.build(alloc)?),
        Err(fault) => write!(said, "{fault}"),
    }
}

/// Writes the URL of a text that is joined to that of a model.
fn put_joined(said: &mut String, source: Source<'_>, text: &str) -> Result<(), AllocError> {
    match source.location.join(text)? {
        Some(url) => said.push_str(url.as_str()),
        None => said.push_str("no URL"),
    }
}

/// Writes what a library says of the model under a URL.
fn put_source(said: &mut String, case: &Case, word: &str, rest: &str) -> Result<(), AllocError> {
    let (url, text) = word_of(rest);
    let sources = Sources::new(case.alloc, &case.library, &case.bindings)?;
    match sources.get(url) {
        None => said.push_str("no model"),
        Some(source) => match word {
            "source" => put_model(said, case.alloc, source),
            "location" => said.push_str(source.location.as_str()),
            _ => put_joined(said, source, text),
        },
    }
}

/// Writes where a text leads from a URL.
fn put_target(said: &mut String, alloc: Global, from: &str, text: &str) -> Result<(), AllocError> {
    match target(alloc, from, text) {
        Ok(reference) => {
            said.push_str(reference.url.as_str())?;
            said.push_str(" at ")?;
            said.push_str(reference.pointer.as_str())
        }
        Err(fault) => write!(said, "{fault}"),
    }
}

/// Writes how being out of memory is displayed by this fault.
fn put_display(said: &mut String, name: &str) -> Result<(), AllocError> {
    match name {
        "AddFault" => write!(said, "{}", AddFault::NoMemory),
        "PartFault" => write!(said, "{}", PartFault::NoMemory),
        "RefFault" => write!(said, "{}", RefFault::NoMemory),
        "ResolveFault" => write!(said, "{}", ResolveFault::NoMemory),
        _ => said.push_str("no such fault"),
    }
}

/// Writes what comes of a line of this word.
pub fn put(said: &mut String, case: &Case, word: &str, rest: &str) -> Result<(), AllocError> {
    match word {
        "substitute" | "hole" => put_read(said, case, word, rest),
        "get" => said.push_str(match case.library.get(rest) {
            Some(_) => "kept",
            None => "none",
        }),
        "source" | "location" | "join" => put_source(said, case, word, rest),
        "target" => {
            let (from, text) = word_of(rest);
            put_target(said, case.alloc, from, text)
        }
        "display" => put_display(said, rest),
        _ => said.push_str("no such word"),
    }
}
