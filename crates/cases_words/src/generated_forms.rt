//! Forms that a servient puts into descriptions.
//!
//! ```text
//! given HTTP COAP                    what the URLs of the forms begin with
//! POINTER JSON at SEGMENT => JSON    what is at a pointer (`-` for the whole, `*` for the forms of its only action) of a description with
//!                                    its forms, as it is served under this segment
//! ```

use crate::json_texts::put_tree;
use std::alloc::{AllocError, Global};
use std::fmt::Write;
use wot_forms::{Bases, generate};
use wot_json::{ReadFault, Text, Tree, pointer, read};

/// The bases of two words.
fn bases_of(alloc: Global, words: &str) -> Result<Bases, AllocError> {
    let (http, coap) = words.split_once(' ').unwrap_or((words, ""));
    Ok(Bases {
        http: Text::copy_of(alloc, http)?,
        coap: Text::copy_of(alloc, coap)?,
    })
}

/// The forms of the first action of a description.
fn first_action(tree: &Tree) -> Option<&Tree> {
    match tree.member("actions") {
        Some(Tree::Obj(actions)) => match actions.as_slice().first() {
            Some((_name, action)) => action.member("forms"),
            None => None,
        },
        _ => None,
    }
}

/// The part at a pointer of a description.
fn part_at<'a>(tree: &'a Tree, at: &str) -> Option<&'a Tree> {
    match at {
        "-" => Some(tree),
        "*" => first_action(tree),
        _ => pointer(tree, at).unwrap_or(None),
    }
}

/// Writes a part of a description.
fn put_part(said: &mut String, alloc: Global, tree: &Tree, at: &str) -> Result<(), AllocError> {
    match part_at(tree, at) {
        Some(part) => put_tree(said, alloc, part),
        None => said.push_str("nothing"),
    }
}

/// The description of a text with its forms, or the text's fault.
fn generated(alloc: Global, text: &str, bases: &str, segment: &str) -> Result<Tree, ReadFault> {
    let tree = read(alloc, text.as_bytes())?;
    let bases = bases_of(alloc, bases)?;
    Ok(generate(alloc, &tree, &bases, segment)?)
}

/// Writes what comes of a row.
pub fn put(said: &mut String, alloc: Global, bases: &str, given: &str) -> Result<(), AllocError> {
    let (given, segment) = given.rsplit_once(" at ").unwrap_or((given, ""));
    let (at, text) = given.split_once(' ').unwrap_or((given, ""));
    match generated(alloc, text, bases, segment) {
        Ok(tree) => put_part(said, alloc, &tree, at),
        Err(fault) => write!(said, "{fault}"),
    }
}
