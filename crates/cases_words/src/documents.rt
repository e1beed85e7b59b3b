//! Pointers into JSON documents, patches of them, and trees that are built and taken apart.
//!
//! ```text
//! pointers   given JSON, POINTER => JSON       what is there, or nothing
//! places     below POINTER NAME => POINTER     and below_index POINTER N, through_member NAME POINTER, through_element N POINTER
//! patches    JSON with JSON => JSON            the first as the second changes it
//! trees      JSON equals JSON => true          whether two trees are equal
//! trees      JSON has TEXT => true             whether one is that text or a list that has it
//! trees      member NAME of JSON => JSON       a member, or nothing
//! trees      rebuild JSON => JSON, N           an equal tree whose list or object is taken apart and built again, and its size
//! trees      push JSON and JSON => JSON, N     an object of two members, `a` and `b`, and its size
//! ```

use crate::json_texts::put_tree;
use cases_notation::size_of;
use std::alloc::{AllocError, Global};
use std::fmt::Write;
use wot_json::{
    Items, Members, Text, Tree, below, below_index, copy, has_text, is_equal, merge_patch, pointer,
    read, through_element, through_member,
};

/// Writes what is at a place of a tree.
fn put_part(said: &mut String, alloc: Global, tree: &Tree, at: &str) -> Result<(), AllocError> {
    match pointer(tree, at) {
        Ok(Some(part)) => put_tree(said, alloc, part),
        Ok(None) => said.push_str("nothing"),
        Err(fault) => write!(said, "{fault}"),
    }
}

/// Writes what is at a place of a document.
pub fn put_pointed(
    said: &mut String,
    alloc: Global,
    document: &str,
    at: &str,
) -> Result<(), AllocError> {
    match read(alloc, document.as_bytes()) {
        Ok(tree) => put_part(said, alloc, &tree, at),
        Err(fault) => write!(said, "{fault}"),
    }
}

/// Writes the pointer that two others and a name or a number make.
pub fn put_place(said: &mut String, alloc: Global, given: &str) -> Result<(), AllocError> {
    let (word, rest) = given.split_once(' ').unwrap_or((given, ""));
    let (first, second) = rest.split_once(' ').unwrap_or((rest, ""));
    let place = match word {
        "below" => below(alloc, first, second)?,
        "below_index" => below_index(alloc, first, size_of(second))?,
        "through_member" => through_member(alloc, first, second)?,
        _ => through_element(alloc, size_of(first), second)?,
    };
    said.push_str(place.as_str())
}

/// Writes a target as a patch changes it.
fn put_patched(
    said: &mut String,
    alloc: Global,
    target: &Tree,
    patch: &Tree,
) -> Result<(), AllocError> {
    let merged = merge_patch(alloc, target, patch)?;
    put_tree(said, alloc, &merged)
}

/// The tree of a text; that of the text `no JSON` where there is none.
fn tree_of(alloc: Global, text: &str) -> Result<Tree, AllocError> {
    match read(alloc, text.as_bytes()) {
        Ok(tree) => Ok(tree),
        Err(_) => Ok(Tree::Text(Text::copy_of(alloc, "no JSON")?)),
    }
}

/// Writes what a patch makes of a target.
pub fn put_merged(said: &mut String, alloc: Global, given: &str) -> Result<(), AllocError> {
    let (target, patch) = given.split_once(" with ").unwrap_or((given, ""));
    let target = tree_of(alloc, target)?;
    let patch = tree_of(alloc, patch)?;
    put_patched(said, alloc, &target, &patch)
}

/// Writes whether two trees are equal.
fn put_equality(
    said: &mut String,
    alloc: Global,
    left: &str,
    right: &str,
) -> Result<(), AllocError> {
    let left = tree_of(alloc, left)?;
    let right = tree_of(alloc, right)?;
    write!(said, "{}", is_equal(&left, &right))
}

/// Writes a member of an object.
fn put_member(said: &mut String, alloc: Global, name: &str, text: &str) -> Result<(), AllocError> {
    match tree_of(alloc, text)?.member(name) {
        Some(part) => put_tree(said, alloc, part),
        None => said.push_str("nothing"),
    }
}

/// Whether a tree is a text or a list that has it.
fn put_has(said: &mut String, alloc: Global, tree: &str, text: &str) -> Result<(), AllocError> {
    let tree = tree_of(alloc, tree)?;
    write!(said, "{}", has_text(&tree, text))
}

/// The items of a list, put down one after another.
fn pushed(alloc: Global, list: &[Tree]) -> Result<Items, AllocError> {
    let mut items = Items::new(alloc);
    for item in list {
        items.push(copy(alloc, item)?)?;
    }
    Ok(items)
}

/// Writes a list that is built again, and its size.
fn put_list(said: &mut String, alloc: Global, items: Items) -> Result<(), AllocError> {
    let items = Items::from_vec(pushed(alloc, items.as_slice())?.into_vec());
    let size = items.len();
    put_tree(said, alloc, &Tree::List(items))?;
    write!(said, ", {size}")
}

/// Writes an object that is built again, and its size.
fn put_object(said: &mut String, alloc: Global, members: Members) -> Result<(), AllocError> {
    let members = Members::from_vec(members.into_vec());
    let size = members.len();
    put_tree(said, alloc, &Tree::Obj(members))?;
    write!(said, ", {size}")
}

/// Writes an equal tree.
fn put_again(said: &mut String, alloc: Global, text: &str) -> Result<(), AllocError> {
    match tree_of(alloc, text)? {
        Tree::List(items) => put_list(said, alloc, items),
        Tree::Obj(members) => put_object(said, alloc, members),
        other => put_tree(said, alloc, &copy(alloc, &other)?),
    }
}

/// An object of two members, which are put down one after another.
fn pair_of(alloc: Global, first: Tree, second: Tree) -> Result<Members, AllocError> {
    let mut members = Members::new(alloc);
    members.push(Text::copy_of(alloc, "a")?, first)?;
    members.push(Text::copy_of(alloc, "b")?, second)?;
    Ok(members)
}

/// Writes an object of two members, and its size.
fn put_pair(said: &mut String, alloc: Global, first: &str, second: &str) -> Result<(), AllocError> {
    let first = tree_of(alloc, first)?;
    let pair = pair_of(alloc, first, tree_of(alloc, second)?)?;
    put_object(said, alloc, pair)
}

/// Writes what comes of a row about trees.
pub fn put_tree_row(said: &mut String, alloc: Global, given: &str) -> Result<(), AllocError> {
    if let Some((left, right)) = given.split_once(" equals ") {
        return put_equality(said, alloc, left, right);
    }
    if let Some((tree, text)) = given.split_once(" has ") {
        return put_has(said, alloc, tree, text);
    }
    let (word, rest) = given.split_once(' ').unwrap_or((given, ""));
    match word {
        "member" => {
            let (name, text) = rest.split_once(" of ").unwrap_or((rest, ""));
            put_member(said, alloc, name, text)
        }
        "push" => {
            let (first, second) = rest.split_once(" and ").unwrap_or((rest, ""));
            put_pair(said, alloc, first, second)
        }
        _ => put_again(said, alloc, rest),
    }
}
