//! JSON texts, and descriptions of Things by the members in which they differ.

use std::alloc::{AllocError, Global};
use wot_json::{Tree, read};

/// The beginning of a valid description.
const START: &str =
    r#"{"@context":"https://www.w3.org/2022/wot/td/v1.1","security":"n","securityDefinitions":{"n":{"scheme":"nosec"}},"title":"T""#;

/// The tree of a JSON text; a text that is none counts as out of memory.
pub fn tree_of(alloc: Global, text: &str) -> Result<Tree, AllocError> {
    match read(alloc, text.as_bytes()) {
        Ok(tree) => Ok(tree),
        Err(_) => Err(AllocError),
    }
}

/// A valid description with these further members; of several of one name the last counts.
pub fn described(alloc: Global, members: &str) -> Result<Tree, AllocError> {
    let mut text = String::from_str(alloc, START)?;
    if !members.is_empty() {
        text.push_str(",")?;
        text.push_str(members)?;
    }
    text.push_str("}")?;
    tree_of(alloc, text.as_str())
}
