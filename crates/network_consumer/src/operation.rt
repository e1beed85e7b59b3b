//! An operation that is asked of a Thing.

use wot_json::Tree;
use wot_terms::Op;

/// An operation of a Thing.
#[derive(Clone, Copy)]
pub struct ThingOperation<'a> {
    /// The Thing's description.
    pub tree: &'a Tree,
    pub op: Op,
    /// The name of the property or the action; any text where all properties are read.
    pub name: &'a str,
    /// The value that is handed in, where there is one.
    pub input: Option<&'a Tree>,
    /// The number of values that are waited for, where a property is observed; 0 counts as 1.
    pub count: u32,
}
