//! The outcome of one Thing.

use crate::place::ThingPlace;
use wot_json::Tree;

/// A Thing, and those that it is composed of.
#[derive(Drop)]
pub(crate) struct Made {
    pub(crate) tree: Tree,
    pub(crate) children: Vec<ThingPlace>,
}
