//! The inputs that all Things of a derivation share.

use std::alloc::Global;
use tm_parts::{Choices, Library};
use tm_resolve::Resolver;
use wot_forms::Frame;

/// The inputs that all Things of a derivation share.
#[derive(Drop)]
pub(crate) struct Common<'a> {
    pub(crate) alloc: Global,
    pub(crate) library: &'a Library,
    pub(crate) resolver: Resolver<'a>,
    pub(crate) choices: &'a Choices,
    pub(crate) frame: &'a Frame,
}
