//! The values that stay the same while an answer is awaited.

use crate::Purpose;
use std::alloc::Global;
use wot_consumer::Chosen;

/// The request, its purpose, and the allocator of its memory.
#[derive(Clone, Copy)]
pub struct ClientTask<'a> {
    pub alloc: Global,
    pub purpose: Purpose<'a>,
    pub chosen: &'a Chosen,
}
