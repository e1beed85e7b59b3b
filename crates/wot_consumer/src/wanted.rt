//! The operation for which a form is looked for.

use wot_forms::Scheme;
use wot_terms::Op;

/// An operation, over one protocol, or over either where none is named.
#[derive(Clone, Copy, Debug, Drop)]
pub(crate) struct SoughtForm {
    pub(crate) op: Op,
    pub(crate) scheme: Option<Scheme>,
}
