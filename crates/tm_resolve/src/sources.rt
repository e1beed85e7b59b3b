//! The models that all steps look at.

ghost use Rattle.std.specs.Prelude.{◌≡◌, IfSome, option_map};
ghost use Rattle.tm_parts.specs.Views.{seen};
ghost use Rattle.tm_resolve.specs.Weight as spec;

use crate::chain::is_in_chain;
use std::alloc::Global;
use tm_parts::{Location, Reference, View};

/// The models of a library with values in place of their placeholders, which all steps read.
#[derive(Drop)]
pub(crate) struct StepSources<'a> {
    pub(crate) alloc: Global,
    pub(crate) models: tm_parts::Sources<'a>,
}

/// A part of a model, and where that model is.
#[derive(Clone, Copy)]
pub(crate) struct Part<'a> {
    pub(crate) from: &'a Location,
    pub(crate) view: View<'a>,
}

/// The part that a step to the target leads to, where one can be made.
pub(crate) fn entered_part<'a>(
    sources: &'a StepSources<'_>,
    target: &Reference,
    chain: &[Reference],
) -> Option<Part<'a>>
    ensures part { option_map (λ part. seen part.view) result ≡ spec.entered_part sources.now.models chain.now target.now }
    ensures from { IfSome result (λ part. part.from.now ≡ target.now.url) }
{
    if is_in_chain(target, chain) {
        return None;
    }
    let source = match sources.models.get(target.url.as_str()) {
        Some(source) => source,
        None => return None,
    };
    let whole = match source.model {
        Ok(whole) => whole,
        Err(_) => return None,
    };
    match whole.part(target.pointer.as_str()) {
        Some(view) => Some(Part {
            from: source.location,
            view,
        }),
        None => None,
    }
}
