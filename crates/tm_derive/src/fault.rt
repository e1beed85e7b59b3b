//! The reasons for which a model is not derived.

use std::alloc::AllocError;
use thiserror::Error;
use tm_resolve::ResolveFault;
use wot_json::Text;
use wot_terms::TdFault;

/// The reason for which a model is not derived. Each fault has the segment of its Thing first.
#[derive(Debug, Drop, Error)]
pub enum DeriveFault {
    /// Its model has no value, or a link of its model leads to no submodel that it may have.
    #[error("{0}: {1}")]
    Resolve(Text, ResolveFault),
    /// The pointer to an entry of `tm:optional` that is none, or to the whole where that is no list; or a choice of
    /// what isn't optional there.
    #[error("{0}: {1} is not optional")]
    Optional(Text, Text),
    /// The pointer to a link of its model with no name that an instance may have.
    #[error("{0}: no instance name at {1}")]
    Instance(Text, Text),
    /// The pointer to a link of its model with the instance name of an earlier one.
    #[error("{0}: the instance name at {1} is used")]
    TwiceInstance(Text, Text),
    /// The name of a placeholder that is left in its description, and the pointer to the text that has it.
    #[error("{0}: nothing is bound to {1} at {2}")]
    Unbound(Text, Text, Text),
    /// Its description is not valid.
    #[error("{0}: {1}")]
    Invalid(Text, TdFault),
    /// Out of memory.
    #[error("out of memory")]
    NoMemory,
}

impl From<AllocError> for DeriveFault {
    ghost use Rattle.std.specs.Prelude.{◌≡◌};
    ghost use Rattle.tm_derive.specs.declared.fault.DeriveFault.TheVariants.{NoMemory};

    ghost from_gives = { λ _ fault. fault ≡ NoMemory };

    fn from(_error: AllocError) -> DeriveFault {
        DeriveFault::NoMemory
    }
}
