//! The faults for which a directory does not do what it is asked.

use std::alloc::AllocError;
use thiserror::Error;
use wot_terms::TdFault;

/// The cause for which a directory does not do what it is asked.
#[derive(Debug, Drop, Error)]
pub enum DirFault {
    /// There is no description under this id.
    #[error("there is no description under this id")]
    NotFound,
    /// The tree is no valid description: its first fault.
    #[error("{0}")]
    Invalid(TdFault),
    /// The description's `id` is not the one under which it would be put.
    #[error("the description has another id")]
    IdDiffers,
    /// The description has an `id`, where the directory is to give one.
    #[error("the description has an id already")]
    HasId,
    /// The directory holds as many descriptions as it may.
    #[error("the directory is full")]
    Full,
    /// Out of memory.
    #[error("out of memory")]
    NoMemory,
}

impl From<AllocError> for DirFault {
    ghost use Rattle.std.specs.Prelude.{◌≡◌};
    ghost use Rattle.wot_directory.specs.declared.fault.DirFault.TheVariants as fault;

    ghost from_gives = { λ _ e. e ≡ fault.NoMemory };

    fn from(_error: AllocError) -> DirFault {
        DirFault::NoMemory
    }
}
