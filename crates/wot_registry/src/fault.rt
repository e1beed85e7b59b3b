//! The faults for which a registry does not do what it is asked.

use std::alloc::AllocError;
use thiserror::Error;
use wot_directory::DirFault;

/// The cause for which a registry does not do what it is asked.
#[derive(Debug, Drop, Error)]
pub enum RegFault {
    /// `registration` is no object, or its `ttl` is no whole number of seconds from 1 to 31,536,000.
    #[error("the registration information is no object, or its time to live is no number of seconds up to 365 days")]
    Ttl,
    /// The directory does not do it.
    #[error("{0}")]
    Directory(DirFault),
}

impl From<AllocError> for RegFault {
    ghost use Rattle.std.specs.Prelude.{◌≡◌};
    ghost use Rattle.wot_registry.specs.declared.fault.RegFault.TheVariants as fault;
    ghost use Rattle.wot_directory.specs.declared.fault.DirFault.TheVariants as dir_fault;

    ghost from_gives = { λ _ e. e ≡ fault.Directory dir_fault.NoMemory };

    fn from(_error: AllocError) -> RegFault {
        RegFault::Directory(DirFault::NoMemory)
    }
}

impl From<DirFault> for RegFault {
    ghost use Rattle.std.specs.Prelude.{◌≡◌};
    ghost use Rattle.wot_registry.specs.declared.fault.RegFault.TheVariants as fault;

    ghost from_gives = { λ d e. e ≡ fault.Directory d };

    fn from(fault: DirFault) -> RegFault {
        RegFault::Directory(fault)
    }
}
