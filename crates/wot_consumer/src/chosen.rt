//! The request that is chosen for an operation, or for the links of a server, and the reasons why there is none.

use std::alloc::AllocError;
use thing_ops::{Segments, Verb};
use thiserror::Error;
use wot_forms::Scheme;
use wot_json::Text;

/// The place and the method of a request: for an operation, or for the links of a server.
#[derive(Debug, Drop)]
pub struct Chosen {
    pub scheme: Scheme,
    /// The host as a URL writes it: a name, or an IP address, of version 6 in brackets.
    pub host: Text,
    /// The port, also where it is the default one of the scheme.
    pub port: u16,
    /// The path, percent-encoding taken away.
    pub path: Segments,
    /// The method.
    pub verb: Verb,
    /// Values are waited for as they come (RFC 7641).
    pub observe: bool,
}

/// The reason for which nothing is chosen.
#[derive(Clone, Copy, Debug, PartialEq, Eq, Drop, Error)]
pub enum ChooseFault {
    /// The description has no affordance of this name that has the operation.
    #[error("there is no such affordance")]
    NoAffordance,
    /// None of its forms qualifies.
    #[error("no form qualifies")]
    NoForm,
    /// Out of memory.
    #[error("out of memory")]
    NoMemory,
}

impl From<AllocError> for ChooseFault {
    ghost use Rattle.std.specs.Prelude.{◌≡◌};
    ghost use Rattle.wot_consumer.specs.declared.chosen.ChooseFault.TheVariants.{NoMemory};

    ghost from_gives = { λ _ fault. fault ≡ NoMemory };

    fn from(_error: AllocError) -> ChooseFault {
        ChooseFault::NoMemory
    }
}
