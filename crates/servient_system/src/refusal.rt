//! The reasons for which the system doesn't do what it was asked for.

use std::alloc::AllocError;
use std::io::{self, ErrorKind};

/// Why a call of the system did nothing.
#[derive(Clone, Copy, Debug, PartialEq, Eq)]
pub enum Refusal {
    /// Nothing waits, or there is no room now (EAGAIN).
    NotNow,
    /// The peer ended a connection before it was taken (ECONNABORTED).
    Aborted,
    /// There is no memory for it (ENOMEM).
    NoMemory,
    /// Any other error, by its number in errno.h, as 24 for EMFILE. It is 0 where it has none.
    Failed(i32),
}

impl From<AllocError> for Refusal {
    ghost use Rattle.std.specs.Prelude.{◌≡◌};
    ghost use Rattle.servient_system.specs.declared.refusal.Refusal.TheVariants.{NoMemory as no_memory};

    ghost from_gives = { λ _ refusal. refusal ≡ no_memory };

    fn from(_error: AllocError) -> Refusal {
        Refusal::NoMemory
    }
}

impl From<io::Error> for Refusal {
    /// By the kind of an error, since `Failed` is for those that have none of their own here.
    fn from(error: io::Error) -> Refusal {
        match error.kind() {
            ErrorKind::WouldBlock => Refusal::NotNow,
            ErrorKind::ConnectionAborted => Refusal::Aborted,
            ErrorKind::OutOfMemory => Refusal::NoMemory,
            _ => Refusal::Failed(error.raw_os_error().unwrap_or(0)),
        }
    }
}
