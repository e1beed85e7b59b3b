//! The faults of the options of a request.

use std::alloc::AllocError;
use thiserror::Error;

/// The first fault of the options of a request, in their order.
#[derive(Clone, Copy, Debug, PartialEq, Eq, Drop, Error)]
pub enum AskFault {
    /// A critical option of this number isn't known, has a value of a wrong length, or comes again (RFC 7252,
    /// section 5.4.1).
    #[error("the option {0} is unknown, of a wrong length or repeated")]
    BadOption(u16),
    /// The request is for a proxy: it has Proxy-Uri or Proxy-Scheme (RFC 7252, section 5.10.2).
    #[error("the request is for a proxy")]
    Proxy,
    /// A Block option says the size that is reserved (RFC 7959, section 2.2).
    #[error("a block has the reserved size")]
    Block,
    /// Out of memory.
    #[error("out of memory")]
    NoMemory,
}

impl From<AllocError> for AskFault {
    ghost use Rattle.std.specs.Prelude.{◌≡◌};
    ghost use Rattle.coap_opts.specs.declared.fault.AskFault.TheVariants.{NoMemory};

    // By hand, since this clause is to name the fault that `?` makes.
    ghost from_gives = { λ _ fault. fault ≡ NoMemory };

    fn from(_error: AllocError) -> AskFault {
        AskFault::NoMemory
    }
}
