//! The reasons for which a model has no value.

ghost use Rattle.std.specs.Prelude.{◌≡◌, ◌⊎◌};
ghost use Rattle.tm_resolve.specs.Chain.{pointer_of};
ghost use Rattle.tm_resolve.specs.Faults.{fault_in};

use crate::chain::pointer_text;
use std::alloc::{AllocError, Global};
use thiserror::Error;
use tm_parts::PartFault;
use wot_json::Text;

/// The kind of a fault in a model.
#[derive(Debug, Clone, Copy, PartialEq, Eq, Error)]
pub enum ResolveKind {
    /// The model with all that it brings in, and its submodels, is too much, too deep, or has too long a chain of
    /// models and parts.
    #[error("too large")]
    TooLarge,
    /// The value of `tm:ref` is no text, or refers to no part of a model.
    #[error("no reference to a part of a model")]
    BadRef,
    /// The `href` of a link is no text, or can't be joined to the URL of the model.
    #[error("no link to a model")]
    BadHref,
    /// The library doesn't have the model.
    #[error("no such model")]
    MissingModel,
    /// The model has no part at the pointer of a `tm:ref`.
    #[error("no such part of a model")]
    MissingNode,
    /// A `tm:ref` refers to a value that is no object.
    #[error("a reference to no object")]
    NotObject,
    /// A reference or an extension leads to a part that is being resolved already.
    #[error("circular")]
    Circular,
    /// The model extends more than one.
    #[error("more than one model that is extended")]
    TwoExtends,
    /// A placeholder in a longer text is bound to a value that is no text.
    #[error("a value that is no text in a longer text")]
    NotText,
    /// The name of a member holds a placeholder.
    #[error("a placeholder in a name")]
    InName,
}

/// The reason for which a model has no value.
#[derive(Debug, Drop, Error)]
pub enum ResolveFault {
    /// The kind, the text of the URL of the model that has the fault, and the pointer to its place there
    /// (RFC 6901): that of the object with `tm:ref`, of the link, or of the member. For `NotText` it is the name of
    /// the placeholder.
    #[error("{0} in {1}: {2}")]
    At(ResolveKind, Text, Text),
    /// Out of memory.
    #[error("out of memory")]
    NoMemory,
}

impl From<AllocError> for ResolveFault {
    ghost use Rattle.std.specs.Prelude.{◌≡◌};
    ghost use Rattle.tm_resolve.specs.declared.fault.ResolveFault.TheVariants.{NoMemory};

    ghost from_gives = { λ _ fault. fault ≡ NoMemory };

    fn from(_error: AllocError) -> ResolveFault {
        ResolveFault::NoMemory
    }
}

impl ResolveFault {
    /// The fault of this kind at a place of a model.
    pub(crate) fn at(alloc: Global, kind: ResolveKind, url: &str, place: &str) -> ResolveFault
        ensures { (result ≡ ResolveFault.NoMemory) ⊎ (result ≡ ResolveFault.At kind url.now place.now) }
    {
        match (Text::copy_of(alloc, url), Text::copy_of(alloc, place)) {
            (Ok(url), Ok(place)) => ResolveFault::At(kind, url, place),
            _ => ResolveFault::NoMemory,
        }
    }

    /// The fault of this kind at the place of a model to which a pointer leads that is in pieces.
    pub(crate) fn at_place(
        alloc: Global,
        kind: ResolveKind,
        url: &str,
        place: &[Text],
    ) -> ResolveFault
        ensures { (result ≡ ResolveFault.NoMemory) ⊎ (result ≡ ResolveFault.At kind url.now (pointer_of place.now)) }
    {
        match pointer_text(alloc, place) {
            Ok(pointer) => ResolveFault::at(alloc, kind, url, pointer.as_str()),
            Err(_) => ResolveFault::NoMemory,
        }
    }

    /// The fault of the substitution in a model.
    pub(crate) fn of_part(alloc: Global, url: &str, fault: &PartFault) -> ResolveFault
        ensures { (result ≡ ResolveFault.NoMemory) ⊎ (result ≡ fault_in url.now fault.now) }
    {
        match fault {
            PartFault::InName(pointer) => {
                ResolveFault::at(alloc, ResolveKind::InName, url, pointer.as_str())
            }
            PartFault::NotText(name) => {
                ResolveFault::at(alloc, ResolveKind::NotText, url, name.as_str())
            }
            PartFault::NoMemory => ResolveFault::NoMemory,
        }
    }
}
