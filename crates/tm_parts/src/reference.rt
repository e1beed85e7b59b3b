//! References from one Thing Model to a part of another.

ghost use Rattle.std.specs.Prelude.{◌≡◌, ◌⊎◌, Some, None, IfOk, IfErr};
ghost use Rattle.std.specs.Str.{IsUtf8};
ghost use Rattle.percent_encoding.specs.Percent as percent;
ghost use Rattle.tm_parts.specs.References.{pointer_written, reference_target, LeadsNowhere};

use crate::location::Location;
use percent_encoding::{DecodeError, percent_decode};
use std::alloc::{AllocError, Global};
use thiserror::Error;
use wot_json::{Text, Tree, pointer};

/// The target of a reference.
#[derive(Debug, Drop)]
pub struct Reference {
    /// The text of the model's URL.
    pub url: Text,
    /// The pointer to the part (RFC 6901), decoded.
    pub pointer: Text,
}

/// The reason for which a text leads nowhere.
#[derive(Debug, Drop, Error)]
pub enum RefFault {
    /// The text has no `#`, can't be joined, or has no pointer after the `#`. These are one fault, because both halves
    /// are read before either is looked up.
    #[error("no reference to a part of a model")]
    BadRef,
    /// Out of memory.
    #[error("out of memory")]
    NoMemory,
}

impl From<AllocError> for RefFault {
    ghost use Rattle.std.specs.Prelude.{◌≡◌};
    ghost use Rattle.tm_parts.specs.declared.reference.RefFault.TheVariants.{NoMemory};

    ghost from_gives = { λ _ fault. fault ≡ NoMemory };

    fn from(_error: AllocError) -> RefFault {
        RefFault::NoMemory
    }
}

/// The target of a reference from the model of the URL `from`. The text is a location, the first `#`, and a
/// fragment. An empty location is the model itself, under the text that was handed in; another is joined to
/// `from`, and is written as the URL Standard writes it. The fragment is percent-decoded, and is a JSON Pointer
/// (RFC 6901, section 6).
pub fn target(alloc: Global, from: &str, text: &str) -> Result<Reference, RefFault>
    ensures ok { IfOk result (λ r. reference_target from.now text.now ≡ Some r) }
    ensures fault { IfErr result (λ e. (e ≡ RefFault.NoMemory) ⊎ (reference_target from.now text.now ≡ None)) }
    ensures refused { IfErr result (λ e. e ≡ RefFault.BadRef → LeadsNowhere from.now text.now) }
{
    Location::new(alloc, from)?.target(alloc, text)
}

/// The pointer that a fragment writes.
pub(crate) fn written_pointer(alloc: Global, fragment: &str) -> Result<Text, RefFault>
    ensures ok { IfOk result (λ p. pointer_written fragment.now ≡ Some p) }
    ensures fault { IfErr result (λ e. (e ≡ RefFault.NoMemory) ⊎ (pointer_written fragment.now ≡ None)) }
    ensures refused { IfErr result (λ e. e ≡ RefFault.BadRef → pointer_written fragment.now ≡ None) }
{
    let decoded = decoded_text(alloc, fragment)?;
    // Whether a text is a pointer doesn't depend on the tree.
    match pointer(&Tree::Null, decoded.as_str()) {
        Ok(_) => Ok(decoded),
        Err(_) => Err(RefFault::BadRef),
    }
}

/// The text that a fragment writes.
fn decoded_text(alloc: Global, fragment: &str) -> Result<Text, RefFault>
    ensures ok { IfOk result (λ t. (t ≡ percent.percent_decode fragment.now) × IsUtf8 t) }
    ensures fault { IfErr result (λ e. (e ≡ RefFault.NoMemory) ⊎ ¬ (IsUtf8 (percent.percent_decode fragment.now))) }
{
    match percent_decode(fragment.as_bytes()).decode_utf8(alloc) {
        Ok(text) => Ok(Text::from_string(text.into_owned(alloc)?)),
        Err(DecodeError::OutOfMemory) => Err(RefFault::NoMemory),
        Err(DecodeError::Utf8(_)) => Err(RefFault::BadRef),
    }
}
