//! Values in place of placeholders, in a whole model.

ghost use Rattle.std.specs.Prelude.{◌≡◌, [], IfOk, IfErr};
ghost use Rattle.wot_json.specs.Meaning.{json_of};
ghost use Rattle.tm_parts.specs.Substitution.{substituted_value, faults_of, IsSubstitutionRefusal};

use crate::bindings::Bindings;
use crate::building::built;
use crate::judging::judge;
use crate::values::Values;
use std::alloc::{AllocError, Global};
use thiserror::Error;
use wot_json::{Text, Tree};

/// The reason for which a model has no value with these bindings.
#[derive(Debug, Drop, Error)]
pub enum PartFault {
    /// The name of a member holds a placeholder: the pointer to that member (RFC 6901).
    #[error("the name of the member at {0} holds a placeholder")]
    InName(Text),
    /// A placeholder in a longer text is bound to a value that is no text: its name.
    #[error("the value of {0} in a longer text is no text")]
    NotText(Text),
    /// Out of memory.
    #[error("out of memory")]
    NoMemory,
}

impl From<AllocError> for PartFault {
    ghost use Rattle.std.specs.Prelude.{◌≡◌};
    ghost use Rattle.tm_parts.specs.declared.substitution.PartFault.TheVariants.{NoMemory};

    ghost from_gives = { λ _ fault. fault ≡ NoMemory };

    fn from(_error: AllocError) -> PartFault {
        PartFault::NoMemory
    }
}

/// The model with the bound values in place of its placeholders. A text that is exactly one placeholder becomes
/// the value, of any type; into a longer text go texts alone. Unbound placeholders stay as they are written,
/// and what a value brings in isn't read again. The fault is the first in preorder, where a member name with a
/// placeholder is one, and an object's names are judged before its members.
///
/// Its time is in proportion to the model and to the bindings, and for each placeholder and each binding to the
/// logarithm of the number of bindings, with what the values add.
pub fn substitute(alloc: Global, tree: &Tree, bindings: &Bindings) -> Result<Tree, PartFault>
    ensures ok { IfOk result (λ t. (json_of t ≡ substituted_value (json_of tree.now) bindings.now)
        × (faults_of (json_of tree.now) bindings.now ≡ [])) }
    ensures fault { IfErr result (λ e. IsSubstitutionRefusal e (faults_of (json_of tree.now) bindings.now)) }
{
    let values = Values::new(alloc, bindings)?;
    judge(alloc, tree, &values)?;
    Ok(built(alloc, tree, &values)?)
}
