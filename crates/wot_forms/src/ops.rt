//! Lists of operations, and the operations of a form that names none.

ghost use Rattle.std.specs.Prelude.{◌≡◌};
ghost use Rattle.wot_forms.specs.Forms.{default_ops as defaults_of};

use std::marker::Model;
use wot_terms::{Kind, Op};

/// Operations in order. Contracts see the list of them.
#[derive(Debug, Drop)]
pub struct Ops {
    kept: OpList,
}

/// A list that is always the same, which takes no memory, or one of its own.
#[derive(Debug, Drop)]
enum OpList {
    Fixed(&'static [Op]),
    Listed(Vec<Op>),
}

impl Model for Ops {
    ghost use Rattle.std.specs.Prelude.{List};
    ghost use Rattle.wot_terms.specs.declared.op.Op.{Op};
    ghost use Rattle.wot_forms.specs.Ops.{ops_kept};
    ghost use Rattle.wot_forms.specs.OpCodes.{ops_code};

    ghost Value = { List Op };

    ghost coded = { ops_code };

    ghost view = { λ o. ops_kept o.kept };
}

impl Ops {
    /// The operations of a vector, which is taken over as it is.
    pub fn from_vec(ops: Vec<Op>) -> Self
        ensures { result ≡ ops.items }
    {
        Ops {
            kept: OpList::Listed(ops),
        }
    }

    /// Operations that are always the same.
    pub(crate) fn fixed(ops: &'static [Op]) -> Self
        ensures { result ≡ ops.now }
    {
        Ops {
            kept: OpList::Fixed(ops),
        }
    }

    /// The operations as a slice.
    pub fn as_slice(&self) -> &[Op]
        ensures { result.now ≡ self.now }
    {
        match &self.kept {
            OpList::Fixed(ops) => ops,
            OpList::Listed(ops) => ops.as_slice(),
        }
    }
}

/// The operations of a form that names none, in an affordance of this kind with these flags (TD 1.1, section 5.4). It
/// takes no memory. The flags say something of properties alone.
pub fn default_ops(kind: Kind, read_only: bool, write_only: bool) -> Ops
    ensures { result ≡ defaults_of kind read_only write_only }
{
    Ops::fixed(fixed_ops(kind, read_only, write_only))
}

/// The same operations as a slice.
pub(crate) fn fixed_ops(kind: Kind, read_only: bool, write_only: bool) -> &'static [Op]
    ensures { result.now ≡ defaults_of kind read_only write_only }
{
    match kind {
        Kind::Property => match (write_only, read_only) {
            (false, false) => &[Op::ReadProperty, Op::WriteProperty],
            (false, true) => &[Op::ReadProperty],
            (true, false) => &[Op::WriteProperty],
            (true, true) => &[],
        },
        Kind::Action => &[Op::InvokeAction],
        Kind::Event => &[Op::SubscribeEvent, Op::UnsubscribeEvent],
    }
}
