//! The operations of a consumer, and the methods by which they are asked for.

ghost use Rattle.std.specs.Prelude.{◌≡◌};
ghost use Rattle.std.specs.Option.{option_copied};
ghost use Rattle.wot_consumer.specs.Operations as operation;

use thing_ops::Verb;
use wot_terms::{Kind, Op};

/// The affordances that have an operation; none where it is one of the Thing as a whole.
pub(crate) fn kind_of(op: Op) -> Option<Kind>
    ensures { result ≡ operation.kind_of op }
{
    match op {
        Op::ReadProperty | Op::WriteProperty | Op::ObserveProperty => Some(Kind::Property),
        Op::InvokeAction => Some(Kind::Action),
        _ => None,
    }
}

/// Values are waited for as they come.
pub(crate) fn is_observing(op: Op) -> bool
    ensures { result ≡ operation.is_observing op }
{
    matches!(op, Op::ObserveProperty)
}

/// The method by which an operation is asked for: the one that the form names, where that is GET, PUT or POST.
pub(crate) fn verb_of(op: Op, named: Option<&str>) -> Verb
    ensures { result ≡ operation.verb_of op (option_copied named.entry) }
{
    match named {
        Some("GET") => Verb::Get,
        Some("PUT") => Verb::Put,
        Some("POST") => Verb::Post,
        _ => default_verb(op),
    }
}

/// The method where the form names none.
fn default_verb(op: Op) -> Verb
    ensures { result ≡ operation.default_verb op }
{
    match op {
        Op::WriteProperty => Verb::Put,
        Op::InvokeAction => Verb::Post,
        _ => Verb::Get,
    }
}
