//! The operations of forms.

ghost use Rattle.std.specs.Prelude.{◌≡◌, IfSome, IfNone};
ghost use Rattle.wot_terms.specs.Operations.{op_name, operations as operations_of, is_operation as is_operation_of};
ghost use Rattle.wot_terms.specs.declared.op.Op.{Op};

use crate::Kind;

/// An operation (TD 1.1, section 5.3.4.2).
#[derive(Clone, Copy, Debug, PartialEq, Eq)]
pub enum Op {
    ReadProperty,
    WriteProperty,
    ObserveProperty,
    UnobserveProperty,
    InvokeAction,
    QueryAction,
    CancelAction,
    SubscribeEvent,
    UnsubscribeEvent,
    ReadAllProperties,
    WriteAllProperties,
    ReadMultipleProperties,
    WriteMultipleProperties,
    ObserveAllProperties,
    UnobserveAllProperties,
    SubscribeAllEvents,
    UnsubscribeAllEvents,
    QueryAllActions,
}

impl Op {
    /// The operation of this name, where there is one.
    pub fn named(text: &str) -> Option<Op>
        ensures ok { IfSome result (λ op. text.now ≡ op_name op) }
        ensures complete { IfNone result ((op : Op) → ¬ (text.now ≡ op_name op)) }
    {
        match text {
            "readproperty" => Some(Op::ReadProperty),
            "writeproperty" => Some(Op::WriteProperty),
            "observeproperty" => Some(Op::ObserveProperty),
            "unobserveproperty" => Some(Op::UnobserveProperty),
            "invokeaction" => Some(Op::InvokeAction),
            "queryaction" => Some(Op::QueryAction),
            "cancelaction" => Some(Op::CancelAction),
            "subscribeevent" => Some(Op::SubscribeEvent),
            "unsubscribeevent" => Some(Op::UnsubscribeEvent),
            "readallproperties" => Some(Op::ReadAllProperties),
            "writeallproperties" => Some(Op::WriteAllProperties),
            "readmultipleproperties" => Some(Op::ReadMultipleProperties),
            "writemultipleproperties" => Some(Op::WriteMultipleProperties),
            "observeallproperties" => Some(Op::ObserveAllProperties),
            "unobserveallproperties" => Some(Op::UnobserveAllProperties),
            "subscribeallevents" => Some(Op::SubscribeAllEvents),
            "unsubscribeallevents" => Some(Op::UnsubscribeAllEvents),
            "queryallactions" => Some(Op::QueryAllActions),
            _ => None,
        }
    }

    /// The name of the operation.
    pub fn name(self) -> &'static str
        ensures { result.now ≡ op_name self }
    {
        match self {
            Op::ReadProperty => "readproperty",
            Op::WriteProperty => "writeproperty",
            Op::ObserveProperty => "observeproperty",
            Op::UnobserveProperty => "unobserveproperty",
            Op::InvokeAction => "invokeaction",
            Op::QueryAction => "queryaction",
            Op::CancelAction => "cancelaction",
            Op::SubscribeEvent => "subscribeevent",
            Op::UnsubscribeEvent => "unsubscribeevent",
            Op::ReadAllProperties => "readallproperties",
            Op::WriteAllProperties => "writeallproperties",
            Op::ReadMultipleProperties => "readmultipleproperties",
            Op::WriteMultipleProperties => "writemultipleproperties",
            Op::ObserveAllProperties => "observeallproperties",
            Op::UnobserveAllProperties => "unobserveallproperties",
            Op::SubscribeAllEvents => "subscribeallevents",
            Op::UnsubscribeAllEvents => "unsubscribeallevents",
            Op::QueryAllActions => "queryallactions",
        }
    }
}

/// The operations of forms in affordances of a kind, or, with none, in the root.
fn operations(place: Option<Kind>) -> &'static [Op]
    ensures { result.now ≡ operations_of place }
{
    match place {
        Some(Kind::Property) => &[
            Op::ReadProperty,
            Op::WriteProperty,
            Op::ObserveProperty,
            Op::UnobserveProperty,
        ],
        Some(Kind::Action) => &[Op::InvokeAction, Op::QueryAction, Op::CancelAction],
        Some(Kind::Event) => &[Op::SubscribeEvent, Op::UnsubscribeEvent],
        None => &[
            Op::ReadAllProperties,
            Op::WriteAllProperties,
            Op::ReadMultipleProperties,
            Op::WriteMultipleProperties,
            Op::ObserveAllProperties,
            Op::UnobserveAllProperties,
            Op::SubscribeAllEvents,
            Op::UnsubscribeAllEvents,
            Op::QueryAllActions,
        ],
    }
}

/// The text names an operation of forms at this place.
pub(crate) fn is_operation(place: Option<Kind>, text: &str) -> bool
    ensures { result ≡ is_operation_of place text.now }
{
    for op in operations(place) {
        if text == op.name() {
            return true;
        }
    }
    false
}
