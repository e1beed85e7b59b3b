//! The types that a schema's `type` names.

ghost use Rattle.std.specs.Prelude.{◌≡◌, false, IfSome, IfNone};
ghost use Rattle.std.specs.List.{list_any};
ghost use Rattle.std.specs.Str.{bytes_eq};
ghost use Rattle.wot_json.specs.Meaning.{json_of};
ghost use Rattle.wot_schema.specs.Acceptance.{type_of};
ghost use Rattle.wot_schema.specs.Faults.{type_names};
ghost use Rattle.wot_schema.specs.Kinds.{kind_name};

use wot_json::Tree;

/// A type of values (TD 1.1, section 5.3.2), without `number`.
#[derive(Clone, Copy, Debug, PartialEq, Eq)]
pub(crate) enum ValueType {
    Boolean,
    Integer,
    String,
    Null,
    Array,
    Object,
}

/// The type of this name.
pub(crate) fn kind_named(name: &str) -> Option<ValueType>
    ensures some { IfSome result (λ k. name.now ≡ kind_name k) }
    ensures none { IfNone result (list_any (bytes_eq name.now) type_names ≡ false) }
{
    match name {
        "boolean" => Some(ValueType::Boolean),
        "integer" => Some(ValueType::Integer),
        "string" => Some(ValueType::String),
        "null" => Some(ValueType::Null),
        "array" => Some(ValueType::Array),
        "object" => Some(ValueType::Object),
        _ => None,
    }
}

/// The type of a value.
pub(crate) fn kind_of(value: &Tree) -> ValueType
    ensures { kind_name result ≡ type_of (json_of value.now) }
{
    match value {
        Tree::Null => ValueType::Null,
        Tree::Bool(_) => ValueType::Boolean,
        Tree::Int(_) => ValueType::Integer,
        Tree::Text(_) => ValueType::String,
        Tree::List(_) => ValueType::Array,
        Tree::Obj(_) => ValueType::Object,
    }
}
