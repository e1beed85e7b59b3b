//! The demands of a schema on integers.

ghost use Rattle.std.specs.Prelude.{◌≡◌, ◌↔◌, ◌<◌, ◌*ℤ◌, ℤ, pos, IsTrue, IfSome};
ghost use Rattle.std.specs.Option.{ForSome, option_map};
ghost use Rattle.wot_json.specs.Tree.{integer, members_of};
ghost use Rattle.wot_json.specs.Lookup.{value_under};
ghost use Rattle.wot_schema.specs.Faults.{IsMet, AreRowsMet, whole_number, number_above_zero};

use wot_json::{Members, Tree};

/// The rows of the table that speak of integers.
#[derive(Debug, Drop)]
pub(crate) struct NumberRules {
    pub(crate) minimum: Option<i64>,
    pub(crate) maximum: Option<i64>,
    pub(crate) exclusive_minimum: Option<i64>,
    pub(crate) exclusive_maximum: Option<i64>,
    pub(crate) multiple_of: Option<u64>,
    ghost above_zero: { ForSome multiple_of (λ unit. 0 < unit) },
}

impl NumberRules {
    ghost use Rattle.wot_schema.specs.Numbers.{AreNumbersOf, IsNumberWithin};

    /// The rules that the members of a schema give.
    pub(crate) fn read(members: &Members) -> NumberRules
        requires { AreRowsMet (members_of members.now) }
        ensures { AreNumbersOf (members_of members.now) result }
    {
        NumberRules {
            minimum: read_integer(members, "minimum"),
            maximum: read_integer(members, "maximum"),
            exclusive_minimum: read_integer(members, "exclusiveMinimum"),
            exclusive_maximum: read_integer(members, "exclusiveMaximum"),
            multiple_of: read_unit(members, "multipleOf"),
        }
    }

    /// The number meets the rules.
    pub(crate) fn accept(&self, number: i64) -> bool
        ensures { IsTrue result ↔ IsNumberWithin self.now number }
    {
        self.minimum.is_none_or(|least| least <= number)
            && self.maximum.is_none_or(|most| number <= most)
            && self.exclusive_minimum.is_none_or(|bound| bound < number)
            && self.exclusive_maximum.is_none_or(|bound| number < bound)
            && is_multiple(number, self.multiple_of)
    }
}

fn is_multiple(number: i64, unit: Option<u64>) -> bool
    requires { ForSome unit (λ n. 0 < n) }
    ensures { IsTrue result ↔ IfSome unit (λ n. (k : ℤ) × (number ≡ k *ℤ pos n)) }
{
    match unit {
        None => true,
        // On absolute values, because the least integer then needs no care.
        Some(unit) => number.unsigned_abs() % unit == 0,
    }
}

/// The integer that the member of this name is.
fn read_integer(members: &Members, name: &str) -> Option<i64>
    requires { IsMet (members_of members.now) (name.now, whole_number) }
    ensures { value_under name.now (members_of members.now) ≡ option_map integer result }
{
    match members.value_under(name)? {
        Tree::Int(number) => Some(*number),
        _ => None,
    }
}

/// The integer above 0 that the member of this name is.
fn read_unit(members: &Members, name: &str) -> Option<u64>
    requires { IsMet (members_of members.now) (name.now, number_above_zero) }
    ensures ok { value_under name.now (members_of members.now) ≡ option_map (λ n. integer (pos n)) result }
    ensures above_zero { ForSome result (λ n. 0 < n) }
{
    match members.value_under(name)? {
        Tree::Int(number) if *number > 0 => Some(*number as u64),
        _ => None,
    }
}
