//! The constant of values, in the contract of a function that does nothing.

ghost use Rattle.std.specs.Prelude.{◌≡◌};

use crate::refusing::LONGEST_VALUE;

/// The most bytes of the text of a value that is written or handed in, as a number.
pub fn constants_are_these()
    ensures longest_value { LONGEST_VALUE ≡ 1024 }
{}
