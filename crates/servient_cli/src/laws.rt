//! The constant of the storm, in the contract of a function that does nothing.

ghost use Rattle.std.specs.Prelude.{◌≡◌};

use crate::storming::STORM_EXCHANGES;

/// The places for exchanges that a storm has, as a number.
pub fn constants_are_these()
    ensures storm_exchanges { STORM_EXCHANGES ≡ 512 }
{}
