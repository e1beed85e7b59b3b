//! The constant of the lines, in the contract of a function that does nothing.

ghost use Rattle.std.specs.Prelude.{◌≡◌};

use crate::buffer::PIECE_BYTES;

/// The constant of the lines as a number: the bytes of the longest piece that is written.
pub fn constants_are_these()
    ensures { PIECE_BYTES ≡ 4096 }
{}
