//! The constants of handlers, in the contract of a function that does nothing.

ghost use Rattle.std.specs.Prelude.{◌≡◌};

use crate::shipped::SHIPPED_SLOTS;
use crate::turn_log::MOST_ROOM;

/// The constants of handlers as numbers: the slots of the shipped rack, and the turns for which room is kept.
pub fn constants_are_these()
    ensures shipped_slots { SHIPPED_SLOTS ≡ 64 }
    ensures most_room { MOST_ROOM ≡ 8192 }
{}
