//! The law of the messages of a connection, as the contract of a function that does nothing.

ghost use Rattle.std.specs.Prelude.{◌≡◌};
ghost use Rattle.http_bind.specs.Cutting.{TakesTheFirst, TakesAll, HasOneList};

use crate::bind::ROOM;

/// The requests that are taken from a connection are the first ones of its whole stream, in their order; where nothing
/// is left to take, they are all of them up to a message that isn't whole or a fault; and a stream has one list of
/// these. So the pieces in which a stream comes decide only when a request is taken.
pub fn each_connection_takes_its_stream()
    ensures first { TakesTheFirst }
    ensures all { TakesAll }
    ensures one { HasOneList }
{}

/// The bytes of the room that one connection has for what came and wasn't taken yet.
pub fn constants_are_these()
    ensures room { ROOM ≡ 24576 }
{}
