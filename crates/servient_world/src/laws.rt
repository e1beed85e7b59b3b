//! Laws of the world of both ends, as contracts of functions that do nothing, since a law is proved only as a clause.

ghost use Rattle.std.specs.Prelude.{◌≡◌};
ghost use Rattle.servient_world.specs.Examples.{SomeoneActs, SomeoneTakesAValue};
ghost use Rattle.servient_world.specs.Led.{AllAreLed};
ghost use Rattle.servient_world.specs.Rows.{ReadsAreOfOneAct, WritesAreOneAct};
ghost use Rattle.servient_world.specs.Laws.{ActedOnce, AnsweredOnce, ObservedOnce, ValuesNeverGoBack, ValuesHaveASource};

use crate::network::MAX_LATENCY;

/// For each ask the server makes at most one act, whatever is lost, duplicated or reordered.
pub fn acted_once()
    ensures { ActedOnce }
{}

/// For each ask that was answered, but by excuses, for the links, and with blocks that need no act of their own, the
/// server made an act, and the response says its outcome.
pub fn answered_once()
    ensures { AnsweredOnce }
{}

/// For each ask that ended with a value of its target the server made an act.
pub fn observed_once()
    ensures { ObservedOnce }
{}

/// Of the values that are taken for one ask none is of an earlier emission than one before it.
pub fn values_never_go_back()
    ensures { ValuesNeverGoBack }
{}

/// Each value that is taken was read by the act for its ask, or emitted for the target of that act.
pub fn values_have_a_source()
    ensures { ValuesHaveASource }
{}

/// Each datagram that the server takes is passed over, or leads to one thing: an act, an answer to a block alone, a block of a
/// kept body, the links, a refusal of options, or being out of memory.
pub fn all_are_led()
    ensures { AllAreLed }
{}

/// A row of asks for the blocks of one body reads the outcome of one act, or the links.
pub fn reads_are_of_one_act()
    ensures { ReadsAreOfOneAct }
{}

/// A body that a row of asks writes in blocks is acted on once, whole.
pub fn writes_are_one_act()
    ensures { WritesAreOneAct }
{}

/// Something happens in the world: there is a run in which the server makes an act.
pub fn someone_acts()
    ensures { SomeoneActs }
{}

/// There is a run in which the client takes a value.
pub fn someone_takes_a_value()
    ensures { SomeoneTakesAValue }
{}

/// The greatest time on the way of a datagram (RFC 7252, section 4.8.2), in milliseconds.
pub fn constants_are_these()
    ensures max_latency { MAX_LATENCY ≡ 100000 }
{}
