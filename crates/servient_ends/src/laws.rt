//! Laws of both ends where the server is the whole servient, as contracts of functions that do nothing.

ghost use Rattle.servient_ends.specs.Examples.{SomeReadsEnd, SomeServientActs, SomeValueIsTaken, SomeWritesAct};
ghost use Rattle.servient_ends.specs.Laws.{TurnsAreMoves, ServientActsOnce, ServientAnswersOnce, ServientObservesOnce};
ghost use Rattle.servient_ends.specs.Laws.{ServientValuesNeverGoBack, ServientValuesHaveASource, ServientRuns, ServientReadsOneAct, ServientWritesOneAct};

/// Events at the servient and at the client come to the same as some moves of the world of both ends.
pub fn turns_are_moves()
    ensures { TurnsAreMoves }
{}

/// The servient meanwhile makes a run of its machine, and the trace of that run has the datagrams that it sent in the
/// world.
pub fn servient_runs()
    ensures { ServientRuns }
{}

/// For each ask the servient makes at most one act, whatever is lost, duplicated or reordered.
pub fn servient_acts_once()
    ensures { ServientActsOnce }
{}

/// For each ask that was answered, but by excuses, for the links, and with blocks that need no act of their own, the
/// servient made an act, and the response says its outcome.
pub fn servient_answers_once()
    ensures { ServientAnswersOnce }
{}

/// For each ask that ended with a value of its observation the servient made an act.
pub fn servient_observes_once()
    ensures { ServientObservesOnce }
{}

/// Of the values that are taken for one ask none is of an earlier emission of the servient than one before it.
pub fn servient_values_never_go_back()
    ensures { ServientValuesNeverGoBack }
{}

/// Each value that is taken was read by the act for its ask, or emitted for the target of that act.
pub fn servient_values_have_a_source()
    ensures { ServientValuesHaveASource }
{}

/// A row of asks for the blocks of one body reads of one act, or of the links of the servient.
pub fn servient_reads_one_act()
    ensures { ServientReadsOneAct }
{}

/// A row of asks with the blocks of one body is acted on once, whole.
pub fn servient_writes_one_act()
    ensures { ServientWritesOneAct }
{}

/// Something happens: there is a run in which the servient makes an act.
pub fn some_servient_acts()
    ensures { SomeServientActs }
{}

/// A row of block-wise reads ends in some run: the client is given both blocks of the links.
pub fn some_reads_end()
    ensures { SomeReadsEnd }
{}

/// A value is taken in some run: the client observes an event, which emits one, and takes it.
pub fn some_value_is_taken()
    ensures { SomeValueIsTaken }
{}

/// A row of block-wise writes acts in some run: both blocks of a value are put to a property, and it is written.
pub fn some_writes_act()
    ensures { SomeWritesAct }
{}
