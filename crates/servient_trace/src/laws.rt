//! The law of traces, as the contract of a function that does nothing.

ghost use Rattle.servient_base.specs.Moves.{ShowsInOrder};
ghost use Rattle.servient_trace.specs.ShownSections.{ShowsInSections};

/// Law: of nothing nothing is shown, and what is shown in one part of a run and then in the next is shown of both.
pub fn sections_are_shown_in_order()
    ensures { ShowsInOrder ShowsInSections }
{}
