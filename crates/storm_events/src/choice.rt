//! The kinds of events.

ghost use Rattle.std.specs.Prelude.{◌≡◌};
ghost use Rattle.storm_events.specs.Storm.{choice_of as chosen_by};

/// A kind of event.
#[derive(Clone, Copy, Debug, PartialEq, Eq)]
pub enum Choice {
    /// A Confirmable GET.
    Get,
    /// A Confirmable PUT.
    Put,
    /// A Non-confirmable GET.
    GetOnce,
    /// A datagram that came before.
    Repeat,
    /// Nothing but that time goes by.
    Tick,
}

/// The choice by a number below 8.
pub fn choice_of(number: u64) -> Choice
    ensures { result ≡ chosen_by number }
{
    if number < 3 {
        Choice::Get
    } else if number < 5 {
        Choice::Put
    } else if number == 5 {
        Choice::GetOnce
    } else if number == 6 {
        Choice::Repeat
    } else {
        Choice::Tick
    }
}
