//! Laws on neighbours.

ghost use Rattle.neighbour_laws.specs.Askers.{DatagramsGoToAskers};
ghost use Rattle.neighbour_laws.specs.Converging.{DeedsAreSeen, ObserversConverge};
ghost use Rattle.neighbour_laws.specs.Neighbours.{NeighboursDoNotMatter};
ghost use Rattle.neighbour_laws.specs.Resting.{ReadsMoveNobody};

/// Each datagram that a run sends goes to an endpoint from which the run took one before.
pub fn datagrams_go_to_askers()
    ensures { DatagramsGoToAskers }
{}

/// An event of one connection or of one endpoint leaves each other connection with its wait as it was, unless the wait is
/// answered, since its target had a new value or it was too long, or the connection is idle and is closed. It leaves the
/// living exchanges with their replies and the living parts of each other endpoint as they were. The observers of that
/// endpoint are those that it would have if it were alone, and of its bodies one goes at most, the oldest of all, where 16
/// were kept and a further one was put.
pub fn neighbours_do_not_matter()
    ensures { NeighboursDoNotMatter }
{}

/// At the end of each event of a run an observer that isn't marked was told the last value of its target, with the number
/// that it has, and nothing since: by a notification, or by the response that registered it, since which its target had no
/// new value. For one that is marked, an observer of its endpoint has a notification that isn't acknowledged and isn't
/// late.
pub fn observers_converge()
    ensures { ObserversConverge }
{}

/// The deeds by which a run told its observers something are datagrams of its trace, and those by which it emitted give the
/// last values of the Things.
pub fn deeds_are_seen()
    ensures { DeedsAreSeen }
{}

/// A Confirmable request without Observe that emits nothing, and comes directly after another event and at its moment,
/// leaves the connections with their waits, the observers, the next message ID and the directory as they were, and nothing
/// is done to the network but that it is answered.
pub fn reads_move_nobody()
    ensures { ReadsMoveNobody }
{}
