//! Laws over whole runs.

ghost use Rattle.servient_laws.specs.CallRequests.{CallsHaveRequests};
ghost use Rattle.servient_laws.specs.Calls.{CallsAreFit};
ghost use Rattle.servient_laws.specs.Determined.{RunsAreDetermined};
ghost use Rattle.servient_laws.specs.Dialogues.{ResponsesPairWithRequests};
ghost use Rattle.servient_laws.specs.DirectoryRuns.{DirectoryGivesOutWhatStands};
ghost use Rattle.servient_laws.specs.Failures.{FailuresAreCounted};
ghost use Rattle.servient_laws.specs.InMemory.{NothingFailsInMemory};
ghost use Rattle.servient_laws.specs.Memory.{MemoryIsSeen};
ghost use Rattle.servient_laws.specs.Payloads.{PayloadsAreOfOutcomes};
ghost use Rattle.servient_laws.specs.Spoken.{RequestsAreSpoken};
ghost use Rattle.servient_laws.specs.Transfers.{JoinedBodiesActOnce, LaterBlocksAreOfOneAct, RequestsActOnce};
ghost use Rattle.servient_laws.specs.Stops.{StopsAreCounted};
ghost use Rattle.servient_laws.specs.Untouched.{FaultsTakeNoEvent, HandlersStay};
ghost use Rattle.servient_laws.specs.Requests.{RepeatsActOnce, FullTablesActOnNothing};
ghost use Rattle.servient_laws.specs.Sections.{SectionsKeepPromises};

/// A duplicate of a request that was admitted and lives calls no handler and changes nothing. Where both are Confirmable
/// and the first was replied to, it is answered by the very datagram that was sent then, and else by none (RFC 7252,
/// section 4.5).
pub fn repeats_act_once()
    ensures { RepeatsActOnce }
{}

/// A request that finds as many exchanges alive as may be is answered once, and acts on nothing.
pub fn full_tables_act_on_nothing()
    ensures { FullTablesActOnNothing }
{}

/// Each call of a run is made of the handler of an affordance and is one of its kind, and each value that is written or
/// handed in is accepted by its schema and has at most 1,024 bytes.
pub fn calls_are_fit()
    ensures { CallsAreFit }
{}

/// Each response that is sent on a connection of HTTP is the final one of the request that was taken from it last, and says
/// that request's outcome; or it is a 100 for the message at the front, or the one to a fault, before the close. Nothing is
/// sent after a close or an end until the connection is opened anew, and a request that has no response waits.
pub fn responses_pair_with_requests()
    ensures { ResponsesPairWithRequests }
{}

/// Each call of a handler in a run polls an event on a tick, or is one of a request that came, by a datagram or as the message
/// at the front of a connection's stream: the next of those that the act asks for which its path and its verb lead to, up to
/// one that fails. Each such datagram and each such message counts once.
pub fn calls_have_requests()
    ensures { CallsHaveRequests }
{}

/// A run in which the handlers forget their turns now and then keeps these three: it is one run of the machine over all
/// its events, whatever was forgotten between them.
pub fn sections_keep_promises()
    ensures { SectionsKeepPromises }
{}

/// A request that was out of memory made no call and left the Things as they were, or the last thing seen of it is that
/// the handler which was to be called next was out of memory.
pub fn memory_is_seen()
    ensures { MemoryIsSeen }
{}

/// The polls that are left out and the operations that stop at a handler are together at most as many as its count of
/// misses rises by, unless that is at its last value.
pub fn stops_are_counted()
    ensures { StopsAreCounted }
{}

/// Two runs from the start with the same Things, events and answers of handlers do the same, act by act and call by call,
/// up to the first sign that memory was wanting in either; and throughout where both have the same signs, of which none
/// answers a block of a request at once. So the machine leaves nothing open but memory.
pub fn runs_are_determined()
    ensures { RunsAreDetermined }
{}

/// Where a plan is served and the status isn't 0, 6, 8 or 7, no event was taken from the network.
pub fn faults_take_no_event()
    ensures { FaultsTakeNoEvent }
{}

/// Where the status is 3, reading a file failed, which the files' count records, or a file that was read isn't there;
/// where it is 6, a call of the network failed, which its count records.
pub fn failures_are_counted()
    ensures { FailuresAreCounted }
{}

/// Where the words are no command, or `check` or `derive`, each handler is as it was.
pub fn handlers_stay()
    ensures { HandlersStay }
{}

/// Over files, a network and an output in memory none of whose calls fails, with room for the text that the command writes,
/// there is no failure of those that the clause `complete` of the top call asks about, whatever the command.
pub fn nothing_fails_in_memory()
    ensures { NothingFailsInMemory }
{}

/// The reply to a message says the payload of its outcome: by CoAP unless it is given in blocks or too long for a
/// datagram, by HTTP unless the request was HEAD; and the tag of the version that was read. So two messages of one
/// meaning are replied to with one payload and one tag.
pub fn payloads_are_of_outcomes()
    ensures { PayloadsAreOfOutcomes }
{}

/// Each request that both bindings can say, its conditions included, is read from a message of either, so that the law
/// of one meaning by both is said of something.
pub fn requests_are_spoken()
    ensures { RequestsAreSpoken }
{}

/// A CoAP request that is admitted and wants an act makes one, and the reply says its payload, or the part of it that
/// is to be given first; or it is out of memory, and makes none.
pub fn requests_act_once()
    ensures { RequestsActOnce }
{}

/// Each later block of a response that is sent to an endpoint for a path is the part, from its number times its size
/// on, of one payload: that of one act, made on a request of that endpoint for that path less than 247,000 ms before.
/// None is made for it (RFC 7959, section 2.4).
pub fn later_blocks_are_of_one_act()
    ensures { LaterBlocksAreOfOneAct }
{}

/// The last block of a request's body leads to one act, on the payloads joined of blocks that came in their order, all
/// of one endpoint, code and path; each before it, and each that isn't taken, leads to none (RFC 7959, section 2.5).
pub fn joined_bodies_act_once()
    ensures { JoinedBodiesActOnce }
{}

/// Over a whole run each request to the directory is answered by what stands at its moment, by the changes that the requests
/// before it made: one for an entry gets the entry as it stands, one for the list the part of all that it asks for. The
/// directory is full exactly where no earlier fault holds, 4,096 entries stand, and the id is new, unless the request is out
/// of memory.
pub fn directory_gives_out_what_stands()
    ensures { DirectoryGivesOutWhatStands }
{}
