//! Consequences of the machine, for every network and rack: contracts of functions that no code needs to call.

ghost use Rattle.std.specs.Prelude.{◌≡◌, ◌↔◌, ℕ, List};
ghost use Rattle.coap_msg.specs.declared.endpoint.Endpoint.{Endpoint};
ghost use Rattle.coap_opts.specs.Reading.{AskSeen};
ghost use Rattle.coap_bind.specs.declared.pending.PendingReply.{PendingReply};
ghost use Rattle.thing_ops.specs.Requests.{RequestSeen};
ghost use Rattle.thing_handler.specs.Turns.{AreNumberedFrom, turns_in};
ghost use Rattle.servient_outside.specs.Network.{break_count};
ghost use Rattle.servient_core.specs.declared.serving.Served.{Served};
ghost use Rattle.servient_core.specs.declared.serving.Served.TheVariants as served;
ghost use Rattle.servient_trace.specs.Trace.{Sighting, happened_in, calls_in};
ghost use Rattle.servient_core.specs.Links.{LinksNameEachThing};
ghost use Rattle.servient_core.specs.Machine.{Site, State};
ghost use Rattle.servient_core.specs.Serving.{Serves, BreaksAtEnd, StandsFor};
ghost use Rattle.servient_core.specs.Promises.{DuplicatesActOnNothing, FullTableActsOnNothing};
ghost use Rattle.servient_core.specs.Meaning.{Message, IsWritten, HaveOneMeaning, AsksDirectoryAlone, FindsNoDirectory};
ghost use Rattle.servient_core.specs.Runs.{EachRunHasAHistory, ServingHasAHistory, MissesAreCounted};
ghost use Rattle.servient_core.specs.declared.layers.Layers.{Layers};

use crate::capacity::MOST_WATCHERS;
use crate::sections::MOST_KEPT;

/// Serving answers `Failed` exactly where the network broke, which it did at the end and nowhere before.
pub fn failing_is_exact()
    ensures exactly { (site : Site) → (budget : ℕ) → (result : Served) → (s t : State) → (seen : List Sighting)
        → Serves site budget result s seen t → ((result ≡ served.Failed) ↔ BreaksAtEnd (happened_in seen)) }
    ensures otherwise { (site : Site) → (budget : ℕ) → (result : Served) → (s t : State) → (seen : List Sighting)
        → Serves site budget result s seen t → ¬ (result ≡ served.Failed) → break_count (happened_in seen) ≡ 0 }
{}

/// The turns of a run are numbered one by one, from the number of turns that the state had.
pub fn turns_are_numbered()
    ensures { (site : Site) → (budget : ℕ) → (result : Served) → (s t : State) → (seen : List Sighting)
        → Serves site budget result s seen t → AreNumberedFrom s.thing.turns (turns_in (calls_in seen)) }
{}

/// All that a servient keeps stands for some state of the machine.
pub fn each_stands_for_a_state()
    ensures { (kept : Layers) → (s : State) × StandsFor kept s }
{}

/// A duplicate of a request that was admitted and lives makes no turn and changes nothing of the Things
/// (RFC 7252, section 4.5).
pub fn duplicates_act_on_nothing()
    ensures { DuplicatesActOnNothing }
{}

/// Where as many exchanges live as may, a request is answered once, makes no turn and is no exchange.
pub fn full_table_acts_on_nothing()
    ensures { FullTableActsOnNothing }
{}

/// By either binding an operation has one meaning: two messages that are read as the same request, which isn't one to
/// the directory, where the Things are in the same state, the handlers give the same answers and nothing is out of
/// memory, have the same calls, outcome and emissions, and that outcome is written.
pub fn one_meaning()
    ensures written { (site : Site) → (m : Message) → IsWritten site m }
    ensures same { (site : Site) → (m n : Message) → HaveOneMeaning site m n }
{}

/// The directory is reached by HTTP alone, and by its requests no handler is: a request to it by HTTP changes the
/// directory and nothing of the Things, and a request by CoAP finds nothing at its paths.
pub fn directory_is_apart()
    ensures http { (site : Site) → (c : ℕ) → (q : RequestSeen) → AsksDirectoryAlone site c q }
    ensures coap { (site : Site) → (from : Endpoint) → (ask : AskSeen) → (request : PendingReply) → FindsNoDirectory site from ask request }
{}

/// Each state of a run from the beginning has a history, which are the requests in the events of that run; so
/// `duplicates_act_on_nothing` holds of each.
pub fn each_run_has_a_history()
    ensures runs { EachRunHasAHistory }
    ensures serving { ServingHasAHistory }
{}

/// The text of the links to Things whose segments are plain, read again, has a link to each Thing, in order and no
/// other (RFC 6690).
pub fn links_name_each_thing()
    ensures { LinksNameEachThing }
{}

/// Each handler's count of misses rises by the number of times that it was out of memory, unless it is at its last
/// value.
pub fn misses_are_counted()
    ensures { MissesAreCounted }
{}

/// The constants of a servient as numbers: its observers, and the turns that a run without an end keeps.
pub fn constants_are_these()
    ensures most_watchers { MOST_WATCHERS ≡ 1024 }
    ensures most_kept { MOST_KEPT ≡ 4096 }
{}
