//! `storm SEED N`: the events of a storm are run on the built-in Thing, and the datagrams and turns are counted.

ghost use Rattle.std.specs.Prelude.{◌≡◌, ℕ, List, Option, IfOk, IfSome, IsSome};
ghost use Rattle.servient_outside.specs.Network.{Happening, NetSeen, acts_in};
ghost use Rattle.servient_outside.specs.NetMemory.{left_events, told_history};
ghost use Rattle.servient_outside.specs.Files.{FilesSeen};
ghost use Rattle.thing_site.specs.Exposing.{kinds_of};
ghost use Rattle.thing_site.specs.Fits.{Fits};
ghost use Rattle.servient_plan.specs.Plan.{MayBeServed};
ghost use Rattle.servient_trace.specs.Trace.{outside};
ghost use Rattle.servient_core.specs.Machine.{start};
ghost use Rattle.servient_core.specs.Serving.{StandsFor};
ghost use Rattle.command_stages.specs.Stages.{around};
ghost use Rattle.servient_cli.specs.Counting.{counts_by, storm_line};
ghost use Rattle.servient_cli.specs.Storming.{HasStorm, RunsStorm, Storms, StormsOn};
ghost use Rattle.command_stages.specs.Ending.{EndsBy};

use crate::counting::{Counts, counted, datagram_count, sent_count, turns_kept, unavailable_count};
use crate::opening::open;
use command_stages::{Ended, Ending, Planned, built_in};
use servient_core::{Served, Servient, serve};
use servient_outside::{Calls, NetMemory};
use std::alloc::{AllocError, Global};
use storm_events::storm_events;
use thing_handler::Handlers;
use wot_json::NoMemory;

/// The number of exchanges that may live in a storm: so few that their table is soon full.
pub const STORM_EXCHANGES: u32 = 512;

/// The load of a storm.
#[derive(Clone, Copy, Debug, PartialEq, Eq)]
pub struct Load {
    /// The number of events, the Stop at the end with them.
    pub events: u64,
    /// The number of datagrams among them.
    pub datagrams: usize,
}

/// Runs the first `count` events of the storm of a seed on the built-in Thing, and says the counts.
pub fn storm<R: Handlers>(
    alloc: Global,
    seed: u32,
    count: u32,
    rack: &mut R,
) -> Result<Ending, Ended>
    ensures { (files : FilesSeen) → (net : NetSeen) → EndsBy (Storms (kinds_of (R.slots rack.old)) seed count)
        (around files (outside net (R.slots rack.old))) (around files (outside net (R.slots rack.new))) result }
{
    let mut planned = built_in(alloc)?;
    planned.plan.exchanges = STORM_EXCHANGES;
    storm_on(alloc, &planned, seed, count, rack)
}

/// Opens the servient of a plan, and runs the storm on it.
fn storm_on<R: Handlers>(
    alloc: Global,
    planned: &Planned,
    seed: u32,
    count: u32,
    rack: &mut R,
) -> Result<Ending, Ended>
    requires { MayBeServed planned.now.plan }
    ensures { (files : FilesSeen) → (net : NetSeen) → EndsBy (StormsOn (kinds_of (R.slots rack.old)) seed count planned.now)
        (around files (outside net (R.slots rack.old))) (around files (outside net (R.slots rack.new))) result }
{
    let mut servient = open(alloc, "builtin", planned, rack)?;
    run_storm(alloc, &mut servient, seed, count, rack)
}

/// Makes the events of a storm, and runs them.
fn run_storm<R: Handlers>(
    alloc: Global,
    servient: &mut Servient,
    seed: u32,
    count: u32,
    rack: &mut R,
) -> Result<Ending, Ended>
    requires fits { Fits servient.old.exposed.site (R.slots rack.old) }
    ensures { (files : FilesSeen) → (net : NetSeen) → (exchanges : ℕ) → (epoch : Option ℕ) → StandsFor servient.old (start servient.old.exposed.site exchanges epoch)
        → EndsBy (RunsStorm seed count exchanges epoch servient.old.exposed.site)
        (around files (outside net (R.slots rack.old))) (around files (outside net (R.slots rack.new))) result }
{
    let events = storm_events(alloc, seed, count)?;
    let load = Load {
        events: u64::from(count) + 1,
        datagrams: datagram_count(&events),
    };
    let mut net = NetMemory::new(alloc, events, Calls::new(alloc))?;
    serve_storm(alloc, servient, &mut net, load, rack)
}

/// Serves the events of a network in memory, which are a storm, and says the counts.
fn serve_storm<R: Handlers>(
    alloc: Global,
    servient: &mut Servient,
    net: &mut NetMemory,
    load: Load,
    rack: &mut R,
) -> Result<Ending, Ended>
    requires fits { Fits servient.old.exposed.site (R.slots rack.old) }
    requires storm { (seed : ℕ) × (count : ℕ) × HasStorm seed count load net.old }
    ensures { (files : FilesSeen) → (seen : NetSeen) → (exchanges : ℕ) → (epoch : Option ℕ) → (seed count : ℕ) → HasStorm seed count load net.old
        → StandsFor servient.old (start servient.old.exposed.site exchanges epoch)
        → EndsBy (RunsStorm seed count exchanges epoch servient.old.exposed.site)
        (around files (outside seen (R.slots rack.old))) (around files (outside seen (R.slots rack.new))) result }
{
    let before = turns_kept(rack);
    let served = serve(servient, net, rack, load.events);
    let after = turns_kept(rack);
    let ending = summary(alloc, net, load.datagrams, after - before)?;
    match served {
        Served::Stopped => Ok(ending),
        Served::Spent => unreachable!(),
        Served::Failed => unreachable!(),
    }
}

/// The end of a run whose acts a network has kept; none where an act was lost.
fn summary(
    alloc: Global,
    net: &NetMemory,
    datagrams: usize,
    turns: u128,
) -> Result<Ending, NoMemory>
    ensures { (happened : List Happening) → IsSome (left_events net.now) → IfSome (told_history net.now) (λ all. all ≡ happened)
        → IfOk result (λ e. (e.status ≡ 0) × (e.text ≡ storm_line (counts_by datagrams (acts_in happened) turns))) }
{
    if net.lost() != 0 {
        return Err(AllocError);
    }
    let acts = net.acts();
    let counts = Counts {
        datagrams,
        sent: sent_count(acts),
        full: unavailable_count(acts),
        turns,
    };
    counted(alloc, &counts)
}
