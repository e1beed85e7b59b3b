//! `serve PLAN`: the Things of a plan are served at the plan's place, over the network, as its budget says.

ghost use Rattle.std.specs.Prelude.{ℕ, List, Option, ◌*◌};
ghost use Rattle.thing_site.specs.Exposing.{kinds_of};
ghost use Rattle.thing_site.specs.Fits.{Fits};
ghost use Rattle.thing_handler.specs.Handler.{Seen};
ghost use Rattle.servient_trace.specs.Trace.{outside};
ghost use Rattle.servient_plan.specs.Plan.{MayBeServed, place_of};
ghost use Rattle.servient_core.specs.Machine.{start};
ghost use Rattle.servient_core.specs.Serving.{StandsFor};
ghost use Rattle.servient_outside.specs.Files.{FilesSeen};
ghost use Rattle.command_stages.specs.Stages.{around};
ghost use Rattle.servient_cli.specs.Listening.{Endures, Listens, ServesBy, ServesEvents, ServesPlan, ServesPlanned};
ghost use Rattle.command_stages.specs.Ending.{EndsBy, Performs};

use crate::opening::open;
use command_stages::{Ended, Ending, Planned, read_planned};
use command_words::Budget;
use servient_core::{Plan, RunBounds, SectionsEnd, Served, Servient, serve, serve_in_sections};
use servient_outside::{Files, Listened, Net};
use std::alloc::Global;
use thing_handler::Handlers;
use wot_json::Bytes;

/// The request of `serve`.
#[derive(Clone, Copy)]
pub struct ServeRequest<'a> {
    /// The name of the plan's file.
    pub plan: &'a str,
    /// The bound on the events that are taken.
    pub budget: Budget,
    /// The seconds without traffic after which serving ends; 0 if it never does for lack of traffic.
    pub idle: u32,
}

/// Reads a plan, opens its servient, listens at the plan's place, and serves the events.
pub fn serve_plan<F: Files, N: Net, R: Handlers>(
    alloc: Global,
    request: ServeRequest<'_>,
    files: &mut F,
    net: &mut N,
    rack: &mut R,
) -> Result<Ending, Ended>
    ensures { EndsBy (ServesPlan (F.seen files.old).held (kinds_of (R.slots rack.old)) request.entry.plan.now request.entry.budget request.entry.idle)
        (around (F.seen files.old) (outside (N.seen net.old) (R.slots rack.old)))
        (around (F.seen files.new) (outside (N.seen net.new) (R.slots rack.new))) result }
{
    let planned = read_planned(alloc, request.plan, files)?;
    serve_planned(alloc, &planned, request, net, rack)
}

/// Opens the servient of a plan, listens at the plan's place, and serves the events.
fn serve_planned<N: Net, R: Handlers>(
    alloc: Global,
    planned: &Planned,
    request: ServeRequest<'_>,
    net: &mut N,
    rack: &mut R,
) -> Result<Ending, Ended>
    requires { MayBeServed planned.now.plan }
    ensures { (files : FilesSeen) → EndsBy (ServesPlanned request.entry.plan.now (kinds_of (R.slots rack.old)) request.entry.budget request.entry.idle planned.now)
        (around files (outside (N.seen net.old) (R.slots rack.old)))
        (around files (outside (N.seen net.new) (R.slots rack.new))) result }
{
    let mut servient = open(alloc, request.plan, planned, rack)?;
    listen(alloc, &planned.plan, request.idle, net)?;
    serve_by(alloc, &mut servient, request.budget, net, rack)
}

/// Listens at the place of a plan, until `idle` seconds pass without traffic.
pub fn listen<N: Net>(alloc: Global, plan: &Plan, idle: u32, net: &mut N) -> Result<(), Ended>
    ensures { (files : FilesSeen) → (slots : List Seen) → Performs (Listens (place_of plan.now (idle * 1000)))
        (around files (outside (N.seen net.old) slots)) (around files (outside (N.seen net.new) slots)) result }
{
    let place = plan.place(alloc, u64::from(idle) * 1000)?;
    match net.listen(alloc, &place) {
        Listened::Ready => Ok(()),
        Listened::Failed => Err(Ended::Network),
        Listened::NoMemory => Err(Ended::NoMemory),
    }
}

/// Serves as the budget says.
fn serve_by<N: Net, R: Handlers>(
    alloc: Global,
    servient: &mut Servient,
    budget: Budget,
    net: &mut N,
    rack: &mut R,
) -> Result<Ending, Ended>
    requires fits { Fits servient.old.exposed.site (R.slots rack.old) }
    ensures { (files : FilesSeen) → (exchanges : ℕ) → (epoch : Option ℕ) → StandsFor servient.old (start servient.old.exposed.site exchanges epoch)
        → EndsBy (ServesBy budget exchanges epoch servient.old.exposed.site)
        (around files (outside (N.seen net.old) (R.slots rack.old)))
        (around files (outside (N.seen net.new) (R.slots rack.new))) result }
{
    match budget {
        Budget::Events(events) => serve_events(alloc, servient, events, net, rack),
        Budget::Endless => endure(alloc, servient, net, rack),
    }
}

/// Serves as many events as come; the handlers forget their turns now and then.
fn endure<N: Net, R: Handlers>(
    alloc: Global,
    servient: &mut Servient,
    net: &mut N,
    rack: &mut R,
) -> Result<Ending, Ended>
    requires fits { Fits servient.old.exposed.site (R.slots rack.old) }
    ensures { (files : FilesSeen) → (exchanges : ℕ) → (epoch : Option ℕ) → StandsFor servient.old (start servient.old.exposed.site exchanges epoch)
        → EndsBy (Endures exchanges epoch servient.old.exposed.site)
        (around files (outside (N.seen net.old) (R.slots rack.old)))
        (around files (outside (N.seen net.new) (R.slots rack.new))) result }
{
    let bounds = RunBounds {
        events: u64::MAX,
        turns: servient.most_turns(),
    };
    match serve_in_sections(servient, net, rack, bounds) {
        SectionsEnd::Stopped => Ok(Ending {
            status: 0,
            text: Bytes::new(alloc),
        }),
        SectionsEnd::Failed => Err(Ended::Network),
        SectionsEnd::Spent => Err(Ended::Spent),
    }
}

/// Serves at most `budget` events.
fn serve_events<N: Net, R: Handlers>(
    alloc: Global,
    servient: &mut Servient,
    budget: u32,
    net: &mut N,
    rack: &mut R,
) -> Result<Ending, Ended>
    requires fits { Fits servient.old.exposed.site (R.slots rack.old) }
    ensures { (files : FilesSeen) → (exchanges : ℕ) → (epoch : Option ℕ) → StandsFor servient.old (start servient.old.exposed.site exchanges epoch)
        → EndsBy (ServesEvents budget exchanges epoch servient.old.exposed.site)
        (around files (outside (N.seen net.old) (R.slots rack.old)))
        (around files (outside (N.seen net.new) (R.slots rack.new))) result }
{
    match serve(servient, net, rack, u64::from(budget)) {
        Served::Stopped => Ok(Ending {
            status: 0,
            text: Bytes::new(alloc),
        }),
        Served::Failed => Err(Ended::Network),
        Served::Spent => Err(Ended::Spent),
    }
}
