//! `serve PLAN --log`: the Things of a plan are served, and a line is written for each turn.

ghost use Rattle.std.specs.Prelude.{◌≡◌, IfOk, length};
ghost use Rattle.thing_site.specs.Exposing.{kinds_of};
ghost use Rattle.thing_site.specs.Fits.{Fits};
ghost use Rattle.servient_trace.specs.Trace.{outside};
ghost use Rattle.servient_plan.specs.Plan.{MayBeServed};
ghost use Rattle.servient_core.specs.Machine.{start};
ghost use Rattle.servient_core.specs.Serving.{StandsFor};
ghost use Rattle.servient_outside.specs.Files.{FilesSeen};
ghost use Rattle.servient_script.specs.Merging.{counts_of};
ghost use Rattle.turn_lines.specs.Buffer.{buffered_of, nothing_held};
ghost use Rattle.command_stages.specs.Stages.{Around, around};
ghost use Rattle.command_stages.specs.Ending.{Performs, final_status, final_text};
ghost use Rattle.servient_cli.specs.LoggedServing.{bounds_of as bounds_by, line_at_log_end, status_at_log_end, taken_log, ComesOutInTurn, EndsInTurn, LogsPlan, LogsPlanned, ServesWithLog, TakesLog};

use crate::listening::{ServeRequest, listen};
use crate::opening::{CountedServient, open_counted};
use command_stages::{Ended, Ending, Planned, read_planned};
use command_words::Budget;
use logged_serving::{LoggedEnd, RunLog, serve_logged};
use servient_core::{Plan, RunBounds, Servient};
use servient_outside::{Files, Net, Out, Put};
use std::alloc::Global;
use thing_handler::Handlers;
use turn_lines::Heading;
use wot_json::Bytes;

/// Reads a plan, opens its servient, listens at the plan's place, and serves the events with a log.
pub fn log_plan<F: Files, N: Net, R: Handlers, O: Out>(
    alloc: Global,
    request: ServeRequest<'_>,
    files: &mut F,
    net: &mut N,
    rack: &mut R,
    out: &mut O,
) -> Result<Ending, Ended>
    ensures { EndsInTurn (LogsPlan (F.seen files.old).held (kinds_of (R.slots rack.old)) request.entry.plan.now request.entry.budget request.entry.idle)
        (around (F.seen files.old) (outside (N.seen net.old) (R.slots rack.old)))
        (around (F.seen files.new) (outside (N.seen net.new) (R.slots rack.new)))
        (O.seen out.old) (O.seen out.new) result }
{
    let planned = read_planned(alloc, request.plan, files)?;
    log_planned(alloc, &planned, request, net, rack, out)
}

/// Opens the servient of a plan, takes the memory of its log, listens at the plan's place, and serves the events.
fn log_planned<N: Net, R: Handlers, O: Out>(
    alloc: Global,
    planned: &Planned,
    request: ServeRequest<'_>,
    net: &mut N,
    rack: &mut R,
    out: &mut O,
) -> Result<Ending, Ended>
    requires { MayBeServed planned.now.plan }
    ensures { (files : FilesSeen) → EndsInTurn (LogsPlanned request.entry.plan.now (kinds_of (R.slots rack.old)) request.entry.budget request.entry.idle planned.now)
        (around files (outside (N.seen net.old) (R.slots rack.old)))
        (around files (outside (N.seen net.new) (R.slots rack.new)))
        (O.seen out.old) (O.seen out.new) result }
{
    let mut counted = open_counted(alloc, request.plan, planned, rack)?;
    let mut log = log_of(alloc, &counted.servient, request.budget, rack)?;
    listen(alloc, &planned.plan, request.idle, net)?;
    let ended = log_counted(&planned.plan, &mut counted, &mut log, net, rack, out);
    end_of(alloc, ended)
}

/// The log of a run of this servient, within the bounds that the words say.
fn log_of<R: Handlers>(
    alloc: Global,
    servient: &Servient,
    budget: Budget,
    rack: &R,
) -> Result<RunLog, Ended>
    ensures stage { (a : Around) → Performs TakesLog a a (taken_log result) }
    ensures lines { IfOk result (λ log. buffered_of log.lines ≡ nothing_held) }
    ensures written { IfOk result (λ log. log.written.items ≡ counts_of (R.slots rack.now)) }
    ensures bounds { IfOk result (λ log. log.bounds ≡ bounds_by budget servient.now.exposed.site) }
{
    match RunLog::new(alloc, rack, bounds_of(servient, budget)) {
        Ok(log) => Ok(log),
        Err(_) => Err(Ended::NoMemory),
    }
}

/// The bounds of a run of this servient.
fn bounds_of(servient: &Servient, budget: Budget) -> RunBounds
    ensures { result ≡ bounds_by budget servient.now.exposed.site }
{
    let turns = servient.most_turns();
    match budget {
        Budget::Events(events) => RunBounds {
            events: u64::from(events),
            turns,
        },
        Budget::Endless => RunBounds {
            events: u64::MAX,
            turns,
        },
    }
}

/// Writes the serving line, and then serves the events with their log. Where the serving line isn't written no event is
/// taken.
fn log_counted<N: Net, R: Handlers, O: Out>(
    plan: &Plan,
    counted: &mut CountedServient,
    log: &mut RunLog,
    net: &mut N,
    rack: &mut R,
    out: &mut O,
) -> LoggedEnd
    requires fits { Fits counted.old.servient.exposed.site (R.slots rack.old) }
    requires start { StandsFor counted.old.servient (start counted.old.servient.exposed.site plan.now.exchanges plan.now.epoch) }
    requires count { counted.old.things ≡ length counted.old.servient.exposed.site.things }
    requires lines { buffered_of log.old.lines ≡ nothing_held }
    requires written { log.old.written.items ≡ counts_of (R.slots rack.old) }
    ensures { (files : FilesSeen) → ComesOutInTurn (ServesWithLog log.old.bounds plan.now counted.old.servient.exposed.site)
        (around files (outside (N.seen net.old) (R.slots rack.old)))
        (around files (outside (N.seen net.new) (R.slots rack.new)))
        (O.seen out.old) (O.seen out.new) (status_at_log_end result) (line_at_log_end result) }
{
    let http = plan.frame.bases.http.as_str();
    let coap = plan.frame.bases.coap.as_str();
    let things = counted.things;
    let heading = Heading { http, coap, things };
    match log.begin(out, heading) {
        Put::Failed => return LoggedEnd::Unwritten,
        Put::Done => {}
    }
    serve_logged(&mut counted.servient, net, rack, out, log)
}

/// The end of the command whose serving ended so.
fn end_of(alloc: Global, end: LoggedEnd) -> Result<Ending, Ended>
    ensures status { final_status result ≡ status_at_log_end end }
    ensures text { final_text result ≡ line_at_log_end end }
{
    match end {
        LoggedEnd::Stopped => Ok(Ending {
            status: 0,
            text: Bytes::new(alloc),
        }),
        LoggedEnd::Failed => Err(Ended::Network),
        LoggedEnd::Spent => Err(Ended::Spent),
        LoggedEnd::Unwritten => Err(Ended::Output),
    }
}
