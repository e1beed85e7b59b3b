//! The work of each command, from the names of its files on.

ghost use Rattle.std.specs.Prelude.{◌≡◌, Some, false};
ghost use Rattle.servient_trace.specs.Trace.{Outside, outside};
ghost use Rattle.thing_site.specs.Exposing.{kinds_of};
ghost use Rattle.command_stages.specs.Stages.{AndThen, around};
ghost use Rattle.command_stages.specs.Reading.{ReadsFile, longest_json};
ghost use Rattle.command_stages.specs.Checking.{Checks};
ghost use Rattle.servient_cli.specs.Command.{calls_handlers, is_networked, is_writing, Does};
ghost use Rattle.command_stages.specs.Ending.{EndsBy};

use crate::listening::{ServeRequest, serve_plan};
use crate::replay::run_inputs;
use crate::storming::storm;
use command_stages::{
    Ended, Ending, LONGEST_JSON, check_file, derive_plan, plan_name, read_file, read_inputs,
    table_plan,
};
use command_words::Command;
use servient_outside::{Files, Net};
use std::alloc::Global;
use thing_handler::Handlers;

/// Does a command that writes at its end alone.
pub fn run_command<F: Files, N: Net, R: Handlers>(
    alloc: Global,
    command: &Command,
    files: &mut F,
    net: &mut N,
    rack: &mut R,
) -> Result<Ending, Ended>
    requires { is_writing (Some command.now) ≡ false }
    ensures ends { EndsBy (Does (F.seen files.old).held (kinds_of (R.slots rack.old)) command.now)
        (around (F.seen files.old) (outside (N.seen net.old) (R.slots rack.old)))
        (around (F.seen files.new) (outside (N.seen net.new) (R.slots rack.new))) result }
    ensures net { is_networked (Some command.now) ≡ false → net.new ≡ net.old }
    ensures rack { calls_handlers (Some command.now) ≡ false → rack.new ≡ rack.old }
{
    match command {
        Command::Replay {
            script,
            plan,
            events,
        } => {
            let inputs = read_inputs(alloc, plan, script.as_str(), files)?;
            run_inputs(alloc, plan_name(plan), inputs, u64::from(*events), rack)
        }
        Command::Serve { plan, budget, idle } => {
            let request = ServeRequest {
                plan: plan.as_str(),
                budget: *budget,
                idle: *idle,
            };
            serve_plan(alloc, request, files, net, rack)
        }
        Command::Check { description } => check_from(alloc, description.as_str(), files),
        Command::Derive { plan } => derive_plan(alloc, plan.as_str(), files),
        Command::Table { plan } => table_plan(alloc, plan.as_str(), files, rack),
        Command::Storm { seed, events } => storm(alloc, *seed, *events, rack),
        Command::ServeLogged { .. } => unreachable!(),
        Command::Consume(_) => unreachable!(),
        Command::Discover { .. } => unreachable!(),
    }
}

/// Reads a description and checks it.
fn check_from<F: Files>(alloc: Global, name: &str, files: &mut F) -> Result<Ending, Ended>
    ensures { (w : Outside) → EndsBy (AndThen (ReadsFile (F.seen files.old).held longest_json name.now) (Checks name.now))
        (around (F.seen files.old) w) (around (F.seen files.new) w) result }
{
    let content = read_file(alloc, name, LONGEST_JSON, files)?;
    check_file(alloc, name, content.as_slice())
}
