//! The inputs of a replay: the plan with its models, or the built-in Thing where none is named, and the events of a script.

ghost use Rattle.std.specs.Prelude.{◌≡◌, ◌≤◌, Option, length, IfOk};
ghost use Rattle.servient_trace.specs.Trace.{Outside};
ghost use Rattle.servient_plan.specs.Plan.{MayBeServed};
ghost use Rattle.servient_script.specs.Script.{StopsAtEnd};
ghost use Rattle.command_stages.specs.Stages.{Around, around};
ghost use Rattle.servient_script.specs.Script.{longest_script};
ghost use Rattle.command_stages.specs.Inputs.{Plans, ReadsEvents, ReadsInputs, ReadsScript, TakesBuiltIn, plan_name as name_of_plan};
ghost use Rattle.command_stages.specs.Ending.{Performs};

use crate::derivation::{Planned, read_planned};
use crate::ending::{Ended, Ending, end_with};
use crate::reading::read_file;
use servient_outside::{Events, Files};
use servient_plan::Plan;
use servient_script::{LONGEST_SCRIPT, Script, ScriptFault};
use std::alloc::Global;
use tm_parts::Library;
use wot_json::Text;

/// The inputs of a replay: its plan with the plan's models, and the events of its script.
#[derive(Drop)]
pub struct Inputs {
    pub planned: Planned,
    pub events: Events,
}

/// The name that a line on the fit to the rack gives the plan.
pub fn plan_name(plan: &Option<Text>) -> &str
    ensures { result.now ≡ name_of_plan plan.now }
{
    match plan {
        Some(name) => name.as_str(),
        None => "builtin",
    }
}

/// Reads the plan, if one is named, with its models, and then the script.
pub fn read_inputs<F: Files>(
    alloc: Global,
    plan: &Option<Text>,
    script: &str,
    files: &mut F,
) -> Result<Inputs, Ended>
    ensures stage { (w : Outside) → Performs (ReadsInputs (F.seen files.old).held plan.now script.now) (around (F.seen files.old) w) (around (F.seen files.new) w) result }
    ensures served { IfOk result (λ read. MayBeServed read.planned.plan) }
    ensures ends { IfOk result (λ read. StopsAtEnd read.events) }
{
    let planned = plan_of(alloc, plan, files)?;
    let events = read_events(alloc, script, files)?;
    Ok(Inputs { planned, events })
}

/// The plan of this file with its models, or the built-in Thing where none is named.
fn plan_of<F: Files>(alloc: Global, plan: &Option<Text>, files: &mut F) -> Result<Planned, Ended>
    ensures stage { (w : Outside) → Performs (Plans (F.seen files.old).held plan.now) (around (F.seen files.old) w) (around (F.seen files.new) w) result }
    ensures held { (F.seen files.new).held ≡ (F.seen files.old).held }
    ensures served { IfOk result (λ p. MayBeServed p.plan) }
{
    match plan {
        Some(name) => read_planned(alloc, name.as_str(), files),
        None => built_in(alloc),
    }
}

/// The plan of the built-in Thing, and the library of its one model.
pub fn built_in(alloc: Global) -> Result<Planned, Ended>
    ensures stage { (a : Around) → Performs TakesBuiltIn a a result }
    ensures served { IfOk result (λ p. MayBeServed p.plan) }
{
    let plan = Plan::built_in(alloc)?;
    let model = Plan::built_in_model(alloc)?;
    let mut library = Library::new(alloc);
    match library.add(plan.root.as_str(), model) {
        Ok(()) => Ok(Planned { plan, library }),
        // Out of memory alone, since the library takes this model: a test replays the built-in Thing.
        Err(_) => Err(Ended::NoMemory),
    }
}

/// Reads the events of a script.
fn read_events<F: Files>(alloc: Global, name: &str, files: &mut F) -> Result<Events, Ended>
    ensures stage { (w : Outside) → Performs (ReadsEvents (F.seen files.old).held name.now) (around (F.seen files.old) w) (around (F.seen files.new) w) result }
    ensures ends { IfOk result StopsAtEnd }
{
    let content = read_file(alloc, name, LONGEST_SCRIPT, files)?;
    events_of(alloc, name, content.as_slice())
}

/// The events of a script.
fn events_of(alloc: Global, name: &str, content: &[u8]) -> Result<Events, Ended>
    requires { length content.now ≤ longest_script }
    ensures stage { (a : Around) → Performs (ReadsScript name.now content.now) a a result }
    ensures ends { IfOk result StopsAtEnd }
{
    match Script::read(alloc, content) {
        Ok(script) => Ok(script.into_events()),
        Err(ScriptFault::Line(line)) => Err(end_with(Ending::bad_line(alloc, name, line))),
        Err(ScriptFault::NoMemory) => Err(Ended::NoMemory),
    }
}
