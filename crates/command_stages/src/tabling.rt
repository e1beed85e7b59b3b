//! `derive PLAN --table`: what a plan gives each affordance of its Things, in place of their descriptions.

ghost use Rattle.std.specs.Prelude.{◌≡◌, ◌≢◌, ◌++◌};
ghost use Rattle.std.specs.List.{AllByRecursion};
ghost use Rattle.wot_terms.specs.Faults.{IsValid};
ghost use Rattle.servient_trace.specs.Trace.{Outside};
ghost use Rattle.thing_site.specs.Exposing.{kinds_of};
ghost use Rattle.command_stages.specs.Stages.{Around, around};
ghost use Rattle.command_stages.specs.Ending.{EndsBy, Finishes};
ghost use Rattle.command_stages.specs.Tabling.{PrintsTable, Tables, TablesPlan};

use crate::derivation::{Planned, derive_things, read_planned};
use crate::ending::{Ended, Ending};
use crate::fault_lines::misfit;
use plan_table::table_text;
use servient_outside::Files;
use servient_plan::Plan;
use std::alloc::Global;
use thing_handler::Handlers;
use thing_site::IndexedThings;
use wot_json::NoMemory;
use wot_terms::Things;

/// Reads a plan and its models, derives the root, and prints the table of the plan for this rack.
pub fn table_plan<F: Files, R: Handlers>(
    alloc: Global,
    name: &str,
    files: &mut F,
    rack: &R,
) -> Result<Ending, Ended>
    ensures { (w : Outside) → EndsBy (TablesPlan (F.seen files.old).held (kinds_of (R.slots rack.now)) name.now)
        (around (F.seen files.old) w) (around (F.seen files.new) w) result }
{
    let planned = read_planned(alloc, name, files)?;
    derive_and_table(alloc, name, &planned, rack)
}

/// Derives the root of a plan, and prints the table of the plan.
fn derive_and_table<R: Handlers>(
    alloc: Global,
    name: &str,
    planned: &Planned,
    rack: &R,
) -> Result<Ending, Ended>
    ensures { (a : Around) → EndsBy (Tables name.now (kinds_of (R.slots rack.now)) planned.now) a a result }
{
    let things = derive_things(alloc, planned)?;
    Ok(tabled(alloc, name, &planned.plan, things, rack)?)
}

/// The ending that prints the table of a plan and its Things, and the first fault of their fit to the rack.
fn tabled<R: Handlers>(
    alloc: Global,
    name: &str,
    plan: &Plan,
    things: Things,
    rack: &R,
) -> Result<Ending, NoMemory>
    requires { AllByRecursion (λ thing. IsValid thing.1) things }
    ensures { (a : Around) → Finishes (PrintsTable name.now (kinds_of (R.slots rack.now)) plan.now things) a a result }
{
    let mut text = table_text(alloc, plan, things.as_slice(), rack)?;
    match IndexedThings::new(alloc, things, &plan.slots, rack, plan.versions) {
        Ok(_) => Ok(Ending { status: 0, text }),
        Err(fault) => {
            let told = misfit(alloc, name, &fault)?;
            text.extend(told.text.as_slice())?;
            Ok(Ending {
                status: told.status,
                text,
            })
        }
    }
}
