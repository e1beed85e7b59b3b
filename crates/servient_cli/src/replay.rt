//! Running the events of a script on the Things of a plan, and the print of the run.

ghost use Rattle.std.specs.Prelude.{◌≡◌, ◌++◌, ℕ, List, Option, map, IfOk, IfSome, IsSome};
ghost use Rattle.thing_handler.specs.Turns.{RunTurn};
ghost use Rattle.servient_outside.specs.declared.net.EventWithBytes.{EventWithBytes};
ghost use Rattle.servient_outside.specs.Network.{Happening, NetSeen, acts_in};
ghost use Rattle.servient_outside.specs.NetMemory.{left_events, told_history};
ghost use Rattle.servient_trace.specs.Trace.{outside};
ghost use Rattle.thing_site.specs.Exposing.{kinds_of};
ghost use Rattle.thing_site.specs.Fits.{Fits};
ghost use Rattle.servient_plan.specs.Plan.{MayBeServed};
ghost use Rattle.servient_core.specs.Machine.{start};
ghost use Rattle.servient_core.specs.Serving.{StandsFor};
ghost use Rattle.servient_script.specs.Script.{StopsAtEnd};
ghost use Rattle.servient_script.specs.Print.{print_text};
ghost use Rattle.servient_script.specs.Merging.{HaveKept, IsMerged, turns_after};
ghost use Rattle.command_stages.specs.Lines.{spent_line};
ghost use Rattle.servient_outside.specs.Files.{FilesSeen};
ghost use Rattle.command_stages.specs.Stages.{around};
ghost use Rattle.servient_cli.specs.Replaying.{HasScript, RunsOn, RunsScript};
ghost use Rattle.command_stages.specs.Ending.{EndsBy};

use crate::opening::open;
use command_stages::{Ended, Ending, Inputs, SPENT_LINE};
use servient_core::{Served, Servient, serve};
use servient_outside::{Act, Calls, Events, NetMemory};
use servient_script::{put_acts, put_turns, turn_counts, turns_since};
use std::alloc::{AllocError, Global};
use thing_handler::{Handlers, Turn};
use wot_json::{Bytes, NoMemory};

/// Derives the Things of these inputs, gives them their handlers, and runs the events with this budget.
pub fn run_inputs<R: Handlers>(
    alloc: Global,
    name: &str,
    inputs: Inputs,
    budget: u64,
    rack: &mut R,
) -> Result<Ending, Ended>
    requires served { MayBeServed inputs.planned.plan }
    requires ends { StopsAtEnd inputs.events }
    ensures { (files : FilesSeen) → (net : NetSeen) → EndsBy (RunsOn name.now (kinds_of (R.slots rack.old)) budget inputs)
        (around files (outside net (R.slots rack.old))) (around files (outside net (R.slots rack.new))) result }
{
    let Inputs { planned, events } = inputs;
    let mut servient = open(alloc, name, &planned, rack)?;
    run_script(alloc, &mut servient, events, budget, rack)
}

/// Runs the events of a script, with a Stop after them where none of them is one, and prints the acts and the turns.
fn run_script<R: Handlers>(
    alloc: Global,
    servient: &mut Servient,
    events: Events,
    budget: u64,
    rack: &mut R,
) -> Result<Ending, Ended>
    requires fits { Fits servient.old.exposed.site (R.slots rack.old) }
    requires ends { StopsAtEnd events }
    ensures { (files : FilesSeen) → (net : NetSeen) → (exchanges : ℕ) → (epoch : Option ℕ) → StandsFor servient.old (start servient.old.exposed.site exchanges epoch)
        → EndsBy (RunsScript budget events exchanges epoch servient.old.exposed.site)
        (around files (outside net (R.slots rack.old))) (around files (outside net (R.slots rack.new))) result }
{
    // Lent on, since a function pays at each early exit for what it owns.
    let mut net = NetMemory::new(alloc, events, Calls::new(alloc))?;
    run_network(alloc, servient, &mut net, budget, rack)
}

/// Runs the events of a network in memory, and prints the acts and the turns.
fn run_network<R: Handlers>(
    alloc: Global,
    servient: &mut Servient,
    net: &mut NetMemory,
    budget: u64,
    rack: &mut R,
) -> Result<Ending, Ended>
    requires fits { Fits servient.old.exposed.site (R.slots rack.old) }
    requires script { (events : List EventWithBytes) × HasScript events net.old }
    ensures { (files : FilesSeen) → (seen : NetSeen) → (exchanges : ℕ) → (epoch : Option ℕ) → (events : List EventWithBytes) → HasScript events net.old
        → StandsFor servient.old (start servient.old.exposed.site exchanges epoch)
        → EndsBy (RunsScript budget events exchanges epoch servient.old.exposed.site)
        (around files (outside seen (R.slots rack.old))) (around files (outside seen (R.slots rack.new))) result }
{
    let counts = turn_counts(alloc, rack)?;
    let served = serve(servient, net, rack, budget);
    let text = print_since(alloc, net, counts.as_slice(), rack)?;
    match served {
        Served::Stopped => Ok(Ending { status: 0, text }),
        Served::Spent => Ok(spent(text)?),
        Served::Failed => unreachable!(),
    }
}

/// The print of all acts of a network, and of the turns that each handler has kept since these counts;
/// none where an act was lost.
fn print_since<R: Handlers>(
    alloc: Global,
    net: &NetMemory,
    counts: &[usize],
    rack: &R,
) -> Result<Bytes, NoMemory>
    requires { HaveKept counts.now (R.slots rack.now) }
    ensures { (happened : List Happening) (turns : List RunTurn) → IsSome (left_events net.now)
        → IfSome (told_history net.now) (λ all. all ≡ happened) → IsMerged 0 (turns_after counts.now (R.slots rack.now)) turns
        → IfOk result (λ text. text ≡ print_text (acts_in happened) turns) }
{
    if net.lost() != 0 {
        return Err(AllocError);
    }
    let mut by_slot = turns_since(alloc, rack, counts)?;
    print(alloc, net.acts(), by_slot.as_mut_slice())
}

/// The print of acts and of turns, of which each slot has its own.
fn print(alloc: Global, acts: &[Act], by_slot: &mut [&[Turn]]) -> Result<Bytes, NoMemory>
    ensures { (turns : List RunTurn) → IsMerged 0 (map (λ left. left.now) by_slot.old) turns
        → IfOk result (λ text. text ≡ print_text acts.now turns) }
{
    let mut text = Bytes::new(alloc);
    put_acts(alloc, &mut text, acts)?;
    put_turns(alloc, &mut text, by_slot)?;
    Ok(text)
}

/// The ending where the events were more than the budget.
fn spent(print: Bytes) -> Result<Ending, NoMemory>
    ensures { IfOk result (λ e. (e.status ≡ 8) × (e.text ≡ print ++ spent_line)) }
{
    let mut text = print;
    text.extend(SPENT_LINE)?;
    Ok(Ending { status: 8, text })
}
