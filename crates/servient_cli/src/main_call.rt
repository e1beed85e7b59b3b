//! The top call: from the words of the command line to the exit status.

ghost use Rattle.std.specs.Prelude.{◌≡◌, ◌≢◌, ◌≤◌, ◌⊎◌, true, false, Some};
ghost use Rattle.thing_site.specs.Exposing.{kinds_of};
ghost use Rattle.command_stages.specs.Stages.{around};
ghost use Rattle.command_words.specs.Grammar.{meaning_of};
ghost use Rattle.servient_base.specs.Count.{Rose};
ghost use Rattle.servient_outside.specs.Out.{NoWriteFailed};
ghost use Rattle.servient_trace.specs.Trace.{outside};
ghost use Rattle.servient_cli.specs.Command.{calls_handlers, is_discovering, is_logging, is_networked, is_storm, is_writing};
ghost use Rattle.servient_cli.specs.Command.{Does, Ends, EndsAndReports, EndsWriting, IsFaultless, IsNoCommand, IsReported, IsWell, MayDiscover, NothingFailed};
ghost use Rattle.command_stages.specs.Ending.{final_status as status_in, final_text as text_in};

use crate::commands::run_command;
use crate::consumption::consume_thing;
use crate::discovery::discover_things;
use crate::listening::ServeRequest;
use crate::logging::log_plan;
use command_stages::{Ended, Ending, SPENT_LINE};
use command_words::Command;
use servient_outside::{Files, Net, Out, Put};
use std::alloc::Global;
use thing_handler::Handlers;
use wot_json::Text;

/// The line for words that are no command line.
const USAGE_LINE: &[u8] = b"usage: servient replay|serve|derive|check|consume|storm|discover ..\n";

/// The line where the network failed.
const NETWORK_LINE: &[u8] = b"servient: net\n";

/// The line where nothing answered in time.
const SILENT_LINE: &[u8] = b"servient: silent\n";

/// The line for being out of memory.
const MEMORY_LINE: &[u8] = b"servient: memory\n";

/// Does the command that the words after the program's name say, and gives the exit status.
pub fn servient_main<F: Files, N: Net, R: Handlers, O: Out>(
    alloc: Global,
    words: &[Text],
    files: &mut F,
    net: &mut N,
    rack: &mut R,
    out: &mut O,
) -> u8
    // The command of the words ended with a status, and its text and the status were reported. With a log no event was taken
    // before all lines of the turns so far were written.
    ensures ends { Ends words.now
        (around (F.seen files.old) (outside (N.seen net.old) (R.slots rack.old)))
        (around (F.seen files.new) (outside (N.seen net.new) (R.slots rack.new)))
        (O.seen out.old)
        (O.seen out.new) result }
    // Where nothing is wrong and nothing failed, the command does its work, unless it is out of memory; but serving may
    // spend its budget, and a server that is asked may answer otherwise.
    ensures complete { IsFaultless words.now (F.seen files.old).held (kinds_of (R.slots rack.old))
        → NothingFailed
        (around (F.seen files.old) (outside (N.seen net.old) (R.slots rack.old)))
        (around (F.seen files.new) (outside (N.seen net.new) (R.slots rack.new)))
        (O.seen out.old)
        (O.seen out.new)
        → IsWell words.now result }
    // Status 2 says that the words are no command, and nothing else does, unless the output failed or it was out of
    // memory, which may come before anything is read: reading the words takes memory too.
    ensures usage { (result ≡ 2 → IsNoCommand words.now) × (IsNoCommand words.now → (result ≡ 2) ⊎ (result ≡ 7) ⊎ (result ≡ 9)) }
    // Status 7 says that the output failed, which its count records.
    ensures output { result ≡ 7 → Rose (O.seen out.old).faults (O.seen out.new).faults }
    // A storm has no more events than its budget: the last of them is the Stop.
    ensures storm { is_storm (meaning_of words.now) ≡ true → result ≢ 8 }
    // A discovery reads no file, derives nothing and chooses no form, and so it doesn't end by any of that.
    ensures discovery { is_discovering (meaning_of words.now) ≡ true → MayDiscover result }
    // Where no plan is served and nothing is asked of others, nothing is done to the network.
    ensures net { is_networked (meaning_of words.now) ≡ false → net.new ≡ net.old }
    // Unless a servient runs, the rack is left as it was: where the words are no command, too.
    ensures rack { calls_handlers (meaning_of words.now) ≡ false → rack.new ≡ rack.old }
    // A discovery leaves the files as they were.
    ensures files { is_discovering (meaning_of words.now) ≡ true → files.new ≡ files.old }
{
    match Command::read(alloc, words) {
        Ok(command) => {
            if writes_early(&command) {
                work_and_report(alloc, &command, files, net, rack, out)
            } else {
                report(out, &run_command(alloc, &command, files, net, rack))
            }
        }
        Err(fault) => report(out, &Err(Ended::from(fault))),
    }
}

/// A command writes as it goes.
fn writes_early(command: &Command) -> bool
    ensures { result ≡ is_writing (Some command.now) }
{
    // Arms of their own, since an or-pattern gives the proof a sum in place of an equation.
    match command {
        Command::ServeLogged { .. } => true,
        Command::Consume(_) => true,
        Command::Discover { .. } => true,
        Command::Replay { .. } => false,
        Command::Serve { .. } => false,
        Command::Check { .. } => false,
        Command::Derive { .. } => false,
        Command::Table { .. } => false,
        Command::Storm { .. } => false,
    }
}

/// Does a command that writes as it goes, and reports the end.
fn work_and_report<F: Files, N: Net, R: Handlers, O: Out>(
    alloc: Global,
    command: &Command,
    files: &mut F,
    net: &mut N,
    rack: &mut R,
    out: &mut O,
) -> u8
    requires { is_writing (Some command.now) ≡ true }
    ensures ends { EndsAndReports (is_logging (Some command.now)) (Does (F.seen files.old).held (kinds_of (R.slots rack.old)) command.now)
        (around (F.seen files.old) (outside (N.seen net.old) (R.slots rack.old))) (around (F.seen files.new) (outside (N.seen net.new) (R.slots rack.new)))
        (O.seen out.old) (O.seen out.new) result }
    ensures output { result ≡ 7 → Rose (O.seen out.old).faults (O.seen out.new).faults }
    ensures files { is_discovering (Some command.now) ≡ true → files.new ≡ files.old }
    ensures rack { calls_handlers (Some command.now) ≡ false → rack.new ≡ rack.old }
{
    let ended = work(alloc, command, files, net, rack, out);
    report(out, &ended)
}

/// Does a command that writes as it goes.
fn work<F: Files, N: Net, R: Handlers, O: Out>(
    alloc: Global,
    command: &Command,
    files: &mut F,
    net: &mut N,
    rack: &mut R,
    out: &mut O,
) -> Result<Ending, Ended>
    requires { is_writing (Some command.now) ≡ true }
    ensures ends { EndsWriting (is_logging (Some command.now)) (Does (F.seen files.old).held (kinds_of (R.slots rack.old)) command.now)
        (around (F.seen files.old) (outside (N.seen net.old) (R.slots rack.old))) (around (F.seen files.new) (outside (N.seen net.new) (R.slots rack.new)))
        (O.seen out.old) (O.seen out.new) result }
    ensures files { is_discovering (Some command.now) ≡ true → files.new ≡ files.old }
    ensures rack { calls_handlers (Some command.now) ≡ false → rack.new ≡ rack.old }
{
    match command {
        Command::ServeLogged { plan, budget, idle } => {
            let request = ServeRequest {
                plan: plan.as_str(),
                budget: *budget,
                idle: *idle,
            };
            log_plan(alloc, request, files, net, rack, out)
        }
        Command::Consume(consumption) => consume_thing(alloc, consumption, files, net, out),
        Command::Discover { host, port } => discover_things(alloc, host.as_str(), *port, net, out),
        Command::Replay { .. } => unreachable!(),
        Command::Serve { .. } => unreachable!(),
        Command::Check { .. } => unreachable!(),
        Command::Derive { .. } => unreachable!(),
        Command::Table { .. } => unreachable!(),
        Command::Storm { .. } => unreachable!(),
    }
}

/// Writes the text with which a command ended, if it has one, and gives its status, or 7 where the output failed.
pub fn report<O: Out>(out: &mut O, ended: &Result<Ending, Ended>) -> u8
    ensures reported { IsReported (status_in ended.now) (text_in ended.now) (O.seen out.old) (O.seen out.new) result }
    ensures faults { (O.seen out.old).faults ≤ (O.seen out.new).faults }
    ensures no_failure { NoWriteFailed (O.seen out.old) (O.seen out.new) (text_in ended.now) }
{
    let text = final_text(ended);
    if text.is_empty() {
        return final_status(ended);
    }
    match out.put(text) {
        Put::Done => final_status(ended),
        Put::Failed => 7,
    }
}

/// The status of a command that ended so.
fn final_status(ended: &Result<Ending, Ended>) -> u8
    ensures { result ≡ status_in ended.now }
{
    match ended {
        Ok(ending) => ending.status,
        Err(Ended::With(ending)) => ending.status,
        Err(Ended::Usage) => 2,
        Err(Ended::Network) => 6,
        Err(Ended::Output) => 7,
        Err(Ended::Spent) => 8,
        Err(Ended::Silent) => 11,
        Err(Ended::NoMemory) => 9,
    }
}

/// The text of a command that ended so.
fn final_text(ended: &Result<Ending, Ended>) -> &[u8]
    ensures { result.now ≡ text_in ended.now }
{
    match ended {
        Ok(ending) => ending.text.as_slice(),
        Err(Ended::With(ending)) => ending.text.as_slice(),
        Err(Ended::Usage) => USAGE_LINE,
        Err(Ended::Network) => NETWORK_LINE,
        Err(Ended::Output) => &[],
        Err(Ended::Spent) => SPENT_LINE,
        Err(Ended::Silent) => SILENT_LINE,
        Err(Ended::NoMemory) => MEMORY_LINE,
    }
}
