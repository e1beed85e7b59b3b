//! The commands, and the words that say them.

ghost use Rattle.std.specs.Prelude.{◌≡◌, IfOk, Some};
ghost use Rattle.command_words.specs.Grammar.{check_form, check_of, consume_form, consume_of, consumption_of, derive_at, derive_form, derive_meaning, derive_of, discover_form, discover_of, log_at, logged as logged_command, meaning_after, meaning_by, meaning_of, replay_form, replay_of, serve_at, serve_by_budget as budget_meaning, serve_form, serve_meaning, serve_of, storm_form, storm_of};
ghost use Rattle.command_words.specs.Flags.{IsFlagPlace};
ghost use Rattle.command_words.specs.Operations.{form_operation};
ghost use Rattle.command_words.specs.Parts.{Reads, texts};
ghost use Rattle.command_words.specs.Line.{AreTexts};

use crate::fault::WordsFault;
use crate::flags::{place_of_flag, words_around, words_without};
use crate::parts::{
    events, file, idle, name, number, number_or, operation, optional, required, scheme, server,
};
use crate::values::Given;
use servient_base::NoMemory;
use std::alloc::Global;
use wot_forms::Scheme;
use wot_json::Text;
use wot_terms::Op;

/// A command, with all that its words say.
#[derive(Debug, Drop)]
pub enum Command {
    /// Runs the script with this budget of events, on the Things of the plan or on the built-in Thing.
    Replay {
        script: Text,
        plan: Option<Text>,
        events: u32,
    },
    /// Serves the Things of the plan until its budget of events is used up, or until `idle` seconds pass without traffic;
    /// 0 seconds is no such end.
    Serve {
        plan: Text,
        budget: Budget,
        idle: u32,
    },
    /// Serves them so, and writes a line for each turn.
    ServeLogged {
        plan: Text,
        budget: Budget,
        idle: u32,
    },
    /// Derives the descriptions of the plan's Things.
    Derive {
        plan: Text,
    },
    /// Shows what the plan gives each affordance of its Things.
    Table {
        plan: Text,
    },
    /// Checks a description.
    Check {
        description: Text,
    },
    /// Does an operation on another Thing.
    Consume(Consumption),
    /// Runs the generated script of this seed and this number of events.
    Storm {
        seed: u32,
        events: u32,
    },
    /// Asks the server at this host and port which Things it has.
    Discover {
        host: Text,
        port: u16,
    },
}

/// The number of events that a run of `serve` takes.
#[derive(Clone, Copy, Debug, Drop, PartialEq, Eq)]
pub enum Budget {
    /// At most this many.
    Events(u32),
    /// As many as come: the handlers forget their turns now and then.
    Endless,
}

/// An operation on the Thing of a description.
#[derive(Debug, Drop)]
pub struct Consumption {
    /// The name of the description's file.
    pub description: Text,
    pub operation: Operation,
    /// The name of the property or the action; `-` for all properties.
    pub name: Text,
    /// The scheme that a form needs; without one, either will do.
    pub scheme: Option<Scheme>,
    /// The file of the value to send.
    pub input: Option<Text>,
    /// The number of values to wait for, where a property is observed.
    pub count: u32,
}

/// An operation on a Thing (TD 1.1, section 5.3.4.2).
#[derive(Clone, Copy, Debug, Drop, PartialEq, Eq)]
pub enum Operation {
    ReadProperty,
    WriteProperty,
    InvokeAction,
    ReadAllProperties,
    ObserveProperty,
}

impl Operation {
    /// The operation as forms name it.
    pub fn op(self) -> Op
        ensures { result ≡ form_operation self }
    {
        match self {
            Operation::ReadProperty => Op::ReadProperty,
            Operation::WriteProperty => Op::WriteProperty,
            Operation::InvokeAction => Op::InvokeAction,
            Operation::ReadAllProperties => Op::ReadAllProperties,
            Operation::ObserveProperty => Op::ObserveProperty,
        }
    }
}

impl Command {
    /// The command that the words after the program's name say.
    #[tactic(auto, unfolding(crate::specs::Grammar::meaning_of))]
    pub fn read(alloc: Global, words: &[Text]) -> Result<Command, WordsFault>
        ensures { Reads (meaning_of words.now) result }
    {
        match words {
            [] => Err(WordsFault::Usage),
            [name, rest @ ..] => {
                let all = texts_of(alloc, rest)?;
                read_after(alloc, name.as_str(), all.as_slice())
            }
        }
    }
}

/// The texts of some words.
fn texts_of<'a>(alloc: Global, words: &'a [Text]) -> Result<Vec<&'a str>, NoMemory>
    ensures same { IfOk result (λ all. texts all.items ≡ words.now) }
    ensures text { IfOk result (λ all. AreTexts (texts all.items)) }
{
    let mut all = Vec::new(alloc);
    for word in words {
        all.push(word.as_str())?;
    }
    Ok(all)
}

/// The command of this name, with the words after it.
fn read_after(alloc: Global, name: &str, words: &[&str]) -> Result<Command, WordsFault>
    requires { AreTexts (texts words.now) }
    ensures { Reads (meaning_after name.now (texts words.now)) result }
{
    match name {
        "replay" => replay(alloc, words),
        "serve" => serve(alloc, words),
        "derive" => derive(alloc, words),
        "check" => check(alloc, words),
        "consume" => consume(alloc, words),
        "storm" => storm(alloc, words),
        "discover" => discover(alloc, words),
        _ => Err(WordsFault::Usage),
    }
}

fn replay(alloc: Global, words: &[&str]) -> Result<Command, WordsFault>
    requires { AreTexts (texts words.now) }
    ensures { Reads (meaning_by replay_form replay_of (texts words.now)) result }
{
    let values = Given::read(alloc, &["script", "plan"], &["events"], words)?;
    let script = required(alloc, values.get("script"))?;
    let events = events(values.get("events"))?;
    let plan = optional(alloc, values.get("plan"))?;
    Ok(Command::Replay {
        script,
        plan,
        events,
    })
}

fn serve(alloc: Global, words: &[&str]) -> Result<Command, WordsFault>
    requires { AreTexts (texts words.now) }
    ensures { Reads (serve_meaning (texts words.now)) result }
{
    match place_of_flag(words, "--log") {
        Some(place) => serve_logged(alloc, words, place),
        None => serve_by_budget(alloc, words),
    }
}

/// `serve` with `--log` at this place among its words.
fn serve_logged(alloc: Global, words: &[&str], place: usize) -> Result<Command, WordsFault>
    requires text { AreTexts (texts words.now) }
    requires place { IsFlagPlace (texts words.now) place }
    ensures { Reads (log_at (texts words.now) (Some place)) result }
{
    let rest = words_without(alloc, words, place, "--endless")?;
    let command = serve_by_budget(alloc, rest.as_slice())?;
    Ok(logged(command))
}

/// The command with its turns logged, where it is one that serves.
fn logged(command: Command) -> Command
    ensures { result ≡ logged_command command }
{
    match command {
        Command::Serve { plan, budget, idle } => Command::ServeLogged { plan, budget, idle },
        other => other,
    }
}

fn serve_by_budget(alloc: Global, words: &[&str]) -> Result<Command, WordsFault>
    requires { AreTexts (texts words.now) }
    ensures { Reads (budget_meaning (texts words.now)) result }
{
    match place_of_flag(words, "--endless") {
        Some(place) => serve_endlessly(alloc, words, place),
        None => serve_counted(alloc, words),
    }
}

fn serve_counted(alloc: Global, words: &[&str]) -> Result<Command, WordsFault>
    requires { AreTexts (texts words.now) }
    ensures { Reads (meaning_by serve_form serve_of (texts words.now)) result }
{
    let values = Given::read(alloc, &["plan"], &["events", "idle"], words)?;
    let plan = required(alloc, values.get("plan"))?;
    let events = events(values.get("events"))?;
    let idle = idle(values.get("idle"))?;
    Ok(Command::Serve {
        plan,
        budget: Budget::Events(events),
        idle,
    })
}

/// `serve` with `--endless` at this place among its words.
fn serve_endlessly(alloc: Global, words: &[&str], place: usize) -> Result<Command, WordsFault>
    requires text { AreTexts (texts words.now) }
    requires place { IsFlagPlace (texts words.now) place }
    ensures { Reads (serve_at (texts words.now) (Some place)) result }
{
    let rest = words_around(alloc, words, place)?;
    let values = Given::read(alloc, &["plan"], &["idle"], rest.as_slice())?;
    let plan = required(alloc, values.get("plan"))?;
    let idle = idle(values.get("idle"))?;
    Ok(Command::Serve {
        plan,
        budget: Budget::Endless,
        idle,
    })
}

fn derive(alloc: Global, words: &[&str]) -> Result<Command, WordsFault>
    requires { AreTexts (texts words.now) }
    ensures { Reads (derive_meaning (texts words.now)) result }
{
    match place_of_flag(words, "--table") {
        Some(place) => table(alloc, words, place),
        None => descriptions(alloc, words),
    }
}

/// `derive` with `--table` at this place among its words.
fn table(alloc: Global, words: &[&str], place: usize) -> Result<Command, WordsFault>
    requires text { AreTexts (texts words.now) }
    requires place { IsFlagPlace (texts words.now) place }
    ensures { Reads (derive_at (texts words.now) (Some place)) result }
{
    let rest = words_around(alloc, words, place)?;
    let values = Given::read(alloc, &["plan"], &[], rest.as_slice())?;
    let plan = required(alloc, values.get("plan"))?;
    Ok(Command::Table { plan })
}

fn descriptions(alloc: Global, words: &[&str]) -> Result<Command, WordsFault>
    requires { AreTexts (texts words.now) }
    ensures { Reads (meaning_by derive_form derive_of (texts words.now)) result }
{
    let values = Given::read(alloc, &["plan"], &[], words)?;
    let plan = required(alloc, values.get("plan"))?;
    Ok(Command::Derive { plan })
}

fn check(alloc: Global, words: &[&str]) -> Result<Command, WordsFault>
    requires { AreTexts (texts words.now) }
    ensures { Reads (meaning_by check_form check_of (texts words.now)) result }
{
    let values = Given::read(alloc, &["description"], &[], words)?;
    let description = required(alloc, values.get("description"))?;
    Ok(Command::Check { description })
}

fn consume(alloc: Global, words: &[&str]) -> Result<Command, WordsFault>
    requires { AreTexts (texts words.now) }
    ensures { Reads (meaning_by consume_form consume_of (texts words.now)) result }
{
    let values = Given::read(
        alloc,
        &["description", "operation", "name"],
        &["scheme", "input", "count"],
        words,
    )?;
    Ok(Command::Consume(consumption_in(alloc, &values)?))
}

fn consumption_in(alloc: Global, values: &Given<'_>) -> Result<Consumption, WordsFault>
    ensures { Reads (consumption_of values.now) result }
{
    let description = required(alloc, values.get("description"))?;
    let operation = operation(values.get("operation"))?;
    let name = name(alloc, operation, values.get("name"))?;
    let scheme = scheme(values.get("scheme"))?;
    let input = file(alloc, values.get("input"))?;
    let count = number_or(1, values.get("count"), 1, 100)?;
    Ok(Consumption {
        description,
        operation,
        name,
        scheme,
        input,
        count,
    })
}

fn storm(alloc: Global, words: &[&str]) -> Result<Command, WordsFault>
    requires { AreTexts (texts words.now) }
    ensures { Reads (meaning_by storm_form storm_of (texts words.now)) result }
{
    let values = Given::read(alloc, &["seed", "events"], &[], words)?;
    let seed = number(values.get("seed"), 0, 999_999_999)?;
    let events = number(values.get("events"), 1, 100_000)?;
    Ok(Command::Storm { seed, events })
}

fn discover(alloc: Global, words: &[&str]) -> Result<Command, WordsFault>
    requires { AreTexts (texts words.now) }
    ensures { Reads (meaning_by discover_form discover_of (texts words.now)) result }
{
    let values = Given::read(alloc, &["server"], &[], words)?;
    let (host, port) = server(alloc, values.get("server"))?;
    Ok(Command::Discover { host, port })
}
