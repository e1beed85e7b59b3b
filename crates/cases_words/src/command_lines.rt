//! Command lines, and what they mean. The words of a line are cut at each single space, so two spaces hold an empty
//! word; a line that is `no words` has none.

use command_words::{Budget, Command, Consumption, WordsFault};
use std::alloc::{AllocError, Global};
use std::fmt::Write;
use wot_json::Text;

/// The words of a line.
fn words_of(alloc: Global, line: &str) -> Result<Vec<Text>, AllocError> {
    let mut words = Vec::new(alloc);
    if line == "no words" {
        return Ok(words);
    }
    for word in line.split(' ') {
        words.push(Text::copy_of(alloc, word)?)?;
    }
    Ok(words)
}

/// Writes a text in quotation marks, with a blank before it.
fn put_text(said: &mut String, text: &Text) -> Result<(), AllocError> {
    write!(said, " {:?}", text.as_str())
}

/// Writes a text that may be there.
fn put_optional(said: &mut String, text: &Option<Text>) -> Result<(), AllocError> {
    match text {
        Some(text) => put_text(said, text),
        None => said.push_str(" none"),
    }
}

/// Writes the parts of a consumption, in one order.
fn put_consumption(said: &mut String, consumption: &Consumption) -> Result<(), AllocError> {
    said.push_str("consume")?;
    put_text(said, &consumption.description)?;
    write!(said, " {:?}", consumption.operation.op())?;
    put_text(said, &consumption.name)?;
    match consumption.scheme {
        Some(scheme) => write!(said, " {scheme:?}")?,
        None => said.push_str(" none")?,
    }
    put_optional(said, &consumption.input)?;
    write!(said, " {}", consumption.count)
}

/// Writes how many events a run of `serve` takes, with a blank before it.
fn put_budget(said: &mut String, budget: Budget) -> Result<(), AllocError> {
    match budget {
        Budget::Events(events) => write!(said, " {events}"),
        Budget::Endless => said.push_str(" endless"),
    }
}

/// Writes the parts of a command that serves.
fn put_serving(
    said: &mut String,
    word: &str,
    plan: &Text,
    budget: Budget,
    idle: u32,
) -> Result<(), AllocError> {
    said.push_str(word)?;
    put_text(said, plan)?;
    put_budget(said, budget)?;
    write!(said, " {idle}")
}

/// Writes the parts of a command, in one order.
fn put_command(said: &mut String, command: &Command) -> Result<(), AllocError> {
    match command {
        Command::Replay {
            script,
            plan,
            events,
        } => {
            said.push_str("replay")?;
            put_text(said, script)?;
            put_optional(said, plan)?;
            write!(said, " {events}")
        }
        Command::Serve { plan, budget, idle } => put_serving(said, "serve", plan, *budget, *idle),
        Command::ServeLogged { plan, budget, idle } => {
            put_serving(said, "serve_logged", plan, *budget, *idle)
        }
        Command::Derive { plan } => {
            said.push_str("derive")?;
            put_text(said, plan)
        }
        Command::Table { plan } => {
            said.push_str("table")?;
            put_text(said, plan)
        }
        Command::Check { description } => {
            said.push_str("check")?;
            put_text(said, description)
        }
        Command::Consume(consumption) => put_consumption(said, consumption),
        Command::Storm { seed, events } => write!(said, "storm {seed} {events}"),
        Command::Discover { host, port } => {
            said.push_str("discover")?;
            put_text(said, host)?;
            write!(said, " {port}")
        }
    }
}

/// Writes what words mean.
fn put_meaning(said: &mut String, alloc: Global, words: &[Text]) -> Result<(), AllocError> {
    match Command::read(alloc, words) {
        Ok(command) => put_command(said, &command),
        Err(WordsFault::NoMemory) => Err(AllocError),
        Err(fault) => write!(said, "{fault}"),
    }
}

/// Writes what a line means.
pub fn put(said: &mut String, alloc: Global, line: &str) -> Result<(), AllocError> {
    let words = words_of(alloc, line)?;
    put_meaning(said, alloc, words.as_slice())
}
