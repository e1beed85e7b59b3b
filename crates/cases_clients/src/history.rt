//! A history of one client: the steps of a case, and the state between them.

ghost use Rattle.std.specs.Prelude.{◌≤◌};

use crate::asking::asked_of;
use crate::{asking, hearing, resetting};
use cases_notation::{number, put_given, put_words};
use coap_client::Client;
use std::alloc::{AllocError, Global};

/// A step: its moment, its word, and the words after that.
#[derive(Clone, Copy)]
struct Step<'a> {
    moment: u64,
    word: &'a str,
    words: &'a str,
}

/// The step of a line.
fn step_of(line: &str) -> Step<'_> {
    let mut fields = line.splitn(4, ' ');
    let _at = fields.next();
    Step {
        moment: number(fields.next()),
        word: fields.next().unwrap_or(""),
        words: fields.next().unwrap_or(""),
    }
}

/// Does a step, and says what comes of it.
fn put_done(
    text: &mut String,
    alloc: Global,
    client: &mut Client,
    step: Step<'_>,
    now: u64,
) -> Result<(), AllocError>
    requires { client.old.moment ≤ now }
    ensures { client.new.moment ≤ now }
{
    match step.word {
        "request" | "observe" | "unobserve" => {
            asking::put(text, alloc, client, asked_of(step.word, step.words), now)
        }
        "hears" => hearing::put(text, alloc, client, step.words, now),
        "due" => hearing::put_due(text, client, now),
        "resets" => resetting::put(text, alloc, client, step.words, now),
        _ => text.push_str("no such step"),
    }
}

/// Writes a step and what comes of it.
fn put_step(
    text: &mut String,
    alloc: Global,
    client: &mut Client,
    line: &str,
    now: u64,
) -> Result<(), AllocError>
    requires { client.old.moment ≤ now }
    ensures { client.new.moment ≤ now }
{
    put_given(text, line)?;
    put_done(text, alloc, client, step_of(line), now)?;
    text.push_str("\n")
}

/// The id of the first message.
fn first_id_of(history: &str) -> u16 {
    for line in history.lines() {
        if let Some(digits) = line.strip_prefix("first id ") {
            return digits.parse::<u16>().unwrap_or(0);
        }
    }
    0
}

pub fn put(text: &mut String, alloc: Global, history: &str) -> Result<(), AllocError> {
    let mut client = Client::new(alloc, first_id_of(history))?;
    let mut now = 0;
    for line in history.lines() {
        match line.split_once(" => ") {
            Some((step, _wanted)) => {
                now = step_of(step).moment.max(now);
                put_step(text, alloc, &mut client, step, now)?;
            }
            None => put_words(text, line)?,
        }
    }
    Ok(())
}
