//! Histories of Things as they are exposed, and the steps besides requests:
//!
//! ```text
//! METHOD PATH ..         status, code and payload; the version; the number of calls of handlers; the slots of the
//!                        values that were emitted
//! repeat N METHOD ..     the same request N times: the number of answers that have the status and the code of the last
//! tick                   polls all events
//! last SLOT              the text of the last emission of this slot
//! target PATH            the slot of the emissions of a path
//! accounts               the number of invocations, all calls of handlers, and the id of the next invocation
//! expose                 the Things fit the rack
//! ```

ghost use Rattle.std.specs.Prelude.{◌≡◌, [], OnOk};
ghost use Rattle.thing_site.specs.Fits.{Fits};

use crate::asking::{Ask, ask_of, conditions_of};
use crate::outcomes::put_answer;
use crate::paths::path_of;
use cases_notation::{bytes_of, number, put, put_given};
use std::alloc::{AllocError, Global};
use std::fmt::Write;
use thing_core::{Exposed, a_rack_fits_on, a_rack_fits_on_after_polls};
use thing_handler::Handlers;
use thing_ops::Request;

/// The most emissions that a step may have.
const MOST_EMISSIONS: u32 = 16;

/// Writes the slots of emissions until none is left, and hands them out so.
fn put_emissions(text: &mut String, exposed: &mut Exposed) -> Result<(), AllocError>
    ensures pending { OnOk result (exposed.new.pending ≡ []) }
    ensures site { exposed.new.site ≡ exposed.old.site }
{
    for _emission in 0..MOST_EMISSIONS {
        match exposed.emitted() {
            Some(target) => write!(text, "; emits {target}")?,
            None => return Ok(()),
        }
    }
    Err(AllocError)
}

/// Writes the number of calls of handlers since there were n.
fn put_calls(text: &mut String, exposed: &Exposed, before: u64) -> Result<(), AllocError> {
    write!(
        text,
        "; calls {}",
        exposed.accounts().calls.saturating_sub(before)
    )
}

/// Makes a request, and writes its outcome.
fn put_performed<R: Handlers>(
    text: &mut String,
    exposed: &mut Exposed,
    rack: &mut R,
    request: &Request<'_>,
) -> Result<(), AllocError>
    requires fits { Fits exposed.old.site (R.slots rack.old) }
    requires pending { exposed.old.pending ≡ [] }
    ensures fits { OnOk result (Fits exposed.new.site (R.slots rack.new)) }
    ensures pending { OnOk result (exposed.new.pending ≡ []) }
{
    let before = exposed.accounts().calls;
    let outcome = exposed.perform(rack, request);
    a_rack_fits_on();
    put_answer(text, &outcome)?;
    put_calls(text, exposed, before)?;
    put_emissions(text, exposed)?;
    Ok(())
}

/// The same of a request whose path and body are in text.
fn put_asked<R: Handlers>(
    text: &mut String,
    alloc: Global,
    exposed: &mut Exposed,
    rack: &mut R,
    ask: Ask<'_>,
) -> Result<(), AllocError>
    requires fits { Fits exposed.old.site (R.slots rack.old) }
    requires pending { exposed.old.pending ≡ [] }
    ensures fits { OnOk result (Fits exposed.new.site (R.slots rack.new)) }
    ensures pending { OnOk result (exposed.new.pending ≡ []) }
{
    let body = bytes_of(alloc, ask.body)?;
    let request = Request {
        verb: ask.verb,
        path: path_of(alloc, ask.path)?,
        query: b"",
        accept: ask.accept,
        format: ask.format,
        body: body.as_slice(),
        conditions: conditions_of(alloc, ask.conditions)?,
    };
    put_performed(text, exposed, rack, &request)
}

/// The answers to a request that was made several times: the number of those that begin as the last one did.
#[derive(Drop)]
struct Tally {
    count: u64,
    begin: String,
}

impl Tally {
    /// Counts an answer.
    fn count(&mut self, answer: &str) -> Result<(), AllocError> {
        let begin = answer.get(..8).unwrap_or(answer);
        if begin != self.begin.as_str() {
            self.count = 0;
            self.begin.clear();
            self.begin.push_str(begin)?;
        }
        self.count = self.count.saturating_add(1);
        Ok(())
    }
}

/// Makes a request and counts its answer.
fn make_counted<R: Handlers>(
    alloc: Global,
    exposed: &mut Exposed,
    rack: &mut R,
    ask: Ask<'_>,
    counted: &mut Tally,
) -> Result<(), AllocError>
    requires fits { Fits exposed.old.site (R.slots rack.old) }
    requires pending { exposed.old.pending ≡ [] }
    ensures fits { OnOk result (Fits exposed.new.site (R.slots rack.new)) }
    ensures pending { OnOk result (exposed.new.pending ≡ []) }
{
    let mut answer = String::new(alloc);
    put_asked(&mut answer, alloc, exposed, rack, ask)?;
    counted.count(answer.as_str())
}

/// Makes a request n times, and writes the number of those that were answered as the last.
fn put_repeated<R: Handlers>(
    text: &mut String,
    alloc: Global,
    exposed: &mut Exposed,
    rack: &mut R,
    rest: &str,
) -> Result<(), AllocError>
    requires fits { Fits exposed.old.site (R.slots rack.old) }
    requires pending { exposed.old.pending ≡ [] }
    ensures fits { OnOk result (Fits exposed.new.site (R.slots rack.new)) }
    ensures pending { OnOk result (exposed.new.pending ≡ []) }
{
    let (times, given) = rest.split_once(' ').unwrap_or(("0", rest));
    let mut counted = Tally {
        count: 0,
        begin: String::new(alloc),
    };
    for _time in 0..number(Some(times)) {
        make_counted(alloc, exposed, rack, ask_of(given), &mut counted)?;
    }
    write!(text, "{} times {}", counted.count, counted.begin.as_str())
}

/// Polls all events, and writes the number of calls of handlers and the emissions.
fn put_tick<R: Handlers>(
    text: &mut String,
    exposed: &mut Exposed,
    rack: &mut R,
) -> Result<(), AllocError>
    requires fits { Fits exposed.old.site (R.slots rack.old) }
    requires pending { exposed.old.pending ≡ [] }
    ensures fits { OnOk result (Fits exposed.new.site (R.slots rack.new)) }
    ensures pending { OnOk result (exposed.new.pending ≡ []) }
{
    let before = exposed.accounts().calls;
    exposed.tick(rack);
    a_rack_fits_on_after_polls();
    text.push_str("polled")?;
    put_calls(text, exposed, before)?;
    put_emissions(text, exposed)?;
    Ok(())
}

/// Writes the facts on Things that need no request.
fn put_known(
    text: &mut String,
    alloc: Global,
    exposed: &Exposed,
    word: &str,
    rest: &str,
) -> Result<(), AllocError> {
    match word {
        "expose" => text.push_str("fits"),
        "accounts" => {
            let accounts = exposed.accounts();
            write!(
                text,
                "invocations {}, calls {}, next {}",
                accounts.invocations,
                accounts.calls,
                exposed.next_invocation()
            )
        }
        "last" => match exposed.last(rest.parse::<u32>().unwrap_or(0)) {
            Some(value) => put(text, value),
            None => text.push_str("none"),
        },
        "target" => match exposed.target_of(&path_of(alloc, rest)?) {
            Some(target) => write!(text, "{target}"),
            None => text.push_str("none"),
        },
        _ => text.push_str("no such step"),
    }
}

/// Writes what comes of a step.
fn put_step<R: Handlers>(
    text: &mut String,
    alloc: Global,
    exposed: &mut Exposed,
    rack: &mut R,
    step: &str,
) -> Result<(), AllocError>
    requires fits { Fits exposed.old.site (R.slots rack.old) }
    requires pending { exposed.old.pending ≡ [] }
    ensures fits { OnOk result (Fits exposed.new.site (R.slots rack.new)) }
    ensures pending { OnOk result (exposed.new.pending ≡ []) }
{
    let (word, rest) = step.split_once(' ').unwrap_or((step, ""));
    match word {
        "tick" => put_tick(text, exposed, rack),
        "repeat" => put_repeated(text, alloc, exposed, rack, rest),
        "GET" | "HEAD" | "PUT" | "POST" | "PATCH" | "DELETE" | "TRACE" => {
            put_asked(text, alloc, exposed, rack, ask_of(step))
        }
        _ => put_known(text, alloc, exposed, word, rest),
    }
}

/// Writes a line, with what comes of it where it is a step.
fn put_line<R: Handlers>(
    text: &mut String,
    alloc: Global,
    exposed: &mut Exposed,
    rack: &mut R,
    line: &str,
) -> Result<(), AllocError>
    requires fits { Fits exposed.old.site (R.slots rack.old) }
    requires pending { exposed.old.pending ≡ [] }
    ensures fits { OnOk result (Fits exposed.new.site (R.slots rack.new)) }
    ensures pending { OnOk result (exposed.new.pending ≡ []) }
{
    match line.split_once(" => ") {
        Some((step, _wanted)) => {
            put_given(text, step)?;
            put_step(text, alloc, exposed, rack, step)
        }
        None => text.push_str(line),
    }
}

/// Writes the lines of a case, each step with what comes of it.
///
/// # Errors
///
/// Out of memory alone.
pub fn put_steps<R: Handlers>(
    text: &mut String,
    alloc: Global,
    exposed: &mut Exposed,
    rack: &mut R,
    block: &str,
) -> Result<(), AllocError>
    requires fits { Fits exposed.old.site (R.slots rack.old) }
    requires pending { exposed.old.pending ≡ [] }
{
    for line in block.lines() {
        put_line(text, alloc, exposed, rack, line)?;
        text.push_str("\n")?;
    }
    Ok(())
}
