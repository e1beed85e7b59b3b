//! Runs in sections: ticks come, of which each polls the lamp's one event, within bounds on events and turns. A row has
//! the number of ticks and both bounds, as `ticks 9000 events 10000 turns 100000`, and after ` => ` the end of the run,
//! the number of turns that the handlers keep then, and the number of the last.

ghost use Rattle.thing_site.specs.Fits.{Fits};

use crate::lamp::servient_on;
use cases_notation::number;
use servient_core::{RunBounds, SectionsEnd, Servient, serve_in_sections};
use servient_outside::{Calls, Event, EventWithBytes, Events, NetMemory, What};
use std::alloc::{AllocError, Global};
use std::fmt::Write;
use thing_handler::{Handler, Handlers, Rack, SHIPPED_SLOTS, shipped_in};
use wot_json::Bytes;

/// A row: the number of ticks that come, and the bounds of the run.
#[derive(Clone, Copy)]
struct Row {
    ticks: u16,
    bounds: RunBounds,
}

/// The row of a line, whose second, fourth and sixth word are numbers.
fn row_of(line: &str) -> Row {
    let mut words = line.split(' ');
    let _ticks = words.next();
    let ticks = number(words.next());
    let _events = words.next();
    let events = number(words.next());
    let _turns = words.next();
    let turns = number(words.next());
    Row {
        ticks: u16::try_from(ticks).unwrap_or(0),
        bounds: RunBounds { events, turns },
    }
}

/// So many ticks, a millisecond apart.
fn ticks_of(alloc: Global, count: u16) -> Result<Events, AllocError> {
    let mut events = Events::new(alloc);
    for moment in 0..count {
        events.push(EventWithBytes {
            event: Event {
                moment: u64::from(moment),
                what: What::Tick,
            },
            bytes: Bytes::new(alloc),
        })?;
    }
    Ok(events)
}

/// The end of serving ticks within these bounds.
fn served<R: Handlers>(
    alloc: Global,
    servient: &mut Servient,
    rack: &mut R,
    row: Row,
) -> Result<SectionsEnd, AllocError>
    requires { Fits servient.old.exposed.site (R.slots rack.old) }
{
    let mut net = NetMemory::new(alloc, ticks_of(alloc, row.ticks)?, Calls::new(alloc))?;
    Ok(serve_in_sections(servient, &mut net, rack, row.bounds))
}

/// Writes the number of turns that the handlers keep, and the number of the last, or 0 where they keep none.
fn put_kept<R: Handlers>(text: &mut String, rack: &R) -> Result<(), AllocError> {
    let mut count: usize = 0;
    let mut last: u64 = 0;
    for slot in 0..rack.len() {
        let turns = rack.turns(slot);
        count = count.saturating_add(turns.len());
        if let Some(turn) = turns.last() {
            last = last.max(turn.number);
        }
    }
    write!(text, "{count} turns are kept, the last is {last}")
}

/// Writes the outcome of a row with these devices. The rack is lent, since a function pays at each early exit for what
/// it owns.
fn put_run<R: Handlers>(
    text: &mut String,
    alloc: Global,
    rack: &mut R,
    row: Row,
) -> Result<(), AllocError> {
    let mut servient = servient_on(alloc, rack)?;
    let end = served(alloc, &mut servient, rack, row)?;
    write!(text, "{end:?}, ")?;
    put_kept(text, rack)
}

/// Writes the outcome of a row.
///
/// # Errors
///
/// Out of memory alone.
pub fn put_row(text: &mut String, alloc: Global, given: &str) -> Result<(), AllocError> {
    let mut list: Vec<Box<dyn Handler>> = Vec::new(alloc);
    for slot in 0..SHIPPED_SLOTS {
        list.push(Box::new(alloc, shipped_in(alloc, slot))?)?;
    }
    let mut rack = Rack::new(alloc, list);
    put_run(text, alloc, &mut rack, row_of(given))
}
