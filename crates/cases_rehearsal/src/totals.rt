//! The totals of schedules.

use crate::asks::{acts, reads};
use crate::played::Played;
use servient_rehearsal::{End, World};
use std::alloc::AllocError;
use std::fmt::Write;

/// The number of each.
#[derive(Clone, Copy)]
pub struct Totals {
    datagrams: usize,
    asks: usize,
    answered: usize,
    observed: usize,
    timed_out: usize,
    values: usize,
    acts: usize,
    reads: usize,
}

/// None yet.
pub const NONE: Totals = Totals {
    datagrams: 0,
    asks: 0,
    answered: 0,
    observed: 0,
    timed_out: 0,
    values: 0,
    acts: 0,
    reads: 0,
};

/// Adds the ends of a schedule.
fn add_ends(totals: &mut Totals, world: &World) {
    for ended in world.ends.iter() {
        match &ended.end {
            End::Answered(_, _, _) => totals.answered = totals.answered.saturating_add(1),
            End::Observed => totals.observed = totals.observed.saturating_add(1),
            End::TimedOut => totals.timed_out = totals.timed_out.saturating_add(1),
            End::Reset => {}
        }
    }
}

/// Adds the numbers of a schedule.
pub fn add(totals: &mut Totals, played: &Played<'_>) {
    let world = played.world;
    totals.datagrams = totals.datagrams.saturating_add(world.sent.len());
    totals.asks = totals.asks.saturating_add(world.asks.len());
    totals.values = totals.values.saturating_add(world.taken.len());
    totals.acts = totals.acts.saturating_add(acts(played));
    totals.reads = totals.reads.saturating_add(reads(played));
    add_ends(totals, world);
}

/// Writes the totals.
pub fn put(text: &mut String, totals: &Totals) -> Result<(), AllocError> {
    write!(
        text,
        "in all: {} datagrams, {} asks, ",
        totals.datagrams, totals.asks
    )?;
    write!(
        text,
        "{} answered, {} observed, {} timed out, ",
        totals.answered, totals.observed, totals.timed_out
    )?;
    writeln!(
        text,
        "{} values, {} acts, {} reads",
        totals.values, totals.acts, totals.reads
    )
}
