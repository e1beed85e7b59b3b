//! The log of a run: the turns of its steps, written by their numbers.

ghost use Rattle.std.specs.Prelude.{◌≡◌, ◌+◌, ◌≤◌, ℕ, List, [], ◌∷◌, length, map, replicate, IfOk, Some};
ghost use Rattle.std.specs.List.{flat_map, position};
ghost use Rattle.thing_handler.specs.Handler.{forgotten};
ghost use Rattle.thing_handler.specs.Turns.{RunTurn};
ghost use Rattle.servient_outside.specs.declared.out.Put.TheVariants as put;
ghost use Rattle.servient_outside.specs.Out.{OutShows};
ghost use Rattle.servient_script.specs.Merging.{begins_with as begins, counts_of, turns_after, HaveKept, IsMerged};
ghost use Rattle.turn_lines.specs.Buffer.{buffered_of, nothing_held, HasPut};
ghost use Rattle.turn_lines.specs.Lines.{logged_turn, serving_line};

use servient_core::RunBounds;
use servient_outside::{Out, Put};
use servient_script::turn_counts;
use std::alloc::Global;
use thing_handler::{Handlers, Turn};
use turn_lines::{Heading, LineBuffer, LoggedTurn, put_heading, put_line};
use wot_json::NoMemory;

/// The log of a run, and the bounds of that run.
#[derive(Drop)]
pub struct RunLog {
    pub lines: LineBuffer,
    /// The number of turns of each handler that were written, of those that it keeps.
    pub written: Vec<usize>,
    pub bounds: RunBounds,
}

/// The turns of a step: their numbers, and the moment of the step's event.
#[derive(Clone, Copy)]
pub struct StepTurns {
    pub moment: u64,
    /// The number of the first turn of the step, if it has one.
    pub first: u64,
    /// The number of the turn after the last.
    pub after: u64,
}

impl RunLog {
    /// The log of a run on this rack, before its first event: what the handlers made before isn't written.
    pub fn new<R: Handlers>(alloc: Global, rack: &R, bounds: RunBounds) -> Result<RunLog, NoMemory>
        ensures lines { IfOk result (λ log. buffered_of log.lines ≡ nothing_held) }
        ensures written { IfOk result (λ log. log.written.items ≡ counts_of (R.slots rack.now)) }
        ensures bounds { IfOk result (λ log. log.bounds ≡ bounds) }
    {
        let written = turn_counts(alloc, rack)?;
        Ok(RunLog {
            lines: LineBuffer::new(alloc)?,
            written,
            bounds,
        })
    }

    /// Writes the first line.
    pub fn begin<O: Out>(&mut self, out: &mut O, heading: Heading<'_>) -> Put
        requires { buffered_of self.old.lines ≡ nothing_held }
        ensures shows { OutShows (O.seen out.old) (O.seen out.new) result (serving_line heading.entry.http.now heading.entry.coap.now heading.entry.things) }
        ensures lines { result ≡ put.Done → buffered_of self.new.lines ≡ nothing_held }
        ensures written { self.new.written ≡ self.old.written }
        ensures bounds { self.new.bounds ≡ self.old.bounds }
    {
        put_heading(&mut self.lines, out, heading);
        self.lines.flush(out)
    }

    /// Writes the lines of the turns of a step. They are found in the handlers, of which each has kept its own.
    pub fn write_turns<R: Handlers, O: Out>(
        &mut self,
        out: &mut O,
        rack: &R,
        step: StepTurns,
    ) -> Put
        requires lines { buffered_of self.old.lines ≡ nothing_held }
        requires kept { HaveKept self.old.written.items (R.slots rack.now) }
        ensures shows { (turns : List RunTurn) → IsMerged step.first (turns_after self.old.written.items (R.slots rack.now)) turns
            → step.after ≡ step.first + length turns
            → OutShows (O.seen out.old) (O.seen out.new) result (flat_map (logged_turn step.moment) turns) }
        ensures lines { result ≡ put.Done → buffered_of self.new.lines ≡ nothing_held }
        ensures written { (turns : List RunTurn) → IsMerged step.first (turns_after self.old.written.items (R.slots rack.now)) turns
            → step.after ≡ step.first + length turns
            → self.new.written.items ≡ counts_of (R.slots rack.now) }
        ensures bounds { self.new.bounds ≡ self.old.bounds }
    {
        for number in step.first..step.after {
            self.write_next(out, rack, step.moment, number);
        }
        self.lines.flush(out)
    }

    /// Puts the line of the turn of this number, which is the next of its handler.
    fn write_next<R: Handlers, O: Out>(&mut self, out: &mut O, rack: &R, moment: u64, number: u64)
        requires { HaveKept self.old.written.items (R.slots rack.now) }
        ensures kept { HaveKept self.new.written.items (R.slots rack.now) }
        ensures left { (turn : RunTurn) → (more : List RunTurn) → IsMerged number (turns_after self.old.written.items (R.slots rack.now)) (turn ∷ more)
            → IsMerged (number + 1) (turns_after self.new.written.items (R.slots rack.now)) more }
        ensures put { (turn : RunTurn) → (more : List RunTurn) → IsMerged number (turns_after self.old.written.items (R.slots rack.now)) (turn ∷ more)
            → HasPut (logged_turn moment turn) (buffered_of self.old.lines) (buffered_of self.new.lines) (O.seen out.old) (O.seen out.new) }
        ensures bounds { self.new.bounds ≡ self.old.bounds }
    {
        let Some(slot) = slot_of(rack, self.written.as_slice(), number) else {
            return;
        };
        let count = self.written[slot];
        let (_, later) = rack.turns(slot).split_at(count);
        let Some((turn, _)) = later.split_first() else {
            return;
        };
        put_line(&mut self.lines, out, LoggedTurn { moment, slot, turn });
        self.written[slot] = count + 1;
    }

    /// Has the handlers forget their turns, all of which were written.
    pub fn forget<R: Handlers>(&mut self, rack: &mut R)
        requires { self.old.written.items ≡ counts_of (R.slots rack.old) }
        ensures rack { R.slots rack.new ≡ map forgotten (R.slots rack.old) }
        ensures written { self.new.written.items ≡ counts_of (R.slots rack.new) }
        ensures lines { self.new.lines ≡ self.old.lines }
        ensures bounds { self.new.bounds ≡ self.old.bounds }
    {
        rack.forget();
        count_none(self.written.as_mut_slice());
    }
}

/// Makes each count 0.
fn count_none(counts: &mut [usize])
    ensures { counts.new ≡ replicate (length counts.old) 0 }
{
    for index in 0..counts.len() {
        counts[index] = 0;
    }
}

/// The slot whose next turn has this number, after those that were written.
fn slot_of<R: Handlers>(rack: &R, written: &[usize], number: u64) -> Option<usize>
    requires { HaveKept written.now (R.slots rack.now) }
    ensures { result ≡ position (begins number) (turns_after written.now (R.slots rack.now)) }
{
    for (slot, count) in written.iter().enumerate() {
        let (_, later) = rack.turns(slot).split_at(*count);
        if begins_with(later, number) {
            return Some(slot);
        }
    }
    None
}

/// The first of some turns has this number.
fn begins_with(turns: &[Turn], number: u64) -> bool
    ensures { result ≡ begins number turns.now }
{
    match turns.first() {
        Some(turn) => turn.number == number,
        None => false,
    }
}
