//! The turns of a run, put together from all the handlers of a rack.

ghost use Rattle.std.specs.Prelude.{◌≡◌, ◌++◌, List, map, IfOk, OnOk};
ghost use Rattle.std.specs.List.{flat_map, position};
ghost use Rattle.thing_handler.specs.Turns.{RunTurn};
ghost use Rattle.servient_script.specs.Print.{turn_line};
ghost use Rattle.servient_script.specs.Merging.{begins_with as begins, counts_of, turns_after, HaveKept, IsMerged};

use crate::print::put_turn;
use std::alloc::{AllocError, Global};
use thing_handler::{Handlers, Turn};
use wot_json::{Bytes, NoMemory};

/// The number of turns that each handler has kept so far.
pub fn turn_counts<R: Handlers>(alloc: Global, rack: &R) -> Result<Vec<usize>, NoMemory>
    ensures { IfOk result (λ counts. counts.items ≡ counts_of (R.slots rack.now)) }
{
    let mut counts = Vec::new(alloc);
    for slot in 0..rack.len() {
        counts.push(rack.turns(slot).len())?;
    }
    Ok(counts)
}

/// The turns that each handler has kept since these counts.
pub fn turns_since<'a, R: Handlers>(
    alloc: Global,
    rack: &'a R,
    counts: &[usize],
) -> Result<Vec<&'a [Turn]>, NoMemory>
    requires { HaveKept counts.now (R.slots rack.now) }
    ensures { IfOk result (λ since. map (λ turns. turns.now) since.items ≡ turns_after counts.now (R.slots rack.now)) }
{
    let mut since = Vec::new(alloc);
    for (slot, count) in counts.iter().enumerate() {
        let (_, later) = rack.turns(slot).split_at(*count);
        since.push(later)?;
    }
    Ok(since)
}

/// Puts the lines of the turns of a run at the end, by their numbers. `by_slot` has those of each slot.
pub fn put_turns(alloc: Global, out: &mut Bytes, by_slot: &mut [&[Turn]]) -> Result<(), NoMemory>
    ensures { (turns : List RunTurn) → IsMerged 0 (map (λ left. left.now) by_slot.old) turns
        → OnOk result (out.new ≡ out.old ++ flat_map turn_line turns) }
{
    for number in 0..u64::MAX {
        let Some(slot) = slot_of(by_slot, number) else {
            return Ok(());
        };
        let Some((turn, left)) = by_slot[slot].split_first() else {
            return Ok(());
        };
        put_turn(alloc, out, slot, turn)?;
        by_slot[slot] = left;
    }
    // Out of memory, since there is no number for a turn more.
    Err(AllocError)
}

/// The slot whose next turn has this number. It is looked for over all slots, since that costs little on a rack of 64.
fn slot_of(by_slot: &[&[Turn]], number: u64) -> Option<usize>
    ensures { result ≡ position (λ left. begins number left.now) by_slot.now }
{
    by_slot.iter().position(|left| begins_with(left, number))
}

/// The first of some turns has this number.
fn begins_with(turns: &[Turn], number: u64) -> bool
    ensures { result ≡ begins number turns.now }
{
    match turns.first() {
        Some(turn) => turn.number == number,
        None => false,
    }
}
