//! The parts of the Thing machine's state: invocations and last values.

ghost use Rattle.std.specs.Prelude.{◌≡◌, ◌≤◌, ◌==◌, length, option_map, position, IfOk};
ghost use Rattle.std.specs.Ordering.{nat_cmp};
ghost use Rattle.thing_state.specs.Course as course;
ghost use Rattle.thing_state.specs.Ids.{IdsRise};

use crate::room::TextRoom;
use servient_base::{NoMemory, Target};
use std::alloc::Global;
use std::cmp::Ordering;
use std::marker::Model;
use thing_handler::Slot;

/// The most invocations that may run at a time, and be there at a time.
pub const MOST_INVOCATIONS: usize = 64;

/// The most turns that a run may have which leaves no versions out, so that the ids of invocations and the versions of
/// properties fit in 32 bits.
pub const MOST_TURNS: u64 = 4_294_967_295;

/// The progress of an invocation.
#[derive(Clone, Copy, Debug, PartialEq, Eq, Drop)]
pub enum Progress {
    Running,
    /// It is finished, and gave no output.
    Finished,
    /// It is finished, with the output that its room has.
    Gave,
}

/// An invocation of an action.
#[derive(Debug, Drop)]
pub struct Invocation {
    id: u32,
    slot: Slot,
    progress: Progress,
    output: TextRoom,
}

impl Model for Invocation {
    ghost use Rattle.thing_state.specs.State.{Invocation as InvocationSeen};
    ghost use Rattle.std.specs.Prelude.{◌≤◌, length};
    ghost use Rattle.thing_site.specs.Refusals.{longest_value};
    ghost use Rattle.thing_state.specs.Course.{invocation_code, status_of};

    ghost Value = { InvocationSeen };

    ghost coded = { invocation_code };

    ghost view = { λ i. record { id = i.id; slot = i.slot; status = status_of i.progress i.output } };

    ghost invariant = { λ i. length i.output ≤ longest_value };
}

impl Invocation {
    ghost use Rattle.std.specs.Prelude.{◌≤◌, length};
    ghost use Rattle.thing_site.specs.Refusals.{longest_value};
    ghost use Rattle.thing_state.specs.State.{completed, is_running as is_running_one, running};

    /// One that runs, in a room that has no longer text than a value.
    pub(crate) fn running(id: u32, slot: Slot, output: TextRoom) -> Invocation
        requires { length output ≤ longest_value }
        ensures { result ≡ record { id = id; slot = slot; status = running } }
    {
        Invocation {
            id,
            slot,
            progress: Progress::Running,
            output,
        }
    }

    /// Its id, counted over all actions.
    pub fn id(&self) -> u32
        ensures { result ≡ self.now.id }
    {
        self.id
    }

    /// The slot of its action.
    pub fn slot(&self) -> Slot
        ensures { result ≡ self.now.slot }
    {
        self.slot
    }

    /// It runs: it isn't completed.
    pub fn is_running(&self) -> bool
        ensures { result ≡ is_running_one self.now }
    {
        match self.progress {
            Progress::Running => true,
            Progress::Finished | Progress::Gave => false,
        }
    }

    /// The text of its output, where it gave one.
    pub fn output(&self) -> Option<&[u8]>
        ensures output { course.IsOutput self.now.status (option_map (λ t. t.now) result) }
        ensures length { course.FitsValue (option_map (λ t. t.now) result) }
    {
        match self.progress {
            Progress::Gave => Some(self.output.as_slice()),
            Progress::Running | Progress::Finished => None,
        }
    }

    /// It finishes, with the text of its output where it has one.
    pub(crate) fn complete(&mut self, output: Option<&[u8]>)
        requires { course.FitsValue (option_map (λ t. t.now) output) }
        ensures { self.new ≡ record self.old { status = completed (option_map (λ t. t.now) output.entry) } }
    {
        match output {
            Some(text) => {
                self.output.fill(text);
                self.progress = Progress::Gave;
            }
            None => self.progress = Progress::Finished,
        }
    }

    /// The room of its output.
    pub(crate) fn into_room(self) -> TextRoom {
        self.output
    }
}

/// The place of the invocation of this id, found by binary search.
pub fn place_by_id(invocations: &[Invocation], id: u32) -> Option<usize>
    requires { IdsRise invocations.now }
    ensures { result ≡ position (λ i. i.id == id) invocations.now }
{
    let order = |invocation: &Invocation| -> Ordering
        ensures { result ≡ nat_cmp invocation.now.id id }
    { invocation.id().cmp(&id) };
    match invocations.binary_search_by(order) {
        Ok(index) => Some(index),
        Err(_) => None,
    }
}

/// The last value of an affordance that may emit.
#[derive(Debug, Drop)]
pub struct LastValue {
    target: Target,
    has_emitted: bool,
    text: TextRoom,
}

impl Model for LastValue {
    ghost use Rattle.std.specs.Prelude.{◌≤◌, length, Some, None, if◌then◌else◌};
    ghost use Rattle.thing_site.specs.Refusals.{longest_value};
    ghost use Rattle.thing_state.specs.State.{LastValue as LatestSeen};
    ghost use Rattle.thing_state.specs.Course.{latest_code};

    ghost Value = { LatestSeen };

    ghost coded = { latest_code };

    ghost view = { λ l. record { target = l.target; text = if l.has_emitted then Some l.text else None } };

    ghost invariant = { λ l. length l.text ≤ longest_value };
}

impl LastValue {
    ghost use Rattle.std.specs.Prelude.{None, IfSome};
    ghost use Rattle.thing_site.specs.Refusals.{longest_value};
    ghost use Rattle.thing_state.specs.State.{renewed};

    /// That of the affordance in this slot, which hasn't emitted yet.
    pub(crate) fn silent(alloc: Global, target: Target) -> Result<LastValue, NoMemory>
        ensures { IfOk result (λ l. l ≡ record { target = target; text = None }) }
    {
        Ok(LastValue {
            target,
            has_emitted: false,
            text: TextRoom::new(alloc)?,
        })
    }

    /// The slot of its affordance.
    pub fn target(&self) -> Target
        ensures { result ≡ self.now.target }
    {
        self.target
    }

    /// The value's text, where it has emitted one.
    pub fn text(&self) -> Option<&[u8]>
        ensures text { option_map (λ t. t.now) result ≡ self.now.text }
        ensures length { IfSome result (λ t. length t.now ≤ longest_value) }
    {
        if self.has_emitted {
            Some(self.text.as_slice())
        } else {
            None
        }
    }

    /// It emits this text, where the emission is of its affordance.
    pub(crate) fn renew(&mut self, target: Target, text: &[u8])
        requires { length text.now ≤ longest_value }
        ensures { self.new ≡ renewed (record { target = target; text = text.now }) self.old }
    {
        if self.target == target {
            self.text.fill(text);
            self.has_emitted = true;
        }
    }
}
