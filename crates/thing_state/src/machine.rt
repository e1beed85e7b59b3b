//! The state that the Thing machine keeps in a run, in places that were all taken at its beginning.
//!
//! All that changes is one type with a Model: each of its calls is an equation on the state, and the acts above it see
//! no vector, no room and no capacity.

ghost use Rattle.std.specs.Prelude.{◌≡◌, ◌≤◌, ◌<◌, ◌+◌, length, option_map, not, position, remove, vec_len, vec_capacity, IfOk};
ghost use Rattle.thing_state.specs.State as spec;
ghost use Rattle.thing_state.specs.Course.{FitsValue};
ghost use Rattle.thing_state.specs.Ids.{IdsRise};

use crate::room::TextRoom;
use crate::state::{Invocation, LastValue, MOST_INVOCATIONS, MOST_TURNS, place_by_id};
use crate::version::{Version, place_of_version};
use servient_base::{NoMemory, Target};
use std::alloc::Global;
use std::collections::VecDeque;
use std::marker::Model;
use thing_handler::Slot;

/// The state of the machine, and the targets of emissions that weren't handed out yet. An invocation that goes gives
/// its room back.
#[derive(Drop)]
pub struct Machine {
    /// One for each property.
    versions: Vec<Version>,
    /// The oldest first.
    invocations: Vec<Invocation>,
    /// The rooms of further invocations.
    spare: Vec<TextRoom>,
    /// The id of the next invocation, counted over all actions.
    next_invocation: u64,
    /// One for each affordance that may emit.
    last: Vec<LastValue>,
    /// The number of turns of the run.
    pub(crate) turns: u64,
    /// Versions up to this one are left out.
    left_out: u32,
    pending: VecDeque<Target>,
}

impl Model for Machine {
    ghost use Rattle.std.specs.Prelude.{◌-◌};
    ghost use Rattle.std.specs.VecDeque.{deque_len, deque_capacity};
    ghost use Rattle.thing_state.specs.Course.{Course, course_code};
    ghost use Rattle.thing_state.specs.Keeping.{IsKept};

    ghost Value = { Course };

    ghost coded = { course_code };

    ghost view = { λ m. record {
      state = record {
        versions = m.versions.items;
        invocations = m.invocations.items;
        next_invocation = m.next_invocation;
        last = m.last.items;
        turns = m.turns;
        left_out = m.left_out;
      };
      pending = m.pending.items;
      room = deque_capacity m.pending - deque_len m.pending;
    } };

    ghost invariant = { λ m. IsKept m };
}

impl Machine {
    ghost use Rattle.std.specs.Prelude.{◌≡◌, ◌≤◌, ◌<◌, ◌+◌, ◌-◌, ◌++◌, ◌∷◌, [], ℕ, length, option_map, IfOk, MatchOption, OnOk, OnErr};
    ghost use Rattle.thing_site.specs.Refusals.{longest_value};
    ghost use Rattle.thing_state.specs.State as spec;
    ghost use Rattle.thing_state.specs.State.{most_turns, tag_of, with_id_used, with_invocations, with_seen};
    ghost use Rattle.thing_state.specs.Course.{FitsValue, HasRoom};
    ghost use Rattle.thing_state.specs.Ids.{IdsRise};

    /// Before the first request, where these are the properties and what may emit, and versions up to `left_out` are
    /// left out. All its memory is taken here.
    pub fn new(
        alloc: Global,
        versions: Vec<Version>,
        last: Vec<LastValue>,
        left_out: u32,
    ) -> Result<Machine, NoMemory>
        requires { (slot : ℕ) → spec.version_of slot versions.items ≤ left_out }
        ensures state { IfOk result (λ m. m.state
            ≡ record { versions = versions.items; invocations = []; next_invocation = 1; last = last.items; turns = 0; left_out = left_out }) }
        ensures pending { IfOk result (λ m. m.pending ≡ []) }
    {
        let pending = VecDeque::with_capacity(alloc, last.len())?;
        Ok(Machine {
            versions,
            invocations: Vec::with_capacity(alloc, MOST_INVOCATIONS)?,
            spare: empty_rooms(alloc)?,
            next_invocation: 1,
            last,
            turns: 0,
            left_out,
            pending,
        })
    }

    /// The invocations that there are, the oldest first.
    pub fn invocations(&self) -> &[Invocation]
        ensures items { result.now ≡ self.now.state.invocations }
        ensures rise { IdsRise result.now }
    {
        self.invocations.as_slice()
    }

    /// The number of invocations that there are, running and completed together.
    pub fn standing(&self) -> u32
        ensures { result ≡ length self.now.state.invocations }
    {
        self.invocations.len() as u32
    }

    /// The number of turns that the run has.
    pub fn turns(&self) -> u64
        ensures turns { result ≡ self.now.state.turns }
        ensures bound { result ≤ most_turns self.now.state.left_out }
    {
        self.turns
    }

    /// The most turns that the run may have.
    pub fn most_turns(&self) -> u64
        ensures { result ≡ most_turns self.now.state.left_out }
    {
        MOST_TURNS - u64::from(self.left_out)
    }

    /// The id of the next invocation.
    pub fn next_invocation(&self) -> u64
        ensures id { result ≡ self.now.state.next_invocation }
        ensures bound { result ≤ self.now.state.turns + 1 }
    {
        self.next_invocation
    }

    /// The last value of each affordance that may emit.
    pub fn last(&self) -> &[LastValue]
        ensures { result.now ≡ self.now.state.last }
    {
        self.last.as_slice()
    }

    /// The number of affordances that may emit. As many emissions can be kept where none waits to be handed out.
    pub fn emitters(&self) -> usize
        ensures count { result ≡ length self.now.state.last }
        ensures room { self.now.pending ≡ [] → result ≤ self.now.room }
    {
        self.last.len()
    }

    /// The version of the property in this slot, where something was seen of it; else 0, which no tag is.
    pub fn tag_of(&self, slot: Slot) -> u32
        ensures { result ≡ tag_of slot self.now.state.versions }
    {
        match place_of_version(self.versions.as_slice(), slot) {
            Some(index) => self.versions[index].tag(),
            None => 0,
        }
    }

    /// A value of this text is seen of the property in this slot. The version that it then has.
    pub fn see(&mut self, slot: Slot, text: &[u8]) -> u32
        requires length { length text.now ≤ longest_value }
        requires room { HasRoom self.old.state }
        ensures seen { self.new ≡ record self.old { state = with_seen slot text.now self.old.state } }
        ensures version { result ≡ spec.version_of slot self.new.state.versions }
    {
        match place_of_version(self.versions.as_slice(), slot) {
            Some(index) => self.versions[index].see(text),
            None => 0,
        }
    }

    /// Takes room for this many further emissions.
    pub fn reserve(&mut self, emissions: usize) -> Result<(), NoMemory>
        ensures state { self.new.state ≡ self.old.state }
        ensures pending { self.new.pending ≡ self.old.pending }
        ensures room { OnOk result (emissions ≤ self.new.room) }
    {
        self.pending.reserve(emissions)
    }

    /// The affordance in this slot emits this text.
    pub fn emit(&mut self, target: Target, text: &[u8])
        requires length { length text.now ≤ longest_value }
        requires room { 0 < self.old.room }
        ensures state { self.new.state ≡ record self.old.state { last = spec.last_after (record { target = target; text = text.now } ∷ []) self.old.state.last } }
        ensures pending { self.new.pending ≡ self.old.pending ++ target ∷ [] }
        ensures room { self.new.room + 1 ≡ self.old.room }
    {
        for latest in self.last.iter_mut() {
            latest.renew(target, text);
        }
        self.pending.push_back_reserved(target);
    }

    /// Hands out the target of the next emission that wasn't handed out yet, in order.
    pub fn hand_out(&mut self) -> Option<Target>
        ensures first { MatchOption result ((self.old.pending ≡ []) × (self.new.pending ≡ [])) (λ target. self.old.pending ≡ target ∷ self.new.pending) }
        ensures state { self.new.state ≡ self.old.state }
    {
        self.pending.pop_front()
    }

    /// An invocation was answered, which uses its id.
    pub fn use_id(&mut self)
        requires { self.old.state.next_invocation ≤ self.old.state.turns }
        ensures { self.new ≡ record self.old { state = with_id_used self.old.state } }
    {
        self.next_invocation += 1;
    }

    /// The next invocation begins, of the action in this slot. If there are as many as may be, the oldest that is
    /// completed goes.
    pub fn start(&mut self, slot: Slot)
        requires id { self.old.state.next_invocation ≤ self.old.state.turns }
        requires running { spec.running_count self.old.state.invocations < spec.most_invocations }
        ensures { self.new ≡ record self.old {
          state = with_id_used (with_invocations (spec.with_running self.old.state.next_invocation slot self.old.state.invocations) self.old.state);
        } }
    {
        if self.invocations.len() == MOST_INVOCATIONS {
            drop_oldest_completed(&mut self.invocations, &mut self.spare);
        }
        let invocation = running_in(&mut self.spare, self.next_invocation as u32, slot);
        self.invocations.push_reserved(invocation);
        self.next_invocation += 1;
    }

    /// The invocation of this id finishes, with the text of its output where it has one.
    pub fn complete(&mut self, id: u32, output: Option<&[u8]>)
        requires { FitsValue (option_map (λ t. t.now) output) }
        ensures { self.new ≡ record self.old {
          state = with_invocations (spec.with_completed id (option_map (λ t. t.now) output.entry) self.old.state.invocations) self.old.state;
        } }
    {
        complete_one(self.invocations.as_mut_slice(), id, output);
    }

    /// The invocation of this id goes.
    pub fn remove(&mut self, id: u32)
        ensures { self.new ≡ record self.old { state = with_invocations (spec.without_invocation id self.old.state.invocations) self.old.state } }
    {
        match place_by_id(self.invocations.as_slice(), id) {
            Some(index) => take_back(&mut self.invocations, &mut self.spare, index),
            None => {}
        }
    }
}

/// As many empty rooms as there may be invocations.
fn empty_rooms(alloc: Global) -> Result<Vec<TextRoom>, NoMemory>
    ensures count { IfOk result (λ rooms. vec_len rooms ≡ spec.most_invocations) }
    ensures places { IfOk result (λ rooms. spec.most_invocations ≤ vec_capacity rooms) }
{
    let mut rooms = Vec::with_capacity(alloc, MOST_INVOCATIONS)?;
    for _ in 0..MOST_INVOCATIONS {
        rooms.push(TextRoom::new(alloc)?)?;
    }
    Ok(rooms)
}

/// The first that is completed goes, and gives its room back.
fn drop_oldest_completed(invocations: &mut Vec<Invocation>, spare: &mut Vec<TextRoom>)
    requires room { vec_len spare.old + vec_len invocations.old ≤ vec_capacity spare.old }
    requires some { spec.running_count invocations.old.items < vec_len invocations.old }
    ensures items { invocations.new.items ≡ spec.without_oldest_completed invocations.old.items }
    ensures len { vec_len invocations.new + 1 ≡ vec_len invocations.old }
    ensures spare { vec_len spare.new ≡ vec_len spare.old + 1 }
    ensures places { vec_capacity invocations.new ≡ vec_capacity invocations.old }
    ensures spare_places { vec_capacity spare.new ≡ vec_capacity spare.old }
{
    match place_of_completed(invocations.as_slice()) {
        Some(index) => take_back(invocations, spare, index),
        None => {}
    }
}

/// The place of the first that is completed.
fn place_of_completed(invocations: &[Invocation]) -> Option<usize>
    ensures { result ≡ position (λ i. not (spec.is_running i)) invocations.now }
{
    invocations.iter().position(|i| !i.is_running())
}

/// An invocation that runs, in one of these rooms.
fn running_in(spare: &mut Vec<TextRoom>, id: u32, slot: Slot) -> Invocation
    requires { 0 < vec_len spare.old }
    ensures invocation { result ≡ record { id = id; slot = slot; status = spec.running } }
    ensures len { vec_len spare.new + 1 ≡ vec_len spare.old }
    ensures places { vec_capacity spare.new ≡ vec_capacity spare.old }
{
    let mut room = spare.pop().unwrap();
    room.fill(&[]);
    Invocation::running(id, slot, room)
}

/// The one at this place goes, and gives its room back.
fn take_back(invocations: &mut Vec<Invocation>, spare: &mut Vec<TextRoom>, index: usize)
    requires index { index < vec_len invocations.old }
    requires room { vec_len spare.old < vec_capacity spare.old }
    ensures items { invocations.new.items ≡ remove invocations.old.items index }
    ensures len { vec_len invocations.new + 1 ≡ vec_len invocations.old }
    ensures spare { vec_len spare.new ≡ vec_len spare.old + 1 }
    ensures places { vec_capacity invocations.new ≡ vec_capacity invocations.old }
    ensures spare_places { vec_capacity spare.new ≡ vec_capacity spare.old }
{
    let invocation = invocations.remove(index);
    spare.push_reserved(invocation.into_room());
}

/// The one of this id finishes, with the text of its output where it has one.
fn complete_one(invocations: &mut [Invocation], id: u32, output: Option<&[u8]>)
    requires output { FitsValue (option_map (λ t. t.now) output) }
    requires rise { IdsRise invocations.old }
    ensures { invocations.new ≡ spec.with_completed id (option_map (λ t. t.now) output.entry) invocations.old }
{
    match place_by_id(invocations, id) {
        Some(index) => invocations[index].complete(output),
        None => {}
    }
}
