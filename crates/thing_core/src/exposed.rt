//! Things as they are exposed, and what they keep in a run.

ghost use Rattle.std.specs.Prelude.{◌≡◌, ◌≤◌, ◌<◌, [], ◌∷◌, length, map, option_map, MatchOption, IfErr, IfOk, IfSome, OnOk};
ghost use Rattle.std.specs.List.{AllByRecursion};
ghost use Rattle.wot_terms.specs.Faults.{IsValid};
ghost use Rattle.thing_site.specs.Site.{site_of, expose_faults};
ghost use Rattle.thing_state.specs.State.{start, last_of, most_turns};
ghost use Rattle.thing_state.specs.Places.{target_of as target_of_path};
ghost use Rattle.thing_site.specs.Exposing.{kinds_of, IsFirst};
ghost use Rattle.thing_site.specs.Fits.{Fits};
ghost use Rattle.thing_core.specs.Performing.{MakesAct, MakesPolls};
ghost use Rattle.thing_core.specs.Rounds.{PollsNext};
ghost use Rattle.thing_site.specs.Refusals.{longest_value};
ghost use Rattle.thing_ops.specs.Requests.{request_seen};

use crate::acting::{act, last_in};
use crate::admitting::admitted;
use crate::polling::{Round, poll_all, poll_next};
use crate::{ExposeFault, Slots};
use servient_base::Target;
use std::alloc::Global;
use std::marker::Model;
use thing_handler::Handlers;
use thing_ops::{Outcome, Request, Segments};
use thing_site::{IndexedThings, target_at};
use thing_state::{MOST_TURNS, Machine, place_of, silent_all, unseen_all};
use wot_terms::Things;

/// Things, their affordances and the handlers of these, with the state of the Thing machine.
#[derive(Drop)]
pub struct Exposed {
    alloc: Global,
    things: IndexedThings,
    machine: Machine,
}

impl Model for Exposed {
    ghost use Rattle.std.specs.Prelude.{◌≡◌, length};
    ghost use Rattle.thing_site.specs.Site.{emitters_of};
    ghost use Rattle.thing_core.specs.Kept.{Kept, kept_code};

    ghost Value = { Kept };

    ghost coded = { kept_code };

    ghost view = { λ e. record { site = e.things; state = e.machine.state; pending = e.machine.pending } };

    ghost invariant = { λ e. length e.machine.state.last ≡ length (emitters_of e.things.things) };
}

/// The counts of turns and invocations.
#[derive(Clone, Copy, Debug, PartialEq, Eq, Drop)]
pub struct Accounts {
    /// The turns of the run.
    pub calls: u64,
    /// The invocations that there are, running and completed together.
    pub invocations: u32,
}

impl Exposed {
    /// Things as they are exposed by these slots of a rack, before the first request of a run that leaves out the
    /// versions up to `left_out`.
    pub fn new<R: Handlers>(
        alloc: Global,
        things: Things,
        slots: &Slots,
        rack: &R,
        left_out: u32,
    ) -> Result<Exposed, ExposeFault>
        requires { AllByRecursion (λ t. IsValid t.1) things }
        ensures ok { IfOk result (λ e. e ≡ record { site = site_of left_out slots.now things; state = start (site_of left_out slots.now things); pending = [] }) }
        ensures faultless { OnOk result (expose_faults (kinds_of (R.slots rack.now)) slots.now things ≡ []) }
        ensures fits { IfOk result (λ e. Fits e.site (R.slots rack.now)) }
        ensures fault { IfErr result (λ fault. IsFirst (expose_faults (kinds_of (R.slots rack.now)) slots.now things) fault) }
    {
        let things = IndexedThings::new(alloc, things, slots, rack, left_out)?;
        let versions = unseen_all(alloc, things.as_slice(), left_out)?;
        let last = silent_all(alloc, things.as_slice())?;
        Ok(Exposed {
            alloc,
            things,
            machine: Machine::new(alloc, versions, last, left_out)?,
        })
    }

    /// Does what a request asks.
    pub fn perform<R: Handlers>(&mut self, rack: &mut R, request: &Request<'_>) -> Outcome
        requires fits { Fits self.old.site (R.slots rack.old) }
        requires pending { self.old.pending ≡ [] }
        ensures { MakesAct self.old self.new (request_seen request.now) result (R.slots rack.old) (R.slots rack.new) }
    {
        match admitted(self.alloc, &self.things, &self.machine, request) {
            Ok(task) => act(self.alloc, task, request, &mut self.machine, rack),
            Err(outcome) => outcome,
        }
    }

    /// Polls the handler of each event once, in the order of Things and names. It takes no memory of its own: an
    /// event is left out only where its handler is out of memory, or where the run has no number left for a turn.
    pub fn tick<R: Handlers>(&mut self, rack: &mut R)
        requires fits { Fits self.old.site (R.slots rack.old) }
        requires pending { self.old.pending ≡ [] }
        ensures { MakesPolls self.old self.new (R.slots rack.old) (R.slots rack.new) }
    {
        // Read so that the proof knows: there is room for as many emissions as there are emitters.
        let _room = self.machine.emitters();
        poll_all(self.things.as_slice(), &mut self.machine, rack);
    }

    /// Polls the handler of the next event of a round, in the order of Things and names, and returns true if
    /// one was left. It takes no memory of its own, as `tick`.
    pub fn poll_next<R: Handlers>(&mut self, rack: &mut R, round: &mut Round) -> bool
        requires fits { Fits self.old.site (R.slots rack.old) }
        requires pending { self.old.pending ≡ [] }
        ensures { PollsNext result round.old round.new self.old self.new (R.slots rack.old) (R.slots rack.new) }
    {
        // Read so that the proof knows: there is room for as many emissions as there are emitters.
        let _room = self.machine.emitters();
        poll_next(self.things.as_slice(), &mut self.machine, rack, round)
    }

    /// The target of the own path of an observable property or an event: the slot of its affordance.
    pub fn target_of(&self, path: &Segments) -> Option<Target>
        ensures { result ≡ target_of_path path.now self.now.site self.now.state.invocations }
    {
        let place = place_of(&self.things, self.machine.invocations(), path);
        target_at(place)
    }

    /// The target of the next emission that wasn't handed out yet, in order: the slot of its affordance.
    pub fn emitted(&mut self) -> Option<Target>
        ensures first { MatchOption result ((self.old.pending ≡ []) × (self.new.pending ≡ [])) (λ target. self.old.pending ≡ target ∷ self.new.pending) }
        ensures site { self.new.site ≡ self.old.site }
        ensures state { self.new.state ≡ self.old.state }
    {
        self.machine.hand_out()
    }

    /// The text of the last emission of this target, which has at most 1,024 bytes.
    pub fn last(&self, target: Target) -> Option<&[u8]>
        ensures text { option_map (λ t. t.now) result ≡ last_of target self.now.state.last }
        ensures length { IfSome result (λ t. length t.now ≤ longest_value) }
    {
        last_in(self.machine.last(), target)
    }

    /// The counts of turns and invocations.
    pub fn accounts(&self) -> Accounts
        ensures calls { result.calls ≡ self.now.state.turns }
        ensures bound { result.calls ≤ most_turns self.now.state.left_out }
        ensures invocations { result.invocations ≡ length self.now.state.invocations }
    {
        Accounts {
            calls: self.machine.turns(),
            invocations: self.machine.standing(),
        }
    }

    /// The most turns that a run of this site may have.
    pub fn most_turns(&self) -> u64
        ensures { result ≡ most_turns self.now.site.left_out }
    {
        MOST_TURNS - u64::from(self.things.left_out())
    }

    /// The id of the next invocation, counted over all actions.
    pub fn next_invocation(&self) -> u64
        ensures { result ≡ self.now.state.next_invocation }
    {
        self.machine.next_invocation()
    }
}
