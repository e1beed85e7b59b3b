//! The refusals of a request before any handler is called.

ghost use Rattle.std.specs.Prelude.{◌≡◌, MatchOption, count_by};
ghost use Rattle.thing_ops.specs.Requests.{request_seen};
ghost use Rattle.thing_state.specs.State as state;
ghost use Rattle.thing_core.specs.Refusals as refusal;
ghost use Rattle.thing_core.specs.Performing.{IsAdmitted, IsRefusedByState};

use std::alloc::Global;
use thing_ops::{Conditions, Outcome, Request, route};
use thing_site::{IndexedThings, Input, ThingAct, act_at, judge};
use thing_state::{Invocation, MOST_INVOCATIONS, Machine, place_of};

/// An act to do, with what is handed in to it.
#[derive(Drop)]
pub struct Task<'a> {
    pub act: ThingAct<'a>,
    pub inputs: Vec<Input<'a>>,
}

/// The act that a request asks for, where nothing is against it; else the outcome.
pub fn admitted<'a>(
    alloc: Global,
    things: &'a IndexedThings,
    machine: &Machine,
    request: &Request<'_>,
) -> Result<Task<'a>, Outcome>
    ensures { IsAdmitted (record { site = things.now; state = machine.now.state; request = request_seen request.now }) result }
{
    // Matches and not `?`, since the proof of each refusal names its arm.
    let place = match place_of(things, machine.invocations(), &request.path) {
        Some(place) => place,
        None => return Err(Outcome::NotFound),
    };
    let act = match act_at(route(&request.path), place, request.verb) {
        Ok(act) => act,
        Err(allow) => return Err(Outcome::NotAllowed(allow)),
    };
    let inputs = match judge(alloc, &act, request) {
        Ok(inputs) => inputs,
        Err(outcome) => return Err(outcome),
    };
    match refusal_by_state(&act, machine, &request.conditions) {
        Some(outcome) => Err(outcome),
        None => Ok(Task { act, inputs }),
    }
}

/// The refusal of an act as things stand: a property would be written that isn't of a version that the request asks
/// for, or an action would be invoked, and no further invocation may run.
fn refusal_by_state(
    act: &ThingAct<'_>,
    machine: &Machine,
    conditions: &Conditions,
) -> Option<Outcome>
    ensures { MatchOption result
        ((¬ (refusal.HasFailedCondition machine.now.state conditions.now act.now)) × (¬ (refusal.HasNoInvocationLeft machine.now.state act.now)))
        (λ o. IsRefusedByState machine.now.state conditions.now act.now o) }
{
    match act {
        ThingAct::Writes(spot) => {
            if conditions.fails_to_write(machine.tag_of(spot.slot())) {
                Some(Outcome::PreconditionFailed)
            } else {
                None
            }
        }
        ThingAct::Invokes(_) => {
            if MOST_INVOCATIONS <= running_count(machine.invocations()) {
                Some(Outcome::InvocationsFull)
            } else {
                None
            }
        }
        _ => None,
    }
}

/// The number of these that run.
fn running_count(invocations: &[Invocation]) -> usize
    ensures { result ≡ count_by state.is_running invocations.now }
{
    invocations.iter().filter(|i| i.is_running()).count()
}
