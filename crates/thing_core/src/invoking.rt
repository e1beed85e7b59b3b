//! Actions: they are invoked, and invocations that run are queried and cancelled.

ghost use Rattle.std.specs.Prelude.{◌≡◌, ◌≤◌, ◌<◌, ℕ, List, [], length, map, None, IfOk, IfSome, IsSome};
ghost use Rattle.thing_state.specs.Ids.{IdsRise};
ghost use Rattle.thing_state.specs.State.{invocation_named, is_running as is_running_one, most_invocations, running, running_count, status_text};
ghost use Rattle.thing_core.specs.Thing.{place_of_invocation, Cancels, Invokes, IsHandedIn, OnInvocation, Queries};
ghost use Rattle.thing_core.specs.Performing.{IsTold, MakesDone, OrMemory, OutputComesTo, SettlesCancel, SettlesInvocation, SettlesQuery};

use crate::NoMemory;
use itoa::Buffer;
use std::alloc::Global;
use thing_handler::{Answer, CallKind, Handlers, Slot};
use thing_ops::{Outcome, Segments};
use thing_site::{Input, LONGEST_VALUE, Spot};
use thing_state::{
    Invocation, Machine, TextRoom, call, failure, invocation_in, put_completed, put_running,
    taken_text,
};
use wot_json::{Bytes, Tree};
use wot_schema::Schema;

/// The memory that an invocation may need once it was answered. It is taken before the call, so that a request that its
/// device answered takes no more memory.
#[derive(Drop)]
pub struct Prepared {
    /// Its path.
    pub place: Segments,
    /// Its status while it runs.
    pub status: Bytes,
    /// Room for its output.
    pub output: TextRoom,
}

/// Takes what an invocation of this id may need, under the path of its action.
pub fn prepare(alloc: Global, path: &Segments, id: u64) -> Result<Prepared, NoMemory>
    ensures { IfOk result (λ p. (p.place ≡ place_of_invocation path.now id) × (p.status ≡ status_text id running) × (p.output ≡ [])) }
{
    let mut status = TextRoom::new(alloc)?;
    put_running(&mut status, id);
    Ok(Prepared {
        place: place_under(alloc, path, id)?,
        status: status.into_bytes(),
        output: TextRoom::new(alloc)?,
    })
}

/// The path of an invocation of this id, under the path of its action.
fn place_under(alloc: Global, path: &Segments, id: u64) -> Result<Segments, NoMemory>
    ensures { IfOk result (λ place. place ≡ place_of_invocation path.now id) }
{
    let mut place = Segments::new(alloc);
    for index in 0..path.len() {
        match path.get(index) {
            Some(segment) => place.push(segment)?,
            None => return Ok(place),
        }
    }
    let mut digits = Buffer::new();
    place.push(digits.format(id).as_bytes())?;
    Ok(place)
}

/// Invokes an action.
pub fn invoke<R: Handlers>(
    spot: Spot<'_>,
    inputs: Vec<Input<'_>>,
    prepared: Prepared,
    machine: &mut Machine,
    rack: &mut R,
) -> Outcome
    requires slot { spot.slot < length (R.slots rack.old) }
    requires running { running_count machine.old.state.invocations < most_invocations }
    requires status { prepared.status ≡ status_text machine.old.state.next_invocation running }
    requires output { prepared.output ≡ [] }
    ensures { (path : List (List ℕ)) → prepared.place ≡ place_of_invocation path machine.old.state.next_invocation
        → MakesDone (Invokes spot.entry path inputs.entry.items) result machine.old machine.new (R.slots rack.old) (R.slots rack.new) }
{
    let input = handed_in(inputs);
    if machine.turns() == machine.most_turns() {
        return Outcome::CallsUsed;
    }
    let id = machine.next_invocation() as u32;
    match call(machine, rack, spot.slot(), &CallKind::Invoke(id, input)) {
        Ok(answer) => record_answer(spot, prepared, answer, machine),
        Err(outcome) => outcome,
    }
}

/// The value that is handed in to an action.
fn handed_in(inputs: Vec<Input<'_>>) -> Option<Tree>
    ensures { IsHandedIn inputs.entry.items result }
{
    match inputs.into_iter().next() {
        Some(input) => {
            let (_, value, _) = input.into_parts();
            Some(value)
        }
        None => None,
    }
}

/// Settles an invocation by its answer.
fn record_answer(
    spot: Spot<'_>,
    prepared: Prepared,
    answer: Answer,
    machine: &mut Machine,
) -> Outcome
    requires id { machine.old.state.next_invocation ≤ machine.old.state.turns }
    requires running { running_count machine.old.state.invocations < most_invocations }
    requires status { prepared.status ≡ status_text machine.old.state.next_invocation running }
    requires output { prepared.output ≡ [] }
    ensures { SettlesInvocation spot.entry prepared.place answer result machine.old machine.new }
{
    let failed = failure(&answer);
    // For the proof: an answer that was lent is moved before it is taken apart.
    let given = answer;
    match given {
        Answer::Started => {
            machine.start(spot.slot());
            Outcome::Started(prepared.place, prepared.status)
        }
        Answer::Finished(output) => {
            machine.use_id();
            finished(prepared.output, &spot.affordance().output, output)
        }
        Answer::Value(_)
        | Answer::Done
        | Answer::Running
        | Answer::Cancelled
        | Answer::Quiet
        | Answer::Fired(_)
        | Answer::Refused(_)
        | Answer::DeviceFault(_) => {
            machine.use_id();
            failed
        }
    }
}

/// The outcome of an invocation that is finished at once.
fn finished(mut room: TextRoom, schema: &Option<Schema>, output: Option<Tree>) -> Outcome
    requires { room ≡ [] }
    ensures { OutputComesTo schema.now output result }
{
    let value = match output {
        Some(value) => value,
        None => return Outcome::Changed,
    };
    let mut buffer = [0; LONGEST_VALUE];
    match taken_text(schema, &value, &mut buffer) {
        Some(text) => {
            room.fill(text);
            Outcome::Output(room.into_bytes())
        }
        None => Outcome::BadAnswer,
    }
}

/// Asks for the status of an invocation. The room for it is taken before the call, so that an answer takes no more
/// memory.
pub fn query<R: Handlers>(
    alloc: Global,
    spot: Spot<'_>,
    id: u32,
    machine: &mut Machine,
    rack: &mut R,
) -> Outcome
    requires slot { spot.slot < length (R.slots rack.old) }
    requires stands { IsSome (invocation_named spot.slot id machine.old.state.invocations) }
    ensures { MakesDone (OrMemory (OnInvocation spot.entry id (Queries spot.entry id))) result machine.old machine.new (R.slots rack.old) (R.slots rack.new) }
{
    let room = match TextRoom::new(alloc) {
        Ok(room) => room,
        Err(_) => return Outcome::Memory,
    };
    let room = match told(machine.invocations(), spot.slot(), id, room) {
        Ok(outcome) => return outcome,
        Err(room) => room,
    };
    match call(machine, rack, spot.slot(), &CallKind::Query(id)) {
        Ok(answer) => queried(spot, id, room, answer, machine),
        Err(outcome) => outcome,
    }
}

/// The text in a room, as the outcome of a request.
fn content_in(room: TextRoom) -> Outcome
    ensures { result ≡ Outcome.Content room None }
{
    Outcome::Content {
        text: room.into_bytes(),
        tag: None,
    }
}

/// The status of an invocation that runs no more; or else the room.
fn told(
    invocations: &[Invocation],
    slot: Slot,
    id: u32,
    mut room: TextRoom,
) -> Result<Outcome, TextRoom>
    requires room { room ≡ [] }
    requires rise { IdsRise invocations.now }
    ensures { IsTold (invocation_named slot id invocations.now) id result }
{
    match invocation_in(invocations, slot, id) {
        None => Err(room),
        Some(invocation) => {
            if invocation.is_running() {
                return Err(room);
            }
            put_completed(&mut room, u64::from(id), invocation.output());
            Ok(content_in(room))
        }
    }
}

/// Settles a query by its answer.
fn queried(
    spot: Spot<'_>,
    id: u32,
    mut room: TextRoom,
    answer: Answer,
    machine: &mut Machine,
) -> Outcome
    requires { room ≡ [] }
    ensures { SettlesQuery spot.entry id answer result machine.old machine.new }
{
    let failed = failure(&answer);
    // For the proof: an answer that was lent is moved before it is taken apart.
    let given = answer;
    match given {
        Answer::Running => {
            put_running(&mut room, u64::from(id));
            content_in(room)
        }
        Answer::Finished(None) => {
            machine.complete(id, None);
            put_completed(&mut room, u64::from(id), None);
            content_in(room)
        }
        Answer::Finished(Some(value)) => {
            let mut buffer = [0; LONGEST_VALUE];
            match taken_text(&spot.affordance().output, &value, &mut buffer) {
                Some(text) => {
                    machine.complete(id, Some(text));
                    put_completed(&mut room, u64::from(id), Some(text));
                    content_in(room)
                }
                None => Outcome::BadAnswer,
            }
        }
        Answer::Value(_)
        | Answer::Done
        | Answer::Started
        | Answer::Cancelled
        | Answer::Quiet
        | Answer::Fired(_)
        | Answer::Refused(_)
        | Answer::DeviceFault(_) => failed,
    }
}

/// Ends an invocation.
pub fn cancel<R: Handlers>(spot: Spot<'_>, id: u32, machine: &mut Machine, rack: &mut R) -> Outcome
    requires slot { spot.slot < length (R.slots rack.old) }
    requires stands { IsSome (invocation_named spot.slot id machine.old.state.invocations) }
    ensures { MakesDone (OnInvocation spot.entry id (Cancels spot.entry id)) result machine.old machine.new (R.slots rack.old) (R.slots rack.new) }
{
    if !is_running(machine.invocations(), spot.slot(), id) {
        machine.remove(id);
        return Outcome::Deleted;
    }
    match call(machine, rack, spot.slot(), &CallKind::Cancel(id)) {
        Ok(answer) => cancelled(id, &answer, machine),
        Err(outcome) => outcome,
    }
}

/// Settles a cancellation by its answer.
fn cancelled(id: u32, answer: &Answer, machine: &mut Machine) -> Outcome
    ensures { SettlesCancel id answer.now result machine.old machine.new }
{
    match answer {
        Answer::Cancelled => {
            machine.remove(id);
            Outcome::Deleted
        }
        Answer::Value(_)
        | Answer::Done
        | Answer::Started
        | Answer::Running
        | Answer::Finished(_)
        | Answer::Quiet
        | Answer::Fired(_)
        | Answer::Refused(_)
        | Answer::DeviceFault(_) => failure(answer),
    }
}

/// The invocation of this id, of the action in this slot, runs.
fn is_running(invocations: &[Invocation], slot: Slot, id: u32) -> bool
    requires { IdsRise invocations.now }
    ensures { IfSome (invocation_named slot id invocations.now) (λ i. result ≡ is_running_one i) }
{
    match invocation_in(invocations, slot, id) {
        Some(invocation) => invocation.is_running(),
        None => false,
    }
}
