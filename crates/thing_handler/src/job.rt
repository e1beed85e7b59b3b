//! An action whose invocations run for a number of queries.

ghost use Rattle.std.specs.Prelude.{◌≡◌, ◌<◌, [], length, vec_len, vec_capacity, IfOk, OnOk, IfSome};
ghost use Rattle.thing_handler.specs.Handler.{fresh_handler};

use crate::handler::NOT_ITS_KIND;
use crate::turn_log::{TurnLog, copy_if_any};
use crate::{Answer, CallKind, Handler, Kind, Turn};
use servient_base::NoMemory;
use std::alloc::Global;
use wot_json::Tree;

/// The number of the refusal where no invocation of an id runs.
const NOT_RUNNING: u16 = 1;

/// An invocation that runs.
#[derive(Debug, Drop)]
pub struct Run {
    pub id: u32,
    /// The input, which is the output in the end.
    pub input: Option<Tree>,
    /// The number of queries that are left; the last of them finds it finished.
    pub left: u32,
}

/// The effect of a turn on the invocations that run.
#[derive(Drop)]
enum Change {
    Stays,
    Begins(Run),
    /// The one at this place was queried, and runs on.
    IsQueried(usize),
    /// The one at this place runs no more.
    Ends(usize),
}

/// An action in memory: its invocations give back their input, at once or at a later query.
#[derive(Drop)]
pub struct Job {
    turns: u32,
    runs: Vec<Run>,
    log: TurnLog,
}

impl Job {
    ghost use Rattle.thing_handler.specs.InMemory.{job_answer, job_after, job_seen, length_of, runs_in};
    ghost use Rattle.thing_handler.specs.JobChanges.{changed, CanBeMade};

    /// A job none of whose invocations runs. Each runs until its query of this number; where that is 0, an invocation
    /// is finished as it begins.
    pub fn new(alloc: Global, turns: u32) -> Self
        ensures seen { job_seen result ≡ fresh_handler Kind.Action }
        ensures turns { length_of result ≡ turns }
        ensures runs { runs_in result ≡ [] }
    {
        Job {
            turns,
            runs: Vec::new(alloc),
            log: TurnLog::new(alloc),
        }
    }

    /// The answer to a call, and its effect on the invocations that run; there is room for that then.
    fn turned(&mut self, alloc: Global, what: &CallKind) -> Result<(Answer, Change), NoMemory>
        ensures answer { IfOk result (λ t. t.0 ≡ job_answer (length_of self.old) (runs_in self.old) what.now) }
        ensures runs { IfOk result (λ t. changed t.1 (runs_in self.old) ≡ job_after (length_of self.old) (runs_in self.old) what.now) }
        ensures room { IfOk result (λ t. CanBeMade t.1 (vec_len self.new.runs) (vec_capacity self.new.runs)) }
        ensures unchanged { runs_in self.new ≡ runs_in self.old }
        ensures turns { length_of self.new ≡ length_of self.old }
        ensures log { self.new.log ≡ self.old.log }
    {
        match what {
            CallKind::Invoke(id, input) => invoked(alloc, &mut self.runs, self.turns, *id, input),
            CallKind::Query(id) => queried(alloc, &self.runs, *id),
            CallKind::Cancel(id) => Ok(cancelled(&self.runs, *id)),
            CallKind::Read | CallKind::Write(_) | CallKind::Poll => {
                Ok((Answer::Refused(NOT_ITS_KIND), Change::Stays))
            }
        }
    }
}

ghost use Rattle.thing_handler.specs.InMemory.{job_answer, job_after, ended, run_of, query_answer, query_after, cancel_answer};
ghost use Rattle.thing_handler.specs.JobChanges.{changed, CanBeMade, StandsAt};
ghost use Rattle.std.specs.Prelude.{◌==◌};
ghost use Rattle.std.specs.List.{position};

/// The answer to an Invoke.
fn invoked(
    alloc: Global,
    runs: &mut Vec<Run>,
    turns: u32,
    id: u32,
    input: &Option<Tree>,
) -> Result<(Answer, Change), NoMemory>
    ensures answer { IfOk result (λ t. t.0 ≡ job_answer turns runs.old.items (CallKind.Invoke id input.now)) }
    ensures runs { IfOk result (λ t. changed t.1 runs.old.items ≡ job_after turns runs.old.items (CallKind.Invoke id input.now)) }
    ensures room { IfOk result (λ t. CanBeMade t.1 (vec_len runs.new) (vec_capacity runs.new)) }
    ensures unchanged { runs.new.items ≡ runs.old.items }
{
    let input = copy_if_any(alloc, input)?;
    if turns == 0 {
        return Ok((Answer::Finished(input), Change::Stays));
    }
    runs.reserve(1)?;
    let left = turns;
    Ok((Answer::Started, Change::Begins(Run { id, input, left })))
}

/// The answer to a Query.
fn queried(alloc: Global, runs: &Vec<Run>, id: u32) -> Result<(Answer, Change), NoMemory>
    ensures answer { IfOk result (λ t. t.0 ≡ query_answer (run_of id runs.now.items)) }
    ensures runs { IfOk result (λ t. changed t.1 runs.now.items ≡ query_after (run_of id runs.now.items) id runs.now.items) }
    ensures room { IfOk result (λ t. CanBeMade t.1 (vec_len runs.now) (vec_capacity runs.now)) }
{
    // A match and not `let .. else`, since the proof needs that none runs.
    let place = match place_of(runs.as_slice(), id) {
        Some(place) => place,
        None => return Ok((Answer::Refused(NOT_RUNNING), Change::Stays)),
    };
    let run = &runs[place];
    if run.left <= 1 {
        let output = copy_if_any(alloc, &run.input)?;
        Ok((Answer::Finished(output), Change::Ends(place)))
    } else {
        Ok((Answer::Running, Change::IsQueried(place)))
    }
}

/// The answer to a Cancel.
fn cancelled(runs: &Vec<Run>, id: u32) -> (Answer, Change)
    ensures answer { result.0 ≡ cancel_answer (run_of id runs.now.items) }
    ensures runs { changed result.1 runs.now.items ≡ ended id runs.now.items }
    ensures room { CanBeMade result.1 (vec_len runs.now) (vec_capacity runs.now) }
{
    match place_of(runs.as_slice(), id) {
        Some(place) => (Answer::Cancelled, Change::Ends(place)),
        None => (Answer::Refused(NOT_RUNNING), Change::Stays),
    }
}

/// The place of the earliest invocation of this id.
#[tactic(auto, using(crate::proofs::JobLaws::stands_at_first))]
fn place_of(runs: &[Run], id: u32) -> Option<usize>
    ensures { StandsAt id runs.now result }
{
    first_place(runs, id)
}

/// The first place of this id in a list, in a function of its own, since the search proves `position` alone.
fn first_place(runs: &[Run], id: u32) -> Option<usize>
    ensures { result ≡ position (λ r. r.id == id) runs.now }
{
    runs.iter().position(|run| run.id == id)
}

/// Makes a change.
fn make(runs: &mut Vec<Run>, change: Change)
    requires { CanBeMade change (vec_len runs.old) (vec_capacity runs.old) }
    ensures { runs.new.items ≡ changed change runs.old.items }
{
    match change {
        Change::Stays => {}
        Change::Begins(run) => runs.push(run).unwrap(),
        Change::IsQueried(place) => {
            let left = runs[place].left;
            runs[place].left = left.saturating_sub(1);
        }
        Change::Ends(place) => {
            let _ended = runs.remove(place);
        }
    }
}

impl Handler for Job {
    ghost use Rattle.std.specs.Prelude.{◌≡◌, IfOk, OnOk, OnErr};
    ghost use Rattle.thing_handler.specs.Handler.{AnswersCall, forgotten};
    ghost use Rattle.thing_handler.specs.InMemory.{job_answer, job_after, job_seen, length_of, runs_in};

    ghost seen = { job_seen };

    fn kind(&self) -> Kind {
        Kind::Action
    }

    fn call(&mut self, alloc: Global, number: u64, what: &CallKind) -> Result<Answer, NoMemory>
        ensures turn { AnswersCall (job_seen self.old) (job_seen self.new) number what.now result }
        ensures answer { IfOk result (λ a. a ≡ job_answer (length_of self.old) (runs_in self.old) what.now) }
        ensures runs { OnOk result (runs_in self.new ≡ job_after (length_of self.old) (runs_in self.old) what.now) }
        ensures unchanged { OnErr result (runs_in self.new ≡ runs_in self.old) }
        ensures turns { length_of self.new ≡ length_of self.old }
    {
        match self.turned(alloc, what) {
            Ok((answer, change)) => {
                let kept = self.log.keep(alloc, number, what, Ok(answer));
                if kept.is_ok() {
                    make(&mut self.runs, change);
                }
                kept
            }
            Err(error) => self.log.keep(alloc, number, what, Err(error)),
        }
    }

    fn turns(&self) -> &[Turn] {
        self.log.turns.as_slice()
    }

    fn forget(&mut self)
        ensures seen { job_seen self.new ≡ forgotten (job_seen self.old) }
        ensures runs { runs_in self.new ≡ runs_in self.old }
        ensures turns { length_of self.new ≡ length_of self.old }
    {
        self.log.forget();
    }
}
