//! The log that each handler keeps: the turns that it made, and the count of calls that were out of memory.

ghost use Rattle.std.specs.Prelude.{◌≡◌, ◌<◌, ◌≤◌, [], ◌∷◌, ◌++◌, IfOk, OnOk, OnErr, vec_len, vec_capacity};
ghost use Rattle.servient_base.specs.Count.{raised};

use crate::{Answer, CallKind, Turn};
use servient_base::NoMemory;
use std::alloc::Global;
use wot_json::{Tree, copy};

/// The most turns for which a handler keeps room where it forgets them.
pub(crate) const MOST_ROOM: usize = 8192;

/// The turns of one handler, in order, and the count of calls that were out of memory.
#[derive(Drop)]
pub struct TurnLog {
    pub turns: Vec<Turn>,
    pub misses: u64,
}

/// A turn whose memory is taken, and which lacks only its answer.
#[derive(Debug, Drop)]
pub struct PreparedTurn {
    pub number: u64,
    pub what: CallKind,
}

impl TurnLog {
    /// No turns yet.
    pub fn new(alloc: Global) -> Self
        ensures turns { result.turns.items ≡ [] }
        ensures misses { result.misses ≡ 0 }
    {
        TurnLog {
            turns: Vec::new(alloc),
            misses: 0,
        }
    }

    /// Keeps the turn of a call and hands its answer on. If the answer or the keeping of the turn was out of
    /// memory, the call is counted instead.
    pub fn keep(
        &mut self,
        alloc: Global,
        number: u64,
        what: &CallKind,
        answer: Result<Answer, NoMemory>,
    ) -> Result<Answer, NoMemory>
        ensures ok { IfOk result (λ a. answer ≡ Ok a) }
        ensures turn { IfOk result (λ a. self.new.turns.items
            ≡ self.old.turns.items ++ record { number = number; what = what.now; answer = a } ∷ []) }
        ensures no_miss { OnOk result (self.new.misses ≡ self.old.misses) }
        ensures unchanged { OnErr result (self.new.turns.items ≡ self.old.turns.items) }
        ensures missed { OnErr result (self.new.misses ≡ raised 1 self.old.misses) }
    {
        let kept = kept_turn(alloc, &mut self.turns, number, what, answer);
        if kept.is_err() {
            self.count_miss();
        }
        kept
    }

    /// Takes the memory of a call's turn before its device is touched, so that `finish` takes none. If there is
    /// none, the call is counted.
    pub fn prepare(
        &mut self,
        alloc: Global,
        number: u64,
        what: &CallKind,
    ) -> Result<PreparedTurn, NoMemory>
        ensures ok { IfOk result (λ p. p ≡ record { number = number; what = what.now }) }
        ensures room { OnOk result (vec_len self.new.turns < vec_capacity self.new.turns) }
        ensures unchanged { self.new.turns.items ≡ self.old.turns.items }
        ensures no_miss { OnOk result (self.new.misses ≡ self.old.misses) }
        ensures missed { OnErr result (self.new.misses ≡ raised 1 self.old.misses) }
    {
        let prepared = prepared_turn(alloc, &mut self.turns, number, what);
        if prepared.is_err() {
            self.count_miss();
        }
        prepared
    }

    /// Keeps a prepared turn with its answer.
    pub fn finish(&mut self, prepared: PreparedTurn, answer: Answer)
        requires { vec_len self.old.turns < vec_capacity self.old.turns }
        ensures turn { self.new.turns.items ≡ self.old.turns.items
            ++ record { number = prepared.number; what = prepared.what; answer = answer } ∷ [] }
        ensures misses { self.new.misses ≡ self.old.misses }
    {
        let PreparedTurn { number, what } = prepared;
        self.turns.push_reserved(Turn {
            number,
            what,
            answer,
        });
    }

    /// Forgets the turns. Room for more than `MOST_ROOM` of them is given back whole, because a run that forgets may
    /// have had one busy hour.
    pub fn forget(&mut self)
        ensures turns { self.new.turns.items ≡ [] }
        ensures misses { self.new.misses ≡ self.old.misses }
        ensures room { vec_capacity self.new.turns ≤ MOST_ROOM }
    {
        self.turns.clear();
        if self.turns.capacity() > MOST_ROOM {
            self.turns.shrink_to(0);
        }
    }

    /// Counts a call that was out of memory.
    fn count_miss(&mut self)
        ensures missed { self.new.misses ≡ raised 1 self.old.misses }
        ensures turns { self.new.turns ≡ self.old.turns }
    {
        self.misses = self.misses.saturating_add(1);
    }
}

/// Puts a turn with an equal call and an equal answer at the end.
fn kept_turn(
    alloc: Global,
    turns: &mut Vec<Turn>,
    number: u64,
    what: &CallKind,
    answer: Result<Answer, NoMemory>,
) -> Result<Answer, NoMemory>
    ensures ok { IfOk result (λ a. answer ≡ Ok a) }
    ensures turn { IfOk result (λ a. turns.new.items
        ≡ turns.old.items ++ record { number = number; what = what.now; answer = a } ∷ []) }
    ensures unchanged { OnErr result (turns.new.items ≡ turns.old.items) }
{
    let answer = answer?;
    let turn = Turn {
        number,
        what: copy_call(alloc, what)?,
        answer: copy_answer(alloc, &answer)?,
    };
    turns.push(turn)?;
    Ok(answer)
}

/// A turn without its answer, and room for it among the turns.
fn prepared_turn(
    alloc: Global,
    turns: &mut Vec<Turn>,
    number: u64,
    what: &CallKind,
) -> Result<PreparedTurn, NoMemory>
    ensures ok { IfOk result (λ p. p ≡ record { number = number; what = what.now }) }
    ensures room { OnOk result (vec_len turns.new < vec_capacity turns.new) }
    ensures unchanged { turns.new.items ≡ turns.old.items }
{
    turns.reserve(1)?;
    Ok(PreparedTurn {
        number,
        what: copy_call(alloc, what)?,
    })
}

/// An equal call.
fn copy_call(alloc: Global, what: &CallKind) -> Result<CallKind, NoMemory>
    ensures { IfOk result (λ w. w ≡ what.now) }
{
    match what {
        CallKind::Read => Ok(CallKind::Read),
        CallKind::Write(value) => Ok(CallKind::Write(copy(alloc, value)?)),
        CallKind::Invoke(id, input) => Ok(CallKind::Invoke(*id, copy_if_any(alloc, input)?)),
        CallKind::Query(id) => Ok(CallKind::Query(*id)),
        CallKind::Cancel(id) => Ok(CallKind::Cancel(*id)),
        CallKind::Poll => Ok(CallKind::Poll),
    }
}

/// An equal answer.
pub fn copy_answer(alloc: Global, answer: &Answer) -> Result<Answer, NoMemory>
    ensures { IfOk result (λ a. a ≡ answer.now) }
{
    match answer {
        Answer::Value(value) => Ok(Answer::Value(copy(alloc, value)?)),
        Answer::Done => Ok(Answer::Done),
        Answer::Started => Ok(Answer::Started),
        Answer::Running => Ok(Answer::Running),
        Answer::Finished(output) => Ok(Answer::Finished(copy_if_any(alloc, output)?)),
        Answer::Cancelled => Ok(Answer::Cancelled),
        Answer::Quiet => Ok(Answer::Quiet),
        Answer::Fired(value) => Ok(Answer::Fired(copy(alloc, value)?)),
        Answer::Refused(number) => Ok(Answer::Refused(*number)),
        Answer::DeviceFault(number) => Ok(Answer::DeviceFault(*number)),
    }
}

/// An equal value, or none where there is none.
pub fn copy_if_any(alloc: Global, value: &Option<Tree>) -> Result<Option<Tree>, NoMemory>
    ensures { IfOk result (λ v. v ≡ value.now) }
{
    match value {
        Some(value) => Ok(Some(copy(alloc, value)?)),
        None => Ok(None),
    }
}
