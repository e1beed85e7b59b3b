//! An event in memory, which comes about at regular polls.

ghost use Rattle.std.specs.Prelude.{◌≡◌, ◌≤◌, IfOk};
ghost use Rattle.thing_handler.specs.Handler.{fresh_handler};

use crate::handler::NOT_ITS_KIND;
use crate::turn_log::TurnLog;
use crate::{Answer, CallKind, Handler, Kind, Turn};
use servient_base::NoMemory;
use std::alloc::{AllocError, Global};
use wot_json::Tree;

/// An event in memory that comes about at each poll whose number is a multiple of the period.
#[derive(Drop)]
pub struct Pulse {
    period: u32,
    polls: u64,
    log: TurnLog,
    ghost regular: { 1 ≤ period },
}

impl Pulse {
    ghost use Rattle.thing_handler.specs.InMemory.{period_of, polls_of, pulse_answer, pulse_after, pulse_seen};

    /// A pulse that wasn't polled yet, and comes about at each poll where the period is 1.
    pub fn new(alloc: Global, period: u32) -> Self
        requires { 1 ≤ period }
        ensures seen { pulse_seen result ≡ fresh_handler Kind.Event }
        ensures period { period_of result ≡ period }
        ensures polls { polls_of result ≡ 0 }
    {
        Pulse {
            period,
            polls: 0,
            log: TurnLog::new(alloc),
        }
    }

    /// The answer to a call, and the number of polls with it. It is out of memory at the 2^63rd poll: no
    /// list has room for that many turns, and the number of a poll has to fit a JSON number.
    fn turned(&self, what: &CallKind) -> Result<(Answer, u64), NoMemory>
        ensures answer { IfOk result (λ t. t.0 ≡ pulse_answer (period_of self.now) (polls_of self.now) what.now) }
        ensures polls { IfOk result (λ t. t.1 ≡ pulse_after (polls_of self.now) what.now) }
    {
        match what {
            CallKind::Poll => self.polled(),
            CallKind::Read
            | CallKind::Write(_)
            | CallKind::Invoke(_, _)
            | CallKind::Query(_)
            | CallKind::Cancel(_) => Ok((Answer::Refused(NOT_ITS_KIND), self.polls)),
        }
    }

    /// The answer to a poll, and the number of polls with it.
    fn polled(&self) -> Result<(Answer, u64), NoMemory>
        ensures answer { IfOk result (λ t. t.0 ≡ pulse_answer (period_of self.now) (polls_of self.now) CallKind.Poll) }
        ensures polls { IfOk result (λ t. t.1 ≡ pulse_after (polls_of self.now) CallKind.Poll) }
    {
        let period = u64::from(self.period);
        if self.polls >= MOST_POLLS {
            return Err(AllocError);
        }
        let polls = self.polls + 1;
        if polls % period == 0 {
            Ok((Answer::Fired(Tree::Int((polls / period) as i64)), polls))
        } else {
            Ok((Answer::Quiet, polls))
        }
    }
}

/// More turns than this are out of memory on any machine: a list takes fewer than 2^63 bytes.
const MOST_POLLS: u64 = 0x7fff_ffff_ffff_ffff;

impl Handler for Pulse {
    ghost use Rattle.std.specs.Prelude.{◌≡◌, IfOk, OnOk, OnErr};
    ghost use Rattle.thing_handler.specs.Handler.{AnswersCall, forgotten};
    ghost use Rattle.thing_handler.specs.InMemory.{period_of, polls_of, pulse_answer, pulse_after, pulse_seen};

    ghost seen = { pulse_seen };

    fn kind(&self) -> Kind {
        Kind::Event
    }

    fn call(&mut self, alloc: Global, number: u64, what: &CallKind) -> Result<Answer, NoMemory>
        ensures turn { AnswersCall (pulse_seen self.old) (pulse_seen self.new) number what.now result }
        ensures answer { IfOk result (λ a. a ≡ pulse_answer (period_of self.old) (polls_of self.old) what.now) }
        ensures polls { OnOk result (polls_of self.new ≡ pulse_after (polls_of self.old) what.now) }
        ensures unchanged { OnErr result (polls_of self.new ≡ polls_of self.old) }
        ensures period { period_of self.new ≡ period_of self.old }
    {
        match self.turned(what) {
            Ok((answer, polls)) => {
                let kept = self.log.keep(alloc, number, what, Ok(answer));
                if kept.is_ok() {
                    self.polls = polls;
                }
                kept
            }
            Err(error) => self.log.keep(alloc, number, what, Err(error)),
        }
    }

    fn turns(&self) -> &[Turn] {
        self.log.turns.as_slice()
    }

    fn forget(&mut self)
        ensures seen { pulse_seen self.new ≡ forgotten (pulse_seen self.old) }
        ensures polls { polls_of self.new ≡ polls_of self.old }
        ensures period { period_of self.new ≡ period_of self.old }
    {
        self.log.forget();
    }
}
