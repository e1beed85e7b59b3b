//! A handler in memory that answers from a list.

ghost use Rattle.std.specs.Prelude.{◌≡◌, IfOk, OnErr};
ghost use Rattle.thing_handler.specs.Handler.{fresh_handler};

use crate::turn_log::{TurnLog, copy_answer};
use crate::{Answer, CallKind, Handler, Kind, Turn};
use servient_base::NoMemory;
use std::alloc::Global;

/// The number of the refusal when no answer is left.
const NOTHING_LEFT: u16 = 9;

/// A handler that gives the answers of a list in order, for all that it is asked, and then `Refused(9)`.
#[derive(Drop)]
pub struct Scripted {
    kind: Kind,
    answers: Vec<Answer>,
    given: usize,
    log: TurnLog,
}

impl Scripted {
    ghost use Rattle.thing_handler.specs.InMemory.{answers_left, next_answer};

    /// A handler of this kind that gives these answers.
    pub fn new(alloc: Global, kind: Kind, answers: Vec<Answer>) -> Self
        ensures seen { ⟦<Scripted as Handler>⟧.seen result ≡ fresh_handler kind }
        ensures answers { answers_left result ≡ answers.items }
    {
        Scripted {
            kind,
            answers,
            given: 0,
            log: TurnLog::new(alloc),
        }
    }

    /// The next answer of the list.
    fn answer(&self, alloc: Global) -> Result<Answer, NoMemory>
        ensures { IfOk result (λ a. a ≡ next_answer (answers_left self.now)) }
    {
        match self.answers.get(self.given) {
            Some(answer) => copy_answer(alloc, answer),
            None => Ok(Answer::Refused(NOTHING_LEFT)),
        }
    }
}

impl Handler for Scripted {
    ghost use Rattle.std.specs.Prelude.{◌≡◌, IfOk, OnOk, OnErr, drop};
    ghost use Rattle.thing_handler.specs.Handler.{AnswersCall, forgotten};
    ghost use Rattle.thing_handler.specs.InMemory.{answers_left, next_answer};

    ghost seen = { λ s. record { kind = s.kind; turns = s.log.turns.items; misses = s.log.misses } };

    fn kind(&self) -> Kind {
        self.kind
    }

    fn call(&mut self, alloc: Global, number: u64, what: &CallKind) -> Result<Answer, NoMemory>
        ensures turn { AnswersCall (⟦<Scripted as Handler>⟧.seen self.old) (⟦<Scripted as Handler>⟧.seen self.new) number what.now result }
        ensures answer { IfOk result (λ a. a ≡ next_answer (answers_left self.old)) }
        ensures left { OnOk result (answers_left self.new ≡ drop 1 (answers_left self.old)) }
        ensures unchanged { OnErr result (answers_left self.new ≡ answers_left self.old) }
    {
        let answer = self.answer(alloc);
        let kept = self.log.keep(alloc, number, what, answer);
        if kept.is_ok() && self.given < self.answers.len() {
            self.given += 1;
        }
        kept
    }

    fn turns(&self) -> &[Turn] {
        self.log.turns.as_slice()
    }

    fn forget(&mut self)
        ensures seen { ⟦<Scripted as Handler>⟧.seen self.new ≡ forgotten (⟦<Scripted as Handler>⟧.seen self.old) }
        ensures left { answers_left self.new ≡ answers_left self.old }
    {
        self.log.forget();
    }
}
