//! A property in memory, which holds a value.

ghost use Rattle.std.specs.Prelude.{◌≡◌};
ghost use Rattle.thing_handler.specs.Handler.{fresh_handler};

use crate::handler::NOT_ITS_KIND;
use crate::turn_log::TurnLog;
use crate::{Answer, CallKind, Handler, Kind, Turn};
use servient_base::NoMemory;
use std::alloc::Global;
use wot_json::{Tree, copy};

/// A property in memory: a Read answers the value that it holds, and a Write gives it another.
#[derive(Drop)]
pub struct Cell {
    value: Tree,
    log: TurnLog,
}

impl Cell {
    ghost use Rattle.thing_handler.specs.InMemory.{cell_seen, value_in};

    /// A cell that holds this value.
    pub fn new(alloc: Global, value: Tree) -> Self
        ensures seen { cell_seen result ≡ fresh_handler Kind.Property }
        ensures value { value_in result ≡ value }
    {
        Cell {
            value,
            log: TurnLog::new(alloc),
        }
    }
}

impl Handler for Cell {
    ghost use Rattle.std.specs.Prelude.{◌≡◌, IfOk, OnOk, OnErr};
    ghost use Rattle.thing_handler.specs.Handler.{AnswersCall, forgotten};
    ghost use Rattle.thing_handler.specs.InMemory.{cell_answer, cell_after, cell_seen, value_in};

    ghost seen = { cell_seen };

    fn kind(&self) -> Kind {
        Kind::Property
    }

    fn call(&mut self, alloc: Global, number: u64, what: &CallKind) -> Result<Answer, NoMemory>
        ensures turn { AnswersCall (cell_seen self.old) (cell_seen self.new) number what.now result }
        ensures answer { IfOk result (λ a. a ≡ cell_answer (value_in self.old) what.now) }
        ensures value { OnOk result (value_in self.new ≡ cell_after (value_in self.old) what.now) }
        ensures unchanged { OnErr result (value_in self.new ≡ value_in self.old) }
    {
        match what {
            CallKind::Read => match copy(alloc, &self.value) {
                Ok(value) => self.log.keep(alloc, number, what, Ok(Answer::Value(value))),
                Err(error) => self.log.keep(alloc, number, what, Err(error)),
            },
            CallKind::Write(value) => match copy(alloc, value) {
                Ok(value) => {
                    let kept = self.log.keep(alloc, number, what, Ok(Answer::Done));
                    if kept.is_ok() {
                        self.value = value;
                    }
                    kept
                }
                Err(error) => self.log.keep(alloc, number, what, Err(error)),
            },
            CallKind::Invoke(_, _) | CallKind::Query(_) | CallKind::Cancel(_) | CallKind::Poll => {
                self.log
                    .keep(alloc, number, what, Ok(Answer::Refused(NOT_ITS_KIND)))
            }
        }
    }

    fn turns(&self) -> &[Turn] {
        self.log.turns.as_slice()
    }

    fn forget(&mut self)
        ensures seen { cell_seen self.new ≡ forgotten (cell_seen self.old) }
        ensures value { value_in self.new ≡ value_in self.old }
    {
        self.log.forget();
    }
}
