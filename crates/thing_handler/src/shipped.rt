//! The handlers that the product ships, each by its slot.

ghost use Rattle.std.specs.Prelude.{◌≡◌, ◌<◌};
ghost use Rattle.thing_handler.specs.Handler.{fresh_handler};
ghost use Rattle.thing_handler.specs.Shipped.{device_kind, device_of, shipped_device, shipped_seen, shipped_value};

use crate::{Answer, CallKind, Cell, Handler, Job, Kind, Pulse, Turn};
use servient_base::NoMemory;
use std::alloc::Global;
use wot_json::{Members, Text, Tree};

/// A handler in memory of any kind. A library can't hand out a boxed one, so its callers box this.
#[derive(Drop)]
pub enum Shipped {
    Cell(Cell),
    Job(Job),
    Pulse(Pulse),
}

/// The number of slots of the shipped rack.
pub const SHIPPED_SLOTS: usize = 64;

/// The first slot of a job.
const FIRST_JOB: usize = 32;

/// The first slot of a pulse.
const FIRST_PULSE: usize = 48;

/// The handler of this slot of the shipped rack, which wasn't called yet. Slots 0 to 31 are cells, 32 to 47 jobs, and
/// 48 to 63 pulses.
pub fn shipped_in(alloc: Global, slot: usize) -> Shipped
    requires { slot < 64 }
    ensures seen { shipped_seen result ≡ fresh_handler (device_kind (shipped_device slot)) }
    ensures device { device_of result ≡ shipped_device slot }
{
    if slot < FIRST_JOB {
        Shipped::Cell(Cell::new(alloc, value_at(alloc, slot)))
    } else if slot < FIRST_PULSE {
        Shipped::Job(Job::new(alloc, (slot - FIRST_JOB) as u32))
    } else {
        Shipped::Pulse(Pulse::new(alloc, (slot - (FIRST_PULSE - 1)) as u32))
    }
}

/// The value that the cell of slot 0 holds at the start.
const FIRST_VALUE: i64 = 7;

/// The number of slots after which the values of the cells begin anew.
const VALUES: usize = 4;

/// The value that the cell of this slot holds at the start.
fn value_at(alloc: Global, slot: usize) -> Tree
    ensures { result ≡ shipped_value slot }
{
    if slot == 0 {
        return Tree::Int(FIRST_VALUE);
    }
    match slot % VALUES {
        0 => Tree::Int(0),
        1 => Tree::Bool(false),
        2 => Tree::Text(Text::from_string(String::new(alloc))),
        _ => Tree::Obj(Members::new(alloc)),
    }
}

impl Handler for Shipped {
    ghost use Rattle.std.specs.Prelude.{◌≡◌, IfOk, OnOk, OnErr};
    ghost use Rattle.thing_handler.specs.Handler.{AnswersCall, forgotten};
    ghost use Rattle.thing_handler.specs.Shipped.{device_of, device_answer, device_after, shipped_seen};

    ghost seen = { shipped_seen };

    fn kind(&self) -> Kind {
        match self {
            Shipped::Cell(cell) => cell.kind(),
            Shipped::Job(job) => job.kind(),
            Shipped::Pulse(pulse) => pulse.kind(),
        }
    }

    fn call(&mut self, alloc: Global, number: u64, what: &CallKind) -> Result<Answer, NoMemory>
        ensures turn { AnswersCall (shipped_seen self.old) (shipped_seen self.new) number what.now result }
        ensures answer { IfOk result (λ a. a ≡ device_answer (device_of self.old) what.now) }
        ensures device { OnOk result (device_of self.new ≡ device_after (device_of self.old) what.now) }
        ensures unchanged { OnErr result (device_of self.new ≡ device_of self.old) }
    {
        match self {
            Shipped::Cell(cell) => cell.call(alloc, number, what),
            Shipped::Job(job) => job.call(alloc, number, what),
            Shipped::Pulse(pulse) => pulse.call(alloc, number, what),
        }
    }

    fn turns(&self) -> &[Turn] {
        match self {
            Shipped::Cell(cell) => cell.turns(),
            Shipped::Job(job) => job.turns(),
            Shipped::Pulse(pulse) => pulse.turns(),
        }
    }

    fn forget(&mut self)
        ensures seen { shipped_seen self.new ≡ forgotten (shipped_seen self.old) }
        ensures device { device_of self.new ≡ device_of self.old }
    {
        match self {
            Shipped::Cell(cell) => cell.forget(),
            Shipped::Job(job) => job.forget(),
            Shipped::Pulse(pulse) => pulse.forget(),
        }
    }
}
