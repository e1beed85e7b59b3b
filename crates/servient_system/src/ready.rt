//! The sockets that the system reports as ready.

ghost use Rattle.std.specs.Prelude.{◌≡◌, [], IfOk};

use arrayvec::ArrayVec;
use servient_base::NoMemory;
use std::marker::Model;

/// The most sockets that are reported at once.
pub const MOST_READY: usize = 128;

/// The numbers of sockets that may be read or written, in the order of the report.
#[derive(Debug, Drop)]
pub struct Ready {
    numbers: ArrayVec<u32, 128>,
}

impl Model for Ready {
    ghost use Rattle.std.specs.Prelude.{List, ℕ};

    ghost Value = { List ℕ };

    ghost view = { λ r. r.numbers.items };
}

impl Ready {
    /// None is ready.
    pub fn new() -> Ready
        ensures { result ≡ [] }
    {
        Ready {
            numbers: ArrayVec::new(),
        }
    }

    /// None is ready.
    pub fn clear(&mut self)
        ensures { self.new ≡ [] }
    {
        self.numbers.clear();
    }

    /// This one is ready too, if there is room to say so.
    pub fn add(&mut self, number: u32) {
        let _full = self.numbers.try_push(number);
    }

    /// The numbers.
    pub fn as_slice(&self) -> &[u32]
        ensures { result.now ≡ self.now }
    {
        self.numbers.as_slice()
    }

    /// These numbers in place of what was ready.
    pub fn copy_from(&mut self, other: &Ready) {
        self.numbers.clear();
        for number in other.numbers.as_slice().iter() {
            self.add(*number);
        }
    }

    /// The same numbers once more.
    pub fn again(&self) -> Result<Ready, NoMemory>
        ensures { IfOk result (λ ready. ready ≡ self.now) }
    {
        let numbers = self.numbers.clone()?;
        Ok(Ready { numbers })
    }
}
