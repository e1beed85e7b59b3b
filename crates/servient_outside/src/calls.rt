//! The calls of an object in memory that fail, and the number of calls that it has had.

ghost use Rattle.std.specs.Prelude.{◌≡◌, [], ◌∷◌, ◌++◌, ◌↔◌, IsTrue, OnErr, OnOk};

use servient_base::NoMemory;
use std::alloc::Global;
use std::marker::Model;

/// The numbers of the calls that fail. They are counted from 1, over the calls of one object that can
/// answer `Failed`.
#[derive(Drop)]
pub struct Calls {
    numbers: Vec<u64>,
}

impl Model for Calls {
    ghost use Rattle.std.specs.Prelude.{List, ℕ};

    ghost Value = { List ℕ };

    ghost view = { λ c. c.numbers.items };
}

impl Calls {
    ghost use Rattle.servient_outside.specs.CallCount.{is_failing};

    /// No call fails.
    pub fn new(alloc: Global) -> Self
        ensures { result ≡ [] }
    {
        Calls {
            numbers: Vec::new(alloc),
        }
    }

    /// The call of this number fails too.
    pub fn push(&mut self, number: u64) -> Result<(), NoMemory>
        ensures ok { OnOk result (self.new ≡ self.old ++ number ∷ []) }
        ensures unchanged { OnErr result (self.new ≡ self.old) }
    {
        self.numbers.push(number)?;
        Ok(())
    }

    /// The vector that holds these numbers.
    pub fn into_vec(self) -> Vec<u64>
        ensures { result.items ≡ self }
    {
        let Calls { numbers } = self;
        numbers
    }

    /// Whether the call of this number fails.
    pub fn contains(&self, number: u64) -> bool
        ensures { result ≡ is_failing self.now number }
    {
        self.numbers.as_slice().contains(&number)
    }
}

/// The calls that an object in memory has had, and those that fail.
#[derive(Drop)]
pub struct CallCount {
    pub fails: Calls,
    pub made: u64,
}

impl CallCount {
    ghost use Rattle.servient_outside.specs.CallCount.{FailsNext, after_call};

    /// Whether the next call fails.
    pub fn is_next_failing(&self) -> bool
        ensures { IsTrue result ↔ FailsNext self.now }
    {
        self.fails.contains(self.made.saturating_add(1))
    }

    /// Counts one more call, and says whether it fails.
    pub fn next_fails(&mut self) -> bool
        ensures fails { IsTrue result ↔ FailsNext self.old }
        ensures counted { self.new ≡ after_call self.old }
    {
        self.made = self.made.saturating_add(1);
        self.fails.contains(self.made)
    }
}
