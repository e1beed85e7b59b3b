//! The acts that a network in memory keeps, and the place of each among the calls of `next`.

ghost use Rattle.std.specs.Prelude.{◌≡◌, [], ◌∷◌, ◌++◌, OnErr, OnOk, length};

use crate::Act;
use servient_base::NoMemory;
use std::alloc::Global;

/// Acts in order, each with the number of calls of `next` that came between the act before it and itself.
#[derive(Drop)]
pub struct ActLog {
    pub acts: Vec<Act>,
    pub gaps: Vec<u64>,
    /// The number of calls of `next` that came after the last act.
    pub since: u64,
    /// The number of acts that were lost out of memory. At its last value, 2^64 - 1, it stays.
    pub lost: u64,
    ghost gap_for_each: { length gaps.items ≡ length acts.items },
}

impl ActLog {
    ghost use Rattle.servient_outside.specs.ActLog.{KeepsIfMade, LosesAct};

    /// No acts yet.
    pub fn new(alloc: Global) -> Self
        ensures acts { result.acts.items ≡ [] }
        ensures gaps { result.gaps.items ≡ [] }
        ensures since { result.since ≡ 0 }
        ensures lost { result.lost ≡ 0 }
    {
        ActLog {
            acts: Vec::new(alloc),
            gaps: Vec::new(alloc),
            since: 0,
            lost: 0,
        }
    }

    /// Keeps an act, or counts it where that is out of memory.
    pub fn keep(&mut self, act: Result<Act, NoMemory>)
        ensures { KeepsIfMade self.old self.new act }
    {
        match act {
            Ok(act) => match self.push(act) {
                Ok(()) => self.since = 0,
                Err(_) => self.lose(),
            },
            Err(_) => self.lose(),
        }
    }

    /// Counts an act that is lost out of memory.
    fn lose(&mut self)
        ensures { LosesAct self.old self.new }
    {
        self.lost = self.lost.saturating_add(1);
    }

    /// Puts an act and its place after the others, if there is memory for both.
    fn push(&mut self, act: Act) -> Result<(), NoMemory>
        ensures ok { OnOk result (self.new.acts.items ≡ self.old.acts.items ++ act ∷ []) }
        ensures place { OnOk result (self.new.gaps.items ≡ self.old.gaps.items ++ self.old.since ∷ []) }
        ensures no_memory { OnErr result (self.new.acts.items ≡ self.old.acts.items) }
        ensures no_place { OnErr result (self.new.gaps.items ≡ self.old.gaps.items) }
        ensures since { self.new.since ≡ self.old.since }
        ensures lost { self.new.lost ≡ self.old.lost }
    {
        // Room for the act is taken first, so that the act and its place are both put there or neither.
        self.acts.reserve(1)?;
        self.gaps.push(self.since)?;
        self.acts.push_reserved(act);
        Ok(())
    }
}
