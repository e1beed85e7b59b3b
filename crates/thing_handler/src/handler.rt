//! The calls of a handler, its answers, and the view of it in contracts.

use servient_base::NoMemory;
use std::alloc::Global;
use wot_json::Tree;
use wot_terms::Kind;

/// A call of a handler: the request that it gets.
#[derive(Debug, Drop)]
pub enum CallKind {
    /// The value of the property.
    Read,
    /// To give the property this value.
    Write(Tree),
    /// To begin an invocation of this id, with an input or without one.
    Invoke(u32, Option<Tree>),
    /// The status of the invocation of this id.
    Query(u32),
    /// To end the invocation of this id before it is finished.
    Cancel(u32),
    /// Whether the event has come about.
    Poll,
}

/// An answer of a handler.
#[derive(Debug, Drop)]
pub enum Answer {
    /// The value that was asked for.
    Value(Tree),
    /// The value was written.
    Done,
    /// The invocation was begun, and runs on.
    Started,
    /// The invocation runs still.
    Running,
    /// The invocation is finished, with an output or without one.
    Finished(Option<Tree>),
    /// The invocation was ended.
    Cancelled,
    /// The event hasn't come about.
    Quiet,
    /// The event has come about, with this value.
    Fired(Tree),
    /// The handler doesn't do what it was asked, for a reason of its own that the number names.
    Refused(u16),
    /// The device failed, in a way that the number names.
    DeviceFault(u16),
}

/// The number of the refusal of a call that is none for the handler's kind.
pub const NOT_ITS_KIND: u16 = 0;

/// One call and its answer.
#[derive(Debug, Drop)]
pub struct Turn {
    /// The number of the turn in its run, counted from 0 over all handlers.
    pub number: u64,
    pub what: CallKind,
    pub answer: Answer,
}

/// A device, or a part of one, as the handler of one affordance.
pub trait Handler: Drop {
    ghost use Rattle.std.specs.Prelude.{◌≡◌};
    ghost use Rattle.thing_handler.specs.Handler.{Seen, AnswersCall, forgotten};

    /// Its kind, its turns and how often it was out of memory.
    ghost seen: { Self → Seen };

    /// The kind of its affordance; this never changes.
    fn kind(&self) -> Kind
        ensures { result ≡ (seen self.now).kind };

    /// One call. It makes exactly one turn, or is out of memory.
    fn call(&mut self, alloc: Global, number: u64, what: &CallKind) -> Result<Answer, NoMemory>
        ensures { AnswersCall (seen self.old) (seen self.new) number what.now result };

    /// The turns made so far, in order.
    fn turns(&self) -> &[Turn]
        ensures { result.now ≡ (seen self.now).turns };

    /// Forgets the turns made so far, because a run may go on for ever and memory doesn't. Each device says besides
    /// that its later answers are as if it hadn't.
    fn forget(&mut self)
        ensures { seen self.new ≡ forgotten (seen self.old) };
}

impl Handler for Box<dyn Handler> {
    ghost seen = { λ b. (Handler-box b).seen b.value };

    fn kind(&self) -> Kind {
        (**self).kind()
    }

    fn call(&mut self, alloc: Global, number: u64, what: &CallKind) -> Result<Answer, NoMemory> {
        (**self).call(alloc, number, what)
    }

    fn turns(&self) -> &[Turn] {
        (**self).turns()
    }

    fn forget(&mut self) {
        (**self).forget();
    }
}
