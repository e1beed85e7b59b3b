//! The output: the answer of a write, and the view of it in contracts.

/// The answer of `Out::put`.
#[derive(Clone, Copy, Debug, PartialEq, Eq)]
pub enum Put {
    /// All of the piece was written.
    Done,
    /// The output failed; a prefix of the piece may have been written.
    Failed,
}

/// The output of a run.
pub trait Out {
    ghost use Rattle.servient_outside.specs.Out.{OutSeen, OutShows};

    /// The view of it: the bytes written so far, and the number of writes that failed.
    ghost seen: { Self → OutSeen };

    /// Writes a piece after what was written before.
    fn put(&mut self, bytes: &[u8]) -> Put
        ensures { OutShows (seen self.old) (seen self.new) result bytes.now };
}
