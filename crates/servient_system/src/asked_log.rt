//! The record of what a system was asked for.

ghost use Rattle.std.specs.Prelude.{◌≡◌, [], ◌∷◌, ◌++◌, None, Some, IfSome};
ghost use Rattle.servient_outside.specs.Told.{Continues};
ghost use Rattle.servient_system.specs.SystemMemory.{told_by};

use crate::Asked;
use std::alloc::Global;

/// All that was asked, as long as there was memory to record it.
#[derive(Drop)]
pub struct AskedLog {
    list: Option<Vec<Asked>>,
}

impl AskedLog {
    /// Nothing was asked yet.
    pub fn new(alloc: Global) -> AskedLog
        ensures { told_by result ≡ Some [] }
    {
        AskedLog {
            list: Some(Vec::new(alloc)),
        }
    }

    /// What was asked, if all was recorded.
    pub fn asked(&self) -> Option<&[Asked]> {
        match &self.list {
            Some(list) => Some(list.as_slice()),
            None => None,
        }
    }

    /// Records one more.
    pub fn keep(&mut self, asked: Asked)
        ensures { Continues (told_by self.old) (told_by self.new) (asked ∷ []) }
    {
        match self.list.take() {
            Some(list) => self.list = with(list, asked),
            None => {}
        }
    }

    /// One couldn't be recorded out of memory, and from now on nothing is.
    pub fn lose(&mut self)
        ensures { told_by self.new ≡ None }
    {
        self.list = None;
    }
}

/// A list with one more; none out of memory.
fn with(list: Vec<Asked>, asked: Asked) -> Option<Vec<Asked>>
    ensures { IfSome result (λ all. all.items ≡ list.items ++ asked ∷ []) }
{
    let mut list = list;
    match list.push(asked) {
        Ok(()) => Some(list),
        Err(_) => None,
    }
}
