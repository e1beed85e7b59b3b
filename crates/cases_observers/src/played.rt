//! The two bodies, and the answers of both so far.

ghost use Rattle.std.specs.Prelude.{◌≤◌};

use crate::plain::PlainObservers;
use crate::steps::Step;
use crate::told;
use coap_observe::Watchers;
use std::alloc::{AllocError, Global};

/// The linked slots and the plain list, with the lines of each.
#[derive(Drop)]
pub struct Bodies {
    linked: Watchers,
    linked_lines: String,
    plain: PlainObservers,
    plain_lines: String,
}

impl Bodies {
    /// Both without an observer, with room for some number of them.
    pub fn new(alloc: Global, capacity: u32) -> Result<Bodies, AllocError>
        requires least { 1 ≤ capacity }
        requires most { capacity ≤ 1024 }
    {
        let linked = Watchers::new(alloc, capacity)?;
        let plain = PlainObservers::new(alloc, capacity)?;
        Ok(Bodies {
            linked,
            linked_lines: String::new(alloc),
            plain,
            plain_lines: String::new(alloc),
        })
    }

    /// Hands a step to both.
    pub fn play(&mut self, step: Step) -> Result<(), AllocError> {
        told::put_linked(&mut self.linked_lines, &mut self.linked, step)?;
        told::put_plain(&mut self.plain_lines, &mut self.plain, step)
    }

    /// The answers of the linked slots.
    pub fn lines(&self) -> &str {
        self.linked_lines.as_str()
    }

    /// Whether the plain list answered the same.
    pub fn are_same(&self) -> bool {
        self.linked_lines == self.plain_lines
    }
}
