//! The handlers of a servient, each in its slot.

ghost use Rattle.std.specs.Prelude.{◌≡◌, ◌<◌, ◌^◌, map, vec_len};

use crate::{Answer, CallKind, Handler, Kind, Turn};
use servient_base::NoMemory;
use std::alloc::Global;

/// Handlers, each in its slot; slots count from 0.
#[derive(Drop)]
pub struct Rack {
    alloc: Global,
    list: Vec<Box<dyn Handler>>,
    ghost few: { vec_len list < 2 ^ 32 },
}

/// The calls of a rack. The crates above take any rack by this trait, as a type parameter, because the check of the kit
/// can't judge a function there that takes a rack of boxed handlers by reference.
pub trait Handlers: Drop {
    ghost use Rattle.std.specs.Prelude.{◌≡◌, ◌<◌, ◌^◌, List, length, map, slice_get, IfSome};
    ghost use Rattle.thing_handler.specs.Handler.{Seen, CallsHandler, forgotten};

    /// The view of each handler, in the order of their slots.
    ghost slots: { Self → List Seen };

    /// The number of slots.
    fn len(&self) -> usize
        ensures count { result ≡ length (slots self.now) }
        ensures few { result < 2 ^ 32 };

    /// The kind of the affordance whose handler is in this slot.
    fn kind(&self, slot: usize) -> Kind
        requires { slot < length (slots self.now) }
        ensures { IfSome (slice_get (slots self.now) slot) (λ h. result ≡ h.kind) };

    /// The turns of the handler in this slot, in order.
    fn turns(&self, slot: usize) -> &[Turn]
        requires { slot < length (slots self.now) }
        ensures { IfSome (slice_get (slots self.now) slot) (λ h. result.now ≡ h.turns) };

    /// One call of the handler in this slot. The others keep their turns and their counts. It takes no allocator, since
    /// a rack keeps the one that it was made with. That the rack has the slot is the caller's to know, since a site
    /// fits its rack.
    fn call(&mut self, slot: usize, number: u64, what: &CallKind) -> Result<Answer, NoMemory>
        requires { slot < length (slots self.old) }
        ensures { CallsHandler (slots self.old) (slots self.new) slot number what.now result };

    /// Has each handler forget the turns that it made so far.
    fn forget(&mut self)
        ensures { slots self.new ≡ map forgotten (slots self.old) };
}

impl Rack {
    /// A rack of these handlers, the first in slot 0.
    pub fn new(alloc: Global, list: Vec<Box<dyn Handler>>) -> Rack
        requires { vec_len list < 2 ^ 32 }
        ensures { ⟦<Rack as Handlers>⟧.slots result ≡ map (λ b. seen b) list.items }
    {
        Rack { alloc, list }
    }
}

impl Handlers for Rack {
    ghost use Rattle.std.specs.Prelude.{map};

    ghost slots = { λ r. map (λ b. (Handler-box b).seen b.value) r.list.items };

    fn len(&self) -> usize {
        self.list.len()
    }

    fn kind(&self, slot: usize) -> Kind {
        self.list[slot].kind()
    }

    fn turns(&self, slot: usize) -> &[Turn] {
        self.list[slot].turns()
    }

    fn call(&mut self, slot: usize, number: u64, what: &CallKind) -> Result<Answer, NoMemory> {
        self.list[slot].call(self.alloc, number, what)
    }

    fn forget(&mut self) {
        for handler in self.list.iter_mut() {
            handler.forget();
        }
    }
}
