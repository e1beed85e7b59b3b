//! Events in a row, each with its bytes and within the bounds of the network.

ghost use Rattle.std.specs.Prelude.{◌≡◌, ◌<◌, [], ◌∷◌, ◌++◌, length, slice_get, Some, OnOk, OnErr};
ghost use Rattle.servient_outside.specs.Network.{IsWithinBounds};

use crate::EventWithBytes;
use servient_base::NoMemory;
use std::alloc::Global;
use std::marker::Model;

/// A list of events with their bytes, each of which the network could give.
#[derive(Drop)]
pub struct Events {
    list: Vec<EventWithBytes>,
}

impl Model for Events {
    ghost use Rattle.std.specs.Prelude.{List, All};
    ghost use Rattle.servient_outside.specs.declared.net.EventWithBytes.{EventWithBytes};
    ghost use Rattle.servient_outside.specs.Network.{IsWithinBounds};

    ghost Value = { List EventWithBytes };

    ghost view = { λ e. e.list.items };

    ghost invariant = { λ e. All IsWithinBounds e.list.items };
}

impl Events {
    /// No events.
    pub fn new(alloc: Global) -> Self
        ensures { result ≡ [] }
    {
        Events {
            list: Vec::new(alloc),
        }
    }

    /// The number of events.
    pub fn len(&self) -> usize
        ensures { result ≡ length self.now }
    {
        self.list.len()
    }

    /// Puts an event at the end.
    pub fn push(&mut self, event: EventWithBytes) -> Result<(), NoMemory>
        requires { IsWithinBounds event }
        ensures ok { OnOk result (self.new ≡ self.old ++ event ∷ []) }
        ensures unchanged { OnErr result (self.new ≡ self.old) }
    {
        self.list.push(event)?;
        Ok(())
    }

    /// The vector that holds these events.
    pub fn into_vec(self) -> Vec<EventWithBytes>
        ensures { result.items ≡ self }
    {
        let Events { list } = self;
        list
    }

    /// The event at a place.
    pub fn at(&self, place: usize) -> &EventWithBytes
        requires { place < length self.now }
        ensures item { slice_get self.now place ≡ Some result.now }
        ensures bounds { IsWithinBounds result.now }
    {
        &self.list[place]
    }
}
