//! The datagrams that came so far.

ghost use Rattle.std.specs.Prelude.{◌≡◌, ◌++◌, [], ◌∷◌, length, slice_get, OnOk};

use crate::datagram::Datagram;
use servient_base::NoMemory;
use std::alloc::Global;
use std::marker::Model;

/// Datagrams in the order in which they came. Contracts see the list.
#[derive(Drop)]
pub struct Datagrams {
    list: Vec<Datagram>,
}

impl Model for Datagrams {
    ghost use Rattle.std.specs.Prelude.{List};
    ghost use Rattle.storm_events.specs.declared.datagram.Datagram.{Datagram};

    ghost Value = { List Datagram };

    ghost view = { λ d. d.list.items };
}

impl Datagrams {
    /// No datagrams.
    pub fn new(alloc: Global) -> Self
        ensures { result ≡ [] }
    {
        Datagrams {
            list: Vec::new(alloc),
        }
    }

    /// The number of datagrams.
    pub fn len(&self) -> usize
        ensures { result ≡ length self.now }
    {
        self.list.len()
    }

    /// The datagram of this number, counted from 0.
    pub fn get(&self, number: usize) -> Option<Datagram>
        ensures { result ≡ slice_get self.now number }
    {
        self.list.get(number).copied()
    }

    /// Puts a datagram at the end.
    pub fn push(&mut self, datagram: Datagram) -> Result<(), NoMemory>
        ensures { OnOk result (self.new ≡ self.old ++ datagram ∷ []) }
    {
        self.list.push(datagram)?;
        Ok(())
    }
}
