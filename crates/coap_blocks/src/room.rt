//! Room for bytes, which is taken once and filled again and again.

ghost use Rattle.std.specs.Prelude.{◌≡◌, ◌+◌, ◌≤◌, ◌++◌, [], length, IfOk};

use servient_base::NoMemory;
use std::alloc::Global;
use std::marker::Model;

/// Room for at most `N` bytes. Contracts see the bytes in it. Filling it takes no memory.
#[derive(Drop)]
pub struct Room<const N: usize> {
    bytes: Vec<u8>,
}

impl<const N: usize> Model for Room<N> {
    ghost use Rattle.std.specs.Prelude.{List, ℕ, ◌≤◌, vec_capacity};

    ghost Value = { List ℕ };

    ghost view = { λ r. r.bytes.items };

    ghost invariant = { λ r. N ≤ vec_capacity r.bytes };
}

impl<const N: usize> Room<N> {
    /// An empty room.
    pub fn new(alloc: Global) -> Result<Self, NoMemory>
        ensures { IfOk result (λ r. r ≡ []) }
    {
        Ok(Room {
            bytes: Vec::with_capacity(alloc, N)?,
        })
    }

    /// Nothing is in it any more.
    pub fn clear(&mut self)
        ensures { self.new ≡ [] }
    {
        self.bytes.clear();
    }

    /// Takes these bytes in the place of its own.
    pub fn fill(&mut self, bytes: &[u8])
        requires { length bytes.now ≤ N }
        ensures { self.new ≡ bytes.now }
    {
        self.bytes.clear();
        self.bytes.extend_from_slice(bytes).unwrap();
    }

    /// Puts bytes after its own. There is no error, since the invariant says that there is room.
    pub fn put(&mut self, bytes: &[u8])
        requires { length self.old + length bytes.now ≤ N }
        ensures { self.new ≡ self.old ++ bytes.now }
    {
        self.bytes.extend_from_slice(bytes).unwrap();
    }

    /// The number of bytes in it.
    pub fn len(&self) -> usize
        ensures { result ≡ length self.now }
    {
        self.bytes.len()
    }

    /// The bytes in it.
    pub fn as_slice(&self) -> &[u8]
        ensures { result.now ≡ self.now }
    {
        self.bytes.as_slice()
    }
}
