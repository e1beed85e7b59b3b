//! Room for a text, which is taken once and filled again and again.

ghost use Rattle.std.specs.Prelude.{◌≡◌, ◌+◌, ◌≤◌, ◌++◌, [], length, IfOk};
ghost use Rattle.thing_state.specs.Rooms.{room_size};

use servient_base::NoMemory;
use std::alloc::Global;
use std::marker::Model;
use wot_json::Bytes;

/// The number of bytes of a room: the text of a value, and the rest of an invocation's status.
pub const ROOM_SIZE: usize = 1152;

/// Room for a text of at most `ROOM_SIZE` bytes. Contracts see the text in it. Filling it takes no memory.
#[derive(Debug, Drop)]
pub struct TextRoom {
    bytes: Vec<u8>,
}

impl Model for TextRoom {
    ghost use Rattle.std.specs.Prelude.{List, ℕ, ◌≤◌, vec_capacity};
    ghost use Rattle.thing_state.specs.Rooms.{room_size};

    ghost Value = { List ℕ };

    ghost view = { λ r. r.bytes.items };

    ghost invariant = { λ r. room_size ≤ vec_capacity r.bytes };
}

impl TextRoom {
    /// An empty room.
    pub fn new(alloc: Global) -> Result<TextRoom, NoMemory>
        ensures { IfOk result (λ r. r ≡ []) }
    {
        Ok(TextRoom {
            bytes: Vec::with_capacity(alloc, ROOM_SIZE)?,
        })
    }

    /// Takes this text in the place of what was in it.
    pub fn fill(&mut self, text: &[u8])
        requires { length text.now ≤ room_size }
        ensures { self.new ≡ text.now }
    {
        self.bytes.clear();
        self.bytes.extend_from_slice(text).unwrap();
    }

    /// Puts bytes after what is in it.
    pub(crate) fn put(&mut self, bytes: &[u8])
        requires { length self.old + length bytes.now ≤ room_size }
        ensures { self.new ≡ self.old ++ bytes.now }
    {
        self.bytes.extend_from_slice(bytes).unwrap();
    }

    /// The text in it.
    pub(crate) fn as_slice(&self) -> &[u8]
        ensures { result.now ≡ self.now }
    {
        self.bytes.as_slice()
    }

    /// The text in it, which keeps the room.
    pub fn into_bytes(self) -> Bytes
        ensures { result ≡ self }
    {
        Bytes::from_vec(self.bytes)
    }
}
