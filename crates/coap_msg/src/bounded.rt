//! At most `N` bytes, kept in place: a token, a reply that is kept, a message that is sent.

use std::marker::Model;

/// At most `N` bytes, seen as the list of them. It isn't `arrayvec`'s type, because contracts are to see the list
/// itself and not a vector that has one.
#[derive(Drop)]
pub struct BoundedBytes<const N: usize> {
    room: [u8; N],
    used: usize,
}

impl<const N: usize> Model for BoundedBytes<N> {
    ghost use Rattle.std.specs.Prelude.{◌≤◌, ℕ, List, take};

    ghost Value = { List ℕ };

    ghost view = { λ b. take b.used b.room };

    ghost invariant = { λ b. b.used ≤ N };
}

impl<const N: usize> BoundedBytes<N> {
    ghost use Rattle.std.specs.Prelude.{◌≡◌, ◌≤◌, length};

    /// These bytes.
    pub fn of(bytes: &[u8]) -> Self
        requires { length bytes.now ≤ N }
        ensures { result ≡ bytes.now }
    {
        let mut room = [0u8; N];
        room[..bytes.len()].copy_from_slice(bytes);
        BoundedBytes {
            room,
            used: bytes.len(),
        }
    }

    /// The bytes.
    pub fn as_bytes(&self) -> &[u8]
        ensures ok { result.now ≡ self.now }
        ensures bound { length result.now ≤ N }
    {
        &self.room[..self.used]
    }
}
