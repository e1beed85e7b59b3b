//! Bytes that are kept for a socket until it has room for them.

ghost use Rattle.std.specs.Prelude.{◌≡◌, ◌≤◌, ◌++◌, [], drop, length, vec_len, OnOk};

use servient_outside::NoMemory;
use std::alloc::{AllocError, Global};
use std::marker::Model;

/// The most bytes that are kept.
pub const MOST_KEPT: usize = 4_194_304;

/// The bytes that are kept, at most 4,194,304.
#[derive(Drop)]
pub struct Kept {
    alloc: Global,
    bytes: Vec<u8>,
    // The first so many of these bytes are kept no longer.
    gone: usize,
}

impl Model for Kept {
    ghost use Rattle.std.specs.Prelude.{◌≤◌, ◌-◌, List, ℕ, drop, length};

    ghost Value = { List ℕ };

    ghost view = { λ k. drop k.gone k.bytes.items };

    ghost invariant = { λ k. (k.gone ≤ length k.bytes.items) × (length k.bytes.items - k.gone ≤ 4194304) };
}

impl Kept {
    /// Nothing is kept.
    pub fn new(alloc: Global) -> Kept
        ensures { result ≡ [] }
    {
        Kept {
            alloc,
            bytes: Vec::new(alloc),
            gone: 0,
        }
    }

    /// The number of bytes that are kept.
    pub fn len(&self) -> usize
        ensures value { result ≡ length self.now }
        ensures bound { result ≤ 4194304 }
    {
        self.bytes.len() - self.gone
    }

    /// The bytes.
    pub fn as_slice(&self) -> &[u8]
        ensures { result.now ≡ self.now }
    {
        &self.bytes[self.gone..]
    }

    /// Keeps two pieces behind what is kept. Out of memory where that would be too many bytes, too; what is kept then
    /// is of no more use.
    pub fn keep(&mut self, head: &[u8], body: &[u8]) -> Result<(), NoMemory>
        ensures { OnOk result (self.new ≡ self.old ++ head.now ++ body.now) }
    {
        let count = self
            .len()
            .saturating_add(head.len())
            .saturating_add(body.len());
        if count > MOST_KEPT {
            return Err(AllocError);
        }
        self.make_room(head.len() + body.len());
        self.bytes.extend_from_slice(head)?;
        self.bytes.extend_from_slice(body)?;
        Ok(())
    }

    /// Discards what is kept no longer before more memory is taken for so many further bytes.
    fn make_room(&mut self, count: usize)
        ensures { self.new ≡ self.old }
    {
        if self.bytes.capacity().saturating_sub(self.bytes.len()) < count {
            self.forget_gone();
        }
    }

    /// Discards what is kept no longer.
    fn forget_gone(&mut self)
        ensures { self.new ≡ self.old }
    {
        remove_front(&mut self.bytes, self.gone);
        self.gone = 0;
    }

    /// Keeps the first so many bytes no longer. The memory is given back once nothing is kept.
    pub fn take_front(&mut self, count: usize)
        requires { count ≤ length self.old }
        ensures { self.new ≡ drop count self.old }
    {
        self.gone += count;
        if self.gone == self.bytes.len() {
            self.bytes = Vec::new(self.alloc);
            self.gone = 0;
        }
    }
}

/// Removes the first n bytes.
fn remove_front(bytes: &mut Vec<u8>, count: usize)
    requires { count ≤ vec_len bytes.old }
    ensures { bytes.new.items ≡ drop count bytes.old.items }
{
    let len = bytes.len();
    bytes.as_mut_slice().copy_within(count..len, 0);
    bytes.truncate(len - count);
}
