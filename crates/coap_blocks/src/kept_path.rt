//! A path that is kept, in memory that is taken once.

ghost use Rattle.std.specs.Prelude.{◌≡◌, ◌+◌, ◌≤◌, ◌<◌, ◌++◌, ◌∷◌, [], ℕ, List, length, slice_get, take, Some, IfOk};
ghost use Rattle.coap_blocks.specs.Paths.{is_same_path, largest_path, path_size};
ghost use Rattle.std.specs.Str.{bytes_eq};

use crate::room::Room;
use servient_base::NoMemory;
use std::alloc::Global;
use std::marker::Model;
use thing_ops::{Segments, piece};

/// The most that the segments of a path and their bytes may be, together: the size of a datagram, since each segment
/// has a byte there beside its value.
pub(crate) const LARGEST_PATH: usize = 1280;

/// A path. Contracts see the list of its segments. They lie in one room, so that taking another path takes no memory.
#[derive(Drop)]
pub struct KeptPath {
    /// The bytes of the segments, one after another.
    bytes: Room<LARGEST_PATH>,
    /// The place after each segment.
    ends: Vec<usize>,
}

impl Model for KeptPath {
    ghost use Rattle.std.specs.Prelude.{List, ℕ};

    ghost Value = { List (List ℕ) };

    ghost use Rattle.coap_blocks.specs.Kept.{path_of, IsPath};

    ghost view = { path_of };

    ghost invariant = { IsPath };
}

impl KeptPath {
    /// The empty path. All its memory is taken here.
    pub fn new(alloc: Global) -> Result<Self, NoMemory>
        ensures { IfOk result (λ p. p ≡ []) }
    {
        Ok(KeptPath {
            bytes: Room::new(alloc)?,
            ends: Vec::with_capacity(alloc, LARGEST_PATH)?,
        })
    }

    /// Takes this path in the place of its own.
    pub fn fill(&mut self, path: &Segments)
        requires { path_size path.now ≤ largest_path }
        ensures { self.new ≡ path.now }
    {
        self.clear();
        for index in 0..path.len() {
            self.push_next(path, index);
        }
    }

    /// Puts the segment of a path with this number after those before it.
    fn push_next(&mut self, path: &Segments, index: usize)
        requires within { index < length path.now }
        requires size { path_size path.now ≤ largest_path }
        requires so_far { self.old ≡ take index path.now }
        ensures { self.new ≡ take (index + 1) path.now }
    {
        match path.get(index) {
            // There is one, since the number is within the path.
            Some(segment) => self.push(segment),
            None => {}
        }
    }

    /// Whether it is this path.
    #[tactic(auto, using(crate::proofs::Paths::lengths_differ))]
    pub fn is(&self, path: &Segments) -> bool
        ensures { result ≡ is_same_path self.now path.now }
    {
        if self.len() != path.len() {
            return false;
        }
        self.has_segments_of(path)
    }

    /// No segments are left.
    fn clear(&mut self)
        ensures { self.new ≡ [] }
    {
        self.bytes.clear();
        self.ends.clear();
    }

    /// Puts a segment at the end.
    fn push(&mut self, segment: &[u8])
        requires { path_size self.old + 1 + length segment.now ≤ largest_path }
        ensures { self.new ≡ self.old ++ segment.now ∷ [] }
    {
        self.bytes.put(segment);
        self.ends.push_reserved(self.bytes.len());
    }

    /// The number of segments.
    fn len(&self) -> usize
        ensures { result ≡ length self.now }
    {
        self.ends.len()
    }

    /// Whether its segments are those of a path that has as many.
    fn has_segments_of(&self, path: &Segments) -> bool
        requires { length self.now ≡ length path.now }
        ensures { result ≡ is_same_path self.now path.now }
    {
        for index in 0..self.len() {
            if !is_segment(path, index, self.at(index)) {
                return false;
            }
        }
        true
    }

    /// The segment with this number.
    fn at(&self, index: usize) -> &[u8]
        requires { index < length self.now }
        ensures { slice_get self.now index ≡ Some result.now }
    {
        piece(self.bytes.as_slice(), self.ends.as_slice(), index)
    }
}

/// Whether the segment of a path with this number is this one.
fn is_segment(path: &Segments, index: usize, segment: &[u8]) -> bool
    requires { index < length path.now }
    ensures { (own : List ℕ) → slice_get path.now index ≡ Some own → result ≡ bytes_eq segment.now own }
{
    match path.get(index) {
        Some(own) => segment == own,
        None => false,
    }
}
