//! A path, with its segments in one buffer.

ghost use Rattle.std.specs.Prelude.{◌≡◌, ◌++◌, ◌∷◌, ◌<◌, ◌↔◌, [], List, ℕ, length, option_map, slice_get, IfOk, IsTrue, OnErr, OnOk};
ghost use Rattle.thing_ops.specs.Routes.{route_of};
ghost use Rattle.thing_ops.specs.Segments.{pieces, with_longer_last, AreJudged};

use crate::RouteKind;
use crate::pieces::piece;
use crate::routing::route_of_pieces;
use servient_base::NoMemory;
use smallvec::SmallVec;
use std::alloc::Global;
use std::marker::Model;

/// The number of segments that a path has without further memory, since no path that leads anywhere has more. No
/// contract can say that a path is one piece of memory.
const FEW: usize = 4;

/// A path: segments of any bytes each, percent-encoding already taken away (RFC 3986, sections 2.1 and 3.3). Contracts
/// see the list of them. The bytes lie in one buffer, and the ends of the first four segments beside it. The route is
/// judged whenever the path changes, so that each layer that asks looks it up.
#[derive(Debug, Drop)]
pub struct Segments {
    bytes: Vec<u8>,
    ends: SmallVec<usize, FEW>,
    route: RouteKind,
}

impl Model for Segments {
    ghost Value = { List (List ℕ) };

    ghost view = { λ s. pieces s.bytes.items 0 s.ends.items };

    ghost invariant = { λ s. AreJudged s.route s.bytes.items s.ends.items };
}

impl Segments {
    /// No segments. It takes no memory yet.
    pub fn new(alloc: Global) -> Self
        ensures { result ≡ [] }
    {
        Segments {
            bytes: Vec::new(alloc),
            ends: SmallVec::new(alloc),
            route: RouteKind::Nowhere,
        }
    }

    /// No segments, with room for this many bytes: a path of up to four segments that has no more takes no further
    /// memory.
    pub fn with_capacity(alloc: Global, bytes: usize) -> Result<Self, NoMemory>
        ensures { IfOk result (λ s. s ≡ []) }
    {
        Ok(Segments {
            bytes: Vec::with_capacity(alloc, bytes)?,
            ends: SmallVec::new(alloc),
            route: RouteKind::Nowhere,
        })
    }

    /// Puts a segment at the end.
    pub fn push(&mut self, segment: &[u8]) -> Result<(), NoMemory>
        ensures ok { OnOk result (self.new ≡ self.old ++ segment.now ∷ []) }
        ensures unchanged { OnErr result (self.new ≡ self.old) }
    {
        self.ends.reserve(1)?;
        self.bytes.extend_from_slice(segment)?;
        self.ends.push_reserved(self.bytes.len());
        self.route = route_of_pieces(self.bytes.as_slice(), self.ends.as_slice());
        Ok(())
    }

    /// Puts bytes after the last segment, as a reader does that takes percent-encoding away piece by piece.
    pub fn extend_last(&mut self, bytes: &[u8]) -> Result<(), NoMemory>
        requires { 0 < length self.old }
        ensures ok { OnOk result (self.new ≡ with_longer_last self.old bytes.now) }
        ensures unchanged { OnErr result (self.new ≡ self.old) }
    {
        self.bytes.extend_from_slice(bytes)?;
        // Read for the proof, since a length that was read is below 2^64.
        let _fits = self.ends.len();
        let _ = self.ends.pop();
        self.ends.push_reserved(self.bytes.len());
        self.route = route_of_pieces(self.bytes.as_slice(), self.ends.as_slice());
        Ok(())
    }

    /// A copy of the path, in memory of its own.
    pub fn copied(&self, alloc: Global) -> Result<Segments, NoMemory>
        ensures { IfOk result (λ s. s ≡ self.now) }
    {
        Ok(Segments {
            bytes: self.bytes.as_slice().to_vec(alloc)?,
            ends: SmallVec::from_slice(alloc, self.ends.as_slice())?,
            route: self.route,
        })
    }

    /// The number of segments.
    pub fn len(&self) -> usize
        ensures { result ≡ length self.now }
    {
        self.ends.len()
    }

    /// There are no segments.
    pub fn is_empty(&self) -> bool
        ensures { IsTrue result ↔ (self.now ≡ []) }
    {
        self.len() == 0
    }

    /// The segment with this number, counted from 0.
    pub fn get(&self, index: usize) -> Option<&[u8]>
        ensures { option_map (λ s. s.now) result ≡ slice_get self.now index }
    {
        if index < self.ends.len() {
            Some(piece(self.bytes.as_slice(), self.ends.as_slice(), index))
        } else {
            None
        }
    }
}

/// The route of a path. Of two rows of the table that fit, the one that names the first segment counts.
pub fn route(path: &Segments) -> RouteKind
    ensures { result ≡ route_of path.now }
{
    path.route
}
