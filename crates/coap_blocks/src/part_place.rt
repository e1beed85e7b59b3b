//! One body of a request as the code keeps it, as far as its blocks came.

ghost use Rattle.std.specs.Prelude.{◌≡◌, ◌≤◌, ◌+◌, [], length, IfOk};
ghost use Rattle.coap_blocks.specs.Paths.{largest_path, lives, path_size};
ghost use Rattle.coap_blocks.specs.Parts.{extended, is_part_of, longest_request, origin_of};

use crate::kept_path::KeptPath;
use crate::lifetime::lives;
use crate::origin::Origin;
use crate::room::Room;
use coap_msg::{Code, Endpoint, is_same_endpoint};
use servient_base::NoMemory;
use std::alloc::Global;
use std::marker::Model;

/// The most bytes of a body of a request that comes in blocks.
pub const LONGEST_REQUEST: usize = 16_384;

/// A place for a part. Contracts see the part in it (`Part` of specs/Parts.antt). Beginning another part in it takes no
/// memory.
#[derive(Drop)]
pub struct PartPlace {
    from: Endpoint,
    code: Code,
    path: KeptPath,
    bytes: Room<LONGEST_REQUEST>,
    moment: u64,
}

impl Model for PartPlace {
    ghost use Rattle.coap_blocks.specs.Parts.{Part};

    ghost Value = { Part };

    ghost view = { λ p. record {
      origin = record { from = p.from; code = p.code; path = p.path };
      bytes = p.bytes;
      moment = p.moment;
    } };
}

impl PartPlace {
    /// A place with an empty part. All its memory is taken here.
    pub fn new(alloc: Global) -> Result<Self, NoMemory> {
        Ok(PartPlace {
            from: Endpoint { host: 0, port: 0 },
            code: 0,
            path: KeptPath::new(alloc)?,
            bytes: Room::new(alloc)?,
            moment: 0,
        })
    }

    /// Begins a part now, in the place of its own.
    pub fn begin(&mut self, origin: &Origin<'_>, now: u64)
        requires { path_size origin.now.path.now ≤ largest_path }
        ensures { self.new ≡ record { origin = origin_of origin.now; bytes = []; moment = now } }
    {
        self.from = origin.from;
        self.code = origin.code;
        self.path.fill(origin.path);
        self.bytes.clear();
        self.moment = now;
    }

    /// Whether it is the part of this origin.
    pub fn is_of(&self, origin: &Origin<'_>) -> bool
        ensures { result ≡ is_part_of (origin_of origin.now) self.now }
    {
        is_same_endpoint(self.from, origin.from)
            && self.code == origin.code
            && self.path.is(origin.path)
    }

    /// Whether it lives.
    pub fn lives(&self, now: u64) -> bool
        ensures { result ≡ lives now self.now.moment }
    {
        lives(self.moment, now)
    }

    /// Puts the payload of a block after the bytes that came.
    pub fn put(&mut self, payload: &[u8])
        requires { length self.old.bytes + length payload.now ≤ longest_request }
        ensures { self.new ≡ extended payload.now self.old }
    {
        self.bytes.put(payload);
    }

    /// The bytes that came.
    pub fn bytes(&self) -> &[u8]
        ensures { result.now ≡ self.now.bytes }
    {
        self.bytes.as_slice()
    }
}
