//! One body as the code keeps it.

ghost use Rattle.std.specs.Prelude.{◌≡◌, ◌≤◌, length, IfOk};
ghost use Rattle.coap_blocks.specs.Paths.{largest_path, lives, path_size};
ghost use Rattle.coap_blocks.specs.Bodies.{content_of, is_body_of, longest_body};

use crate::Whole;
use crate::kept_path::KeptPath;
use crate::lifetime::lives;
use crate::room::Room;
use coap_msg::{Code, Endpoint, is_same_endpoint};
use servient_base::NoMemory;
use std::alloc::Global;
use std::marker::Model;
use thing_ops::Segments;

/// The most bytes of a body of a response.
pub(crate) const LONGEST_BODY: usize = 65_536;

/// A place for a body. Contracts see the body in it (`Body` of specs/Bodies.antt). Taking another body takes no memory.
#[derive(Drop)]
pub struct BodyPlace {
    from: Endpoint,
    path: KeptPath,
    code: Code,
    format: Option<u16>,
    tag: Option<u32>,
    bytes: Room<LONGEST_BODY>,
    moment: u64,
}

impl Model for BodyPlace {
    ghost use Rattle.coap_blocks.specs.Bodies.{Body};

    ghost Value = { Body };

    ghost view = { λ b. record {
      from = b.from;
      path = b.path;
      content = record { code = b.code; format = b.format; tag = b.tag; bytes = b.bytes };
      moment = b.moment;
    } };
}

impl BodyPlace {
    /// A place with an empty body. All its memory is taken here.
    pub fn new(alloc: Global) -> Result<Self, NoMemory> {
        Ok(BodyPlace {
            from: Endpoint { host: 0, port: 0 },
            path: KeptPath::new(alloc)?,
            code: 0,
            format: None,
            tag: None,
            bytes: Room::new(alloc)?,
            moment: 0,
        })
    }

    /// Takes this body, which is given now, in the place of its own. The rooms are filled anew, so that no memory is
    /// taken.
    pub fn fill(&mut self, from: Endpoint, path: &Segments, body: &Whole<'_>, now: u64)
        requires bytes { length body.now.bytes.now ≤ longest_body }
        requires path { path_size path.now ≤ largest_path }
        ensures { self.new ≡ record { from = from; path = path.now; content = content_of body.now; moment = now } }
    {
        self.from = from;
        self.path.fill(path);
        self.code = body.code;
        self.format = body.format;
        self.tag = body.tag;
        self.bytes.fill(body.bytes);
        self.moment = now;
    }

    /// Whether it is the body of this endpoint and path.
    pub fn is_of(&self, from: Endpoint, path: &Segments) -> bool
        ensures { result ≡ is_body_of from path.now self.now }
    {
        is_same_endpoint(self.from, from) && self.path.is(path)
    }

    /// Whether it lives.
    pub fn lives(&self, now: u64) -> bool
        ensures { result ≡ lives now self.now.moment }
    {
        lives(self.moment, now)
    }

    /// The response whose body it is.
    pub fn whole(&self) -> Whole<'_>
        ensures { content_of result ≡ self.now.content }
    {
        Whole {
            code: self.code,
            format: self.format,
            tag: self.tag,
            bytes: self.bytes.as_slice(),
        }
    }
}
