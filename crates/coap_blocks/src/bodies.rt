//! The bodies of responses that were given in blocks.

ghost use Rattle.std.specs.Prelude.{◌≡◌, ◌≤◌, ◌+◌, ◌&&◌, [], find, length, option_map, vec_len, vec_capacity, IfOk};
ghost use Rattle.std.specs.List.{position};
ghost use Rattle.coap_blocks.specs.Paths.{largest_path, lives, path_size};
ghost use Rattle.coap_blocks.specs.Bodies.{content_of, is_body_of, last, longest_body, most_bodies, other_bodies};

use crate::body_place::BodyPlace;
use crate::{NoMemory, Whole};
use coap_msg::Endpoint;
use std::alloc::Global;
use std::marker::Model;
use thing_ops::Segments;

/// The number of bodies that are kept.
pub(crate) const MOST_BODIES: usize = 16;

/// The bodies of responses that were given in blocks (RFC 7959, section 2.4). Contracts see those that are kept, in the
/// order in which they were put; the age of one is judged when it is sought.
///
/// Each body has a place of its own, whose memory is taken when the bodies are made, and stays where it is: only the
/// order of the places changes when another body is put.
#[derive(Drop)]
pub struct Bodies {
    /// The oldest first.
    kept: Vec<BodyPlace>,
    /// The places of further bodies.
    spare: Vec<BodyPlace>,
}

impl Model for Bodies {
    ghost use Rattle.std.specs.Prelude.{List};
    ghost use Rattle.coap_blocks.specs.Bodies.{Body};
    ghost use Rattle.coap_blocks.specs.Kept.{AreBodies};

    ghost Value = { List Body };

    ghost view = { λ b. b.kept.items };

    ghost invariant = { AreBodies };
}

impl Bodies {
    ghost use Rattle.coap_blocks.specs.Bodies.{body_for, with_body};

    /// No bodies. All their memory is taken here.
    pub fn new(alloc: Global) -> Result<Bodies, NoMemory>
        ensures { IfOk result (λ b. b ≡ []) }
    {
        Ok(Bodies {
            kept: Vec::with_capacity(alloc, MOST_BODIES)?,
            spare: empty_places(alloc)?,
        })
    }

    /// Keeps a body that is given to an endpoint now. It replaces that of this endpoint and path, or, where as many are
    /// kept as may be, the oldest.
    pub fn put(&mut self, from: Endpoint, path: &Segments, body: &Whole<'_>, now: u64)
        requires bytes { length body.now.bytes.now ≤ longest_body }
        requires path { path_size path.now ≤ largest_path }
        ensures { self.new ≡ with_body (record { from = from; path = path.now; content = content_of body.now; moment = now }) self.old }
    {
        let mut place = free_place(&mut self.kept, &mut self.spare, from, path);
        place.fill(from, path, body, now);
        // No memory is taken, since there is room for all places from the first.
        self.kept.push_reserved(place);
    }

    /// The body that was put last for this endpoint and path, if it isn't too old.
    pub fn get(&self, from: Endpoint, path: &Segments, now: u64) -> Option<Whole<'_>>
        ensures { option_map content_of result ≡ option_map (λ b. b.content) (body_for from path.now now self.now) }
    {
        match living_body(self.kept.as_slice(), from, path, now) {
            Some(body) => Some(body.whole()),
            None => None,
        }
    }
}

/// A place for each body that is kept.
fn empty_places(alloc: Global) -> Result<Vec<BodyPlace>, NoMemory>
    ensures { IfOk result (λ places. vec_len places ≡ most_bodies) }
{
    let mut places = Vec::with_capacity(alloc, MOST_BODIES)?;
    for _ in 0..MOST_BODIES {
        places.push(BodyPlace::new(alloc)?)?;
    }
    Ok(places)
}

/// Takes out the place for a body of this endpoint and path: that of the body that it replaces, or one that is spare,
/// or that of the oldest.
fn free_place(
    kept: &mut Vec<BodyPlace>,
    spare: &mut Vec<BodyPlace>,
    from: Endpoint,
    path: &Segments,
) -> BodyPlace
    requires { vec_len kept.old + vec_len spare.old ≡ most_bodies }
    ensures kept { kept.new.items ≡ last 15 (other_bodies from path.now kept.old.items) }
    ensures places { vec_len kept.new + vec_len spare.new ≡ 15 }
    ensures room { vec_capacity kept.new ≡ vec_capacity kept.old }
{
    match place_of(kept.as_slice(), from, path) {
        Some(place) => kept.remove(place),
        None => unused_place(kept, spare),
    }
}

/// Takes out a place that is spare, or that of the oldest body.
#[tactic(auto, using(crate::proofs::Places::oldest_goes, crate::proofs::Lists::last_is_all))]
fn unused_place(kept: &mut Vec<BodyPlace>, spare: &mut Vec<BodyPlace>) -> BodyPlace
    requires { vec_len kept.old + vec_len spare.old ≡ most_bodies }
    ensures kept { kept.new.items ≡ last 15 kept.old.items }
    ensures places { vec_len kept.new + vec_len spare.new ≡ 15 }
    ensures room { vec_capacity kept.new ≡ vec_capacity kept.old }
{
    match spare.pop() {
        Some(place) => place,
        None => kept.remove(0),
    }
}

/// The place of the body of an endpoint and a path. A function alone, since its clause then says just `position`.
fn place_of(kept: &[BodyPlace], from: Endpoint, path: &Segments) -> Option<usize>
    ensures { result ≡ position (is_body_of from path.now) kept.now }
{
    kept.iter().position(|body| body.is_of(from, path))
}

/// The body of an endpoint and a path, if it lives.
fn living_body<'a>(
    kept: &'a [BodyPlace],
    from: Endpoint,
    path: &Segments,
    now: u64,
) -> Option<&'a BodyPlace>
    ensures { option_map (λ b. b.now) result ≡ find (λ b. is_body_of from path.now b && lives now b.moment) kept.now }
{
    kept.iter()
        .find(|body| body.is_of(from, path) && body.lives(now))
}
