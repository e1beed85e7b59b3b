//! The bodies of requests that come in blocks.

ghost use Rattle.std.specs.Prelude.{◌≡◌, ◌≤◌, ◌<◌, ◌+◌, [], ℕ, length, not, vec_len, vec_capacity, IfOk};
ghost use Rattle.std.specs.List.{position, remove};
ghost use Rattle.coap_msg.specs.Blocks.{IsBlock};
ghost use Rattle.coap_blocks.specs.Paths.{largest_path, lives, path_size};
ghost use Rattle.coap_blocks.specs.Parts.{is_bad, most_parts, origin_of, place_of};

use crate::origin::Origin;
use crate::part_place::{LONGEST_REQUEST, PartPlace};
use crate::{Added, NoMemory};
use coap_msg::{Block, Code, Endpoint};
use std::alloc::Global;
use std::marker::Model;
use thing_ops::Segments;

/// The number of parts that are kept.
pub(crate) const MOST_PARTS: usize = 8;

/// The bodies of requests that come in blocks, as far as they came (RFC 7959, section 2.5). Contracts see the list of
/// them (`Part` of specs/Parts.antt), and a place is the index of a part in it, which stands until the next call of
/// `add` or `clear`.
///
/// Each part has memory of its own, which is taken when the parts are made and stays where it is.
#[derive(Drop)]
pub struct Parts {
    /// In the order in which they were begun.
    kept: Vec<PartPlace>,
    /// The places of further parts.
    spare: Vec<PartPlace>,
}

impl Model for Parts {
    ghost use Rattle.std.specs.Prelude.{List};
    ghost use Rattle.coap_blocks.specs.Parts.{Part};
    ghost use Rattle.coap_blocks.specs.Kept.{AreParts};

    ghost Value = { List Part };

    ghost view = { λ p. p.kept.items };

    ghost invariant = { AreParts };
}

impl Parts {
    ghost use Rattle.std.specs.Prelude.{◌≡◌, ◌++◌, ◌∷◌, ◌<◌, [], nat_lt, if◌then◌else◌, option_map, slice_get, slice_set, Some, None};
    ghost use Rattle.coap_blocks.specs.Parts.{after_block, arrival_of, begun, extended, joined, joined_to, living, longest_request, new_part, part_at, other_parts, Gives};

    /// No parts. All their memory is taken here.
    pub fn new(alloc: Global) -> Result<Parts, NoMemory>
        ensures { IfOk result (λ p. p ≡ []) }
    {
        Ok(Parts {
            kept: Vec::with_capacity(alloc, MOST_PARTS)?,
            spare: empty_places(alloc)?,
        })
    }

    /// Joins a block that came now to the part of its endpoint, code and path, and says the answer. Parts that are too
    /// old are given up first.
    #[tactic(auto, using(crate::proofs::Joining::adds_bad, crate::proofs::Joining::adds_first, crate::proofs::Joining::adds_later))]
    pub fn add(
        &mut self,
        from: Endpoint,
        code: Code,
        path: &Segments,
        block: Block,
        payload: &[u8],
        now: u64,
    ) -> Added
        requires block { IsBlock block }
        requires path { path_size path.now ≤ largest_path }
        ensures joined { Gives (after_block (record {
          origin = record { from = from; code = code; path = path.now };
          block = block;
          payload = payload.now;
          moment = now;
        }) (living now self.old)) result self.new }
        ensures place { (place : ℕ) → result ≡ Added.Complete place → place < length self.new }
    {
        self.give_up_over(now);
        if is_bad(block, payload) {
            return Added::BadBlock;
        }
        let origin = Origin { from, code, path };
        if block.number == 0 {
            self.begin(&origin, block, payload, now)
        } else {
            self.join(&origin, block, payload)
        }
    }

    /// The bytes of the body at a place.
    pub fn bytes(&self, place: u32) -> &[u8]
        requires { place < length self.now }
        ensures { option_map (λ p. p.bytes) (slice_get self.now place) ≡ Some result.now }
    {
        self.kept[place as usize].bytes()
    }

    /// Gives up the body at a place, once it was acted on.
    pub fn clear(&mut self, place: u32)
        requires { place < length self.old }
        ensures { self.new ≡ remove self.old place }
    {
        self.give_up(place as usize);
    }

    /// Gives up the parts that don't live now, one by one and not by `retain`, since their places become spare.
    fn give_up_over(&mut self, now: u64)
        ensures { self.new ≡ living now self.old }
    {
        while let Some(place) = self.place_of_over(now) {
            self.give_up(place);
        }
    }

    /// The place of the first part that doesn't live now.
    fn place_of_over(&self, now: u64) -> Option<usize>
        ensures { result ≡ position (λ p. not (lives now p.moment)) self.now }
    {
        place_of_over(self.kept.as_slice(), now)
    }

    /// The place of the part of an origin.
    fn place_of(&self, origin: &Origin<'_>) -> Option<usize>
        ensures { result ≡ place_of (origin_of origin.now) self.now }
    {
        place_of(self.kept.as_slice(), origin)
    }

    /// The number of bytes that came of the part at a place.
    fn length_at(&self, place: usize) -> usize
        requires { place < length self.now }
        ensures length { result ≡ length (part_at place self.now).bytes }
        ensures place { place < most_parts }
    {
        self.kept[place].bytes().len()
    }

    /// Puts the payload of a block after the part at a place.
    fn extend(&mut self, place: usize, payload: &[u8])
        requires place { place < length self.old }
        requires room { length (part_at place self.old).bytes + length payload.now ≤ longest_request }
        ensures { self.new ≡ slice_set self.old place (extended payload.now (part_at place self.old)) }
    {
        self.kept[place].put(payload);
    }

    /// Gives up the part at a place.
    fn give_up(&mut self, place: usize)
        requires { place < length self.old }
        ensures { self.new ≡ remove self.old place }
    {
        let part = self.kept.remove(place);
        self.spare.push_reserved(part);
    }

    /// A first block begins the part of its origin anew, if there is room.
    #[tactic(auto, using(crate::proofs::Joining::begins, crate::proofs::Joining::begins_not))]
    fn begin(&mut self, origin: &Origin<'_>, block: Block, payload: &[u8], now: u64) -> Added
        requires block { IsBlock block }
        requires path { path_size origin.now.path.now ≤ largest_path }
        ensures begun { Gives (begun (arrival_of origin.now block payload.now now) (other_parts (origin_of origin.now) self.old)) result self.new }
        ensures place { (place : ℕ) → result ≡ Added.Complete place → place < length self.new }
    {
        self.give_up_own(origin);
        if self.has_begun(origin, now) {
            self.join(origin, block, payload)
        } else {
            Added::Full
        }
    }

    /// Gives up the part of an origin, if there is one.
    fn give_up_own(&mut self, origin: &Origin<'_>)
        ensures { self.new ≡ other_parts (origin_of origin.now) self.old }
    {
        match self.place_of(origin) {
            Some(place) => self.give_up(place),
            None => {}
        }
    }

    /// Begins an empty part of an origin now, if there is room, and says whether there was.
    fn has_begun(&mut self, origin: &Origin<'_>, now: u64) -> bool
        requires { path_size origin.now.path.now ≤ largest_path }
        ensures begun { result ≡ nat_lt (length self.old) most_parts }
        ensures parts { self.new ≡ (if result then self.old ++ new_part (origin_of origin.now) now ∷ [] else self.old) }
    {
        match self.spare.pop() {
            Some(mut part) => {
                part.begin(origin, now);
                self.kept.push_reserved(part);
                true
            }
            None => false,
        }
    }

    /// Joins a block to the part of its origin, if it begins where that ends.
    #[tactic(auto, using(crate::proofs::Joining::joins_own, crate::proofs::Joining::joins_none))]
    fn join(&mut self, origin: &Origin<'_>, block: Block, payload: &[u8]) -> Added
        requires { IsBlock block }
        ensures joined { Gives (joined (origin_of origin.now) block payload.now self.old) result self.new }
        ensures place { (place : ℕ) → result ≡ Added.Complete place → place < length self.new }
    {
        match self.place_of(origin) {
            // Without a part it is Incomplete, since an earlier block is missing (RFC 7959, section 2.9.2).
            Some(place) => self.join_to(place, block, payload),
            None => Added::Incomplete,
        }
    }

    /// Joins a block to the part at a place, if it begins where that ends.
    #[tactic(auto, using(crate::proofs::Joining::joins_not, crate::proofs::Joining::joins_too_much, crate::proofs::Joining::joins))]
    fn join_to(&mut self, place: usize, block: Block, payload: &[u8]) -> Added
        requires block { IsBlock block }
        requires place { place < length self.old }
        ensures joined { Gives (joined_to block payload.now place (part_at place self.old) self.old) result self.new }
        ensures place { (place : ℕ) → result ≡ Added.Complete place → place < length self.new }
    {
        let length = self.length_at(place);
        if length != block.start() {
            self.give_up(place);
            return Added::Incomplete;
        }
        if length + payload.len() > LONGEST_REQUEST {
            self.give_up(place);
            return Added::TooLarge;
        }
        self.extend(place, payload);
        if block.more {
            Added::Continue
        } else {
            Added::Complete(place as u32)
        }
    }
}

/// A place for each part that is kept.
fn empty_places(alloc: Global) -> Result<Vec<PartPlace>, NoMemory>
    ensures count { IfOk result (λ places. vec_len places ≡ most_parts) }
    ensures room { IfOk result (λ places. most_parts ≤ vec_capacity places) }
{
    let mut places = Vec::with_capacity(alloc, MOST_PARTS)?;
    for _ in 0..MOST_PARTS {
        places.push(PartPlace::new(alloc)?)?;
    }
    Ok(places)
}

/// Whether a payload isn't as long as its block says.
fn is_bad(block: Block, payload: &[u8]) -> bool
    requires { IsBlock block }
    ensures { result ≡ is_bad block payload.now }
{
    let size = block.size();
    (block.more && payload.len() != size) || payload.len() > size
}

/// The place of the part of an origin.
fn place_of(kept: &[PartPlace], origin: &Origin<'_>) -> Option<usize>
    ensures { result ≡ place_of (origin_of origin.now) kept.now }
{
    kept.iter().position(|part| part.is_of(origin))
}

/// The place of the first part that doesn't live. A function alone, since its clause then says just `position`.
fn place_of_over(kept: &[PartPlace], now: u64) -> Option<usize>
    ensures { result ≡ position (λ p. not (lives now p.moment)) kept.now }
{
    kept.iter().position(|part| !part.lives(now))
}
