//! The site: Things with an index, by which each is found by its segment.

ghost use Rattle.std.specs.Prelude.{◌≡◌, ◌<◌, ◌+◌, [], length, take, option_map, IfErr, IfOk, OnOk};
ghost use Rattle.std.specs.List.{AllByRecursion};
ghost use Rattle.std.specs.List.Sorted.{IsBinarySearchResult, IsSearchInRange};
ghost use Rattle.wot_terms.specs.Faults.{IsValid};
ghost use Rattle.thing_site.specs.Site.{expose_faults, site_of, thing_named as thing_of};
ghost use Rattle.thing_site.specs.Fits.{Fits};
ghost use Rattle.thing_site.specs.Exposing.{kinds_of, IsFirst};
ghost use Rattle.thing_site.specs.Index.{segment_at as segment_in, segment_order, Indexes};

use crate::placing::place_all;
use crate::{ExposeFault, HeldThing, NoMemory, Slots};
use std::alloc::Global;
use std::cmp::Ordering;
use std::marker::Model;
use thing_handler::Handlers;
use wot_terms::Things;

/// Things in their order, in which they are polled, with an index; and the versions that a run leaves out. Contracts see
/// the site.
#[derive(Drop)]
pub struct IndexedThings {
    things: Vec<HeldThing>,
    /// The numbers of the Things, in the order of their segments. A Thing whose segment an earlier one has is left out.
    index: Vec<usize>,
    /// Versions of properties up to this one are left out.
    left_out: u32,
}

impl Model for IndexedThings {
    ghost use Rattle.thing_site.specs.Site.{Site};
    ghost use Rattle.thing_site.specs.SiteCodes.{site_code};
    ghost use Rattle.thing_site.specs.Index.{Indexes};

    ghost Value = { Site };

    ghost coded = { site_code };

    ghost view = { λ t. record { things = t.things.items; left_out = t.left_out } };

    ghost invariant = { λ t. Indexes t.things.items t.index.items t.things.items };
}

impl IndexedThings {
    /// Things as they are exposed by these slots of a rack, in a run that leaves out the versions up to `left_out`. It
    /// asks neither that there is a Thing, without which the root leads nowhere, nor that segments differ: the first
    /// Thing of a segment counts.
    pub fn new<R: Handlers>(
        alloc: Global,
        things: Things,
        slots: &Slots,
        rack: &R,
        left_out: u32,
    ) -> Result<IndexedThings, ExposeFault>
        requires { AllByRecursion (λ t. IsValid t.1) things }
        ensures ok { IfOk result (λ t. t ≡ site_of left_out slots.now things) }
        ensures faultless { OnOk result (expose_faults (kinds_of (R.slots rack.now)) slots.now things ≡ []) }
        ensures fits { IfOk result (λ t. Fits t (R.slots rack.now)) }
        ensures fault { IfErr result (λ fault. IsFirst (expose_faults (kinds_of (R.slots rack.now)) slots.now things) fault) }
    {
        let held = place_all(alloc, rack, slots, things.as_slice())?;
        Ok(IndexedThings::of(alloc, held, left_out)?)
    }

    /// These Things, with their index.
    fn of(alloc: Global, things: Vec<HeldThing>, left_out: u32) -> Result<IndexedThings, NoMemory>
        ensures { IfOk result (λ t. t ≡ record { things = things.items; left_out = left_out }) }
    {
        let index = index_of(alloc, things.as_slice())?;
        Ok(IndexedThings {
            things,
            index,
            left_out,
        })
    }

    /// The Things in their order.
    pub fn as_slice(&self) -> &[HeldThing]
        ensures { result.now ≡ self.now.things }
    {
        self.things.as_slice()
    }

    /// Versions of properties up to this one are left out.
    pub fn left_out(&self) -> u32
        ensures { result ≡ self.now.left_out }
    {
        self.left_out
    }

    /// The Thing of this segment, found by binary search.
    pub fn named(&self, segment: &[u8]) -> Option<&HeldThing>
        ensures { option_map (λ t. t.now) result ≡ thing_of segment.now self.now.things }
    {
        match search(self.things.as_slice(), self.index.as_slice(), segment) {
            Ok(place) => Some(&self.things[self.index[place]]),
            Err(_) => None,
        }
    }
}

/// The place in an index of the number of the Thing of this segment, or the place that it would have.
fn search(things: &[HeldThing], index: &[usize], segment: &[u8]) -> Result<usize, usize>
    ensures bound { IsSearchInRange result (length index.now) }
    ensures place { IsBinarySearchResult (segment_order things.now segment.now) index.now result }
{
    let order = |number: &usize| -> Ordering
        ensures { result ≡ segment_order things.entry.now segment.entry.now number.now }
    { segment_at(things, *number).cmp(segment) };
    index.binary_search_by(order)
}

/// The segment of the Thing of this number.
fn segment_at(things: &[HeldThing], number: usize) -> &[u8]
    ensures { result.now ≡ segment_in things.now number }
{
    match things.get(number) {
        Some(thing) => thing.segment.as_str().as_bytes(),
        None => &[],
    }
}

/// The index of these Things.
fn index_of(alloc: Global, things: &[HeldThing]) -> Result<Vec<usize>, NoMemory>
    ensures { IfOk result (λ index. Indexes things.now index.items things.now) }
{
    let mut index = Vec::new(alloc);
    for number in 0..things.len() {
        add_number(&mut index, things, number)?;
    }
    Ok(index)
}

/// Puts the number of a Thing into an index of those before it, unless one of these has its segment.
fn add_number(index: &mut Vec<usize>, things: &[HeldThing], number: usize) -> Result<(), NoMemory>
    requires number { number < length things.now }
    requires index { Indexes things.now index.old.items (take number things.now) }
    ensures { OnOk result (Indexes things.now index.new.items (take (number + 1) things.now)) }
{
    match search(things, index.as_slice(), segment_at(things, number)) {
        Ok(_) => Ok(()),
        Err(place) => Ok(index.insert(place, number)?),
    }
}
