//! The constants of a run: the Things, their affordances and the slots of their handlers.

ghost use Rattle.std.specs.Prelude.{◌≡◌, length, slice_get};
ghost use Rattle.thing_site.specs.Site.{is_emitter as is_emitter_of, is_kind as is_kind_of};
ghost use Rattle.std.specs.Cmp.Lexicographic.{slice_cmp};
ghost use Rattle.std.specs.Ordering.{nat_cmp};
ghost use Rattle.thing_site.specs.Order.{key, key_of, rank as rank_of};
ghost use Rattle.thing_site.specs.Exposing.{placed_all};

use std::cmp::Ordering;
use std::marker::Model;
use thing_handler::Slot;
use wot_terms::{Affordance, Kind};

/// An affordance, and the slot of its handler. Contracts see both.
#[derive(Drop)]
pub struct Spot<'a> {
    pub(crate) affordance: &'a Affordance,
    pub(crate) slot: Slot,
}

impl<'a> Model for Spot<'a> {
    ghost use Rattle.thing_site.specs.Site.{Placed};
    ghost use Rattle.thing_site.specs.SiteCodes.{placed_code};

    ghost Value = { Placed };

    ghost coded = { placed_code };

    ghost view = { λ s. record { affordance = s.affordance.now; slot = s.slot } };
}

impl<'a> Spot<'a> {
    /// The affordance.
    pub fn affordance(&self) -> &'a Affordance
        ensures { result.now ≡ self.now.affordance }
    {
        self.affordance
    }

    /// The slot of its handler.
    pub fn slot(&self) -> Slot
        ensures { result ≡ self.now.slot }
    {
        self.slot
    }
}

/// The number of these affordances that have a slot.
pub(crate) fn spot_count(affordances: &[Affordance], slots: &[Slot]) -> usize
    ensures { result ≡ length (placed_all affordances.now slots.now) }
{
    if slots.len() < affordances.len() {
        slots.len()
    } else {
        affordances.len()
    }
}

/// The affordance with this number, where it has a slot.
pub(crate) fn spot_at<'a>(
    affordances: &'a [Affordance],
    slots: &[Slot],
    index: usize,
) -> Option<Spot<'a>>
    ensures { result ≡ slice_get (placed_all affordances.now slots.now) index }
{
    let count = affordances.len().min(slots.len());
    if index < count {
        Some(Spot {
            affordance: &affordances[index],
            slot: slots[index],
        })
    } else {
        None
    }
}

/// The order of an affordance and one of this kind and name, as a Thing keeps them.
pub(crate) fn compare(affordance: &Affordance, kind: Kind, name: &[u8]) -> Ordering
    ensures { result ≡ slice_cmp nat_cmp (key_of affordance.now) (key kind name.now) }
{
    match rank(affordance.kind).cmp(&rank(kind)) {
        Ordering::Equal => affordance.name.as_str().as_bytes().cmp(name),
        order => order,
    }
}

/// Properties are before actions, and these before events.
fn rank(kind: Kind) -> u8
    ensures { result ≡ rank_of kind }
{
    match kind {
        Kind::Property => 0,
        Kind::Action => 1,
        Kind::Event => 2,
    }
}

/// Both kinds are one.
pub fn is_kind(left: Kind, right: Kind) -> bool
    ensures { result ≡ is_kind_of left right }
{
    match (left, right) {
        (Kind::Property, Kind::Property)
        | (Kind::Action, Kind::Action)
        | (Kind::Event, Kind::Event) => true,
        _ => false,
    }
}

/// The affordance may emit.
pub fn is_emitter(spot: &Spot<'_>) -> bool
    ensures { result ≡ is_emitter_of spot.now }
{
    match spot.affordance().kind {
        Kind::Event => true,
        Kind::Property => spot.affordance().observable,
        Kind::Action => false,
    }
}
