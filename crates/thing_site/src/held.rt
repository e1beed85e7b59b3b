//! A Thing as it is kept: its description, its affordances and their slots.

use crate::Spot;
use crate::site::{compare, spot_at, spot_count};
use std::cmp::Ordering;
use std::marker::Model;
use thing_handler::Slot;
use wot_json::{Text, Tree};
use wot_terms::{Affordance, Description, Kind};

/// A Thing with the slots of its handlers, one for each affordance, in the order of the affordances: in a list of their
/// own, because `Description` hands out a slice alone. The description is a copy for the same reason. Contracts see its
/// segment, its description, and its affordances with their slots.
#[derive(Drop)]
pub struct HeldThing {
    /// The segment with which its paths begin.
    pub(crate) segment: Text,
    tree: Tree,
    affordances: Description,
    slots: Vec<Slot>,
}

impl Model for HeldThing {
    ghost use Rattle.std.specs.Prelude.{◌≡◌, true};
    ghost use Rattle.wot_json.specs.Meaning.{json_of};
    ghost use Rattle.thing_site.specs.Order.{are_rising};
    ghost use Rattle.thing_site.specs.Site.{ExposedThing};
    ghost use Rattle.thing_site.specs.SiteCodes.{thing_code};
    ghost use Rattle.thing_site.specs.Exposing.{placed_all};

    ghost Value = { ExposedThing };

    ghost coded = { thing_code };

    ghost view = { λ h. record { segment = h.segment; description = json_of h.tree; affordances = placed_all h.affordances h.slots.items } };

    ghost invariant = { λ h. are_rising h.affordances ≡ true };
}

impl HeldThing {
    ghost use Rattle.std.specs.Prelude.{◌≡◌, length, slice_get, true};
    ghost use Rattle.std.specs.Cmp.Lexicographic.{slice_cmp};
    ghost use Rattle.std.specs.Ordering.{nat_cmp};
    ghost use Rattle.wot_json.specs.Meaning.{json_of};
    ghost use Rattle.thing_site.specs.Order.{key, key_of, are_rising};
    ghost use Rattle.thing_site.specs.Site.{affordance_named};
    ghost use Rattle.thing_site.specs.Exposing.{placed_all};

    /// A Thing with the slots of its affordances, in their order.
    pub(crate) fn of(segment: Text, tree: Tree, affordances: Description, slots: Vec<Slot>) -> Self
        requires { are_rising affordances ≡ true }
        ensures { result ≡ record { segment = segment; description = json_of tree; affordances = placed_all affordances slots.items } }
    {
        HeldThing {
            segment,
            tree,
            affordances,
            slots,
        }
    }

    /// Its description.
    pub fn description(&self) -> &Tree
        ensures { json_of result.now ≡ self.now.description }
    {
        &self.tree
    }

    /// The number of its affordances.
    pub fn len(&self) -> usize
        ensures { result ≡ length self.now.affordances }
    {
        spot_count(self.affordances.affordances(), self.slots.as_slice())
    }

    /// Its affordance with this number.
    pub fn spot(&self, index: usize) -> Option<Spot<'_>>
        ensures { result ≡ slice_get self.now.affordances index }
    {
        spot_at(self.affordances.affordances(), self.slots.as_slice(), index)
    }

    /// The affordance of this kind and name, found by binary search.
    pub fn affordance(&self, kind: Kind, name: &[u8]) -> Option<Spot<'_>>
        ensures { result ≡ affordance_named kind name.now self.now.affordances }
    {
        let affordances = self.affordances.affordances();
        let order = |affordance: &Affordance| -> Ordering
            ensures { result ≡ slice_cmp nat_cmp (key_of affordance.now) (key kind name.entry.now) }
        { compare(affordance, kind, name) };
        match affordances.binary_search_by(order) {
            Ok(index) => spot_at(affordances, self.slots.as_slice(), index),
            Err(_) => None,
        }
    }
}

/// A Thing that is lent. Contracts see the Thing, so that what is found there is the same in code and in definitions.
#[derive(Drop)]
pub struct LentThing<'a> {
    thing: &'a HeldThing,
}

impl<'a> Model for LentThing<'a> {
    ghost use Rattle.thing_site.specs.Site.{ExposedThing};
    ghost use Rattle.thing_site.specs.SiteCodes.{thing_code};

    ghost Value = { ExposedThing };

    ghost coded = { thing_code };

    ghost view = { λ t. t.thing.now };
}

impl<'a> LentThing<'a> {
    ghost use Rattle.std.specs.Prelude.{◌≡◌};

    /// A Thing, lent.
    pub fn of(thing: &'a HeldThing) -> LentThing<'a>
        ensures { result ≡ thing.now }
    {
        LentThing { thing }
    }

    /// The Thing.
    pub fn thing(&self) -> &'a HeldThing
        ensures { result.now ≡ self.now }
    {
        self.thing
    }
}
