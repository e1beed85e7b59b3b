//! The values of bindings, found by binary search.

ghost use Rattle.std.specs.Cmp.Lexicographic.{slice_cmp};
ghost use Rattle.std.specs.Ordering.{nat_cmp};
ghost use Rattle.std.specs.Prelude.{◌≡◌, IfOk, option_map, string_bytes};
ghost use Rattle.wot_json.specs.Meaning.{json_of};
ghost use Rattle.tm_parts.specs.Kept.{kept_values};
ghost use Rattle.tm_parts.specs.Substitution.{bound_value};
ghost use Rattle.tm_parts.specs.Views.{BindAlike};

use crate::bindings::Bindings;
use servient_base::NoMemory;
use std::alloc::Global;
use std::cmp::Ordering;
use std::collections::BTreeMap;
use std::marker::Model;
use wot_json::Tree;

/// The values of bindings by the names that they are bound to, each name once. Contracts see the list of names and
/// values, in the byte order of the names.
#[derive(Drop)]
pub struct Values<'a> {
    list: Vec<(String, &'a Tree)>,
}

impl<'a> Model for Values<'a> {
    ghost use Rattle.std.specs.Prelude.{List, ℕ};
    ghost use Rattle.wot_json.specs.JsonCodes.{members_code};
    ghost use Rattle.wot_json.specs.Tree.{Json};

    ghost Value = { List (List ℕ × Json) };

    ghost coded = { members_code };

    ghost use Rattle.std.specs.List.Sorted.{IsStrictlySortedBy};
    ghost use Rattle.std.specs.Cmp.Lexicographic.{slice_cmp};
    ghost use Rattle.std.specs.Ordering.{nat_cmp};
    ghost use Rattle.tm_parts.specs.Kept.{kept_values, kept_names};

    ghost view = { λ v. kept_values v.list.items };

    ghost invariant = { λ v. IsStrictlySortedBy (slice_cmp nat_cmp) (kept_names v.list.items) };
}

impl<'a> Values<'a> {
    /// The values of bindings; of two with one name the first counts. Its time is in proportion to the number of
    /// bindings, times its logarithm.
    pub fn new(alloc: Global, bindings: &'a Bindings) -> Result<Self, NoMemory>
        ensures { IfOk result (λ values. BindAlike values bindings.now) }
    {
        // A vector, because the check of borrows doesn't let a `BTreeMap` of references be lent for
        // less time than they live.
        let map = bound_map(alloc, bindings)?;
        let mut list = Vec::with_capacity(alloc, map.len())?;
        for entry in map {
            list.push(entry)?;
        }
        Ok(Values { list })
    }

    /// The value that is bound to a name.
    pub fn get(&self, name: &str) -> Option<&'a Tree>
        ensures { option_map (λ t. json_of t.now) result ≡ bound_value name.now self.now }
    {
        let order = |bound: &(String, &Tree)| -> Ordering
            ensures { result ≡ slice_cmp nat_cmp (string_bytes bound.now.0) name.entry.now }
        { bound.0.as_str().cmp(name) };
        match self.list.binary_search_by(order) {
            Ok(place) => Some(self.list[place].1),
            Err(_) => None,
        }
    }
}

/// The values of bindings by their names: the first of two with one name, since it is put in last.
#[tactic(auto, using(crate::proofs::Bound::bound_first, crate::proofs::Bound::bound_more, crate::proofs::Bound::bound_all))]
fn bound_map<'a>(
    alloc: Global,
    bindings: &'a Bindings,
) -> Result<BTreeMap<String, &'a Tree>, NoMemory>
    ensures { IfOk result (λ map. BindAlike (kept_values map.entries) bindings.now) }
{
    let mut map = BTreeMap::new(alloc);
    for (name, value) in bindings.as_slice().iter().rev() {
        let name = String::from_str(alloc, name.as_str())?;
        map.insert(name, value)?;
    }
    Ok(map)
}
