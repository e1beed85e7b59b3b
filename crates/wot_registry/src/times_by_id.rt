//! The times of all entries by their ids, and the order in which entries expire.

use crate::times::Times;
use servient_base::NoMemory;
use std::alloc::{AllocError, Global};
use std::collections::{BTreeMap, BTreeSet};
use std::marker::Model;
use wot_json::Text;

/// The times of all entries. Contracts see the list of ids and times, in the byte order of the ids. The entry that
/// expires first is found at once, and each call costs the logarithm of the number of entries.
#[derive(Drop)]
pub(crate) struct TimesById {
    alloc: Global,
    by_id: BTreeMap<String, Times>,
    /// The moment of expiry of each entry that has a time to live, with its id, since two may expire in one
    /// millisecond.
    order: BTreeSet<(u64, String)>,
}

impl Model for TimesById {
    ghost use Rattle.std.specs.Prelude.{List, ℕ};
    ghost use Rattle.wot_registry.specs.Times.{Times, times_by_id_code};

    ghost Value = { List (List ℕ × Times) };

    ghost coded = { times_by_id_code };

    ghost use Rattle.wot_registry.specs.Kept.{kept_times, AreKept};

    ghost view = { λ t. kept_times t.by_id.entries };

    ghost invariant = { λ t. AreKept t.by_id t.order };
}

ghost use Rattle.std.specs.Prelude.{◌≡◌, ◌<◌, ℕ, List, [], true, false, length, Some, None, option_map, string_bytes, ⊤, IfSome, MatchOption, OnOk, OnErr};
ghost use Rattle.wot_registry.specs.Times.{times_of, with_times, without_times, is_standing, expiry};
ghost use Rattle.wot_registry.specs.Kept.{IsFirstDue, Placed, placed_cmp, with_placed, without_placed};
ghost use Rattle.std.specs.BTreeSet.{contains};

impl TimesById {
    /// No entries.
    pub(crate) fn new(alloc: Global) -> Self
        ensures { result ≡ [] }
    {
        TimesById {
            alloc,
            by_id: BTreeMap::new(alloc),
            order: BTreeSet::new(alloc),
        }
    }

    /// The times of the entry of an id.
    pub(crate) fn get(&self, id: &str) -> Option<&Times>
        ensures { option_map (λ t. t.now) result ≡ times_of id.now self.now }
    {
        self.by_id.get(id)
    }

    /// Gives the entry of an id these times. Where there is no memory for that all stays as it was.
    pub(crate) fn set(&mut self, id: &str, times: Times) -> Result<(), NoMemory>
        ensures ok { OnOk result (self.new ≡ with_times id.now times self.old) }
        ensures unchanged { OnErr result (self.new ≡ self.old) }
    {
        // The copies are taken first, so that all stays as it was where one finds no memory.
        let key = String::from_str(self.alloc, id)?;
        let placed = String::from_str(self.alloc, id)?;
        let replaced = String::from_str(self.alloc, id)?;
        match self.by_id.get(id) {
            Some(was) => {
                let before = was.expiry();
                self.change(key, times, before, (placed, replaced))
            }
            None => self.add(key, times, placed),
        }
    }

    /// Takes the times of an entry away.
    pub(crate) fn remove(&mut self, id: &str)
        ensures { self.new ≡ without_times id.now self.old }
    {
        match self.by_id.remove_entry(id) {
            Some((key, times)) => unplace(&mut self.order, times.expiry(), key),
            None => {}
        }
    }

    /// Takes the times of the entry away that expires first, if it is over at the moment `now`, and gives its id.
    pub(crate) fn take_expired(&mut self, now: u64) -> Option<Text>
        ensures over { IfSome result (λ id. is_standing now self.old id ≡ false) }
        ensures taken { IfSome result (λ id. self.new ≡ without_times id self.old) }
        ensures fewer { IfSome result (λ _. length self.new < length self.old) }
        ensures none { MatchOption result ((self.new ≡ self.old) × ((id : List ℕ) → is_standing now self.old id ≡ true)) (λ _. ⊤) }
    {
        if !is_first_due(&self.order, now) {
            return None;
        }
        match self.order.pop_first() {
            Some((_, id)) => {
                let _there = self.by_id.remove(id.as_str());
                Some(Text::from_string(id))
            }
            None => None,
        }
    }
}

impl TimesById {
    /// Gives an entry that has none its times.
    fn add(&mut self, key: String, times: Times, placed: String) -> Result<(), NoMemory>
        requires same { string_bytes placed ≡ string_bytes key }
        requires absent { times_of (string_bytes key) self.old ≡ None }
        ensures ok { OnOk result (self.new ≡ with_times (string_bytes key) times self.old) }
        ensures unchanged { OnErr result (self.new ≡ self.old) }
    {
        let expiry = times.expiry();
        place(&mut self.order, expiry, placed)?;
        match self.by_id.insert(key, times) {
            Ok(_) => Ok(()),
            Err(failed) => {
                let (key, _) = failed.value;
                unplace(&mut self.order, expiry, key);
                Err(AllocError)
            }
        }
    }

    /// Gives an entry other times than it has.
    fn change(
        &mut self,
        key: String,
        times: Times,
        before: Option<u64>,
        copies: (String, String),
    ) -> Result<(), NoMemory>
        requires same { (string_bytes copies.0 ≡ string_bytes key) × (string_bytes copies.1 ≡ string_bytes key) }
        requires there { option_map expiry (times_of (string_bytes key) self.old) ≡ Some before }
        ensures ok { OnOk result (self.new ≡ with_times (string_bytes key) times self.old) }
        ensures unchanged { OnErr result (self.new ≡ self.old) }
    {
        if times.expiry() == before {
            self.write(key, times);
            return Ok(());
        }
        let (placed, replaced) = copies;
        place(&mut self.order, times.expiry(), placed)?;
        unplace(&mut self.order, before, replaced);
        match self.by_id.insert(key, times) {
            Ok(_) => Ok(()),
            Err(_) => unreachable!(),
        }
    }

    /// Gives an entry other times, with which it expires as before.
    fn write(&mut self, key: String, times: Times)
        requires { option_map expiry (times_of (string_bytes key) self.old) ≡ Some (expiry times) }
        ensures { self.new ≡ with_times (string_bytes key) times self.old }
    {
        match self.by_id.insert(key, times) {
            Ok(_) => {}
            Err(_) => unreachable!(),
        }
    }
}

/// Puts an id at a moment into the order, if there is one.
fn place(
    order: &mut BTreeSet<(u64, String)>,
    moment: Option<u64>,
    id: String,
) -> Result<(), NoMemory>
    ensures ok { OnOk result ((q : Placed) → contains placed_cmp order.new q
        ≡ with_placed moment id q (contains placed_cmp order.old q)) }
    ensures unchanged { OnErr result (order.new.keys ≡ order.old.keys) }
{
    match moment {
        Some(moment) => match order.insert((moment, id)) {
            Ok(_) => Ok(()),
            Err(_) => Err(AllocError),
        },
        None => Ok(()),
    }
}

/// Takes an id at a moment out of the order, if there is one.
fn unplace(order: &mut BTreeSet<(u64, String)>, moment: Option<u64>, id: String)
    ensures { (q : Placed) → contains placed_cmp order.new q
        ≡ without_placed moment id q (contains placed_cmp order.old q) }
{
    if let Some(moment) = moment {
        let _there = order.remove(&(moment, id));
    }
}

/// The first in the order is due.
fn is_first_due(order: &BTreeSet<(u64, String)>, now: u64) -> bool
    ensures { IsFirstDue now order.now result }
{
    match order.first() {
        Some((moment, _)) => *moment <= now,
        None => false,
    }
}
