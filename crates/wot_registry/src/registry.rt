//! A directory whose entries have times: they say when they were created and last changed, and those with a time to
//! live are gone once it has passed.

ghost use Rattle.std.specs.Prelude.{◌≡◌, ◌≤◌, ℕ, option_map, map, IfOk, IfErr, OnOk, OnErr};
ghost use Rattle.wot_json.specs.Meaning.{json_of};
ghost use Rattle.wot_json.specs.Tree.{AreOrdered};
ghost use Rattle.wot_json.specs.Lookup.{member_named};
ghost use Rattle.wot_directory.specs.Directory.{HasRoom, with_entry};
ghost use Rattle.wot_registry.specs.Dates.{last_millisecond};
ghost use Rattle.wot_registry.specs.Times.{last_moment, times_of, standing_entries};
ghost use Rattle.wot_registry.specs.Registration.{shown};
ghost use Rattle.wot_registry.specs.Registry.{IsRegistry, empty_registry, standing, standing_contents, changed_to, PutsAt, IsPutFault, CreatesAt, IsCreateFault};
ghost use Rattle.wot_registry.specs.Registry.{HoldsPatched, PatchesAt, IsPatchFault, own_ttl, RemovesAt, IsRemoveFault, shown_under, shown_list};

use crate::fault::RegFault;
use crate::registration::{asked_ttl, patched_from, show, without_registration};
use crate::times::Times;
use crate::times_by_id::TimesById;
use servient_base::NoMemory;
use std::alloc::{AllocError, Global};
use std::marker::Model;
use wot_directory::{DirFault, Directory, local_id};
use wot_json::{Bytes, Items, Text, Tree, merge_patch, text_of};

/// Descriptions by their ids, at most 4,096, and the times of each. Contracts see the list of ids and descriptions in
/// the byte order of the ids, that of their times, and the moment at which the clock began. Moments are milliseconds of
/// that clock, at most 10^15, and should not fall, since an entry that is over at the moment of a call is gone from
/// then on. Taking that away needs no memory, costs the logarithm of the number of entries for each that goes, and
/// holds also where the call is refused.
#[derive(Drop)]
pub struct Registry {
    alloc: Global,
    directory: Directory,
    times: TimesById,
    epoch: u64,
}

impl Model for Registry {
    ghost use Rattle.wot_registry.specs.Registry.{Registered, registered_code};

    ghost Value = { Registered };

    ghost coded = { registered_code };

    ghost use Rattle.wot_registry.specs.Registry.{IsRegistry};

    ghost view = { λ r. record { contents = r.directory; times = r.times; epoch = r.epoch } };

    ghost invariant = { λ r. IsRegistry (record { contents = r.directory; times = r.times; epoch = r.epoch }) };
}

impl Registry {
    /// A directory without entries, whose clock began `epoch` milliseconds after the start of 1970, before the year
    /// 10000.
    pub fn new(alloc: Global, epoch: u64) -> Self
        requires { epoch ≤ last_millisecond }
        ensures { result ≡ empty_registry epoch }
    {
        Registry {
            alloc,
            directory: Directory::new(alloc),
            times: TimesById::new(alloc),
            epoch,
        }
    }

    /// Takes away what is over at the moment `now`, and does no more. The other calls do this first.
    pub fn remove_expired(&mut self, now: u64)
        ensures { self.new ≡ standing now self.old }
    {
        take_away_over(&mut self.directory, &mut self.times, now);
    }

    /// Puts a description under the id that it has, and says whether that is a new one. Where that isn't done the
    /// description is given up, and all stays as it was but for what is over.
    pub fn put(&mut self, id: &str, tree: Tree, now: u64) -> Result<bool, RegFault>
        requires { now ≤ last_moment }
        ensures ok { IfOk result (λ is_new. PutsAt id.now (json_of tree) now (standing now self.old) is_new self.new) }
        ensures unchanged { OnErr result (self.new ≡ standing now self.old) }
        ensures fault { IfErr result (λ e. IsPutFault e id.now (json_of tree) (standing now self.old)) }
    {
        self.remove_expired(now);
        self.put_now(id, tree, now)
    }

    /// Puts a description that has no id under the next `local:N`, and gives that id. Where that isn't done the
    /// description is given up, and all stays as it was but for what is over.
    pub fn create(&mut self, tree: Tree, now: u64) -> Result<Text, RegFault>
        requires { now ≤ last_moment }
        ensures ok { IfOk result (λ id. CreatesAt (json_of tree) now (standing now self.old) id self.new) }
        ensures unchanged { OnErr result (self.new ≡ standing now self.old) }
        ensures fault { IfErr result (λ e. IsCreateFault e (json_of tree) (standing now self.old)) }
    {
        self.remove_expired(now);
        self.create_now(tree, now)
    }

    /// Changes the description under an id by a merge patch (RFC 7396), which sees its time to live and leaves its
    /// `id`. Where that isn't done all stays as it was but for what is over.
    pub fn patch(&mut self, id: &str, patch: &Tree, now: u64) -> Result<(), RegFault>
        requires { now ≤ last_moment }
        ensures ok { OnOk result (PatchesAt id.now (json_of patch.now) now (standing now self.old) self.new) }
        ensures unchanged { OnErr result (self.new ≡ standing now self.old) }
        ensures fault { IfErr result (λ e. IsPatchFault e id.now (json_of patch.now) (standing now self.old)) }
    {
        self.remove_expired(now);
        self.patch_now(id, patch, now)
    }

    /// Removes the description under an id. Where there is none all stays as it was but for what is over.
    pub fn remove(&mut self, id: &str, now: u64) -> Result<(), RegFault>
        ensures ok { OnOk result (RemovesAt id.now (standing now self.old) self.new) }
        ensures unchanged { OnErr result (self.new ≡ standing now self.old) }
        ensures fault { IfErr result (λ e. IsRemoveFault e id.now (standing now self.old)) }
    {
        self.remove_expired(now);
        self.remove_now(id)
    }

    /// The description under an id, with its registration information.
    pub fn get(&mut self, id: &str, now: u64) -> Result<Option<Tree>, NoMemory>
        ensures ok { IfOk result (λ t. option_map json_of t ≡ shown_under id.now (standing now self.old)) }
        ensures left { self.new ≡ standing now self.old }
    {
        self.remove_expired(now);
        self.get_now(id)
    }

    /// The text of the list of the descriptions, each with its registration information, in the byte order of their
    /// ids, after the first `offset` are left out, at most `limit` of them.
    pub fn list(&mut self, offset: u32, limit: u32, now: u64) -> Result<Bytes, NoMemory>
        ensures ok { IfOk result (λ b. b ≡ shown_list offset limit (standing now self.old)) }
        ensures left { self.new ≡ standing now self.old }
        ensures ordered { AreOrdered self.new.contents.entries }
    {
        self.remove_expired(now);
        self.list_now(offset, limit)
    }
}

// The calls, once what is over was taken away.
impl Registry {
    fn put_now(&mut self, id: &str, tree: Tree, now: u64) -> Result<bool, RegFault>
        requires { now ≤ last_moment }
        ensures ok { IfOk result (λ is_new. PutsAt id.now (json_of tree) now self.old is_new self.new) }
        ensures unchanged { OnErr result (self.new ≡ self.old) }
        ensures fault { IfErr result (λ e. IsPutFault e id.now (json_of tree) self.old) }
    {
        let ttl = asked_ttl(&tree)?;
        let kept = without_registration(tree);
        let is_new = self.directory.may_put(id, &kept)?;
        self.keep(id, kept, ttl, now)?;
        Ok(is_new)
    }

    fn create_now(&mut self, tree: Tree, now: u64) -> Result<Text, RegFault>
        requires { now ≤ last_moment }
        ensures ok { IfOk result (λ id. CreatesAt (json_of tree) now self.old id self.new) }
        ensures unchanged { OnErr result (self.new ≡ self.old) }
        ensures fault { IfErr result (λ e. IsCreateFault e (json_of tree) self.old) }
    {
        let ttl = asked_ttl(&tree)?;
        let kept = without_registration(tree);
        self.directory.may_create(&kept)?;
        let number = self.directory.next_number()?;
        let id = local_id(self.alloc, number)?;
        self.keep(id.as_str(), kept, ttl, now)?;
        self.directory.count_on(number);
        Ok(id)
    }

    fn patch_now(&mut self, id: &str, patch: &Tree, now: u64) -> Result<(), RegFault>
        requires { now ≤ last_moment }
        ensures ok { OnOk result (PatchesAt id.now (json_of patch.now) now self.old self.new) }
        ensures unchanged { OnErr result (self.new ≡ self.old) }
        ensures fault { IfErr result (λ e. IsPatchFault e id.now (json_of patch.now) self.old) }
    {
        let description = self.patched(id, patch)?;
        let ttl = asked_ttl(&description)?;
        let kept = without_registration(description);
        self.directory.may_replace(id, &kept)?;
        self.keep(id, kept, ttl, now)?;
        Ok(())
    }

    fn remove_now(&mut self, id: &str) -> Result<(), RegFault>
        ensures ok { OnOk result (RemovesAt id.now self.old self.new) }
        ensures unchanged { OnErr result (self.new ≡ self.old) }
        ensures fault { IfErr result (λ e. IsRemoveFault e id.now self.old) }
    {
        self.directory.remove(id)?;
        self.times.remove(id);
        Ok(())
    }

    fn get_now(&self, id: &str) -> Result<Option<Tree>, NoMemory>
        ensures { IfOk result (λ t. option_map json_of t ≡ shown_under id.now self.now) }
    {
        match self.directory.get(id) {
            Some(tree) => {
                let shown = show(self.alloc, self.epoch, self.times.get(id), tree)?;
                Ok(Some(shown))
            }
            None => Ok(None),
        }
    }

    fn list_now(&self, offset: u32, limit: u32) -> Result<Bytes, NoMemory>
        ensures ok { IfOk result (λ b. b ≡ shown_list offset limit self.now) }
        ensures ordered { AreOrdered self.now.contents.entries }
    {
        let copies = self.directory.copies(offset, limit)?;
        let trees = shown_trees(self.alloc, self.epoch, &self.times, &copies)?;
        text_of(self.alloc, &Tree::List(trees))
    }

    /// Puts a description, of which no more is judged, under an id for which there is room, from now on and with this
    /// time to live.
    fn keep(&mut self, id: &str, tree: Tree, ttl: Option<u32>, now: u64) -> Result<(), NoMemory>
        requires room { HasRoom id.now self.old.contents.entries }
        requires bound { now ≤ last_moment }
        ensures ok { OnOk result (self.new ≡ changed_to (with_entry id.now (json_of tree) self.old.contents) id.now now ttl self.old) }
        ensures unchanged { OnErr result (self.new ≡ self.old) }
    {
        let key = Text::copy_of(self.alloc, id)?;
        let times = Times::changed(now, ttl, self.times.get(id));
        self.times.set(id, times)?;
        match self.directory.keep_under(key, tree) {
            Ok(()) => Ok(()),
            Err(_) => {
                self.times.remove(id);
                Err(AllocError)
            }
        }
    }

    /// The description under an id with a patch applied.
    fn patched(&self, id: &str, patch: &Tree) -> Result<Tree, RegFault>
        ensures ok { IfOk result (λ t. HoldsPatched id.now (json_of patch.now) self.now (λ description. json_of t ≡ description)) }
        ensures fault { IfErr result (λ e. IsPatchFault e id.now (json_of patch.now) self.now) }
    {
        match self.directory.get(id) {
            Some(kept) => {
                let before = patched_from(self.alloc, self.ttl_of(id), kept)?;
                let patched = merge_patch(self.alloc, &before, patch)?;
                Ok(patched)
            }
            None => Err(RegFault::Directory(DirFault::NotFound)),
        }
    }

    /// The time to live of the entry of an id.
    fn ttl_of(&self, id: &str) -> Option<u32>
        ensures { result ≡ own_ttl (times_of id.now self.now.times) }
    {
        self.times.get(id)?.ttl()
    }
}

/// Takes away what is over at the moment `now`.
fn take_away_over(directory: &mut Directory, times: &mut TimesById, now: u64)
    ensures contents { directory.new ≡ standing_contents now times.old directory.old }
    ensures times { times.new ≡ standing_entries now times.old times.old }
    ensures kept { (epoch : ℕ) → IsRegistry (record { contents = directory.old; times = times.old; epoch = epoch })
        → IsRegistry (record { contents = directory.new; times = times.new; epoch = epoch }) }
{
    while let Some(id) = times.take_expired(now) {
        let _removed = directory.remove(id.as_str());
    }
}

/// Descriptions with their registration information.
fn shown_trees(
    alloc: Global,
    epoch: u64,
    times: &TimesById,
    entries: &[(Text, Tree)],
) -> Result<Items, NoMemory>
    requires { epoch ≤ last_millisecond }
    ensures { IfOk result (λ trees. trees ≡ map (λ e. shown epoch (times_of e.0 times.now) (json_of e.1)) entries.now) }
{
    let mut trees = Items::new(alloc);
    for entry in entries.iter() {
        let shown = show(alloc, epoch, times.get(entry.0.as_str()), &entry.1)?;
        trees.push(shown)?;
    }
    Ok(trees)
}
