//! The directory: descriptions put, created, changed, removed and listed.

ghost use Rattle.std.specs.Prelude.{◌≡◌, ◌≤◌, ◌++◌, ◌∷◌, [], Some, None, is_none, option_map, take, drop, MatchOption, IfOk, IfErr, OnOk, OnErr};
ghost use Rattle.wot_json.specs.Meaning.{json_of, json_members};
ghost use Rattle.wot_json.specs.Lookup.{member_named};
ghost use Rattle.wot_json.specs.Tree.{AreOrdered};
ghost use Rattle.wot_terms.specs.Faults.{IsValid};
ghost use Rattle.wot_directory.specs.Directory.{empty_directory, HasRoom, with_entry, IsInvalid, HasPutFault, MayPut, Puts};
ghost use Rattle.wot_directory.specs.Directory.{HasCreateFault, MayCreate, Creates, IsNextNumber, IsLeastUnused, AreAllUsed};
ghost use Rattle.wot_directory.specs.Directory.{HoldsUnder, HasMergeFault, IsPatched, HasPatchFault, Patches, HasRemoveFault, Removes, listed, list_text};
ghost use Rattle.wot_directory.specs.Directory.{MayReplace, IsReplacement, HasReplaceFault, HasReplacementFault, counted_on};
ghost use Rattle.wot_directory.specs.Kept.{kept_entries};

use crate::fault::DirFault;
use crate::ids::{has_id, have_same_id, is_named, local_id, number_after};
use servient_base::NoMemory;
use std::alloc::{AllocError, Global};
use std::collections::BTreeMap;
use std::marker::Model;
use wot_json::{Bytes, Items, Text, Tree, copy, merge_patch, text_of};
use wot_terms::{CheckFault, check};

/// The most descriptions that a directory may hold.
const MOST_ENTRIES: usize = 4096;

/// Descriptions by their ids, at most 4,096. Contracts see the list of ids and descriptions, in the byte order of
/// the ids, and the number from which the next id is sought. A call costs the logarithm of the number of descriptions
/// and the size of its own; `create` also passes over the numbers that are used.
#[derive(Drop)]
pub struct Directory {
    alloc: Global,
    entries: BTreeMap<String, Tree>,
    next: u64,
}

impl Model for Directory {
    ghost use Rattle.std.specs.Prelude.{◌≤◌, length};
    ghost use Rattle.wot_directory.specs.Contents.{Contents, contents_code, most_entries};

    ghost Value = { Contents };

    ghost coded = { contents_code };

    ghost use Rattle.wot_json.specs.Tree.{AreOrdered};
    ghost use Rattle.wot_directory.specs.Kept.{kept_entries, contents_of};

    ghost view = { λ d. contents_of d.entries.entries d.next };

    ghost invariant = { λ d. AreOrdered (kept_entries d.entries.entries) × (length d.entries.entries ≤ most_entries) };
}

impl Directory {
    /// A directory without descriptions, whose first number is 1.
    pub fn new(alloc: Global) -> Self
        ensures { result ≡ empty_directory }
    {
        Directory {
            alloc,
            entries: BTreeMap::new(alloc),
            next: 1,
        }
    }

    /// The description under an id.
    pub fn get(&self, id: &str) -> Option<&Tree>
        ensures { option_map (λ t. json_of t.now) result ≡ member_named id.now self.now.entries }
    {
        self.entries.get(id)
    }

    /// Puts a description under the id that it has, and says whether that is a new one. Where that isn't done the
    /// description is given up.
    pub fn put(&mut self, id: &str, tree: Tree) -> Result<bool, DirFault>
        ensures ok { IfOk result (λ is_new. Puts id.now (json_of tree) self.old is_new self.new) }
        ensures unchanged { OnErr result (self.new ≡ self.old) }
        ensures fault { IfErr result (λ e. HasPutFault e id.now (json_of tree) self.old) }
    {
        let is_new = self.may_put(id, &tree)?;
        self.keep(id, tree)?;
        Ok(is_new)
    }

    /// Puts a description that has no id under the next `local:N`, and gives that id. The description stays as it was
    /// handed in. Where that isn't done it is given up.
    pub fn create(&mut self, tree: Tree) -> Result<Text, DirFault>
        ensures ok { IfOk result (λ id. Creates (json_of tree) self.old id self.new) }
        ensures unchanged { OnErr result (self.new ≡ self.old) }
        ensures fault { IfErr result (λ e. HasCreateFault e (json_of tree) self.old) }
    {
        self.may_create(&tree)?;
        let number = self.next_number()?;
        let id = local_id(self.alloc, number)?;
        self.keep(id.as_str(), tree)?;
        self.next = number_after(number);
        Ok(id)
    }

    /// Changes the description under an id by a merge patch (RFC 7396), which leaves its `id`.
    pub fn patch(&mut self, id: &str, patch: &Tree) -> Result<(), DirFault>
        ensures ok { OnOk result (Patches id.now (json_of patch.now) self.old self.new) }
        ensures unchanged { OnErr result (self.new ≡ self.old) }
        ensures fault { IfErr result (λ e. HasPatchFault e id.now (json_of patch.now) self.old) }
    {
        let merged = self.merged(id, patch)?;
        self.keep(id, merged)?;
        Ok(())
    }

    /// Removes the description under an id.
    pub fn remove(&mut self, id: &str) -> Result<(), DirFault>
        ensures ok { OnOk result (Removes id.now self.old self.new) }
        ensures unchanged { OnErr result (self.new ≡ self.old) }
        ensures fault { IfErr result (λ e. HasRemoveFault e id.now self.old) }
    {
        if self.entries.remove(id).is_none() {
            return Err(DirFault::NotFound);
        }
        Ok(())
    }

    /// The text of the list of the descriptions in the byte order of their ids, after the first `offset` are left out,
    /// at most `limit` of them. It goes over those that are left out, because the map has no place to begin at, and
    /// copies those that it lists, so it takes up to twice their memory.
    pub fn list(&self, offset: u32, limit: u32) -> Result<Bytes, NoMemory>
        requires { 1 ≤ limit }
        ensures ok { IfOk result (λ b. b ≡ list_text offset limit self.now.entries) }
        ensures ordered { AreOrdered self.now.entries }
    {
        let trees = listed_trees(self.alloc, &self.entries, offset, limit)?;
        text_of(self.alloc, &Tree::List(trees))
    }

    /// Judges whether a description may be put under an id, and whether that would be a new one.
    pub fn may_put(&self, id: &str, tree: &Tree) -> Result<bool, DirFault>
        ensures ok { IfOk result (λ is_new. MayPut id.now (json_of tree.now) self.now
            × (is_new ≡ is_none (member_named id.now self.now.entries))) }
        ensures fault { IfErr result (λ e. HasPutFault e id.now (json_of tree.now) self.now) }
    {
        judge(self.alloc, tree)?;
        if !has_id(tree, id) {
            return Err(DirFault::IdDiffers);
        }
        if self.entries.contains_key(id) {
            return Ok(false);
        }
        if self.entries.len() >= MOST_ENTRIES {
            return Err(DirFault::Full);
        }
        Ok(true)
    }

    /// Judges whether a description may be created.
    pub fn may_create(&self, tree: &Tree) -> Result<(), DirFault>
        ensures ok { OnOk result (MayCreate (json_of tree.now) self.now) }
        ensures fault { IfErr result (λ e. HasCreateFault e (json_of tree.now) self.now) }
    {
        if is_named(tree) {
            return Err(DirFault::HasId);
        }
        judge(self.alloc, tree)?;
        if self.entries.len() >= MOST_ENTRIES {
            return Err(DirFault::Full);
        }
        Ok(())
    }

    /// The number of the next id.
    pub fn next_number(&self) -> Result<u64, NoMemory>
        ensures { IfOk result (λ number. IsNextNumber self.now number) }
    {
        match first_unused(self.alloc, &self.entries, self.next)? {
            Some(number) => Ok(number),
            None => match first_unused(self.alloc, &self.entries, 1)? {
                Some(number) => Ok(number),
                None => unreachable!(),
            },
        }
    }

    /// The description under an id with a patch applied.
    fn merged(&self, id: &str, patch: &Tree) -> Result<Tree, DirFault>
        ensures ok { IfOk result (λ t. HoldsUnder id.now self.now (λ kept. IsPatched kept (json_of patch.now) (json_of t))) }
        ensures fault { IfErr result (λ e. HasPatchFault e id.now (json_of patch.now) self.now) }
    {
        // A match and not `?`, since the proof of the fault cites that there is none.
        match self.entries.get(id) {
            Some(kept) => patched(self.alloc, kept, patch),
            None => Err(DirFault::NotFound),
        }
    }

    /// Judges whether a description may take the place of that under an id, as a patched one is judged.
    pub fn may_replace(&self, id: &str, tree: &Tree) -> Result<(), DirFault>
        ensures ok { OnOk result (MayReplace id.now (json_of tree.now) self.now) }
        ensures fault { IfErr result (λ e. HasReplaceFault e id.now (json_of tree.now) self.now) }
    {
        match self.entries.get(id) {
            Some(kept) => judge_replacement(self.alloc, kept, tree),
            None => Err(DirFault::NotFound),
        }
    }

    /// Puts a description, of which no more is judged, under an id for which there is room. Where one is there already
    /// that takes no memory.
    pub fn keep_under(&mut self, id: Text, tree: Tree) -> Result<(), NoMemory>
        requires { HasRoom id self.old.entries }
        ensures ok { OnOk result (self.new ≡ with_entry id (json_of tree) self.old) }
        ensures unchanged { OnErr result (self.new ≡ self.old) }
        ensures absent { OnErr result (member_named id self.old.entries ≡ None) }
    {
        let key = id.into_string();
        // A match and not `?`, since the error of the map has the entry too.
        match self.entries.insert(key, tree) {
            Ok(_) => Ok(()),
            Err(_) => Err(AllocError),
        }
    }

    /// Lets the search for the next id begin after this number.
    pub fn count_on(&mut self, number: u64)
        ensures { self.new ≡ counted_on number self.old }
    {
        self.next = number_after(number);
    }

    /// Copies of the ids and the descriptions in the byte order of the ids, after the first `offset`, at most `limit`.
    pub fn copies(&self, offset: u32, limit: u32) -> Result<Vec<(Text, Tree)>, NoMemory>
        ensures { IfOk result (λ copies. json_members copies.items ≡ take limit (drop offset self.now.entries)) }
    {
        copied_entries(self.alloc, &self.entries, offset, limit)
    }

    /// Puts a description under an id for which there is room.
    fn keep(&mut self, id: &str, tree: Tree) -> Result<(), NoMemory>
        requires { HasRoom id.now self.old.entries }
        ensures ok { OnOk result (self.new ≡ with_entry id.now (json_of tree) self.old) }
        ensures unchanged { OnErr result (self.new ≡ self.old) }
    {
        let key = Text::copy_of(self.alloc, id)?;
        self.keep_under(key, tree)
    }
}

/// Judges whether a tree is a valid description.
fn judge(alloc: Global, tree: &Tree) -> Result<(), DirFault>
    ensures ok { OnOk result (IsValid (json_of tree.now)) }
    ensures fault { IfErr result (λ e. IsInvalid e (json_of tree.now)) }
{
    match check(alloc, tree) {
        Ok(()) => Ok(()),
        Err(CheckFault::Td(fault)) => Err(DirFault::Invalid(fault)),
        Err(CheckFault::NoMemory) => Err(DirFault::NoMemory),
    }
}

/// Judges whether a description may take the place of another.
fn judge_replacement(alloc: Global, kept: &Tree, tree: &Tree) -> Result<(), DirFault>
    ensures ok { OnOk result (IsReplacement (json_of kept.now) (json_of tree.now)) }
    ensures fault { IfErr result (λ e. HasReplacementFault e (json_of kept.now) (json_of tree.now)) }
{
    judge(alloc, tree)?;
    if !have_same_id(tree, kept) {
        return Err(DirFault::IdDiffers);
    }
    Ok(())
}

/// A description with a patch applied.
fn patched(alloc: Global, kept: &Tree, patch: &Tree) -> Result<Tree, DirFault>
    ensures ok { IfOk result (λ t. IsPatched (json_of kept.now) (json_of patch.now) (json_of t)) }
    ensures fault { IfErr result (λ e. HasMergeFault e (json_of kept.now) (json_of patch.now)) }
{
    let merged = merge_patch(alloc, kept, patch)?;
    judge(alloc, &merged)?;
    if !have_same_id(&merged, kept) {
        return Err(DirFault::IdDiffers);
    }
    Ok(merged)
}

/// The least number from a first one on whose id is not used, if there is one.
fn first_unused(
    alloc: Global,
    entries: &BTreeMap<String, Tree>,
    first: u64,
) -> Result<Option<u64>, NoMemory>
    ensures { IfOk result (λ found. MatchOption found (AreAllUsed first (kept_entries entries.now.entries))
        (λ number. IsLeastUnused first (kept_entries entries.now.entries) number)) }
{
    for number in first..=u64::MAX {
        let id = local_id(alloc, number)?;
        if !entries.contains_key(id.as_str()) {
            return Ok(Some(number));
        }
    }
    Ok(None)
}

/// Copies of the descriptions in their order, after the first `offset`, at most `limit`.
fn listed_trees(
    alloc: Global,
    entries: &BTreeMap<String, Tree>,
    offset: u32,
    limit: u32,
) -> Result<Items, NoMemory>
    ensures { IfOk result (λ trees. trees ≡ listed offset limit (kept_entries entries.now.entries)) }
{
    let mut trees = Items::new(alloc);
    let mut skip = offset;
    let mut left = limit;
    // A loop and not `skip` and `take`, since each copy may be out of memory.
    for (_, tree) in entries.iter() {
        if skip > 0 {
            skip -= 1;
        } else if left > 0 {
            let copied = copy(alloc, tree)?;
            trees.push(copied)?;
            left -= 1;
        } else {
            return Ok(trees);
        }
    }
    Ok(trees)
}

/// Copies of the ids and the descriptions in their order, after the first `offset`, at most `limit`.
fn copied_entries(
    alloc: Global,
    entries: &BTreeMap<String, Tree>,
    offset: u32,
    limit: u32,
) -> Result<Vec<(Text, Tree)>, NoMemory>
    ensures { IfOk result (λ copies. json_members copies.items ≡ take limit (drop offset (kept_entries entries.now.entries))) }
{
    let mut copies = Vec::new(alloc);
    let mut skip = offset;
    let mut left = limit;
    for (id, tree) in entries.iter() {
        if skip > 0 {
            skip -= 1;
        } else if left > 0 {
            push_copy(alloc, id.as_str(), tree, &mut copies)?;
            left -= 1;
        } else {
            return Ok(copies);
        }
    }
    Ok(copies)
}

/// Puts copies of an id and its description at the end.
fn push_copy(
    alloc: Global,
    id: &str,
    tree: &Tree,
    into: &mut Vec<(Text, Tree)>,
) -> Result<(), NoMemory>
    ensures { OnOk result (json_members into.new.items ≡ json_members into.old.items ++ (id.now, json_of tree.now) ∷ []) }
{
    let id = Text::copy_of(alloc, id)?;
    let copied = copy(alloc, tree)?;
    into.push((id, copied))?;
    Ok(())
}
