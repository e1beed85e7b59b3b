//! The list of devices: the handlers that stand for files (docs/DEVICES.md).

ghost use Rattle.std.specs.Prelude.{◌≡◌, ◌≤◌, [], ◌∷◌, ◌++◌, option_map, find, ◌==◌, OnOk};
ghost use Rattle.wot_json.specs.Meaning.{json_of, json_items};
ghost use Rattle.file_devices.specs.Entries as spec;

use crate::entry::{DeviceEntry, entry_in};
use servient_base::NoMemory;
use std::alloc::{AllocError, Global};
use std::marker::Model;
use thing_handler::SHIPPED_SLOTS;
use wot_json::{Text, Tree, through_element};

/// The cause for which a tree is no list of devices.
#[derive(Debug, Drop)]
pub enum EntriesFault {
    /// The pointer to the first that is wrong, by entries and then by the names of members: an entry that doesn't name
    /// just one device, or a member; the empty one where the tree is no list.
    At(Text),
    /// Out of memory.
    NoMemory,
}

impl From<AllocError> for EntriesFault {
    ghost use Rattle.std.specs.Prelude.{◌≡◌};
    ghost use Rattle.file_devices.specs.declared.entries.EntriesFault.TheVariants.{NoMemory};

    ghost from_gives = { λ _ fault. fault ≡ NoMemory };

    fn from(_error: AllocError) -> EntriesFault {
        EntriesFault::NoMemory
    }
}

/// Devices, in the order of their list. Contracts see the list of them.
#[derive(Debug, Drop)]
pub struct DeviceEntries {
    list: Vec<DeviceEntry>,
}

impl Model for DeviceEntries {
    ghost use Rattle.std.specs.Coded.{codes};
    ghost use Rattle.std.specs.Prelude.{List};
    ghost use Rattle.wot_json.specs.JsonCodes.{json_code};
    ghost use Rattle.file_devices.specs.declared.entry.DeviceEntry.{DeviceEntry};

    ghost Value = { List DeviceEntry };

    ghost coded = { Prim.hlevel (codes, json_code) };

    ghost view = { λ e. e.list.items };
}

impl DeviceEntries {
    /// No devices.
    pub fn new(alloc: Global) -> Self
        ensures { result ≡ [] }
    {
        DeviceEntries {
            list: Vec::new(alloc),
        }
    }

    /// Puts a device after the others.
    fn push(&mut self, entry: DeviceEntry) -> Result<(), NoMemory>
        ensures ok { OnOk result (self.new ≡ self.old ++ entry ∷ []) }
    {
        self.list.push(entry)?;
        Ok(())
    }

    /// The devices, in the order of their list.
    pub fn as_slice(&self) -> &[DeviceEntry]
        ensures { result.now ≡ self.now }
    {
        self.list.as_slice()
    }

    /// The device whose handler has this slot.
    pub fn at(&self, slot: u16) -> Option<&DeviceEntry>
        ensures { option_map (λ e. e.now) result ≡ find (λ e. e.slot == slot) self.now }
    {
        self.list.iter().find(|entry| entry.slot == slot)
    }

    /// The number of slots of a rack with these devices: as many as the greatest slot asks for, and at least those that
    /// the product ships.
    pub fn slot_count(&self) -> usize
        ensures count { result ≡ spec.slot_count self.now }
        ensures few { result ≤ 65536 }
    {
        count_slots(self.list.as_slice())
    }
}

/// The number of slots of a rack with these devices.
#[tactic(auto, using(crate::proofs::SlotCounts::counts_none, crate::proofs::SlotCounts::counts_more, crate::proofs::SlotCounts::counts_all))]
fn count_slots(entries: &[DeviceEntry]) -> usize
    ensures count { result ≡ spec.slot_count entries.now }
    ensures few { result ≤ 65536 }
{
    let mut count = SHIPPED_SLOTS;
    for entry in entries {
        let needed = entry.slot as usize + 1;
        count = count.max(needed);
    }
    count
}

/// Reads a list of devices.
pub fn read_entries(alloc: Global, tree: &Tree) -> Result<DeviceEntries, EntriesFault>
    ensures { spec.ReadsEntries (json_of tree.now) result }
{
    match tree {
        Tree::List(items) => read_list(alloc, items.as_slice()),
        _ => Err(EntriesFault::At(Text::copy_of(alloc, "")?)),
    }
}

/// Reads the entries of a list.
#[tactic(auto, using(crate::proofs::ListRead::runs_out))]
fn read_list(alloc: Global, items: &[Tree]) -> Result<DeviceEntries, EntriesFault>
    ensures { spec.ReadsFrom 0 [] (json_items items.now) result }
{
    let mut entries = DeviceEntries::new(alloc);
    for (index, item) in items.iter().enumerate() {
        match entry_in(alloc, entries.as_slice(), item)? {
            Ok(entry) => entries.push(entry)?,
            Err(pointer) => {
                return Err(EntriesFault::At(through_element(alloc, index, pointer)?));
            }
        }
    }
    Ok(entries)
}
