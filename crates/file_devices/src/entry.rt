//! One entry of the list of devices.

ghost use Rattle.std.specs.Prelude.{◌≡◌, ◌==◌, ◌++◌, Ok, option_map, option_and_then, codes, IfOk};
ghost use Rattle.std.specs.List.{list_any};
ghost use Rattle.wot_json.specs.Meaning.{json_of};
ghost use Rattle.wot_terms.specs.declared.kind.Kind.TheVariants as kinds;
ghost use Rattle.file_devices.specs.Entries as spec;

use crate::Notation;
use crate::values::LONGEST;
use servient_base::NoMemory;
use std::alloc::Global;
use thing_handler::Kind;
use wot_json::{Text, Tree, copy, text_of};

/// An entry: the slot of a handler, and the device that it is the handler of.
#[derive(Debug, Drop)]
pub struct DeviceEntry {
    pub slot: u16,
    pub device: EntryDevice,
}

/// The device of an entry.
#[derive(Debug, Drop)]
pub enum EntryDevice {
    /// Behind a file.
    File(FileDevice),
    /// An action that runs on, behind files.
    Running(RunningDevice),
    /// A property in memory, which holds this value at the start.
    Memory(Tree),
}

/// A device behind a file: the kind of its affordance, the path of its file, and the notation of the file's content.
#[derive(Debug, Drop)]
pub struct FileDevice {
    pub kind: Kind,
    pub path: Text,
    pub notation: Notation,
}

/// An action that runs on: the path of the file that takes its input, that of its status, that of the file which takes the
/// id of an invocation to be cancelled, where there is one, and the notation of inputs and outputs.
#[derive(Debug, Drop)]
pub struct RunningDevice {
    pub action: Text,
    pub status: Text,
    pub cancel: Option<Text>,
    pub notation: Notation,
}

/// The one device that an entry names.
#[derive(Clone, Copy, Debug, PartialEq, Eq)]
pub enum Named {
    /// The file of a handler of this kind.
    File(Kind),
    /// A value in memory.
    Memory,
}

/// The device of an entry after those before it, or the pointer from it to the member that is wrong.
pub fn entry_in(
    alloc: Global,
    before: &[DeviceEntry],
    item: &Tree,
) -> Result<Result<DeviceEntry, &'static str>, NoMemory>
    ensures { IfOk result (λ entry. spec.told entry (λ p. p.now) ≡ spec.entry_of before.now (json_of item.now)) }
{
    let slot = free_slot(before, slot_in(item.member("slot")));
    match named_in(item) {
        Some(Named::File(kind)) => file_entry(alloc, slot, kind, item),
        Some(Named::Memory) => memory_entry(alloc, slot, item),
        None => Ok(Err("")),
    }
}

/// The entry of a file of this kind, in this slot.
fn file_entry(
    alloc: Global,
    slot: Option<u16>,
    kind: Kind,
    item: &Tree,
) -> Result<Result<DeviceEntry, &'static str>, NoMemory>
    ensures { IfOk result (λ entry. spec.told entry (λ p. p.now)
        ≡ spec.entry_by (spec.member_in (json_of item.now)) slot (Named.File kind)) }
{
    match kind {
        Kind::Property => plain_entry(alloc, slot, Kind::Property, item),
        Kind::Action => action_entry(alloc, slot, item),
        Kind::Event => plain_entry(alloc, slot, Kind::Event, item),
    }
}

/// The entry of a property or an event behind a file, in this slot.
fn plain_entry(
    alloc: Global,
    slot: Option<u16>,
    kind: Kind,
    item: &Tree,
) -> Result<Result<DeviceEntry, &'static str>, NoMemory>
    ensures { IfOk result (λ entry. spec.told entry (λ p. p.now)
        ≡ spec.plain_by kind (option_and_then spec.path_in (spec.member_in (json_of item.now) (spec.member_of kind)))
        (spec.notation_of (spec.member_in (json_of item.now) (codes "as"))) (spec.member_in (json_of item.now) (codes "cancel"))
        slot (spec.member_in (json_of item.now) (codes "status"))) }
{
    let Some(notation) = notation_of(item.member("as")) else {
        return Ok(Err("/as"));
    };
    if item.member("cancel").is_some() {
        return Ok(Err("/cancel"));
    }
    let Some(path) = path_in(item.member(member_of(kind))) else {
        return Ok(Err(pointer_to(kind)));
    };
    let Some(slot) = slot else {
        return Ok(Err("/slot"));
    };
    if item.member("status").is_some() {
        return Ok(Err("/status"));
    }
    file_behind(alloc, slot, kind, path, notation)
}

/// The entry of an action, in this slot.
fn action_entry(
    alloc: Global,
    slot: Option<u16>,
    item: &Tree,
) -> Result<Result<DeviceEntry, &'static str>, NoMemory>
    ensures { IfOk result (λ entry. spec.told entry (λ p. p.now)
        ≡ spec.entry_by (spec.member_in (json_of item.now)) slot (Named.File kinds.Action)) }
{
    let Some(path) = path_in(item.member("action")) else {
        return Ok(Err("/action"));
    };
    let Some(notation) = notation_of(item.member("as")) else {
        return Ok(Err("/as"));
    };
    match item.member("status") {
        None => at_once_entry(alloc, slot, path, notation, item),
        Some(_) => running_entry(alloc, slot, path, notation, item),
    }
}

/// The entry of an action without a status, by this path and notation.
fn at_once_entry(
    alloc: Global,
    slot: Option<u16>,
    path: &str,
    notation: Notation,
    item: &Tree,
) -> Result<Result<DeviceEntry, &'static str>, NoMemory>
    ensures { IfOk result (λ entry. spec.told entry (λ p. p.now)
        ≡ spec.at_once_by path.now notation (spec.member_in (json_of item.now) (codes "cancel")) slot) }
{
    if item.member("cancel").is_some() {
        return Ok(Err("/cancel"));
    }
    match slot {
        Some(slot) => file_behind(alloc, slot, Kind::Action, path, notation),
        None => Ok(Err("/slot")),
    }
}

/// The entry of an action with a status, by the path of the action and the notation.
fn running_entry(
    alloc: Global,
    slot: Option<u16>,
    action: &str,
    notation: Notation,
    item: &Tree,
) -> Result<Result<DeviceEntry, &'static str>, NoMemory>
    ensures { IfOk result (λ entry. spec.told entry (λ p. p.now)
        ≡ spec.running_by action.now notation (spec.optional_path (spec.member_in (json_of item.now) (codes "cancel"))) slot
        (option_and_then spec.path_in (spec.member_in (json_of item.now) (codes "status")))) }
{
    let Some(cancel) = optional_path(item.member("cancel")) else {
        return Ok(Err("/cancel"));
    };
    let Some(slot) = slot else {
        return Ok(Err("/slot"));
    };
    let Some(status) = path_in(item.member("status")) else {
        return Ok(Err("/status"));
    };
    let device = RunningDevice {
        action: Text::copy_of(alloc, action)?,
        status: Text::copy_of(alloc, status)?,
        cancel: copy_path(alloc, cancel)?,
        notation,
    };
    Ok(Ok(DeviceEntry {
        slot,
        device: EntryDevice::Running(device),
    }))
}

/// A copy of a path, where there is one.
pub fn copy_path(alloc: Global, path: Option<&str>) -> Result<Option<Text>, NoMemory>
    ensures { IfOk result (λ text. text ≡ option_map (λ path. path.now) path.entry) }
{
    match path {
        Some(path) => Ok(Some(Text::copy_of(alloc, path)?)),
        None => Ok(None),
    }
}

/// The entry of a device of this kind behind the file of this path.
fn file_behind(
    alloc: Global,
    slot: u16,
    kind: Kind,
    path: &str,
    notation: Notation,
) -> Result<Result<DeviceEntry, &'static str>, NoMemory>
    ensures { IfOk result (λ entry. spec.told entry (λ p. p.now)
        ≡ Ok (record { slot = slot; device = spec.behind_file kind path.now notation })) }
{
    let path = Text::copy_of(alloc, path)?;
    Ok(Ok(DeviceEntry {
        slot,
        device: EntryDevice::File(FileDevice {
            kind,
            path,
            notation,
        }),
    }))
}

/// The entry of a value in memory, in this slot.
fn memory_entry(
    alloc: Global,
    slot: Option<u16>,
    item: &Tree,
) -> Result<Result<DeviceEntry, &'static str>, NoMemory>
    ensures { IfOk result (λ entry. spec.told entry (λ p. p.now)
        ≡ spec.entry_by (spec.member_in (json_of item.now)) slot Named.Memory) }
{
    if item.member("as").is_some() {
        return Ok(Err("/as"));
    }
    if item.member("cancel").is_some() {
        return Ok(Err("/cancel"));
    }
    let Some(slot) = slot else {
        return Ok(Err("/slot"));
    };
    if item.member("status").is_some() {
        return Ok(Err("/status"));
    }
    match short_value(alloc, item.member("value"))? {
        Some(value) => Ok(Ok(DeviceEntry {
            slot,
            device: EntryDevice::Memory(value),
        })),
        None => Ok(Err("/value")),
    }
}

/// The one device that an entry names.
fn named_in(item: &Tree) -> Option<Named>
    ensures { result ≡ spec.named_by (json_of item.now) }
{
    match (
        item.member("property"),
        item.member("action"),
        item.member("event"),
        item.member("value"),
    ) {
        (Some(_), None, None, None) => Some(Named::File(Kind::Property)),
        (None, Some(_), None, None) => Some(Named::File(Kind::Action)),
        (None, None, Some(_), None) => Some(Named::File(Kind::Event)),
        (None, None, None, Some(_)) => Some(Named::Memory),
        _ => None,
    }
}

/// The name of the member that names the file of a handler of this kind.
fn member_of(kind: Kind) -> &'static str
    ensures { result.now ≡ spec.member_of kind }
{
    match kind {
        Kind::Property => "property",
        Kind::Action => "action",
        Kind::Event => "event",
    }
}

/// The pointer from an entry to that member.
fn pointer_to(kind: Kind) -> &'static str
    ensures { result.now ≡ codes "/" ++ spec.member_of kind }
{
    match kind {
        Kind::Property => "/property",
        Kind::Action => "/action",
        Kind::Event => "/event",
    }
}

/// A path.
fn path_in(value: Option<&Tree>) -> Option<&str>
    ensures { option_map (λ path. path.now) result ≡ option_and_then spec.path_in (option_map (λ v. json_of v.now) value.entry) }
{
    match value {
        Some(Tree::Text(text)) if !text.as_str().is_empty() => Some(text.as_str()),
        _ => None,
    }
}

/// A path that may be missing: the inner `None` where it isn't there, and the outer one where it is no path.
fn optional_path(value: Option<&Tree>) -> Option<Option<&str>>
    ensures { option_map (option_map (λ path. path.now)) result
        ≡ spec.optional_path (option_map (λ v. json_of v.now) value.entry) }
{
    match value {
        None => Some(None),
        Some(value) => match path_in(Some(value)) {
            Some(path) => Some(Some(path)),
            None => None,
        },
    }
}

/// The notation of a content.
fn notation_of(value: Option<&Tree>) -> Option<Notation>
    ensures { result ≡ spec.notation_of (option_map (λ v. json_of v.now) value.entry) }
{
    match value {
        None => Some(Notation::Json),
        Some(Tree::Text(text)) => match text.as_str() {
            "json" => Some(Notation::Json),
            "text" => Some(Notation::Text),
            _ => None,
        },
        Some(_) => None,
    }
}

/// A value whose JSON text isn't too long.
fn short_value(alloc: Global, value: Option<&Tree>) -> Result<Option<Tree>, NoMemory>
    ensures { IfOk result (λ short. option_map json_of short
        ≡ option_and_then spec.short_value (option_map (λ v. json_of v.now) value.entry)) }
{
    let Some(value) = value else {
        return Ok(None);
    };
    if text_of(alloc, value)?.len() > LONGEST {
        return Ok(None);
    }
    Ok(Some(copy(alloc, value)?))
}

/// The number of a slot.
fn slot_in(value: Option<&Tree>) -> Option<u16>
    ensures { result ≡ option_and_then spec.slot_in (option_map (λ v. json_of v.now) value.entry) }
{
    match value {
        Some(Tree::Int(number)) => u16::try_from(*number).ok(),
        _ => None,
    }
}

/// The number of a slot that none of these entries has.
fn free_slot(before: &[DeviceEntry], slot: Option<u16>) -> Option<u16>
    ensures { result ≡ spec.free_slot before.now slot }
{
    let slot = slot?;
    if has_slot(before, slot) {
        None
    } else {
        Some(slot)
    }
}

/// One of these entries has this slot.
fn has_slot(entries: &[DeviceEntry], slot: u16) -> bool
    ensures { result ≡ list_any (λ e. e.slot == slot) entries.now }
{
    entries.iter().any(|entry| entry.slot == slot)
}
