//! The handler in a slot of a gateway's rack: the device of the slot's entry, or else the handler in memory that the
//! product ships for the slot, or above those one that refuses each call.

ghost use Rattle.std.specs.Prelude.{◌≡◌, None, Some, IfOk, option_map};
ghost use Rattle.wot_terms.specs.declared.kind.Kind.TheVariants as kind;
ghost use Rattle.file_devices.specs.Slots.{IsFresh, free_slot_is, free_slot_kind, is_file, is_memory, is_running, slot_files};

use crate::entry::copy_path;
use crate::{
    DeviceFiles, FileAction, FileDevice, FileEvent, FileProperty, NoDevice, RunningAction,
    RunningDevice,
};
use servient_base::NoMemory;
use std::alloc::Global;
use thing_handler::{
    Answer, CallKind, Cell, Handler, Kind, SHIPPED_SLOTS, Shipped, Turn, shipped_in,
};
use wot_json::{Text, Tree, copy};

/// The handler of a slot. Its callers box this, since a library can't hand out a boxed one.
#[derive(Drop)]
pub enum SlotHandler<D: DeviceFiles> {
    /// One in memory that the product ships.
    Shipped(Shipped),
    /// A slot without a device.
    NoDevice(NoDevice),
    /// A property in memory.
    Memory(Cell),
    Property(FileProperty<D>),
    Action(FileAction<D>),
    Running(RunningAction<D>),
    Event(FileEvent<D>),
}

/// The handler of a device behind a file, which wasn't called yet.
pub fn file_handler<D: DeviceFiles>(
    alloc: Global,
    files: D,
    device: &FileDevice,
) -> Result<SlotHandler<D>, NoMemory>
    ensures device { IfOk result (IsFresh (is_file device.now) device.now.kind) }
    ensures files { IfOk result (λ handler. slot_files handler ≡ Some files) }
{
    let path = Text::copy_of(alloc, device.path.as_str())?;
    Ok(match device.kind {
        Kind::Property => {
            SlotHandler::Property(FileProperty::new(alloc, files, path, device.notation))
        }
        Kind::Action => SlotHandler::Action(FileAction::new(alloc, files, path, device.notation)),
        Kind::Event => SlotHandler::Event(FileEvent::new(alloc, files, path, device.notation)),
    })
}

/// The handler of an action that runs on, which wasn't called yet.
pub fn running_handler<D: DeviceFiles>(
    alloc: Global,
    files: D,
    device: &RunningDevice,
) -> Result<SlotHandler<D>, NoMemory>
    ensures device { IfOk result (IsFresh (is_running device.now None) kind.Action) }
    ensures files { IfOk result (λ handler. slot_files handler ≡ Some files) }
{
    let cancel = device.cancel.as_ref().map(|path| path.as_str());
    let device = RunningDevice {
        action: Text::copy_of(alloc, device.action.as_str())?,
        status: Text::copy_of(alloc, device.status.as_str())?,
        cancel: copy_path(alloc, cancel)?,
        notation: device.notation,
    };
    Ok(SlotHandler::Running(RunningAction::new(alloc, files, device)))
}

/// The handler of a property in memory that holds this value, which wasn't called yet.
pub fn memory_handler<D: DeviceFiles>(
    alloc: Global,
    value: &Tree,
) -> Result<SlotHandler<D>, NoMemory>
    ensures { IfOk result (IsFresh (is_memory value.now) kind.Property) }
{
    Ok(SlotHandler::Memory(Cell::new(alloc, copy(alloc, value)?)))
}

/// The handler of a slot without an entry: the one that the product ships for the slot, or none where it ships none.
pub fn free_handler<D: DeviceFiles>(alloc: Global, slot: usize) -> SlotHandler<D>
    ensures { IsFresh (free_slot_is slot) (free_slot_kind slot) result }
{
    if slot < SHIPPED_SLOTS {
        SlotHandler::Shipped(shipped_in(alloc, slot))
    } else {
        SlotHandler::NoDevice(NoDevice::new(alloc))
    }
}

impl<D: DeviceFiles> SlotHandler<D> {
    /// The files among which the handler's file is, where it has one.
    pub fn files(&self) -> Option<&D>
        ensures { option_map (λ files. files.now) result ≡ slot_files self.now }
    {
        match self {
            SlotHandler::Shipped(_) | SlotHandler::NoDevice(_) | SlotHandler::Memory(_) => None,
            SlotHandler::Property(handler) => Some(handler.files()),
            SlotHandler::Action(handler) => Some(handler.files()),
            SlotHandler::Running(handler) => Some(handler.files()),
            SlotHandler::Event(handler) => Some(handler.files()),
        }
    }
}

impl<D: DeviceFiles> Handler for SlotHandler<D> {
    ghost use Rattle.std.specs.Prelude.{◌≡◌, IfOk};
    ghost use Rattle.thing_handler.specs.Handler.{AnswersCall};
    ghost use Rattle.file_devices.specs.Once.{SlotCalls};
    ghost use Rattle.file_devices.specs.SlotAnswers.{SlotAnswers};
    ghost use Rattle.file_devices.specs.Slots.{slot_device, slot_seen};

    ghost seen = { slot_seen };

    fn kind(&self) -> Kind {
        match self {
            SlotHandler::Shipped(handler) => handler.kind(),
            SlotHandler::NoDevice(handler) => handler.kind(),
            SlotHandler::Memory(handler) => handler.kind(),
            SlotHandler::Property(handler) => handler.kind(),
            SlotHandler::Action(handler) => handler.kind(),
            SlotHandler::Running(handler) => handler.kind(),
            SlotHandler::Event(handler) => handler.kind(),
        }
    }

    #[tactic(auto, using(crate::proofs::SlotLaws::shipped_answers, crate::proofs::SlotLaws::memory_answers))]
    fn call(&mut self, alloc: Global, number: u64, what: &CallKind) -> Result<Answer, NoMemory>
        ensures turn { AnswersCall (slot_seen self.old) (slot_seen self.new) number what.now result }
        ensures answer { IfOk result (SlotAnswers D.seen self.old self.new what.now) }
        ensures calls { SlotCalls D.seen self.old self.new what.now result }
        ensures device { slot_device self.new ≡ slot_device self.old }
    {
        match self {
            SlotHandler::Shipped(handler) => handler.call(alloc, number, what),
            SlotHandler::NoDevice(handler) => handler.call(alloc, number, what),
            SlotHandler::Memory(handler) => handler.call(alloc, number, what),
            SlotHandler::Property(handler) => handler.call(alloc, number, what),
            SlotHandler::Action(handler) => handler.call(alloc, number, what),
            SlotHandler::Running(handler) => handler.call(alloc, number, what),
            SlotHandler::Event(handler) => handler.call(alloc, number, what),
        }
    }

    fn turns(&self) -> &[Turn] {
        match self {
            SlotHandler::Shipped(handler) => handler.turns(),
            SlotHandler::NoDevice(handler) => handler.turns(),
            SlotHandler::Memory(handler) => handler.turns(),
            SlotHandler::Property(handler) => handler.turns(),
            SlotHandler::Action(handler) => handler.turns(),
            SlotHandler::Running(handler) => handler.turns(),
            SlotHandler::Event(handler) => handler.turns(),
        }
    }

    fn forget(&mut self) {
        match self {
            SlotHandler::Shipped(handler) => handler.forget(),
            SlotHandler::NoDevice(handler) => handler.forget(),
            SlotHandler::Memory(handler) => handler.forget(),
            SlotHandler::Property(handler) => handler.forget(),
            SlotHandler::Action(handler) => handler.forget(),
            SlotHandler::Running(handler) => handler.forget(),
            SlotHandler::Event(handler) => handler.forget(),
        }
    }
}
