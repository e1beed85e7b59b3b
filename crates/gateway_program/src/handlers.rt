//! The handlers of a rack by a list of devices.

ghost use Rattle.std.specs.Prelude.{◌<◌, ◌≤◌, ◌==◌, IfOk, find, vec_len};
ghost use Rattle.file_devices.specs.Slots.{AreHandlers, IsHandlerAt};

use crate::device_files::DeviceFilesReal;
use file_devices::{
    DeviceEntries, EntryDevice, SlotHandler, file_handler, free_handler, memory_handler,
    running_handler,
};
use servient_base::NoMemory;
use std::alloc::Global;

/// The handler of a slot, whose device is behind a file of the machine where it is behind one.
pub type GatewayHandler = SlotHandler<DeviceFilesReal<HostRuntime>>;

/// The handlers of a rack with these devices, in the order of their slots.
#[tactic(auto, using(crate::proofs::Racks::made_none, crate::proofs::Racks::made_all))]
pub fn handlers_of(
    rt: &HostRuntime,
    entries: &DeviceEntries,
) -> Result<Vec<GatewayHandler>, NoMemory>
    ensures handlers { IfOk result (λ handlers. AreHandlers entries.now handlers.items) }
    ensures few { IfOk result (λ handlers. vec_len handlers ≤ 65536) }
{
    let count = entries.slot_count();
    let mut handlers = Vec::new(rt.alloc());
    for slot in 0..count {
        let handler = handler_at(rt, entries, slot)?;
        handlers.push(handler)?;
    }
    Ok(handlers)
}

/// The handler of a slot: that of its device, or else the one that the product ships, or none.
fn handler_at(
    rt: &HostRuntime,
    entries: &DeviceEntries,
    slot: usize,
) -> Result<GatewayHandler, NoMemory>
    requires { slot < 65536 }
    ensures { IfOk result (IsHandlerAt slot (find (λ e. e.slot == slot) entries.now)) }
{
    let alloc: Global = rt.alloc();
    match entries.at(slot as u16) {
        Some(entry) => match &entry.device {
            EntryDevice::File(device) => {
                file_handler(
                    alloc,
                    DeviceFilesReal::new(rt.clone()?, rt.clone()?),
                    device,
                )
            }
            EntryDevice::Running(device) => {
                running_handler(
                    alloc,
                    DeviceFilesReal::new(rt.clone()?, rt.clone()?),
                    device,
                )
            }
            EntryDevice::Memory(value) => memory_handler(alloc, value),
        },
        None => Ok(free_handler(alloc, slot)),
    }
}
