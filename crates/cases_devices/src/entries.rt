//! Lists of devices: their entries, or the place of the first that is wrong.

use cases_notation::bytes_of;
use file_devices::{DeviceEntry, EntriesFault, EntryDevice, read_entries};
use std::alloc::{AllocError, Global};
use std::fmt::Write;
use std::str;
use wot_json::{read, text_of};

/// The longest text of a value that is written whole.
const LONGEST_WRITTEN: usize = 100;

/// Writes a device. The text is lent, since a function pays at each early exit for what it owns.
fn put_entry(text: &mut String, alloc: Global, entry: &DeviceEntry) -> Result<(), AllocError> {
    match &entry.device {
        EntryDevice::File(file) => write!(
            text,
            "{} {:?} {} {:?}",
            entry.slot, file.kind, file.path, file.notation
        ),
        EntryDevice::Running(device) => {
            write!(
                text,
                "{} Running {} status {}",
                entry.slot, device.action, device.status
            )?;
            if let Some(path) = &device.cancel {
                write!(text, " cancel {path}")?;
            }
            write!(text, " {:?}", device.notation)
        }
        EntryDevice::Memory(value) => {
            let value = text_of(alloc, value)?;
            if value.len() > LONGEST_WRITTEN {
                return write!(text, "{} Memory of {} bytes", entry.slot, value.len());
            }
            let value = str::from_utf8(value.as_slice()).unwrap_or("no text");
            write!(text, "{} Memory {value}", entry.slot)
        }
    }
}

/// Writes the entries of a list of devices.
pub fn put_entries(text: &mut String, alloc: Global, given: &str) -> Result<(), AllocError> {
    let bytes = bytes_of(alloc, given)?;
    let Ok(tree) = read(alloc, bytes.as_slice()) else {
        return text.push_str("no JSON");
    };
    match read_entries(alloc, &tree) {
        Ok(entries) => {
            for (place, entry) in entries.as_slice().iter().enumerate() {
                if place > 0 {
                    text.push_str("; ")?;
                }
                put_entry(text, alloc, entry)?;
            }
            Ok(())
        }
        Err(EntriesFault::At(place)) => write!(text, "wrong at \"{place}\""),
        Err(EntriesFault::NoMemory) => Err(AllocError),
    }
}
