//! Reading the list of devices.

use file_devices::{DeviceEntries, EntriesFault, read_entries};
use servient_cli::{Ended, Ending, LONGEST_JSON, end_with, read_file, read_tree};
use servient_outside::Files;
use std::alloc::Global;

/// Reads the list of devices of this name. Where it is none, the ending has the line that says so, and status 3 or 4.
pub fn read_devices<F: Files>(
    alloc: Global,
    name: &str,
    files: &mut F,
) -> Result<DeviceEntries, Ended> {
    let content = read_file(alloc, name, LONGEST_JSON, files)?;
    let tree = read_tree(alloc, name, content.as_slice())?;
    match read_entries(alloc, &tree) {
        Ok(entries) => Ok(entries),
        Err(EntriesFault::At(place)) => Err(end_with(Ending::input_at(
            alloc,
            name,
            b"devices ",
            place.as_str(),
        ))),
        Err(EntriesFault::NoMemory) => Err(Ended::NoMemory),
    }
}
