//! Cancelling an invocation of an action that runs on.

ghost use Rattle.std.specs.Prelude.{◌≡◌, IfOk};
ghost use Rattle.file_devices.specs.Running as spec;

use crate::content::put_content;
use crate::{DeviceFiles, FileFault};
use servient_base::NoMemory;
use std::alloc::Global;
use wot_json::Bytes;

/// The text of the status when an invocation was cancelled.
const CANCELLED: &str = "cancelled";

/// The texts that a Cancel writes, for which memory was taken.
#[derive(Debug, Drop)]
pub struct StopTexts {
    /// That of the file that cancels: the id of the invocation, in decimal.
    pub id: Bytes,
    /// That of the status.
    pub cancelled: Bytes,
}

/// The texts of a Cancel of this id.
pub fn stop_texts(alloc: Global, id: u32) -> Result<StopTexts, NoMemory>
    ensures { IfOk result (λ texts. texts ≡ spec.stop_texts id) }
{
    let id = format!(in alloc; "{id}")?;
    Ok(StopTexts {
        id: Bytes::from_vec(id.into_bytes()),
        cancelled: Bytes::copy_of(alloc, CANCELLED.as_bytes())?,
    })
}

/// Writes the id to the file that cancels, and then the status.
pub fn stop<D: DeviceFiles>(
    files: &mut D,
    cancel: &str,
    status: &str,
    texts: StopTexts,
) -> Result<(), FileFault>
    ensures { spec.Stops (D.seen files.old) (D.seen files.new) cancel.now status.now texts result }
{
    let StopTexts { id, cancelled } = texts;
    match put_content(files, cancel, id) {
        Ok(()) => put_content(files, status, cancelled),
        Err(fault) => Err(fault),
    }
}
