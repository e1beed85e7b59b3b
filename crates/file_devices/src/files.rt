//! The files of devices: the answers of reads and writes, and the view of them in contracts.

use servient_outside::Got;
use std::alloc::Global;
use wot_json::{Bytes, Text};

/// The answer of `DeviceFiles::write`.
#[derive(Clone, Copy, Debug, PartialEq, Eq)]
pub enum Wrote {
    /// The content was written.
    Done,
    /// There is no file of this name, and none was made.
    Absent,
    /// The file couldn't be opened or written.
    Failed,
}

/// A call of `DeviceFiles`.
#[derive(Debug, Drop)]
pub enum FileCall {
    /// The file of this name was read, and gave these bytes: none where the answer isn't `Whole`.
    Read(Text, Bytes, Got),
    /// These bytes were written to the file of this name.
    Write(Text, Bytes, Wrote),
}

/// The files of devices.
pub trait DeviceFiles: Drop {
    ghost use Rattle.file_devices.specs.Files.{FilesSeen, Reads, Writes};

    /// Their content and the calls that were made, where they are recorded, and the number of calls that failed.
    ghost seen: { Self → FilesSeen };

    /// Reads a whole file of at most `limit` bytes. After any answer but `Whole` the content of `into` is open, and
    /// `NoMemory` may come at any call.
    fn read(&mut self, alloc: Global, name: &str, limit: usize, into: &mut Bytes) -> Got
        ensures { Reads (seen self.old) (seen self.new) name.now limit result into.new };

    /// Gives a file this content in place of what it held, in one write.
    fn write(&mut self, name: &str, content: Bytes) -> Wrote
        ensures { Writes (seen self.old) (seen self.new) name.now content result };
}
