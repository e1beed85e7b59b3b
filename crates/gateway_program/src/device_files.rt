//! The files of the machine as devices' files.

ghost use Rattle.servient_base.specs.Count.{Rose};

use file_devices::{DeviceFiles, Wrote};
use servient_edge::FilesReal;
use servient_outside::{Files, Got};
use std::alloc::Global;
use std::fs::OpenOptions;
use std::io::{ErrorKind, Write};
use std::{io, rt};
use wot_json::Bytes;

/// The files of the machine. Their content and the calls aren't recorded; it counts failures.
#[derive(Drop)]
pub struct DeviceFilesReal<R: rt::Files + Drop> {
    rt: R,
    files: FilesReal<R>,
    faults: u64,
}

impl<R: rt::Files + Drop> DeviceFilesReal<R> {
    /// The files that these runtimes have: one to read by, and one to write by.
    pub fn new(rt: R, reading: R) -> DeviceFilesReal<R> {
        DeviceFilesReal {
            rt,
            files: FilesReal::new(reading),
            faults: 0,
        }
    }

    /// Counts a call that failed.
    fn count_fault(&mut self)
        ensures { Rose self.old.faults self.new.faults }
    {
        self.faults = self.faults.saturating_add(1);
    }
}

/// Opens a file to be written from its beginning. None is made.
fn open_to_write<R: rt::Files>(rt: &R, name: &str) -> io::Result<R::File> {
    let mut options = OpenOptions::new();
    options.write(true).truncate(true);
    options.open(rt, name)
}

/// Writes a content in one call. An empty one needs none.
fn write_once<F: Write>(file: &mut F, content: &[u8]) -> Wrote {
    if content.is_empty() {
        return Wrote::Done;
    }
    match file.write(content) {
        Ok(count) if count == content.len() => Wrote::Done,
        _ => Wrote::Failed,
    }
}

/// Writes to a file that was to be opened. Every error but that there is no such file is a failure.
fn write_opened<F: Write + Drop>(opened: io::Result<F>, content: &[u8]) -> Wrote {
    match opened {
        Ok(mut file) => write_once(&mut file, content),
        Err(error) => {
            if error.kind() == ErrorKind::NotFound {
                Wrote::Absent
            } else {
                Wrote::Failed
            }
        }
    }
}

impl<R: rt::Files + Drop> DeviceFiles for DeviceFilesReal<R> {
    ghost use Rattle.std.specs.Prelude.{None};
    ghost use Rattle.file_devices.specs.Files.{Fails, Reads, Writes};

    ghost seen = { λ f. record { held = None; calls = None; faults = f.faults } };

    fn read(&mut self, alloc: Global, name: &str, limit: usize, into: &mut Bytes) -> Got {
        match self.files.read(alloc, name, limit, into) {
            Got::Whole => Got::Whole,
            Got::Absent => Got::Absent,
            Got::TooLong => Got::TooLong,
            Got::NoMemory => Got::NoMemory,
            Got::Failed => {
                self.count_fault();
                Got::Failed
            }
        }
    }

    fn write(&mut self, name: &str, content: Bytes) -> Wrote {
        match write_opened(open_to_write(&self.rt, name), content.as_slice()) {
            Wrote::Done => Wrote::Done,
            Wrote::Absent => Wrote::Absent,
            Wrote::Failed => {
                self.count_fault();
                Wrote::Failed
            }
        }
    }
}
