//! Files whose content changes from one read to the next. Such a read isn't listed among the calls.

ghost use Rattle.std.specs.Prelude.{◌≢◌, [], None};
ghost use Rattle.servient_outside.specs.Files.{AnswersRead};

use file_devices::{DeviceFiles, DeviceFilesMemory, Wrote};
use servient_outside::Got;
use std::alloc::Global;
use wot_json::Bytes;

/// Files in memory, of which each read gives the next of some contents as long as there is one, whatever file is read.
/// In the place of a content there may be no file.
#[derive(Drop)]
pub struct Readings {
    pub files: DeviceFilesMemory,
    pub contents: Vec<Option<Bytes>>,
    pub made: usize,
}

/// A content within a limit, or no file.
fn read_content(alloc: Global, content: &Option<Bytes>, limit: usize, into: &mut Bytes) -> Got
    ensures answer { AnswersRead None [] limit result into.new }
    ensures no_failure { result ≢ Got.Failed }
{
    let Some(content) = content else {
        return Got::Absent;
    };
    if content.len() > limit {
        return Got::TooLong;
    }
    match Bytes::copy_of(alloc, content.as_slice()) {
        Ok(bytes) => {
            *into = bytes;
            Got::Whole
        }
        Err(_) => Got::NoMemory,
    }
}

impl DeviceFiles for Readings {
    ghost use Rattle.std.specs.Prelude.{None};
    ghost use Rattle.file_devices.specs.InMemory.{seen_of};

    ghost seen = { λ r. record { held = None; calls = None; faults = (seen_of r.files).faults } };

    fn read(&mut self, alloc: Global, name: &str, limit: usize, into: &mut Bytes) -> Got {
        match self.contents.get(self.made) {
            Some(content) => {
                self.made = self.made.saturating_add(1);
                read_content(alloc, content, limit, into)
            }
            None => self.files.read(alloc, name, limit, into),
        }
    }

    fn write(&mut self, name: &str, content: Bytes) -> Wrote {
        self.files.write(name, content)
    }
}
