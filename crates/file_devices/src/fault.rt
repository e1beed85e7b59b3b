//! The causes for which a device behind a file has no answer.

ghost use Rattle.std.specs.Prelude.{◌≡◌};
ghost use Rattle.file_devices.specs.Devices.{fault_number};

/// The cause for which a device's file gave no value, or took none.
#[derive(Clone, Copy, Debug, PartialEq, Eq)]
pub enum FileFault {
    /// There is no such file.
    Absent,
    /// The file couldn't be opened, read or written.
    Failed,
    /// Its content, or the JSON text of its value, has more than 1,024 bytes.
    TooLong,
    /// Its content says no value.
    NoValue,
    /// A value that is no text was to be written as a text.
    NoText,
}

impl FileFault {
    /// The number by which a handler names it.
    pub fn number(self) -> u16
        ensures { result ≡ fault_number self }
    {
        match self {
            FileFault::Absent => 1,
            FileFault::Failed => 2,
            FileFault::TooLong => 3,
            FileFault::NoValue => 4,
            FileFault::NoText => 5,
        }
    }
}
