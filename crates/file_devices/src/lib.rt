//! Devices behind files, as the handlers of affordances: Linux shows sensors, lamps and pins as files (hwmon, IIO,
//! LEDs, PWM, thermal zones, 1-wire), and any program can write or read one.
//!
//! A property is read from its file and written into it, an action writes its input, and an event comes about when the
//! file's value changed since the last poll, or when the file came late. An action that runs on has a file for its status
//! too. Nothing is remembered in place of reading. All memory, that of the turn too, is taken before a file is written, so
//! that nothing was written where a call is out of memory.
//!
//! ```text
//! let mut level = FileProperty::new(alloc, files, path("/sys/class/leds/lamp/brightness"), Notation::Json);
//! assert!(matches!(level.call(alloc, 0, &CallKind::Write(Tree::Int(42)))?, Answer::Done));
//! assert!(matches!(level.call(alloc, 1, &CallKind::Read)?, Answer::Value(Tree::Int(42))));
//! ```
//!
//! The answers of the handlers are `specs/Devices.antt`, and those of an action that runs on `specs/Running.antt`. The value of a file's content and the text that is written of
//! a value are `specs/Values.antt`. The calls of files in a call of a handler are `specs/Once.antt`: a text is written
//! once, or not at all. The files are a trait, `DeviceFiles`, so that contracts speak of reads and writes of files in
//! memory.
#![tactic(auto)]

mod action;
mod call_log;
mod content;
mod device;
mod entries;
mod entry;
mod event;
mod fault;
mod files;
mod files_memory;
mod no_device;
mod notation;
mod property;
mod running;
mod slot_handler;
mod starting;
mod status;
mod stopping;
mod values;

pub use action::FileAction;
pub use entries::{DeviceEntries, EntriesFault, read_entries};
pub use entry::{DeviceEntry, EntryDevice, FileDevice, RunningDevice};
pub use event::{EventState, FileEvent};
pub use fault::FileFault;
pub use files::{DeviceFiles, FileCall, Wrote};
pub use files_memory::DeviceFilesMemory;
pub use no_device::NoDevice;
pub use notation::Notation;
pub use property::FileProperty;
pub use running::RunningAction;
pub use slot_handler::{SlotHandler, file_handler, free_handler, memory_handler, running_handler};
