//! The lines of a case:
//!
//! ```text
//! # TEXT                 says what the case is
//! = NAME                 a file; the lines after it are its text
//! < NAME                 a script in words, as `spelling.rt` has them; then what is printed is written in words too
//! repeat N TEXT          within a file: these bytes N times, and no end of a line
//! ! read|put|net N       the Nth read, output or call of the network fails
//! ! net memory           the network is out of memory
//! ! room N               the output has room for N bytes
//! + EVENT                an event of the network, in words; then what is printed is written in words too
//! * N EVENT              the same N times
//! @ KIND ANSWERS         a device of this kind in the next slot, with these answers, `; ` between them
//! % N                    the rack has N slots
//! ^ N                    of what is done to the network the first N acts aren't printed
//! cut once|twice TEXT    the case is run for each way to cut these bytes, as `cuts.rt` says
//! $ WORDS                the command; what it prints, what it did to the network and its status follow
//! ```

use crate::spelling::put_spelled;
use cases_notation::{bytes_of, number};
use cases_values::{Device, device_of};
use servient_outside::{Calls, Held, HeldFile};
use std::alloc::{AllocError, Global};
use thing_handler::SHIPPED_SLOTS;
use wot_json::{Bytes, Text};

/// The number of bytes of output that are kept.
const MOST_OUTPUT: usize = 1_048_576;

/// The files, the failures, the events, and the devices.
#[derive(Drop)]
pub struct Case {
    alloc: Global,
    pub held: Held,
    pub reads: Calls,
    pub puts: Calls,
    pub nets: Calls,
    /// The events of the network, as a script.
    pub events: String,
    pub devices: Vec<Device>,
    pub slots: usize,
    /// The number of acts that aren't printed.
    pub hidden: usize,
    /// The number of bytes for which the output has room.
    pub room: usize,
    /// The network is out of memory.
    pub is_crowded: bool,
    /// The output is written in words.
    pub is_in_words: bool,
    file: Option<HeldFile>,
    is_spelled: bool,
}

impl Case {
    pub fn new(alloc: Global) -> Case {
        Case {
            alloc,
            held: Held::new(alloc),
            reads: Calls::new(alloc),
            puts: Calls::new(alloc),
            nets: Calls::new(alloc),
            events: String::new(alloc),
            devices: Vec::new(alloc),
            slots: SHIPPED_SLOTS,
            hidden: 0,
            room: MOST_OUTPUT,
            is_crowded: false,
            is_in_words: false,
            file: None,
            is_spelled: false,
        }
    }

    /// The file that was begun is whole.
    pub fn close(&mut self) -> Result<(), AllocError> {
        match self.file.take() {
            Some(file) => self.held.push(file),
            None => Ok(()),
        }
    }

    /// Begins a file.
    fn begin(&mut self, name: &str, is_spelled: bool) -> Result<(), AllocError> {
        self.close()?;
        self.is_spelled = is_spelled;
        self.is_in_words |= is_spelled;
        self.file = Some(HeldFile {
            name: Text::copy_of(self.alloc, name)?,
            bytes: Bytes::new(self.alloc),
        });
        Ok(())
    }

    /// A line of the file that was begun.
    fn put(&mut self, line: &str) -> Result<(), AllocError> {
        let Some(file) = &mut self.file else {
            return Ok(());
        };
        if self.is_spelled {
            let mut spelled = String::new(self.alloc);
            put_spelled(&mut spelled, self.alloc, line)?;
            file.bytes.extend(spelled.as_bytes())?;
        } else {
            file.bytes.extend(line.as_bytes())?;
        }
        file.bytes.push(b'\n')
    }

    /// Bytes in the file that was begun, n times.
    fn repeat(&mut self, line: &str) -> Result<(), AllocError> {
        let Some(file) = &mut self.file else {
            return Ok(());
        };
        let (times, written) = line.split_once(' ').unwrap_or(("0", line));
        let bytes = bytes_of(self.alloc, written)?;
        for _time in 0..number(Some(times)) {
            file.bytes.extend(bytes.as_slice())?;
        }
        Ok(())
    }

    /// A call that fails.
    fn fail(&mut self, what: &str) -> Result<(), AllocError> {
        match what.split_once(' ') {
            Some(("net", "memory")) => {
                self.is_crowded = true;
                Ok(())
            }
            Some(("room", bytes)) => {
                self.room = bytes.parse::<usize>().unwrap_or(0);
                Ok(())
            }
            Some(("read", times)) => self.reads.push(number(Some(times))),
            Some(("put", times)) => self.puts.push(number(Some(times))),
            Some(("net", times)) => self.nets.push(number(Some(times))),
            _ => Ok(()),
        }
    }

    /// An event of the network.
    fn happen(&mut self, line: &str) -> Result<(), AllocError> {
        self.is_in_words = true;
        put_spelled(&mut self.events, self.alloc, line)?;
        self.events.push_str("\n")
    }

    /// An event of the network, n times.
    fn happen_often(&mut self, what: &str) -> Result<(), AllocError> {
        let (times, line) = what.split_once(' ').unwrap_or(("0", what));
        for _time in 0..number(Some(times)) {
            self.happen(line)?;
        }
        Ok(())
    }

    /// A device.
    fn fit(&mut self, what: &str) -> Result<(), AllocError> {
        let device = device_of(self.alloc, what)?;
        self.devices.push(device)?;
        Ok(())
    }

    /// Takes a line.
    pub fn take(&mut self, line: &str) -> Result<(), AllocError> {
        match line.split_once(' ') {
            Some(("#" | "cut", _text)) => Ok(()),
            Some(("=", name)) => self.begin(name, false),
            Some(("<", name)) => self.begin(name, true),
            Some(("repeat", what)) => self.repeat(what),
            Some(("!", what)) => self.fail(what),
            Some(("+", event)) => self.happen(event),
            Some(("*", what)) => self.happen_often(what),
            Some(("@", what)) => self.fit(what),
            Some(("%", slots)) => {
                self.slots = slots.parse::<usize>().unwrap_or(0);
                Ok(())
            }
            Some(("^", hidden)) => {
                self.hidden = hidden.parse::<usize>().unwrap_or(0);
                Ok(())
            }
            _ => self.put(line),
        }
    }
}
