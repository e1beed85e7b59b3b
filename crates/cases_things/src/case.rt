//! The lines before the steps of a case of `exposing` and `acts`:
//!
//! ```text
//! = SEGMENT              the Thing, by the segment of its path; the lines after it are its description
//! slot POINTER N         the slot of one of its affordances
//! versions N             the versions up to N are left out
//! @ KIND ANSWERS         a device of this kind in the next slot, with these answers, `; ` between them;
//!                        without any the rack is the shipped one
//! ```
//!
//! A case without a step is read after the lines of each later case of its file.

use cases_values::{Device, device_of};
use std::alloc::{AllocError, Global};
use thing_core::Slots;
use wot_json::Text;

/// A Thing, the slots of its affordances, and devices.
#[derive(Drop)]
pub struct Case {
    alloc: Global,
    pub segment: String,
    pub description: String,
    pub slots: Slots,
    pub devices: Vec<Device>,
    pub left_out: u32,
}

impl Case {
    pub fn new(alloc: Global) -> Case {
        Case {
            alloc,
            segment: String::new(alloc),
            description: String::new(alloc),
            slots: Slots::new(alloc),
            devices: Vec::new(alloc),
            left_out: 0,
        }
    }

    /// A slot.
    fn place(&mut self, rest: &str) -> Result<(), AllocError> {
        let (pointer, slot) = rest.split_once(' ').unwrap_or((rest, "0"));
        let segment = Text::copy_of(self.alloc, "lamp")?;
        let pointer = Text::copy_of(self.alloc, pointer)?;
        self.slots
            .push(segment, pointer, slot.parse::<usize>().unwrap_or(0))
    }

    /// A device.
    fn fit(&mut self, what: &str) -> Result<(), AllocError> {
        let device = device_of(self.alloc, what)?;
        self.devices.push(device)?;
        Ok(())
    }

    /// The versions that are left out.
    fn leave_out(&mut self, count: &str) -> Result<(), AllocError> {
        self.left_out = count.parse::<u32>().unwrap_or(0);
        Ok(())
    }

    /// Takes a line that is no step.
    pub fn take(&mut self, line: &str) -> Result<(), AllocError> {
        match line.split_once(' ') {
            Some(("#", _text)) => Ok(()),
            Some(("=", segment)) => self.segment.push_str(segment),
            Some(("slot", rest)) => self.place(rest),
            Some(("@", what)) => self.fit(what),
            Some(("versions", count)) => self.leave_out(count),
            _ => self.description.push_str(line),
        }
    }
}
