//! The version of a property, and the text of the value that was seen of it last.

ghost use Rattle.std.specs.Prelude.{◌≡◌, ◌==◌, ◌<◌, ◌≤◌, length, position, IfOk};
ghost use Rattle.thing_state.specs.State.{after_text, greatest_version};
ghost use Rattle.thing_site.specs.Refusals.{longest_value};

use servient_base::NoMemory;
use std::alloc::Global;
use std::marker::Model;
use thing_handler::Slot;
use thing_site::LONGEST_VALUE;

/// A property's version. Room for the text is taken once, so that seeing a value takes no memory.
#[derive(Debug, Drop)]
pub struct Version {
    slot: Slot,
    /// Versions up to this one are left out.
    left_out: u32,
    /// As `left_out` where nothing was seen yet.
    number: u32,
    text: Vec<u8>,
}

impl Model for Version {
    ghost use Rattle.std.specs.Prelude.{◌≤◌, ◌==◌, Some, None, if◌then◌else◌, vec_capacity};
    ghost use Rattle.thing_site.specs.Refusals.{longest_value};
    ghost use Rattle.thing_state.specs.State.{Version as VersionSeen};
    ghost use Rattle.thing_state.specs.Course.{version_code};

    ghost Value = { VersionSeen };

    ghost coded = { version_code };

    ghost view = { λ v. record { slot = v.slot; number = v.number; text = if v.number == v.left_out then None else Some v.text.items } };

    ghost invariant = { λ v. (v.left_out ≤ v.number) × (longest_value ≤ vec_capacity v.text) };
}

impl Version {
    ghost use Rattle.std.specs.Prelude.{None};
    ghost use Rattle.thing_state.specs.State.{tag_of_version};

    /// That of the property in this slot, of which nothing was seen yet, where the versions up to `left_out` are left
    /// out.
    pub(crate) fn unseen(alloc: Global, slot: Slot, left_out: u32) -> Result<Version, NoMemory>
        ensures { IfOk result (λ v. v ≡ record { slot = slot; number = left_out; text = None }) }
    {
        Ok(Version {
            slot,
            left_out,
            number: left_out,
            text: Vec::with_capacity(alloc, LONGEST_VALUE)?,
        })
    }

    /// A value of this text is seen. The version's number afterwards.
    pub(crate) fn see(&mut self, text: &[u8]) -> u32
        requires length { length text.now ≤ longest_value }
        requires room { self.old.number < greatest_version }
        ensures seen { self.new ≡ after_text text.now self.old }
        ensures number { result ≡ self.new.number }
    {
        if self.number != self.left_out && self.text.as_slice() == text {
            return self.number;
        }
        self.number += 1;
        self.text.clear();
        self.text.extend_from_slice(text).unwrap();
        self.number
    }

    /// Its number where something was seen; else 0, which no tag is.
    pub(crate) fn tag(&self) -> u32
        ensures { result ≡ tag_of_version self.now }
    {
        if self.number == self.left_out {
            0
        } else {
            self.number
        }
    }
}

/// The place of the version of the property in this slot.
pub fn place_of_version(versions: &[Version], slot: Slot) -> Option<usize>
    ensures { result ≡ position (λ v. v.slot == slot) versions.now }
{
    versions.iter().position(|v| v.slot == slot)
}
