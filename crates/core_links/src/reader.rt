//! The state that a reader of a link text keeps from byte to byte.

ghost use Rattle.std.specs.Prelude.{◌≡◌, [], None, IfOk, OnOk, Some, if◌then◌else◌};
ghost use Rattle.core_links.specs.Steps as spec;

use crate::steps::{ByteUse, ReaderPlace, step_at};
use crate::{Link, Links, Param, Params};
use servient_base::NoMemory;
use std::alloc::Global;
use std::mem::replace;
use wot_json::Bytes;

/// The links that have ended, and the part of the next one. A name that isn't empty is that of a parameter that
/// hasn't ended.
#[derive(Drop)]
pub struct Reader {
    pub place: ReaderPlace,
    pub links: Links,
    pub target: Bytes,
    pub params: Params,
    pub name: Bytes,
    pub value: Option<Bytes>,
}

impl Reader {
    /// A reader at the front of a text.
    pub fn new(alloc: Global) -> Self
        ensures { result ≡ spec.new_reader }
    {
        Reader {
            place: ReaderPlace::Start,
            links: Links::new(alloc),
            target: Bytes::new(alloc),
            params: Params::new(alloc),
            name: Bytes::new(alloc),
            value: None,
        }
    }

    /// Takes a byte, and says whether it may stand there.
    pub fn take(&mut self, alloc: Global, byte: u8) -> Result<bool, NoMemory>
        ensures { IfOk result (λ b. spec.step self.old byte ≡ (if b then Some self.new else None)) }
    {
        match step_at(self.place, byte) {
            None => Ok(false),
            Some(step) => {
                self.place = step.place;
                self.act(alloc, step.act, byte)?;
                Ok(true)
            }
        }
    }

    /// Does with a byte what its step says.
    fn act(&mut self, alloc: Global, act: ByteUse, byte: u8) -> Result<(), NoMemory>
        ensures { OnOk result (self.new ≡ spec.acted act byte self.old) }
    {
        match act {
            ByteUse::Skip => Ok(()),
            ByteUse::Target => self.target.push(byte),
            ByteUse::Name => self.name.push(byte),
            ByteUse::BeginValue => {
                self.value = Some(Bytes::new(alloc));
                Ok(())
            }
            ByteUse::Value => self.push_value(byte),
            ByteUse::EndParam => self.end_param(alloc),
            ByteUse::EndLink => {
                self.end_param(alloc)?;
                self.end_link(alloc)
            }
        }
    }

    /// Puts a byte at the end of the value.
    fn push_value(&mut self, byte: u8) -> Result<(), NoMemory>
        ensures { OnOk result (self.new ≡ spec.value_more byte self.old) }
    {
        match &mut self.value {
            None => Ok(()),
            Some(value) => value.push(byte),
        }
    }

    /// Ends the parameter, if one has begun.
    pub fn end_param(&mut self, alloc: Global) -> Result<(), NoMemory>
        ensures { OnOk result (self.new ≡ spec.with_param_ended self.old) }
    {
        if self.name.is_empty() {
            return Ok(());
        }
        // Replaced, since nothing can be moved out of a reader that is lent.
        let name = replace(&mut self.name, Bytes::new(alloc));
        let value = replace(&mut self.value, None);
        self.params.push(Param { name, value })
    }

    /// Ends the link.
    pub fn end_link(&mut self, alloc: Global) -> Result<(), NoMemory>
        ensures { OnOk result (self.new ≡ spec.link_ended self.old) }
    {
        let target = replace(&mut self.target, Bytes::new(alloc));
        let params = replace(&mut self.params, Params::new(alloc));
        self.links.push(Link { target, params })
    }

    /// Ends a text that may end here.
    pub fn end_text(&mut self, alloc: Global) -> Result<(), NoMemory>
        ensures { OnOk result (self.new.links ≡ spec.links_at self.old.place self.old) }
    {
        match self.place {
            ReaderPlace::Start => Ok(()),
            _ => {
                self.end_param(alloc)?;
                self.end_link(alloc)
            }
        }
    }

    /// The links that have ended.
    pub fn into_links(self) -> Links
        ensures { result ≡ self.links }
    {
        self.links
    }
}
