//! The notes on a rehearsal as it goes on.

ghost use Rattle.std.specs.Prelude.{◌≡◌, ◌<◌, ◌^◌, length, OnOk};
ghost use Rattle.servient_rehearsal.specs.Noted.{noted_of, nothing_noted, id_in as id_at, with_datagram, with_ask, with_end, with_value, number_after};

use crate::NoMemory;
use crate::world::{AskEnd, AskMade, CLIENT, End, SERVIENT, SentDatagram, TakenValue, World};
use coap_msg::Endpoint;
use std::alloc::Global;
use wot_json::Bytes;

/// The world so far.
#[derive(Drop)]
pub struct Notes {
    pub alloc: Global,
    pub world: World,
    /// The number of the last ask that registered, and 0 where none did.
    pub registered: u32,
}

impl Notes {
    /// Nothing happened yet.
    pub fn new(alloc: Global) -> Self
        ensures noted { noted_of result.world ≡ nothing_noted }
        ensures registered { result.registered ≡ 0 }
    {
        Notes {
            alloc,
            world: World {
                sent: Vec::new(alloc),
                asks: Vec::new(alloc),
                ends: Vec::new(alloc),
                taken: Vec::new(alloc),
                moment: 0,
            },
            registered: 0,
        }
    }

    /// Notes that these bytes were sent now.
    pub fn sent(&mut self, from: Endpoint, to: Endpoint, bytes: &[u8]) -> Result<(), NoMemory>
        ensures noted { OnOk result (noted_of self.new.world ≡ with_datagram from to bytes.now (noted_of self.old.world)) }
        ensures registered { self.new.registered ≡ self.old.registered }
    {
        let bytes = Bytes::copy_of(self.alloc, bytes)?;
        let moment = self.world.moment;
        self.world.sent.push(SentDatagram {
            moment,
            from,
            to,
            bytes,
        })?;
        Ok(())
    }

    /// Notes that the client sent these bytes to ask for something, or to register.
    pub fn asked(&mut self, registers: bool, bytes: &[u8]) -> Result<(), NoMemory>
        requires { length self.old.world.asks.items < 2 ^ 32 }
        ensures noted { OnOk result (noted_of self.new.world ≡ with_ask bytes.now (noted_of self.old.world)) }
        ensures registered { OnOk result (self.new.registered ≡ number_after registers (length self.old.world.asks.items) self.old.registered) }
    {
        let ask = self.world.asks.len() as u32;
        let first = self.world.moment;
        self.world.asks.push(AskMade {
            ask,
            id: id_in(bytes),
            first,
        })?;
        if registers {
            self.registered = ask;
        }
        self.sent(CLIENT, SERVIENT, bytes)
    }

    /// Notes the end of the last ask.
    pub fn ended(&mut self, end: End) -> Result<(), NoMemory>
        requires { length self.old.world.asks.items < 2 ^ 32 }
        ensures noted { OnOk result (noted_of self.new.world ≡ with_end end (noted_of self.old.world)) }
        ensures registered { self.new.registered ≡ self.old.registered }
    {
        let ask = self.world.asks.len().saturating_sub(1) as u32;
        self.world.ends.push(AskEnd { ask, end })?;
        Ok(())
    }

    /// Notes that the client took a value of its observation.
    pub fn took(&mut self, value: &[u8]) -> Result<(), NoMemory>
        ensures noted { OnOk result (noted_of self.new.world ≡ with_value self.old.registered value.now (noted_of self.old.world)) }
        ensures registered { self.new.registered ≡ self.old.registered }
    {
        let value = Bytes::copy_of(self.alloc, value)?;
        let ask = self.registered;
        self.world.taken.push(TakenValue { ask, value })?;
        Ok(())
    }
}

/// The message ID in the bytes of a message (RFC 7252, section 3).
fn id_in(bytes: &[u8]) -> u16
    ensures { result ≡ id_at bytes.now }
{
    if bytes.len() < 4 {
        return 0;
    }
    u16::from(bytes[2]) * 256 + u16::from(bytes[3])
}
