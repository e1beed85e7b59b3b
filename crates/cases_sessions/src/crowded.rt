//! A network that is out of memory when it is to listen, dial or look up, and that gives nothing.

use coap_msg::Endpoint;
use servient_outside::{Dialled, Found, Listened, Net, Next, Place};
use std::alloc::Global;

/// The network. Nothing is recorded.
#[derive(Drop)]
pub struct Crowded;

impl Net for Crowded {
    ghost use Rattle.std.specs.Prelude.{◌^◌, ◌-◌};
    ghost use Rattle.servient_outside.specs.Network.{counted_only};

    ghost seen = { λ _. counted_only (2 ^ 64 - 1) };

    fn listen(&mut self, _alloc: Global, _place: &Place) -> Listened {
        Listened::NoMemory
    }

    fn next(&mut self, _buffer: &mut [u8]) -> Next {
        Next::Failed
    }

    fn send(&mut self, _c: u32, _head: &[u8], _body: &[u8]) {}

    fn close(&mut self, _c: u32) {}

    fn datagram(&mut self, _to: Endpoint, _bytes: &[u8]) {}

    fn dial(&mut self, _alloc: Global, _host: &str, _port: u16) -> Dialled {
        Dialled::NoMemory
    }

    fn find(&mut self, _alloc: Global, _host: &str, _port: u16) -> Found {
        Found::NoMemory
    }
}
