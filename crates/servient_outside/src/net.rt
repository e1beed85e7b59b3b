//! The network: its events, the acts on it, and the view of it in contracts.

use crate::Place;
use coap_msg::Endpoint;
use servient_base::ConnectionId;
use std::alloc::Global;
use wot_json::{Bytes, Text};

/// The cause of an event. A connection has a number below 64, which names it until it has ended or is closed.
#[derive(Clone, Copy, Debug, PartialEq, Eq)]
pub enum What {
    /// A peer opened the connection of this number.
    Opened(ConnectionId),
    /// This many bytes came on this connection: at least one, and at most 4,096.
    Bytes(ConnectionId, usize),
    /// This connection has ended. Nothing more comes of it.
    Ended(ConnectionId),
    /// A datagram from an endpoint, of this many bytes: at most 2,048.
    Datagram(Endpoint, usize),
    /// Nothing but that time goes by.
    Tick,
    /// The end of the run.
    Stop,
}

impl What {
    ghost use Rattle.std.specs.Prelude.{◌≡◌};
    ghost use Rattle.servient_outside.specs.Network.{byte_count as bytes_of};

    /// The number of bytes that came with it.
    pub fn byte_count(&self) -> usize
        ensures { result ≡ bytes_of self.now }
    {
        match self {
            What::Bytes(_, count) => *count,
            What::Datagram(_, count) => *count,
            What::Opened(_) | What::Ended(_) | What::Tick | What::Stop => 0,
        }
    }
}

/// An event: its cause and its moment.
#[derive(Clone, Copy, Debug, PartialEq, Eq)]
pub struct Event {
    /// Milliseconds; at most 10^15.
    pub moment: u64,
    pub what: What,
}

/// An event and the bytes that came with it.
#[derive(Debug, Drop)]
pub struct EventWithBytes {
    pub event: Event,
    pub bytes: Bytes,
}

/// The answer of `Net::next`.
#[derive(Clone, Copy, Debug, PartialEq, Eq)]
pub enum Next {
    Got(Event),
    Failed,
}

/// The answer of `Net::listen`.
#[derive(Clone, Copy, Debug, PartialEq, Eq)]
pub enum Listened {
    Ready,
    Failed,
    NoMemory,
}

/// The answer of `Net::dial`.
#[derive(Clone, Copy, Debug, PartialEq, Eq)]
pub enum Dialled {
    /// The number of the connection.
    Connected(ConnectionId),
    Failed,
    NoMemory,
}

/// The answer of `Net::find`.
#[derive(Clone, Copy, Debug, PartialEq, Eq)]
pub enum Found {
    At(Endpoint),
    Failed,
    NoMemory,
}

/// An act on the network.
#[derive(Debug, Drop)]
pub enum Act {
    /// These bytes were sent on this connection.
    Sent(ConnectionId, Bytes),
    /// This connection was closed.
    Closed(ConnectionId),
    /// These bytes were sent as one datagram.
    Datagram(Endpoint, Bytes),
    /// It was to listen here.
    Listened(Place),
    /// A host and a port were dialled. The connection, if it was answered.
    Dialled(Text, u16, Option<ConnectionId>),
    /// A host and a port were looked up. The endpoint, if it was answered.
    Looked(Text, u16, Option<Endpoint>),
}

/// The network. Its moments are milliseconds, and a run is at moment 0 before its first event.
pub trait Net {
    ghost use Rattle.std.specs.Prelude.{◌≡◌, ◌++◌, [], ◌∷◌, length};
    ghost use Rattle.servient_outside.specs.declared.net.Act.TheVariants as act;
    ghost use Rattle.servient_outside.specs.Network.{NetSeen, NetShows, did, came, IsAnswer, IsConnection};
    ghost use Rattle.servient_outside.specs.Network.{listens_as, dials_as, finds_as};

    /// The view of it: the happenings so far, the events still to come, and the number of failures.
    ghost seen: { Self → NetSeen };

    /// Listens on both addresses.
    fn listen(&mut self, alloc: Global, place: &Place) -> Listened
        ensures { NetShows (seen self.old) (seen self.new) (listens_as place.now result) };

    /// The next event. Its bytes are put at the beginning of `buffer`, and the rest of the buffer is open.
    fn next(&mut self, buffer: &mut [u8]) -> Next
        requires { length buffer.old ≡ 4096 }
        ensures answer { IsAnswer result }
        ensures shows { NetShows (seen self.old) (seen self.new) (came result buffer.new ∷ []) };

    /// Sends `head` and then `body` on a connection. A real failure shows later, as the connection's end.
    fn send(&mut self, c: ConnectionId, head: &[u8], body: &[u8])
        ensures { NetShows (seen self.old) (seen self.new) (did (act.Sent c (head.now ++ body.now)) ∷ []) };

    /// Ends a connection, once all that was sent has gone. Nothing more comes of it.
    fn close(&mut self, c: ConnectionId)
        ensures { NetShows (seen self.old) (seen self.new) (did (act.Closed c) ∷ []) };

    /// Sends a datagram. A real failure shows later, as a datagram that never came.
    fn datagram(&mut self, to: Endpoint, bytes: &[u8])
        ensures { NetShows (seen self.old) (seen self.new) (did (act.Datagram to bytes.now) ∷ []) };

    /// Opens a connection to a host. No `Opened` comes for it.
    fn dial(&mut self, alloc: Global, host: &str, port: u16) -> Dialled
        ensures answer { IsConnection result }
        ensures shows { NetShows (seen self.old) (seen self.new) (dials_as host.now port result) };

    /// The endpoint to which datagrams to a host go.
    fn find(&mut self, alloc: Global, host: &str, port: u16) -> Found
        ensures { NetShows (seen self.old) (seen self.new) (finds_as host.now port result) };
}
