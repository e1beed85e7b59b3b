//! What the system was asked for, and what it answered.

use crate::{Ready, Refusal};
use coap_msg::Endpoint;
use wot_json::{Bytes, Text};

/// A datagram, and the endpoint that it came from.
#[derive(Debug, Drop)]
pub struct ReceivedDatagram {
    pub from: Endpoint,
    pub bytes: Bytes,
}

/// One call of the system: its arguments, and its answer. Times are in milliseconds but for the clock's.
#[derive(Debug, Drop)]
pub enum Asked {
    /// It was to be ready for sockets.
    Prepared(Result<(), Refusal>),
    /// The clock was read, in nanoseconds.
    Clock(Result<u64, Refusal>),
    /// It waited for sockets for at most this time, and these were ready.
    Polled(u64, Result<(), Refusal>, Ready),
    /// It let this time pass.
    Paused(u64, Result<(), Refusal>),
    /// The first IPv4 address of a host was looked up, for this port.
    Resolved(Text, u16, Result<Endpoint, Refusal>),
    /// It was to listen for connections here.
    Listened(Endpoint, Result<(), Refusal>),
    /// It was to receive datagrams here.
    Bound(Endpoint, Result<(), Refusal>),
    /// The next connection that waits was to be taken under this number.
    Accepted(u32, Result<(), Refusal>),
    /// A connection was to be opened under this number.
    Dialled(u32, Endpoint, Result<(), Refusal>),
    /// It waited for at most this time for the connection that was dialled. Whether something was reported.
    Awaited(u64, Result<bool, Refusal>),
    /// Whether a connection that was dialled is there.
    Connected(u32, Result<(), Refusal>),
    /// A connection was to be reported when it is ready, and to hold no piece back (TCP_NODELAY).
    Attached(u32, Result<(), Refusal>),
    /// The bytes that were read of a connection. Where there are none, its peer sends no more.
    Read(u32, Result<Bytes, Refusal>),
    /// The bytes that were to be written on a connection, and how many of them were taken.
    Wrote(u32, Bytes, Result<usize, Refusal>),
    /// Nothing more was to be written on a connection.
    ShutDown(u32, Result<(), Refusal>),
    /// A socket was given up.
    GivenUp(u32),
    /// A datagram was received. Of one that is longer than the buffer the rest is lost.
    Received(Result<ReceivedDatagram, Refusal>),
    /// A datagram was sent.
    SentTo(Endpoint, Bytes, Result<(), Refusal>),
}

/// A call of the system that has an answer, with the number of its connection where that matters.
#[derive(Clone, Copy, Debug, PartialEq, Eq)]
pub enum Call {
    Prepare,
    Now,
    Poll,
    Pause,
    Resolve,
    Listen,
    Bind,
    Accept,
    Dial,
    Await,
    Connected,
    Attach,
    Read(u32),
    Write(u32),
    ShutDown(u32),
    GiveUp,
    Receive,
    SendTo,
}

impl Asked {
    /// The call that it is.
    pub fn call(&self) -> Call {
        match self {
            Asked::Prepared(_) => Call::Prepare,
            Asked::Clock(_) => Call::Now,
            Asked::Polled(_, _, _) => Call::Poll,
            Asked::Paused(_, _) => Call::Pause,
            Asked::Resolved(_, _, _) => Call::Resolve,
            Asked::Listened(_, _) => Call::Listen,
            Asked::Bound(_, _) => Call::Bind,
            Asked::Accepted(_, _) => Call::Accept,
            Asked::Dialled(_, _, _) => Call::Dial,
            Asked::Awaited(_, _) => Call::Await,
            Asked::Connected(_, _) => Call::Connected,
            Asked::Attached(_, _) => Call::Attach,
            Asked::Read(number, _) => Call::Read(*number),
            Asked::Wrote(number, _, _) => Call::Write(*number),
            Asked::ShutDown(number, _) => Call::ShutDown(*number),
            Asked::GivenUp(_) => Call::GiveUp,
            Asked::Received(_) => Call::Receive,
            Asked::SentTo(_, _, _) => Call::SendTo,
        }
    }
    /// The outcome of a call that does something or is refused.
    pub fn outcome(&self) -> Result<(), Refusal> {
        match self {
            Asked::Prepared(answer) => *answer,
            Asked::Polled(_, answer, _) => *answer,
            Asked::Paused(_, answer) => *answer,
            Asked::Listened(_, answer) => *answer,
            Asked::Bound(_, answer) => *answer,
            Asked::Accepted(_, answer) => *answer,
            Asked::Dialled(_, _, answer) => *answer,
            Asked::Connected(_, answer) => *answer,
            Asked::Attached(_, answer) => *answer,
            Asked::ShutDown(_, answer) => *answer,
            Asked::SentTo(_, _, answer) => *answer,
            _ => Ok(()),
        }
    }

    /// The time that the clock gave.
    pub fn time(&self) -> Result<u64, Refusal> {
        match self {
            Asked::Clock(answer) => *answer,
            _ => Ok(0),
        }
    }

    /// The address of a host.
    pub fn address(&self) -> Result<Endpoint, Refusal> {
        match self {
            Asked::Resolved(_, _, answer) => *answer,
            _ => Err(Refusal::NotNow),
        }
    }

    /// Whether something was reported of the connection that was dialled.
    pub fn is_reported(&self) -> Result<bool, Refusal> {
        match self {
            Asked::Awaited(_, answer) => *answer,
            _ => Ok(true),
        }
    }

    /// Says which sockets were ready, and the outcome of the wait.
    pub fn report(&self, ready: &mut Ready) -> Result<(), Refusal> {
        if let Asked::Polled(_, _, numbers) = self {
            ready.copy_from(numbers);
        }
        self.outcome()
    }
}
