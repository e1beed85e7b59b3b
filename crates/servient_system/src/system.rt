//! The system calls that a network over sockets needs, and the view of them in contracts.

use crate::{Asked, Ready, Refusal};
use coap_msg::Endpoint;
use std::alloc::Global;

/// A datagram that was received: the endpoint that it came from, and the number of its bytes.
#[derive(Clone, Copy, Debug, PartialEq, Eq)]
pub struct Arrived {
    pub from: Endpoint,
    pub count: usize,
}

/// The machine, as far as a network over sockets asks it. Connections are named by numbers below 64 that the caller
/// gave them; 64 is the listener, and 65 the socket for datagrams. No call waits but `poll`, `pause`, `poll_dialled` and
/// `resolve`. Only IPv4 is used; an endpoint has an address in its mapped form.
pub trait System {
    ghost use Rattle.std.specs.Prelude.{◌≡◌, ◌≤◌, ◌++◌, [], ◌∷◌, List, Option, IfOk, length};
    ghost use Rattle.servient_outside.specs.Told.{Continues};
    ghost use Rattle.servient_system.specs.declared.asked.Asked.{Asked};
    ghost use Rattle.servient_system.specs.declared.asked.Asked.TheVariants as asked_as;
    ghost use Rattle.servient_system.specs.System.{bytes_read, datagram_received};

    /// What was asked and answered, in order, where it is recorded.
    ghost asked: { Self → Option (List Asked) };

    /// Is ready for sockets from now on. It takes its memory here, the first time.
    fn prepare(&mut self, alloc: Global) -> Result<(), Refusal>
        ensures { Continues (asked self.old) (asked self.new) (asked_as.Prepared result ∷ []) };

    /// The nanoseconds that have passed since a time that stays the same.
    fn now(&mut self) -> Result<u64, Refusal>
        ensures { Continues (asked self.old) (asked self.new) (asked_as.Clock result ∷ []) };

    /// Waits for at most so many milliseconds until a socket is ready, and says which are. Each is reported once, until
    /// a call on it is refused with `NotNow`.
    fn poll(&mut self, wait: u64, ready: &mut Ready) -> Result<(), Refusal>
        ensures { Continues (asked self.old) (asked self.new) (asked_as.Polled wait result ready.new ∷ []) };

    /// Lets so many milliseconds pass.
    fn pause(&mut self, wait: u64) -> Result<(), Refusal>
        ensures { Continues (asked self.old) (asked self.new) (asked_as.Paused wait result ∷ []) };

    /// The first IPv4 address of a host, which is an address in text or a name.
    fn resolve(&mut self, host: &str, port: u16) -> Result<Endpoint, Refusal>
        ensures { Continues (asked self.old) (asked self.new) (asked_as.Resolved host.now port result ∷ []) };

    /// Listens for connections, which is reported under the number 64.
    fn listen(&mut self, at: Endpoint) -> Result<(), Refusal>
        ensures { Continues (asked self.old) (asked self.new) (asked_as.Listened at result ∷ []) };

    /// Receives datagrams, which is reported under the number 65. A socket that did before is given up.
    fn bind(&mut self, at: Endpoint) -> Result<(), Refusal>
        ensures { Continues (asked self.old) (asked self.new) (asked_as.Bound at result ∷ []) };

    /// Takes the next connection that waits at the listener. It has this number from now on.
    fn accept(&mut self, number: u32) -> Result<(), Refusal>
        ensures { Continues (asked self.old) (asked self.new) (asked_as.Accepted number result ∷ []) };

    /// Begins to open a connection, which has this number from now on.
    fn dial(&mut self, number: u32, to: Endpoint) -> Result<(), Refusal>
        ensures { Continues (asked self.old) (asked self.new) (asked_as.Dialled number to result ∷ []) };

    /// Waits for at most so many milliseconds until something is reported of the connection that was dialled last.
    /// Whether something is.
    fn poll_dialled(&mut self, wait: u64) -> Result<bool, Refusal>
        ensures { Continues (asked self.old) (asked self.new) (asked_as.Awaited wait result ∷ []) };

    /// Whether the connection of this number is there; its error, where it isn't.
    fn connected(&mut self, number: u32) -> Result<(), Refusal>
        ensures { Continues (asked self.old) (asked self.new) (asked_as.Connected number result ∷ []) };

    /// A connection holds no piece back (TCP_NODELAY), and is reported under its number from now on.
    fn attach(&mut self, number: u32) -> Result<(), Refusal>
        ensures { Continues (asked self.old) (asked self.new) (asked_as.Attached number result ∷ []) };

    /// Reads once from a connection, into the beginning of a buffer. 0 bytes are the end of what its peer sends.
    fn read(&mut self, number: u32, buffer: &mut [u8]) -> Result<usize, Refusal>
        ensures bound { IfOk result (λ count. count ≤ length buffer.old) }
        ensures asked { Continues (asked self.old) (asked self.new) (asked_as.Read number (bytes_read result buffer.new) ∷ []) };

    /// Writes once on a connection, `head` and then `body`. It gives the number of their bytes that were taken.
    fn write(&mut self, number: u32, head: &[u8], body: &[u8]) -> Result<usize, Refusal>
        ensures bound { IfOk result (λ count. count ≤ length (head.now ++ body.now)) }
        ensures asked { Continues (asked self.old) (asked self.new) (asked_as.Wrote number (head.now ++ body.now) result ∷ []) };

    /// Nothing more is written on a connection. What was written goes.
    fn shut_down(&mut self, number: u32) -> Result<(), Refusal>
        ensures { Continues (asked self.old) (asked self.new) (asked_as.ShutDown number result ∷ []) };

    /// Closes the socket of this number, if there is one.
    fn give_up(&mut self, number: u32)
        ensures { Continues (asked self.old) (asked self.new) (asked_as.GivenUp number ∷ []) };

    /// Receives the next datagram that waits, into the beginning of a buffer. What doesn't fit is lost.
    fn receive(&mut self, buffer: &mut [u8]) -> Result<Arrived, Refusal>
        ensures bound { IfOk result (λ arrived. arrived.count ≤ length buffer.old) }
        ensures asked { Continues (asked self.old) (asked self.new) (asked_as.Received (datagram_received result buffer.new) ∷ []) };

    /// Sends a datagram.
    fn send_to(&mut self, to: Endpoint, bytes: &[u8]) -> Result<(), Refusal>
        ensures { Continues (asked self.old) (asked self.new) (asked_as.SentTo to bytes.now result ∷ []) };
}
