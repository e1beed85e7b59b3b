//! One connection: the bytes that its socket hasn't taken yet, and the moment at which it was closed. The socket is the
//! system's, by the connection's number.

ghost use Rattle.std.specs.Prelude.{◌≡◌, ◌≤◌, ◌++◌, [], true, false, None, IsSome, IfOk, OnErr, is_some, length};
ghost use Rattle.servient_edge.specs.Connection.{TookAt, IsEnd, KeepsRest, Leaves, sent_by};

use crate::kept::Kept;
use crate::sending::{flush, send};
use crate::turns::Took;
use servient_base::ConnectionId;
use servient_system::{Refusal, System};
use std::alloc::Global;

// The milliseconds that a closed connection waits for its peer, once all is sent (RFC 9112, section 9.6).
const LINGER: u64 = 2000;

// The milliseconds that a closed connection waits for its peer to take something of what is kept.
const STALLED: u64 = 30_000;

/// A connection.
#[derive(Drop)]
pub struct Connection {
    kept: Kept,
    // The moment at which the connection was closed, or at which the socket last took bytes since.
    closed: Option<u64>,
}

impl Connection {
    ghost use Rattle.servient_edge.specs.Connection.{has_any, is_over_at};

    /// A connection that is open.
    pub fn new(alloc: Global) -> Connection
        ensures closed { result.closed ≡ None }
        ensures kept { result.kept ≡ [] }
    {
        Connection {
            kept: Kept::new(alloc),
            closed: None,
        }
    }

    /// Whether something is kept.
    pub fn has_kept(&self) -> bool
        ensures { result ≡ has_any self.now.kept }
    {
        self.kept.len() > 0
    }

    /// Whether the connection was closed and its peer has had its time.
    pub fn is_over(&self, moment: u64) -> bool
        ensures over { result ≡ is_over_at self.now moment }
        ensures closed { result ≡ true → IsSome self.now.closed }
    {
        match self.closed {
            Some(since) => {
                let limit = if self.has_kept() { STALLED } else { LINGER };
                moment.saturating_sub(since) >= limit
            }
            None => false,
        }
    }

    /// Writes what is kept, and reads once. As long as something is kept, an open connection isn't read, so that a peer
    /// that doesn't read is served no further.
    #[tactic(auto, using(crate::proofs::ConnectionLaws::leaves_at_end))]
    pub fn turn<S: System>(
        &mut self,
        system: &mut S,
        c: ConnectionId,
        buffer: &mut [u8],
        moment: u64,
    ) -> Took
        requires { length buffer.old ≡ 4096 }
        ensures took { TookAt (is_some self.old.closed) result }
        ensures closed { is_some self.new.closed ≡ is_some self.old.closed }
        ensures kept { Leaves self.old.kept result self.new.kept }
    {
        if self.flush(system, c, moment).is_err() {
            return self.gone();
        }
        if self.closed.is_none() && self.has_kept() {
            return Took::Nothing;
        }
        match system.read(c, buffer) {
            Ok(count) => self.took(count),
            Err(refusal) => {
                if refusal == Refusal::NotNow {
                    Took::Nothing
                } else {
                    self.gone()
                }
            }
        }
    }

    /// The result of a read of n bytes; 0 is the end of what the peer sends.
    fn took(&self, count: usize) -> Took
        requires { count ≤ 4096 }
        ensures { TookAt (is_some self.now.closed) result }
    {
        if count == 0 {
            if self.has_kept() {
                Took::Nothing
            } else {
                self.gone()
            }
        } else if self.closed.is_some() {
            Took::Unwanted
        } else {
            Took::Bytes(count)
        }
    }

    /// The result of the end of the connection.
    fn gone(&self) -> Took
        ensures took { TookAt (is_some self.now.closed) result }
        ensures end { IsEnd result }
    {
        match self.closed {
            Some(_) => Took::Over,
            None => Took::Ended,
        }
    }

    /// Writes at once what the socket takes, and keeps the rest. After a refusal the connection is of no more use.
    pub fn send<S: System>(
        &mut self,
        system: &mut S,
        c: ConnectionId,
        head: &[u8],
        body: &[u8],
    ) -> Result<(), Refusal>
        ensures kept { IfOk result (λ _. KeepsRest self.old.kept (sent_by self.old (head.now ++ body.now)) self.new.kept) }
        ensures closed { self.new.closed ≡ self.old.closed }
        ensures failed { OnErr result (is_some self.old.closed ≡ false) }
    {
        if self.closed.is_some() {
            return Ok(());
        }
        send(system, c, &mut self.kept, head, body)
    }

    /// Ends what is sent, once all that is kept has gone. After a refusal the connection is of no more use.
    pub fn close<S: System>(
        &mut self,
        system: &mut S,
        c: ConnectionId,
        moment: u64,
    ) -> Result<(), Refusal>
        ensures closed { IsSome self.new.closed }
        ensures kept { self.new.kept ≡ self.old.kept }
    {
        if self.closed.is_some() {
            return Ok(());
        }
        self.closed = Some(moment);
        if self.has_kept() {
            return Ok(());
        }
        system.shut_down(c)
    }

    /// One write of what is kept. Where the socket takes less, the system reports when it has room.
    pub fn flush<S: System>(
        &mut self,
        system: &mut S,
        c: ConnectionId,
        moment: u64,
    ) -> Result<(), Refusal>
        ensures kept { IfOk result (λ _. KeepsRest self.old.kept [] self.new.kept) }
        ensures closed { is_some self.new.closed ≡ is_some self.old.closed }
    {
        if !self.has_kept() {
            return Ok(());
        }
        let count = flush(system, c, &mut self.kept)?;
        self.taken_at(system, c, count, moment)
    }

    /// So many bytes of what was kept were taken. Where the connection is closed, its peer has its time from now, and
    /// what is sent ends once nothing is kept.
    fn taken_at<S: System>(
        &mut self,
        system: &mut S,
        c: ConnectionId,
        count: usize,
        moment: u64,
    ) -> Result<(), Refusal>
        ensures kept { self.new.kept ≡ self.old.kept }
        ensures closed { is_some self.new.closed ≡ is_some self.old.closed }
    {
        if self.closed.is_none() || count == 0 {
            return Ok(());
        }
        self.closed = Some(moment);
        if self.has_kept() {
            return Ok(());
        }
        system.shut_down(c)
    }
}
