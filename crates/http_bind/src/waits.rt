//! The requests that wait for the next emission of a target, in the order in which they began to wait.

use servient_base::{ConnectionId, Target};
use std::alloc::Global;
use std::marker::Model;
use thing_ops::NoMemory;

/// The most requests that may wait: one of each connection.
const CAPACITY: usize = 64;

/// The longest time for which a request waits, in milliseconds.
const LATE_AFTER: u64 = 60_000;

/// A request that waits.
#[derive(Clone, Copy, Debug, Drop)]
pub struct Wait {
    /// The connection that it came on.
    pub connection: ConnectionId,
    /// The target for whose emission it waits.
    pub target: Target,
    /// The moment at which it began to wait, in milliseconds.
    pub since: u64,
}

/// The requests that wait. Contracts see them, the oldest first.
#[derive(Drop)]
pub struct Waits {
    list: Vec<Wait>,
}

impl Model for Waits {
    ghost use Rattle.std.specs.Prelude.{◌≤◌, List, vec_capacity};
    ghost use Rattle.http_bind.specs.declared.waits.Wait.{Wait as PlainWait};

    ghost Value = { List PlainWait };

    ghost view = { λ w. w.list.items };

    ghost invariant = { λ w. 64 ≤ vec_capacity w.list };
}

impl Waits {
    ghost use Rattle.std.specs.Prelude.{◌≡◌, ◌<◌, ◌++◌, ◌∷◌, [], length, IfOk};
    ghost use Rattle.http_bind.specs.Streams.{other_waits, oldest_for, oldest_late};

    /// None waits. All memory is taken here.
    pub fn new(alloc: Global) -> Result<Waits, NoMemory>
        ensures { IfOk result (λ w. w ≡ []) }
    {
        let list = Vec::with_capacity(alloc, CAPACITY)?;
        Ok(Waits { list })
    }

    /// One more waits, behind all others.
    pub fn push(&mut self, wait: Wait)
        requires { length self.old < 64 }
        ensures { self.new ≡ self.old ++ wait ∷ [] }
    {
        // Never out of memory, since the room was taken at first and fewer than it holds wait.
        self.list.push(wait).unwrap();
    }

    /// A connection waits no longer, if it did.
    pub fn remove(&mut self, c: ConnectionId)
        ensures { self.new ≡ other_waits c self.old }
    {
        self.list.retain(|wait| wait.connection != c);
    }

    /// The connection that waits longest for a target.
    pub fn oldest_for(&self, target: Target) -> Option<ConnectionId>
        ensures { result ≡ oldest_for target self.now }
    {
        first_of(self.list.as_slice(), target)
    }

    /// The connection that waits longest, if it is late.
    pub fn oldest_late(&self, now: u64) -> Option<ConnectionId>
        ensures { result ≡ oldest_late now self.now }
    {
        first_late(self.list.as_slice(), now)
    }
}

ghost use Rattle.std.specs.Prelude.{◌≡◌};
ghost use Rattle.http_bind.specs.Streams.{oldest_for as oldest_wait_for, oldest_late as oldest_late_wait};

/// The connection of the first wait of a target. It is a function, since the search proves
/// `find` in a function alone.
fn first_of(list: &[Wait], target: Target) -> Option<ConnectionId>
    ensures { result ≡ oldest_wait_for target list.now }
{
    match list.iter().find(|wait| wait.target == target) {
        Some(wait) => Some(wait.connection),
        None => None,
    }
}

/// The connection of the first wait that is late.
fn first_late(list: &[Wait], now: u64) -> Option<ConnectionId>
    ensures { result ≡ oldest_late_wait now list.now }
{
    match list
        .iter()
        .find(|wait| now.saturating_sub(wait.since) >= LATE_AFTER)
    {
        Some(wait) => Some(wait.connection),
        None => None,
    }
}
