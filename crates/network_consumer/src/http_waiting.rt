//! A request was sent over HTTP, and its reply is awaited.

ghost use Rattle.std.specs.Prelude.{◌≡◌, ◌++◌, IsNone, OnOk};
ghost use Rattle.servient_outside.specs.Network.{NetSeen};
ghost use Rattle.network_consumer.specs.Deeds.{put_in, sight, Shows};
ghost use Rattle.network_consumer.specs.Answers.{CanBeJudged};
ghost use Rattle.network_consumer.specs.Waiting.{event_of};
ghost use Rattle.network_consumer.specs.HttpWaiting.{waiting_on, bytes_on, Brings, HearsByHttp, after_event};
ghost use Rattle.network_consumer.specs.HttpWaiting.{at_deadline as ends_at_deadline};

use crate::answers::{Verdict, receive};
use crate::printing::close;
use crate::waiting::Came;
use crate::{ClientTask, Consumed, ConsumedOutcome};
use servient_base::{ConnectionId, NoMemory};
use servient_outside::{Out, What};
use std::alloc::Global;
use wot_json::Bytes;

/// The number of milliseconds after the request, which is sent at moment 0, until which its reply is awaited.
const DEADLINE: u64 = 60_000;

/// The state of waiting for a reply.
#[derive(Drop)]
pub struct HttpWaiting {
    /// The number of the connection.
    pub connection: ConnectionId,
    /// The greatest moment so far, in milliseconds.
    pub moment: u64,
    /// All bytes that came on the connection.
    pub received: Bytes,
}

impl HttpWaiting {
    /// Nothing came yet on this connection.
    pub fn new(alloc: Global, connection: ConnectionId) -> Self
        ensures { result ≡ waiting_on connection }
    {
        HttpWaiting {
            connection,
            moment: 0,
            received: Bytes::new(alloc),
        }
    }

    /// Takes an event, prints what it brings, and says how the operation ends by it, or that it goes on.
    pub fn hear<O: Out>(
        &mut self,
        task: &ClientTask<'_>,
        came: &Came<'_>,
        out: &mut O,
    ) -> Option<Consumed>
        requires { CanBeJudged task.now.purpose }
        ensures hears { (n : NetSeen) → Shows (λ deeds. HearsByHttp task.now.purpose self.old (event_of came.now) deeds result)
            (sight n (O.seen out.old)) (sight n (O.seen out.new)) (put_in result) }
        ensures waits { IsNone result → self.new ≡ after_event self.old (event_of came.now) }
    {
        self.moment = self.moment.max(came.event.moment);
        match self.take(task, came) {
            Some(verdict) => Some(close(verdict, out)),
            None => at_deadline(self.moment),
        }
    }

    /// Keeps the bytes that came, and gives the verdict on them.
    fn take(&mut self, task: &ClientTask<'_>, came: &Came<'_>) -> Option<Verdict>
        requires { CanBeJudged task.now.purpose }
        ensures brings { Brings task.now.purpose self.old.connection
            (self.old.received ++ bytes_on self.old.connection came.now.event.what came.now.bytes.now) came.now.event.what result }
        ensures waits { IsNone result → self.new ≡ record self.old {
          received = self.old.received ++ bytes_on self.old.connection came.now.event.what came.now.bytes.now;
        } }
        ensures moment { self.new.moment ≡ self.old.moment }
    {
        match self.keep(came.event.what, came.bytes) {
            Ok(()) => self.came(task, came.event.what),
            Err(_) => Some(Verdict::NoMemory),
        }
    }

    /// Keeps the bytes that came on its connection.
    fn keep(&mut self, what: What, bytes: &[u8]) -> Result<(), NoMemory>
        ensures ok { OnOk result (self.new ≡ record self.old { received = self.old.received ++ bytes_on self.old.connection what bytes.now }) }
        ensures moment { self.new.moment ≡ self.old.moment }
    {
        match what {
            What::Bytes(connection, _) if connection == self.connection => self
                .received
                .extend(bytes),
            _ => Ok(()),
        }
    }

    /// The verdict on the bytes that came, which were kept; none where it goes on.
    fn came(&self, task: &ClientTask<'_>, what: What) -> Option<Verdict>
        requires { CanBeJudged task.now.purpose }
        ensures { Brings task.now.purpose self.now.connection self.now.received what result }
    {
        match what {
            What::Bytes(connection, _) if connection == self.connection => {
                receive(task, self.received.as_slice(), false)
            }
            What::Ended(connection) if connection == self.connection => {
                receive(task, self.received.as_slice(), true)
            }
            What::Stop => Some(Verdict::Outcome(ConsumedOutcome::Stopped)),
            _ => None,
        }
    }
}

/// The end of the operation at this moment where nothing else ended it; none where it goes on.
fn at_deadline(moment: u64) -> Option<Consumed>
    ensures { result ≡ ends_at_deadline moment }
{
    if DEADLINE <= moment {
        Some(Consumed::Silent)
    } else {
        None
    }
}
