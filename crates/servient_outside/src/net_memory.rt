//! A network in memory: it gives a list of events and a Stop, and keeps the acts on it. It records all that happened,
//! in order, as long as there was memory for each act.

ghost use Rattle.std.specs.Prelude.{◌≡◌, ◌≤◌, ◌<◌, ◌+◌, ◌-◌, ◌^◌, ◌++◌, ℕ, [], ◌∷◌, Some, IfOk, IfSome, length, min};
ghost use Rattle.servient_outside.specs.Ending.{last_moment as moment_of_last, with_stop};
ghost use Rattle.servient_outside.specs.Order.{given_by, made_by, steps};

use crate::act_log::ActLog;
use crate::calls::CallCount;
use crate::{
    Act, Calls, Dialled, Event, EventWithBytes, Events, Found, Listened, Net, Next, Place, What,
    acts,
};
use coap_msg::Endpoint;
use servient_base::{ConnectionId, NoMemory};
use std::alloc::Global;
use wot_json::Bytes;

/// The connection that each call of `dial` gives.
const DIALLED: ConnectionId = 0;

/// The host at which each call of `find` finds.
const FOUND: u128 = 2;

/// A network in memory. It gives its events in order, and after the last one a `Stop` at the last event's moment, or at
/// 0 where there is none. From then on it gives that `Stop` again and again. Whatever is dialled is the connection 0, and
/// every host is found as the host 2, with no regard to what its events open.
#[derive(Drop)]
pub struct NetMemory {
    alloc: Global,
    // The events that it has to give, the Stop at the end with them.
    events: Events,
    // The number of those that were given.
    given: usize,
    stop_moment: u64,
    calls: CallCount,
    // The number of calls of `next` that came once the number of those after the last act was at its last value.
    uncounted: u64,
    faults: u64,
    log: ActLog,
    ghost moment_in_bounds: { stop_moment ≤ 10 ^ 15 },
    ghost given_in_bounds: { given ≤ length events },
    ghost since_in_bounds: { calls.fails ≡ [] → given < length events → log.since ≤ given },
    ghost made_by_steps: { uncounted ≡ 0 → log.lost ≡ 0
        → calls.made ≡ made_by (steps log.gaps.items log.acts.items log.since) 0 },
    ghost given_by_steps: { uncounted ≡ 0 → log.lost ≡ 0
        → given ≡ min (given_by calls.fails (steps log.gaps.items log.acts.items log.since) 0 0) (length events) },
}

/// The moment of the last event, or 0 where there is none.
fn last_moment(events: &Events) -> u64
    ensures moment { result ≡ moment_of_last events.now }
    ensures bounds { result ≤ 10 ^ 15 }
{
    match events.len().checked_sub(1) {
        Some(last) => events.at(last).event.moment,
        None => 0,
    }
}

/// The number of calls that weren't counted after one more, where n were counted before.
fn uncounted_after(since: u64, uncounted: u64) -> u64
    ensures counted { result ≡ 0 → (uncounted ≡ 0) × (since < 2 ^ 64 - 1) }
    ensures unchanged { since < 2 ^ 64 - 1 → result ≡ uncounted }
{
    if since == u64::MAX {
        uncounted.saturating_add(1)
    } else {
        uncounted
    }
}

impl NetMemory {
    ghost use Rattle.std.specs.Prelude.{IsSome};
    ghost use Rattle.servient_outside.specs.Network.{acts_in};
    ghost use Rattle.servient_outside.specs.NetMemory.{kept_acts, lost_acts, left_events, told_history, IsFresh};
    ghost use Rattle.servient_outside.specs.CallCount.{after_call};
    ghost use Rattle.servient_outside.specs.NetMemory.{calls_of, fault_count, IsNoCall, IsCall};
    ghost use Rattle.servient_outside.specs.NetMemory.{GoesOnBy, KeepsEvents, KeepsOrCounts, KeepsRest};

    /// A network that gives these events, and whose calls of `listen`, `next`, `dial` and `find` of these numbers fail.
    /// The Stop at the end is put there now, so that giving it takes no memory.
    pub fn new(alloc: Global, events: Events, fails: Calls) -> Result<NetMemory, NoMemory>
        ensures history { IfOk result (λ n. (⟦<NetMemory as Net>⟧.seen n).history ≡ Some []) }
        ensures left { fails ≡ []
            → IfOk result (λ n. (⟦<NetMemory as Net>⟧.seen n).left ≡ Some (with_stop events)) }
        ensures fresh { IfOk result (λ n. IsFresh n events fails) }
    {
        let stop_moment = last_moment(&events);
        let mut events = events;
        events.push(EventWithBytes {
            event: Event {
                moment: stop_moment,
                what: What::Stop,
            },
            bytes: Bytes::new(alloc),
        })?;
        Ok(NetMemory {
            alloc,
            events,
            given: 0,
            stop_moment,
            calls: CallCount { fails, made: 0 },
            uncounted: 0,
            faults: 0,
            log: ActLog::new(alloc),
        })
    }

    /// The acts that were kept, in order. They are all that were made where `lost` is 0.
    pub fn acts(&self) -> &[Act]
        ensures kept { result.now ≡ kept_acts self.now }
        ensures told { IfSome (told_history self.now) (λ happened. acts_in happened ≡ result.now) }
        ensures tells { lost_acts self.now ≡ 0 → IsSome (left_events self.now)
            → IsSome (told_history self.now) }
    {
        self.log.acts.as_slice()
    }

    /// The number of acts that were lost out of memory. At its last value, 2^64 - 1, it stays.
    pub fn lost(&self) -> u64
        ensures { result ≡ lost_acts self.now }
    {
        self.log.lost
    }

    /// Keeps an act that can't fail.
    fn keep(&mut self, act: Result<Act, NoMemory>)
        requires { IfOk act IsNoCall }
        ensures history { (done : Act) → IfOk act (λ a. a ≡ done) → GoesOnBy self.old self.new done }
        ensures kept_or_counted { (done : Act) → IfOk act (λ a. a ≡ done) → KeepsOrCounts self.old self.new done }
        ensures left { left_events self.new ≡ left_events self.old }
        ensures events_stay { KeepsEvents self.old self.new }
    {
        self.log.keep(act);
    }

    /// Counts a call that may fail, and keeps its act.
    fn keep_call(&mut self, act: Result<Act, NoMemory>)
        requires { IfOk act IsCall }
        ensures history { (done : Act) → IfOk act (λ a. a ≡ done) → GoesOnBy self.old self.new done }
        ensures kept_or_counted { (done : Act) → IfOk act (λ a. a ≡ done) → KeepsOrCounts self.old self.new done }
        ensures left { left_events self.new ≡ left_events self.old }
        ensures rest_stays { KeepsRest self.old self.new }
        ensures calls { calls_of self.new ≡ after_call (calls_of self.old) }
        ensures faults { fault_count self.new ≡ fault_count self.old }
    {
        self.calls.made = self.calls.made.saturating_add(1);
        self.log.keep(act);
    }
}

impl Net for NetMemory {
    ghost use Rattle.std.specs.Prelude.{◌≡◌, ◌≤◌, ◌≢◌, ◌↔◌, [], ◌∷◌, ◌++◌, length};
    ghost use Rattle.servient_base.specs.Count.{one_more, raised};
    ghost use Rattle.servient_outside.specs.Network.{break_count, NetShows, did, came, IsAnswer, IsConnection};
    ghost use Rattle.servient_outside.specs.Network.{listens_as, dials_as, finds_as};
    ghost use Rattle.servient_outside.specs.CallCount.{FailsNext, after_call};
    ghost use Rattle.servient_outside.specs.NetMemory.{calls_of, rest_of, stop_moment_of, fault_count, net_seen};
    ghost use Rattle.servient_outside.specs.NetMemory.{TakesFrom, GoesOnTelling, KeepsActs, KeepsEvents, KeepsRest, KeepsOrCounts};
    ghost use Rattle.servient_outside.specs.NetMemory.{listen_answer, dial_answer, find_answer, dialled_in, looked_in};

    ghost seen = { net_seen };

    /// Failed where the call's number is in the list that `new` took, else Ready.
    fn listen(&mut self, alloc: Global, place: &Place) -> Listened
        ensures shows { NetShows (net_seen self.old) (net_seen self.new) (listens_as place.now result) }

        ensures answers { result ≡ listen_answer (calls_of self.old) }
        ensures calls { calls_of self.new ≡ after_call (calls_of self.old) }
        ensures faults { fault_count self.new
            ≡ raised (break_count (listens_as place.now result)) (fault_count self.old) }
        ensures kept_or_counted { KeepsOrCounts self.old self.new (Act.Listened place.now) }
        ensures rest_stays { KeepsRest self.old self.new }
    {
        // Asked before the act is kept, since keeping it counts the call.
        let fails = self.calls.is_next_failing();
        self.keep_call(acts::listened(alloc, place));
        if fails {
            self.faults = self.faults.saturating_add(1);
            return Listened::Failed;
        }
        Listened::Ready
    }

    /// Failed where the call's number is in the list that `new` took; no event is lost by it.
    fn next(&mut self, buffer: &mut [u8]) -> Next
        requires { length buffer.old ≡ 4096 }
        ensures answer { IsAnswer result }
        ensures shows { NetShows (net_seen self.old) (net_seen self.new) (came result buffer.new ∷ []) }

        // The calls that fail, and the network after them.
        ensures fails { (result ≡ Next.Failed) ↔ FailsNext (calls_of self.old) }
        ensures calls { calls_of self.new ≡ after_call (calls_of self.old) }
        ensures counted { result ≡ Next.Failed → fault_count self.new ≡ one_more (fault_count self.old) }
        ensures no_fault { result ≢ Next.Failed → fault_count self.new ≡ fault_count self.old }

        // With any calls that fail, the list is given in order.
        ensures takes { TakesFrom (rest_of self.old) (rest_of self.new) (stop_moment_of self.old)
            result buffer.new }
        ensures stop_moment { stop_moment_of self.new ≡ stop_moment_of self.old }
        ensures told { GoesOnTelling self.old self.new }
        ensures acts_stay { KeepsActs self.old self.new }
    {
        self.uncounted = uncounted_after(self.log.since, self.uncounted);
        self.log.since = self.log.since.saturating_add(1);
        if self.calls.next_fails() {
            self.faults = self.faults.saturating_add(1);
            return Next::Failed;
        }
        if self.given < self.events.len() {
            let next = self.events.at(self.given);
            let event = next.event;
            let bytes = next.bytes.as_slice();
            buffer[..bytes.len()].copy_from_slice(bytes);
            self.given += 1;
            return Next::Got(event);
        }
        Next::Got(Event {
            moment: self.stop_moment,
            what: What::Stop,
        })
    }

    /// An act whose keeping is out of memory isn't kept, and counts as lost.
    fn send(&mut self, c: ConnectionId, head: &[u8], body: &[u8])
        ensures shows { NetShows (net_seen self.old) (net_seen self.new)
            (did (Act.Sent c (head.now ++ body.now)) ∷ []) }

        ensures kept_or_counted { KeepsOrCounts self.old self.new (Act.Sent c (head.now ++ body.now)) }
        ensures events_stay { KeepsEvents self.old self.new }
    {
        self.keep(acts::sent(self.alloc, c, head, body));
    }

    /// As for `send`.
    fn close(&mut self, c: ConnectionId)
        ensures shows { NetShows (net_seen self.old) (net_seen self.new) (did (Act.Closed c) ∷ []) }

        ensures kept_or_counted { KeepsOrCounts self.old self.new (Act.Closed c) }
        ensures events_stay { KeepsEvents self.old self.new }
    {
        self.keep(Ok(Act::Closed(c)));
    }

    /// As for `send`.
    fn datagram(&mut self, to: Endpoint, bytes: &[u8])
        ensures shows { NetShows (net_seen self.old) (net_seen self.new) (did (Act.Datagram to bytes.now) ∷ []) }

        ensures kept_or_counted { KeepsOrCounts self.old self.new (Act.Datagram to bytes.now) }
        ensures events_stay { KeepsEvents self.old self.new }
    {
        self.keep(acts::datagram(self.alloc, to, bytes));
    }

    /// Failed where the call's number is in the list that `new` took, else the connection 0.
    fn dial(&mut self, alloc: Global, host: &str, port: u16) -> Dialled
        ensures answer { IsConnection result }
        ensures shows { NetShows (net_seen self.old) (net_seen self.new) (dials_as host.now port result) }

        ensures answers { result ≡ dial_answer (calls_of self.old) }
        ensures calls { calls_of self.new ≡ after_call (calls_of self.old) }
        ensures faults { fault_count self.new
            ≡ raised (break_count (dials_as host.now port result)) (fault_count self.old) }
        ensures kept_or_counted { KeepsOrCounts self.old self.new (Act.Dialled host.now port (dialled_in result)) }
        ensures rest_stays { KeepsRest self.old self.new }
    {
        if self.calls.is_next_failing() {
            self.keep_call(acts::dialled(alloc, host, port, None));
            self.faults = self.faults.saturating_add(1);
            return Dialled::Failed;
        }
        self.keep_call(acts::dialled(alloc, host, port, Some(DIALLED)));
        Dialled::Connected(DIALLED)
    }

    /// Failed where the call's number is in the list that `new` took, else the host 2 and that port.
    fn find(&mut self, alloc: Global, host: &str, port: u16) -> Found
        ensures shows { NetShows (net_seen self.old) (net_seen self.new) (finds_as host.now port result) }

        ensures answers { result ≡ find_answer (calls_of self.old) port }
        ensures calls { calls_of self.new ≡ after_call (calls_of self.old) }
        ensures faults { fault_count self.new
            ≡ raised (break_count (finds_as host.now port result)) (fault_count self.old) }
        ensures kept_or_counted { KeepsOrCounts self.old self.new (Act.Looked host.now port (looked_in result)) }
        ensures rest_stays { KeepsRest self.old self.new }
    {
        if self.calls.is_next_failing() {
            self.keep_call(acts::looked(alloc, host, port, None));
            self.faults = self.faults.saturating_add(1);
            return Found::Failed;
        }
        let to = Endpoint { host: FOUND, port };
        self.keep_call(acts::looked(alloc, host, port, Some(to)));
        Found::At(to)
    }
}
