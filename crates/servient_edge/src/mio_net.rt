//! The network over the sockets of a system, in one thread. Neither its happenings are recorded nor are the events to
//! come known: it counts failures.

ghost use Rattle.std.specs.Prelude.{◌≡◌, ◌≤◌, IfOk, IfSome, length};
ghost use Rattle.servient_base.specs.Count.{Rose};
ghost use Rattle.servient_outside.specs.Network.{MayCome};
ghost use Rattle.servient_edge.specs.Moments.{Reads};
ghost use Rattle.servient_edge.specs.Naming.{Names, MaySettle, numbers_of, what_of};

use crate::finishing::write_kept;
use crate::moments::Moments;
use crate::sockets::Sockets;
use crate::timing::{DueEvent, Timing};
use coap_msg::Endpoint;
use servient_base::ConnectionId;
use servient_outside::{Dialled, Event, Found, Listened, Net, Next, Place, What};
use servient_system::{Refusal, System};
use std::alloc::Global;

// The system is asked this many times for one event. A report of which nothing comes is no event, and it is asked
// again.
const ASKS: u32 = 64;

// The number of times that it is asked after that, each time a millisecond later, so that by then a tick is due by the
// clock.
const PAUSES: u32 = 1000;

/// The network over sockets.
#[derive(Drop)]
pub struct MioNet<S: System + Drop> {
    pub(crate) system: S,
    pub(crate) moments: Moments,
    pub(crate) sockets: Option<Sockets>,
    // Since it listens, has dialled or has looked something up.
    pub(crate) timing: Option<Timing>,
    faults: u64,
}

/// There is no such socket, or no clock (ENOTCONN).
pub const NOT_READY: Refusal = Refusal::Failed(107);

impl<S: System + Drop> MioNet<S> {
    /// The network of this system. Its moments count from now.
    pub fn new(system: S) -> MioNet<S>
        ensures { result.faults ≡ 0 }
    {
        let mut system = system;
        let moments = Moments::new(&mut system);
        MioNet {
            system,
            moments,
            sockets: None,
            timing: None,
            faults: 0,
        }
    }

    /// The system that it asks.
    pub fn system(&self) -> &S {
        &self.system
    }

    /// Writes what is kept for connections, for two seconds at most, and drops what is left with all sockets. It is
    /// called once, after a run.
    pub fn finish(&mut self)
        ensures { self.new.faults ≡ self.old.faults }
    {
        if let Some(sockets) = &mut self.sockets {
            write_kept(&mut self.system, &mut self.moments, sockets);
            sockets.give_up(&mut self.system);
        }
        self.sockets = None;
        self.timing = None;
    }

    /// Reads the clock, and gives what it read.
    pub(crate) fn read_clock(&mut self) -> Result<u64, Refusal>
        ensures moment { Reads self.old.moments result self.new.moments }
        ensures rises { self.old.moments.last ≤ self.new.moments.last }
        ensures faults { self.new.faults ≡ self.old.faults }
        ensures numbers { numbers_of self.new.sockets ≡ numbers_of self.old.sockets }
    {
        self.moments.read(&mut self.system)
    }

    fn count_fault(&mut self)
        ensures faults { Rose self.old.faults self.new.faults }
        ensures moments { self.new.moments ≡ self.old.moments }
        ensures numbers { numbers_of self.new.sockets ≡ numbers_of self.old.sockets }
    {
        self.faults = self.faults.saturating_add(1);
    }

    /// Reads the clock, before the next event is looked for, and gives what it read.
    fn begin(&mut self) -> Result<u64, Refusal>
        ensures moment { Reads self.old.moments result self.new.moments }
        ensures rises { self.old.moments.last ≤ self.new.moments.last }
        ensures numbers { numbers_of self.new.sockets ≡ numbers_of self.old.sockets }
        ensures faults { self.new.faults ≡ self.old.faults }
    {
        let now = self.read_clock()?;
        if let Some(timing) = &mut self.timing {
            timing.begin(self.moments.last());
        }
        Ok(now)
    }

    /// The event that is due now.
    fn due(&self) -> Result<DueEvent, Refusal> {
        match &self.timing {
            Some(timing) => Ok(timing.due(self.moments.last())),
            None => Err(NOT_READY),
        }
    }

    /// The event that the turns give, if any. It is traffic. Failures of one peer are counted.
    #[tactic(auto, using(crate::proofs::NamingLaws::names_still))]
    fn take(&mut self, buffer: &mut [u8]) -> Option<What>
        requires { length buffer.old ≡ 4096 }
        ensures what { IfSome result MayCome }
        ensures names { Names (numbers_of self.old.sockets) result (numbers_of self.new.sockets) }
        ensures moments { self.new.moments ≡ self.old.moments }
        ensures faults { self.old.faults ≤ self.new.faults }
    {
        let taken = self.take_turns(buffer);
        if taken.is_some() {
            self.note_traffic();
        }
        taken
    }

    #[tactic(auto, using(crate::proofs::NamingLaws::comes_named, crate::proofs::NamingLaws::settles_same))]
    fn take_turns(&mut self, buffer: &mut [u8]) -> Option<What>
        requires { length buffer.old ≡ 4096 }
        ensures what { IfSome result MayCome }
        ensures names { Names (numbers_of self.old.sockets) result (numbers_of self.new.sockets) }
        ensures moments { self.new.moments ≡ self.old.moments }
        ensures faults { self.old.faults ≤ self.new.faults }
    {
        match &mut self.sockets {
            Some(sockets) => {
                let moment = self.moments.last();
                sockets.take(&mut self.system, buffer, moment, &mut self.faults)
            }
            None => None,
        }
    }

    /// The time without traffic begins anew.
    fn note_traffic(&mut self)
        ensures moments { self.new.moments ≡ self.old.moments }
        ensures numbers { numbers_of self.new.sockets ≡ numbers_of self.old.sockets }
        ensures faults { self.new.faults ≡ self.old.faults }
    {
        if let Some(timing) = &mut self.timing {
            timing.traffic = self.moments.last();
        }
    }

    /// Asks without waiting what the system has, unless it was asked at this moment.
    fn look(&mut self) -> Result<(), Refusal>
        ensures moments { self.new.moments ≡ self.old.moments }
        ensures numbers { numbers_of self.new.sockets ≡ numbers_of self.old.sockets }
        ensures faults { self.new.faults ≡ self.old.faults }
    {
        match &mut self.sockets {
            Some(sockets) => sockets.look(&mut self.system, self.moments.last()),
            None => Err(NOT_READY),
        }
    }

    /// Waits until the system has something, or something is due. Then it reads the clock, and gives what it read.
    fn ask(&mut self) -> Result<u64, Refusal>
        ensures moment { Reads self.old.moments result self.new.moments }
        ensures rises { self.old.moments.last ≤ self.new.moments.last }
        ensures numbers { numbers_of self.new.sockets ≡ numbers_of self.old.sockets }
        ensures faults { self.new.faults ≡ self.old.faults }
    {
        let time = self.time_left()?;
        self.ask_for(time)?;
        self.read_clock()
    }

    /// The number of milliseconds until something is due.
    fn time_left(&self) -> Result<u64, Refusal> {
        match &self.timing {
            Some(timing) => Ok(timing.left(self.moments.last())),
            None => Err(NOT_READY),
        }
    }

    /// Waits until the system has something, and for this many milliseconds at most.
    fn ask_for(&mut self, time: u64) -> Result<(), Refusal>
        ensures moments { self.new.moments ≡ self.old.moments }
        ensures numbers { numbers_of self.new.sockets ≡ numbers_of self.old.sockets }
        ensures faults { self.new.faults ≡ self.old.faults }
    {
        match &mut self.sockets {
            Some(sockets) => sockets.ask(&mut self.system, self.moments.last(), time),
            None => Err(NOT_READY),
        }
    }

    /// Lets a millisecond pass.
    fn pause(&mut self) -> Result<(), Refusal>
        ensures moments { self.new.moments ≡ self.old.moments }
        ensures numbers { numbers_of self.new.sockets ≡ numbers_of self.old.sockets }
        ensures faults { self.new.faults ≡ self.old.faults }
    {
        match &mut self.sockets {
            Some(sockets) => sockets.pause(&mut self.system),
            None => Err(NOT_READY),
        }
    }

    /// Does the work of a tick at this moment. The second until the next one begins when the next event is asked for.
    #[tactic(auto, using(crate::proofs::NamingLaws::settles_same))]
    fn tick(&mut self)
        ensures moments { self.new.moments ≡ self.old.moments }
        ensures numbers { MaySettle (numbers_of self.old.sockets) (numbers_of self.new.sockets) }
        ensures faults { self.new.faults ≡ self.old.faults }
    {
        if let (Some(sockets), Some(timing)) = (&mut self.sockets, &mut self.timing) {
            timing.since = None;
            sockets.tick(&mut self.system, self.moments.last());
        }
    }

    /// The next event. A tick comes by the clock, after all that waits had its turn, but for one that is due after an
    /// event, so that the work on ticks or on events may take any time, and each has its share.
    #[tactic(auto, using(crate::proofs::NamingLaws::names_later, crate::proofs::NamingLaws::settles_same))]
    fn come(&mut self, buffer: &mut [u8]) -> Result<What, Refusal>
        requires { length buffer.old ≡ 4096 }
        ensures what { IfOk result MayCome }
        ensures names { Names (numbers_of self.old.sockets) (what_of result) (numbers_of self.new.sockets) }
        ensures moments { self.old.moments.last ≤ self.new.moments.last }
        ensures faults { self.old.faults ≤ self.new.faults }
    {
        self.begin()?;
        if self.due()? == DueEvent::Tick {
            self.tick();
            return Ok(What::Tick);
        }
        self.look()?;
        if let Some(what) = self.take(buffer) {
            return Ok(what);
        }
        self.wait(buffer)
    }

    /// The next event, once the system has something or the time is over.
    #[tactic(auto, using(crate::proofs::NamingLaws::names_later, crate::proofs::NamingLaws::settles_same, crate::proofs::NamingLaws::settles_twice))]
    fn wait(&mut self, buffer: &mut [u8]) -> Result<What, Refusal>
        requires { length buffer.old ≡ 4096 }
        ensures what { IfOk result MayCome }
        ensures names { Names (numbers_of self.old.sockets) (what_of result) (numbers_of self.new.sockets) }
        ensures moments { self.old.moments.last ≤ self.new.moments.last }
        ensures faults { self.old.faults ≤ self.new.faults }
    {
        for asked in 0..ASKS + PAUSES {
            if asked >= ASKS {
                self.pause()?;
            }
            self.ask()?;
            if let Some(what) = self.take(buffer) {
                return Ok(what);
            }
            match self.due()? {
                DueEvent::Nothing => {}
                DueEvent::Tick => break,
                DueEvent::Stop => return Ok(What::Stop),
            }
        }
        self.tick();
        Ok(What::Tick)
    }
}

impl<S: System + Drop> Net for MioNet<S> {
    ghost use Rattle.std.specs.Prelude.{◌≡◌, ◌≢◌, ◌<◌, [], ◌∷◌, ◌++◌, length};
    ghost use Rattle.servient_outside.specs.declared.net.Act.TheVariants as act;
    ghost use Rattle.servient_outside.specs.Network.{NetShows, did, came, IsAnswer, IsConnection};
    ghost use Rattle.servient_outside.specs.Network.{listens_as, dials_as, finds_as};
    ghost use Rattle.servient_edge.specs.Moments.{IsAtMoment};
    ghost use Rattle.servient_edge.specs.Numbers.{SendsOn, IsSilent};
    ghost use Rattle.servient_edge.specs.Naming.{ChangesOne, what_in};
    ghost use Rattle.servient_outside.specs.Network.{counted_only};

    ghost seen = { λ n. counted_only n.faults };

    /// Failed where it listens already, where a host has no IPv4 address, and where a socket isn't bound.
    fn listen(&mut self, alloc: Global, place: &Place) -> Listened
        ensures { NetShows (counted_only self.old.faults) (counted_only self.new.faults) (listens_as place.now result) }
    {
        match self.start_listening(alloc, place) {
            Ok(()) => Listened::Ready,
            Err(refusal) => {
                if refusal == Refusal::NoMemory {
                    return Listened::NoMemory;
                }
                self.count_fault();
                Listened::Failed
            }
        }
    }

    /// Failed before it listens, dials or looks something up, and where the system doesn't say which sockets are ready
    /// or the time.
    #[tactic(auto, using(crate::proofs::NamingLaws::names_still))]
    fn next(&mut self, buffer: &mut [u8]) -> Next
        requires { length buffer.old ≡ 4096 }
        ensures answer { IsAnswer result }
        ensures shows { NetShows (counted_only self.old.faults) (counted_only self.new.faults) (came result buffer.new ∷ []) }
        ensures moment { IsAtMoment result self.new.moments.last }
        ensures rises { self.old.moments.last ≤ self.new.moments.last }
        ensures names { Names (numbers_of self.old.sockets) (what_in result) (numbers_of self.new.sockets) }
    {
        match self.come(buffer) {
            Ok(what) => Next::Got(Event {
                moment: self.moments.last(),
                what,
            }),
            Err(_) => {
                self.count_fault();
                Next::Failed
            }
        }
    }

    /// It does nothing where there are no sockets yet.
    fn send(&mut self, c: ConnectionId, head: &[u8], body: &[u8])
        ensures shows { NetShows (counted_only self.old.faults) (counted_only self.new.faults) (did (act.Sent c (head.now ++ body.now)) ∷ []) }
        ensures number { c < 64 → ChangesOne SendsOn c (numbers_of self.old.sockets) (numbers_of self.new.sockets) }
    {
        if let Some(sockets) = &mut self.sockets {
            sockets.send(&mut self.system, c, head, body);
        }
    }

    /// It does nothing where there are no sockets yet. Nothing comes of a connection that is closed.
    fn close(&mut self, c: ConnectionId)
        ensures shows { NetShows (counted_only self.old.faults) (counted_only self.new.faults) (did (act.Closed c) ∷ []) }
        ensures number { c < 64 → ChangesOne (λ before after. IsSilent after) c (numbers_of self.old.sockets) (numbers_of self.new.sockets) }
    {
        if let Some(sockets) = &mut self.sockets {
            sockets.close(&mut self.system, c, self.moments.last());
        }
    }

    /// It does nothing where there are no sockets yet.
    fn datagram(&mut self, to: Endpoint, bytes: &[u8])
        ensures shows { NetShows (counted_only self.old.faults) (counted_only self.new.faults) (did (act.Datagram to bytes.now) ∷ []) }
        ensures numbers { numbers_of self.new.sockets ≡ numbers_of self.old.sockets }
    {
        if let Some(sockets) = &self.sockets {
            sockets.datagram(&mut self.system, to, bytes);
        }
    }

    /// Waits until it is connected, and for 10 seconds at most. Failed where it isn't, where the host has no IPv4
    /// address and where no number is free.
    fn dial(&mut self, alloc: Global, host: &str, port: u16) -> Dialled
        ensures answer { IsConnection result }
        ensures shows { NetShows (counted_only self.old.faults) (counted_only self.new.faults) (dials_as host.now port result) }
    {
        match self.connect(alloc, host, port) {
            Ok(c) => Dialled::Connected(c),
            Err(refusal) => {
                if refusal == Refusal::NoMemory {
                    return Dialled::NoMemory;
                }
                self.count_fault();
                Dialled::Failed
            }
        }
    }

    /// Binds a socket for datagrams where there is none. Failed where the host has no IPv4 address.
    fn find(&mut self, alloc: Global, host: &str, port: u16) -> Found
        ensures { NetShows (counted_only self.old.faults) (counted_only self.new.faults) (finds_as host.now port result) }
    {
        match self.look_up(alloc, host, port) {
            Ok(endpoint) => Found::At(endpoint),
            Err(refusal) => {
                if refusal == Refusal::NoMemory {
                    return Found::NoMemory;
                }
                self.count_fault();
                Found::Failed
            }
        }
    }
}
