//! The sockets of the network: the listener, its connections by their numbers, and the socket for datagrams. The system
//! reports once that a socket is ready, so whoever may have more waits for another turn, until the system says that it
//! has none.

ghost use Rattle.std.specs.Prelude.{◌≡◌, ◌≤◌, ◌<◌, IfOk, IfSome, length};
ghost use Rattle.servient_outside.specs.Network.{MayCome};
ghost use Rattle.servient_edge.specs.Numbers.{Gives, Comes, ChangesAt, SendsOn, IsSilent, Settles};

use crate::accepting::{Accepted, accept};
use crate::connection::Connection;
use crate::dialling::connect;
use crate::numbers::Numbers;
use crate::turns::{CONNECTIONS, DATAGRAMS, LISTENER, Took, Turns};
use coap_msg::Endpoint;
use servient_base::ConnectionId;
use servient_outside::What;
use servient_system::{Ready, Refusal, System};
use std::alloc::Global;

// The address of any host, 0.0.0.0, in its mapped form, and any port.
const ANY: Endpoint = Endpoint {
    host: 0xffff_0000_0000,
    port: 0,
};

// No number is free (EADDRNOTAVAIL).
const NO_NUMBER: i32 = 99;

// The number of turns that are taken before the system is asked again, so that one that always has something hides no
// other.
const TURNS: u32 = 128;

// The number of datagrams that wait which are taken before the next turn of a connection. One such turn may be 87
// requests.
const DATAGRAMS_IN_A_ROW: u32 = 8;

const MOST_DATAGRAM_BYTES: usize = 2048;

/// The sockets that are bound to a place.
#[derive(Clone, Copy, Debug, PartialEq, Eq)]
enum Bound {
    Nothing,
    /// The socket for datagrams alone.
    Datagrams,
    /// The listener, and the socket for datagrams.
    Listener,
}

/// All sockets.
#[derive(Drop)]
pub struct Sockets {
    alloc: Global,
    ready: Ready,
    bound: Bound,
    numbers: Numbers,
    turns: Turns,
    // The number of turns that are left until the system is asked again.
    turns_left: u32,
    // The moment at which the system was asked last.
    asked: u64,
    // Datagrams may wait.
    datagrams_wait: bool,
    // The number of further ones that are taken before the next turn of a connection.
    datagrams_left: u32,
}

impl Sockets {
    /// No sockets yet.
    pub fn new<S: System>(system: &mut S, alloc: Global) -> Result<Sockets, Refusal> {
        let numbers = Numbers::new(alloc)?;
        system.prepare(alloc)?;
        Ok(Sockets {
            alloc,
            numbers,
            ready: Ready::new(),
            bound: Bound::Nothing,
            turns: Turns::new(),
            turns_left: 0,
            asked: 0,
            datagrams_wait: false,
            datagrams_left: DATAGRAMS_IN_A_ROW,
        })
    }

    /// Listens for connections and for datagrams. A socket for datagrams that was bound before is given up.
    pub fn listen<S: System>(
        &mut self,
        system: &mut S,
        http: Endpoint,
        coap: Endpoint,
    ) -> Result<(), Refusal> {
        system.listen(http)?;
        match system.bind(coap) {
            Ok(()) => {
                self.bound = Bound::Listener;
                Ok(())
            }
            Err(refusal) => {
                system.give_up(LISTENER as u32);
                Err(refusal)
            }
        }
    }

    pub fn is_listening(&self) -> bool {
        self.bound == Bound::Listener
    }

    /// Binds a socket for datagrams where there is none.
    pub fn bind_any<S: System>(&mut self, system: &mut S) -> Result<(), Refusal> {
        if self.bound == Bound::Nothing {
            system.bind(ANY)?;
            self.bound = Bound::Datagrams;
        }
        Ok(())
    }

    /// Connects to an address, and answers the number of the connection.
    pub fn dial<S: System>(
        &mut self,
        system: &mut S,
        address: Endpoint,
    ) -> Result<ConnectionId, Refusal>
        ensures { IfOk result (λ c. c < 64) }
    {
        let Some(c) = self.numbers.free() else {
            return Err(Refusal::Failed(NO_NUMBER));
        };
        connect(system, c, address)?;
        self.numbers.open(c, Connection::new(self.alloc));
        Ok(c)
    }

    /// Closes all sockets at once. What is kept for them is lost.
    pub fn give_up<S: System>(&mut self, system: &mut S) {
        for number in 0..DATAGRAMS + 1 {
            system.give_up(number as u32);
        }
    }

    /// Takes turns until one has something, or none may have.
    pub fn take<S: System>(
        &mut self,
        system: &mut S,
        buffer: &mut [u8],
        moment: u64,
        faults: &mut u64,
    ) -> Option<What>
        requires { length buffer.old ≡ 4096 }
        ensures what { IfSome result MayCome }
        ensures number { Comes self.old.numbers result self.new.numbers }
        ensures faults { faults.old ≤ faults.new }
    {
        for _ in 0..self.turns_left {
            if !self.is_waiting() {
                return None;
            }
            self.turns_left = self.turns_left.saturating_sub(1);
            match self.turn(system, buffer, moment, faults) {
                Some(what) => return Some(what),
                None => {}
            }
        }
        None
    }

    fn is_waiting(&self) -> bool {
        self.datagrams_wait || !self.turns.is_empty()
    }

    /// A turn: of datagrams as long as they wait, but for a turn of another in between.
    fn turn<S: System>(
        &mut self,
        system: &mut S,
        buffer: &mut [u8],
        moment: u64,
        faults: &mut u64,
    ) -> Option<What>
        requires { length buffer.old ≡ 4096 }
        ensures what { IfSome result MayCome }
        ensures number { Gives self.old.numbers result self.new.numbers }
        ensures faults { faults.old ≤ faults.new }
    {
        if self.datagrams_wait && self.datagrams_left > 0 {
            self.datagrams_left = self.datagrams_left.saturating_sub(1);
            return self.receive(system, buffer, faults);
        }
        self.datagrams_left = DATAGRAMS_IN_A_ROW;
        match self.turns.next() {
            None => None,
            Some(place) => {
                if place == LISTENER {
                    self.accept(system, faults)
                } else {
                    self.read(system, place as u32, buffer, moment)
                }
            }
        }
    }

    /// Takes the next connection, if a number is free.
    fn accept<S: System>(&mut self, system: &mut S, faults: &mut u64) -> Option<What>
        ensures what { IfSome result MayCome }
        ensures number { Gives self.old.numbers result self.new.numbers }
        ensures faults { faults.old ≤ faults.new }
    {
        let Some(c) = self.numbers.free() else {
            return None;
        };
        if self.bound != Bound::Listener {
            return None;
        }
        match accept(system, c, faults) {
            Accepted::Nothing => None,
            Accepted::More => {
                self.turns.add(LISTENER);
                None
            }
            Accepted::Connected => {
                self.turns.add(LISTENER);
                self.numbers.open(c, Connection::new(self.alloc));
                Some(What::Opened(c))
            }
        }
    }

    /// Takes the next datagram. The buffer has more room than a datagram may have, since the system cuts what doesn't
    /// fit; one that is longer is dropped.
    fn receive<S: System>(
        &mut self,
        system: &mut S,
        buffer: &mut [u8],
        faults: &mut u64,
    ) -> Option<What>
        requires { length buffer.old ≡ 4096 }
        ensures what { IfSome result MayCome }
        ensures number { Gives self.old.numbers result self.new.numbers }
        ensures faults { faults.old ≤ faults.new }
    {
        if self.bound == Bound::Nothing {
            self.datagrams_wait = false;
            return None;
        }
        match system.receive(buffer) {
            Ok(arrived) => {
                if arrived.count > MOST_DATAGRAM_BYTES {
                    return None;
                }
                Some(What::Datagram(arrived.from, arrived.count))
            }
            Err(refusal) => {
                self.datagrams_wait = false;
                if refusal != Refusal::NotNow {
                    *faults = faults.saturating_add(1);
                }
                None
            }
        }
    }

    /// A turn of a connection. Where its number is free then, a peer that waits at the listener may have it.
    fn read<S: System>(
        &mut self,
        system: &mut S,
        c: ConnectionId,
        buffer: &mut [u8],
        moment: u64,
    ) -> Option<What>
        requires bounds { c < 64 }
        requires room { length buffer.old ≡ 4096 }
        ensures what { IfSome result MayCome }
        ensures number { Gives self.old.numbers result self.new.numbers }
    {
        match self.numbers.turn(system, c, buffer, moment) {
            Took::Bytes(count) => {
                self.turns.add(c as usize);
                Some(What::Bytes(c, count))
            }
            Took::Unwanted => {
                self.turns.add(c as usize);
                None
            }
            Took::Nothing => None,
            Took::Ended => {
                self.turns.add(LISTENER);
                Some(What::Ended(c))
            }
            Took::Over => {
                self.turns.add(LISTENER);
                None
            }
        }
    }

    /// Sends on a connection, if it is open. One that can't send any more is given up, and has a turn to say so.
    pub fn send<S: System>(&mut self, system: &mut S, c: ConnectionId, head: &[u8], body: &[u8])
        ensures { c < 64 → ChangesAt SendsOn c self.old.numbers self.new.numbers }
    {
        if c < CONNECTIONS as u32 && self.numbers.send(system, c, head, body) {
            self.turns.add(c as usize);
        }
    }

    /// Closes a connection. It has a turn then, since what its peer sent may wait; where its number is free, the
    /// listener has one.
    pub fn close<S: System>(&mut self, system: &mut S, c: ConnectionId, moment: u64)
        ensures { c < 64 → ChangesAt (λ before after. IsSilent after) c self.old.numbers self.new.numbers }
    {
        if c < CONNECTIONS as u32 {
            let place = if self.numbers.close(system, c, moment) {
                LISTENER
            } else {
                c as usize
            };
            self.turns.add(place);
        }
    }

    /// Sends a datagram, or loses it.
    pub fn datagram<S: System>(&self, system: &mut S, to: Endpoint, bytes: &[u8]) {
        if self.bound != Bound::Nothing {
            let _lost = system.send_to(to, bytes);
        }
    }

    /// Asks the system which sockets are ready. Where none waits for a turn, it waits for at most `time` milliseconds.
    pub fn ask<S: System>(&mut self, system: &mut S, moment: u64, time: u64) -> Result<(), Refusal>
        ensures { self.new.numbers ≡ self.old.numbers }
    {
        self.turns_left = TURNS;
        self.asked = moment;
        let time = if self.is_waiting() { 0 } else { time };
        system.poll(time, &mut self.ready)?;
        note(&self.ready, &mut self.turns, &mut self.datagrams_wait);
        Ok(())
    }

    /// Asks the system without waiting, where a millisecond or more has passed since it was asked, so that a datagram
    /// doesn't wait until all connections had their turns.
    pub fn look<S: System>(&mut self, system: &mut S, moment: u64) -> Result<(), Refusal>
        ensures { self.new.numbers ≡ self.old.numbers }
    {
        if self.asked < moment {
            self.ask(system, moment, 0)
        } else {
            Ok(())
        }
    }

    /// Lets a millisecond pass, whichever socket is ready.
    pub fn pause<S: System>(&mut self, system: &mut S) -> Result<(), Refusal>
        ensures { self.new.numbers ≡ self.old.numbers }
    {
        system.pause(1)
    }

    /// Writes once what is kept for each connection. Whether something is still kept.
    pub fn flush<S: System>(&mut self, system: &mut S, moment: u64) -> bool {
        self.numbers.flush(system, moment)
    }

    /// Ends the connections that were closed and are over, and asks again for what failed before, since the system
    /// reports it once.
    pub fn tick<S: System>(&mut self, system: &mut S, moment: u64)
        ensures { Settles self.old.numbers self.new.numbers }
    {
        self.numbers.end_those_over(system, moment);
        self.turns.add(LISTENER);
        self.datagrams_wait = true;
    }
}

/// A socket that is reported as ready waits for a turn.
fn note(ready: &Ready, turns: &mut Turns, datagrams_wait: &mut bool) {
    for number in ready.as_slice().iter() {
        if *number as usize == DATAGRAMS {
            *datagrams_wait = true;
        } else {
            turns.add(*number as usize);
        }
    }
}
