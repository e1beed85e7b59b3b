//! A system in memory: it plays a list of answers, and records what it was asked for.

ghost use Rattle.std.specs.Prelude.{◌≡◌, ◌<◌, [], Some, IfSome, vec_len};
ghost use Rattle.servient_system.specs.SystemMemory.{told_by};

use crate::asked_log::AskedLog;
use crate::copies::{copy_read, copy_received, join, read_in, received_in, written_in};
use crate::{Arrived, Asked, Call, Ready, Refusal, System};
use coap_msg::Endpoint;
use std::alloc::Global;
use wot_json::{Bytes, Text};

/// The address of every host: 127.0.0.1, in its mapped form.
const FOUND: u128 = 0xffff_7f00_0001;

/// A system in memory. A call that the next of its answers is of has that answer, whatever its other arguments are.
/// Until then each call has the answer of a machine at which nothing happens: the clock stands still, nothing is ready,
/// nothing waits, a write takes all, every host is 127.0.0.1, and all else is done.
#[derive(Drop)]
pub struct SystemMemory {
    alloc: Global,
    // The calls whose answers are played, in order.
    answers: Vec<Asked>,
    // The number of those that were played.
    played: usize,
    // The time that the clock gave last.
    clock: u64,
    log: AskedLog,
}

impl SystemMemory {
    /// A system that plays the answers of these calls.
    pub fn new(alloc: Global, answers: Vec<Asked>) -> SystemMemory
        ensures { ⟦<SystemMemory as System>⟧.asked result ≡ Some [] }
    {
        SystemMemory {
            alloc,
            answers,
            played: 0,
            clock: 0,
            log: AskedLog::new(alloc),
        }
    }

    /// All that it was asked for, and its answers; none once there was no memory to record a call.
    pub fn asked(&self) -> Option<&[Asked]> {
        self.log.asked()
    }

    /// The number of answers that are still to be played.
    pub fn left(&self) -> usize {
        self.answers.len().saturating_sub(self.played)
    }

    /// The place of the next answer, if it is one to this call. It is played now.
    fn play(&mut self, call: Call) -> Option<usize>
        ensures place { IfSome result (λ place. place < vec_len self.new.answers) }
        ensures log { self.new.log ≡ self.old.log }
    {
        let place = self.played;
        if place >= self.answers.len() || self.answers[place].call() != call {
            return None;
        }
        self.played = place + 1;
        Some(place)
    }

    /// The answer to a call that does something or is refused.
    fn do_or(&mut self, call: Call, otherwise: Result<(), Refusal>) -> Result<(), Refusal>
        ensures { self.new.log ≡ self.old.log }
    {
        match self.play(call) {
            Some(place) => self.answers[place].outcome(),
            None => otherwise,
        }
    }
}

impl System for SystemMemory {
    ghost use Rattle.std.specs.Prelude.{◌≤◌, ◌++◌, ◌∷◌, IfOk, length};
    ghost use Rattle.servient_outside.specs.Told.{Continues};
    ghost use Rattle.servient_system.specs.declared.asked.Asked.TheVariants as asked_as;
    ghost use Rattle.servient_system.specs.System.{bytes_read, datagram_received};

    ghost asked = { λ s. told_by s.log };

    fn prepare(&mut self, _alloc: Global) -> Result<(), Refusal> {
        let answer = self.do_or(Call::Prepare, Ok(()));
        self.log.keep(Asked::Prepared(answer));
        answer
    }

    fn now(&mut self) -> Result<u64, Refusal> {
        let answer = match self.play(Call::Now) {
            Some(place) => self.answers[place].time(),
            None => Ok(self.clock),
        };
        if let Ok(time) = answer {
            self.clock = time;
        }
        self.log.keep(Asked::Clock(answer));
        answer
    }

    fn poll(&mut self, wait: u64, ready: &mut Ready) -> Result<(), Refusal> {
        ready.clear();
        let answer = match self.play(Call::Poll) {
            Some(place) => self.answers[place].report(ready),
            None => Ok(()),
        };
        match ready.again() {
            Ok(ready) => self.log.keep(Asked::Polled(wait, answer, ready)),
            Err(_) => self.log.lose(),
        }
        answer
    }

    fn pause(&mut self, wait: u64) -> Result<(), Refusal> {
        let answer = self.do_or(Call::Pause, Ok(()));
        self.log.keep(Asked::Paused(wait, answer));
        answer
    }

    fn resolve(&mut self, host: &str, port: u16) -> Result<Endpoint, Refusal> {
        let answer = match self.play(Call::Resolve) {
            Some(place) => self.answers[place].address(),
            None => Ok(Endpoint { host: FOUND, port }),
        };
        match Text::copy_of(self.alloc, host) {
            Ok(host) => self.log.keep(Asked::Resolved(host, port, answer)),
            Err(_) => self.log.lose(),
        }
        answer
    }

    fn listen(&mut self, at: Endpoint) -> Result<(), Refusal> {
        let answer = self.do_or(Call::Listen, Ok(()));
        self.log.keep(Asked::Listened(at, answer));
        answer
    }

    fn bind(&mut self, at: Endpoint) -> Result<(), Refusal> {
        let answer = self.do_or(Call::Bind, Ok(()));
        self.log.keep(Asked::Bound(at, answer));
        answer
    }

    fn accept(&mut self, number: u32) -> Result<(), Refusal> {
        let answer = self.do_or(Call::Accept, Err(Refusal::NotNow));
        self.log.keep(Asked::Accepted(number, answer));
        answer
    }

    fn dial(&mut self, number: u32, to: Endpoint) -> Result<(), Refusal> {
        let answer = self.do_or(Call::Dial, Ok(()));
        self.log.keep(Asked::Dialled(number, to, answer));
        answer
    }

    fn poll_dialled(&mut self, wait: u64) -> Result<bool, Refusal> {
        let answer = match self.play(Call::Await) {
            Some(place) => self.answers[place].is_reported(),
            None => Ok(true),
        };
        self.log.keep(Asked::Awaited(wait, answer));
        answer
    }

    fn connected(&mut self, number: u32) -> Result<(), Refusal> {
        let answer = self.do_or(Call::Connected, Ok(()));
        self.log.keep(Asked::Connected(number, answer));
        answer
    }

    fn attach(&mut self, number: u32) -> Result<(), Refusal> {
        let answer = self.do_or(Call::Attach, Ok(()));
        self.log.keep(Asked::Attached(number, answer));
        answer
    }

    fn read(&mut self, number: u32, buffer: &mut [u8]) -> Result<usize, Refusal> {
        let answer = match self.play(Call::Read(number)) {
            Some(place) => read_in(&self.answers[place], buffer),
            None => Err(Refusal::NotNow),
        };
        match copy_read(self.alloc, answer, buffer) {
            Ok(read) => self.log.keep(Asked::Read(number, read)),
            Err(_) => self.log.lose(),
        }
        answer
    }

    fn write(&mut self, number: u32, head: &[u8], body: &[u8]) -> Result<usize, Refusal> {
        let count = head.len() + body.len();
        let answer = match self.play(Call::Write(number)) {
            Some(place) => written_in(&self.answers[place], count),
            None => Ok(count),
        };
        match join(self.alloc, head, body) {
            Ok(bytes) => self.log.keep(Asked::Wrote(number, bytes, answer)),
            Err(_) => self.log.lose(),
        }
        answer
    }

    fn shut_down(&mut self, number: u32) -> Result<(), Refusal> {
        let answer = self.do_or(Call::ShutDown(number), Ok(()));
        self.log.keep(Asked::ShutDown(number, answer));
        answer
    }

    fn give_up(&mut self, number: u32) {
        self.log.keep(Asked::GivenUp(number));
    }

    fn receive(&mut self, buffer: &mut [u8]) -> Result<Arrived, Refusal> {
        let answer = match self.play(Call::Receive) {
            Some(place) => received_in(&self.answers[place], buffer),
            None => Err(Refusal::NotNow),
        };
        match copy_received(self.alloc, answer, buffer) {
            Ok(received) => self.log.keep(Asked::Received(received)),
            Err(_) => self.log.lose(),
        }
        answer
    }

    fn send_to(&mut self, to: Endpoint, bytes: &[u8]) -> Result<(), Refusal> {
        let answer = self.do_or(Call::SendTo, Ok(()));
        match Bytes::copy_of(self.alloc, bytes) {
            Ok(bytes) => self.log.keep(Asked::SentTo(to, bytes, answer)),
            Err(_) => self.log.lose(),
        }
        answer
    }
}
