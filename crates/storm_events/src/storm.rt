//! The storm, event by event.

ghost use Rattle.std.specs.Prelude.{◌≡◌, ◌≤◌, ◌*◌, ◌+◌, ◌^◌, IfOk, OnOk};
ghost use Rattle.servient_outside.specs.Network.{IsWithinBounds};
ghost use Rattle.storm_events.specs.Storm.{endpoint_of as endpoint_by, event_of as event_is, events_of, joined, storm_after, with_event};

use crate::choice::choice_of;
use crate::coming::{Coming, coming_by};
use crate::datagram::{Datagram, bytes_of};
use crate::datagrams::Datagrams;
use crate::generator::{drawn, number_after};
use coap_msg::Endpoint;
use servient_base::NoMemory;
use servient_outside::{Event, EventWithBytes, Events, What};
use std::alloc::Global;
use wot_json::Bytes;

/// The moment grows with each event by fewer milliseconds than this.
const LONGEST_PAUSE: u64 = 500;

/// The number of choices that are drawn from.
const CHOICES: u64 = 8;

/// The number of hosts that send datagrams.
const HOSTS: u64 = 4;

/// Their port, which is CoAP's (RFC 7252, section 6.1).
const PORT: u16 = 5683;

/// The number of message IDs (RFC 7252, section 3).
const IDS: u32 = 65_536;

/// The state of the storm.
#[derive(Drop)]
pub struct Storm {
    /// The generator's number.
    pub number: u64,
    /// The moment of the last event, or 0.
    pub moment: u64,
    /// The datagrams that came, duplicates among them.
    pub datagrams: Datagrams,
    /// All events so far.
    pub events: Events,
}

/// The first `count` events of the storm of a seed. Of a run of 100,000 they take about 20 MB.
pub fn storm_events(alloc: Global, seed: u32, count: u32) -> Result<Events, NoMemory>
    ensures { IfOk result (λ events. events ≡ events_of seed count) }
{
    let mut storm = Storm {
        number: u64::from(seed),
        moment: 0,
        datagrams: Datagrams::new(alloc),
        events: Events::new(alloc),
    };
    // Run on a state that is lent, because a function that owned it would give it up at each `?`.
    storm.run(alloc, seed, count)?;
    let Storm { events, .. } = storm;
    Ok(events)
}

impl Storm {
    /// Lets the first `count` events come, where none came yet.
    fn run(&mut self, alloc: Global, seed: u32, count: u32) -> Result<(), NoMemory>
        requires { self.old ≡ storm_after seed 0 }
        ensures { OnOk result (self.new ≡ storm_after seed count) }
    {
        for i in 0..count {
            self.let_come(alloc, i)?;
        }
        Ok(())
    }

    /// Lets event i come.
    fn let_come(&mut self, alloc: Global, i: u32) -> Result<(), NoMemory>
        requires { self.old.moment ≤ 499 * i }
        ensures { OnOk result (self.new ≡ with_event i self.old) }
    {
        let first = number_after(self.number);
        let second = number_after(first);
        let third = number_after(second);
        let choice = choice_of(drawn(second) % CHOICES);
        let from = endpoint_of(drawn(third));
        let coming = coming_by(choice, third, (i % IDS) as u16, from, &self.datagrams);
        let moment = self.moment + drawn(first) % LONGEST_PAUSE;
        self.join(alloc, moment, coming)
    }

    /// Puts what comes at this moment at the end.
    fn join(&mut self, alloc: Global, moment: u64, coming: Coming) -> Result<(), NoMemory>
        requires { moment ≤ 10 ^ 15 }
        ensures { OnOk result (self.new ≡ joined self.old moment coming) }
    {
        self.number = coming.number;
        self.moment = moment;
        if let Some(datagram) = coming.datagram {
            self.datagrams.push(datagram)?;
        }
        self.events.push(event_of(alloc, moment, coming.datagram)?)
    }
}

/// The endpoint that a number names.
fn endpoint_of(number: u64) -> Endpoint
    ensures { result ≡ endpoint_by number }
{
    Endpoint {
        host: u128::from(1 + number % HOSTS),
        port: PORT,
    }
}

/// The event at a moment: the datagram, or time goes by.
fn event_of(
    alloc: Global,
    moment: u64,
    datagram: Option<Datagram>,
) -> Result<EventWithBytes, NoMemory>
    requires { moment ≤ 10 ^ 15 }
    ensures bounds { IfOk result IsWithinBounds }
    ensures is { IfOk result (λ e. e ≡ event_is moment datagram) }
{
    match datagram {
        None => Ok(with_bytes(moment, What::Tick, Bytes::new(alloc))),
        Some(datagram) => {
            let bytes = bytes_of(alloc, &datagram)?;
            let what = What::Datagram(datagram.from, bytes.len());
            Ok(with_bytes(moment, what, bytes))
        }
    }
}

/// The event of a moment, with its bytes.
fn with_bytes(moment: u64, what: What, bytes: Bytes) -> EventWithBytes
    ensures { result ≡ record { event = record { moment = moment; what = what }; bytes = bytes } }
{
    EventWithBytes {
        event: Event { moment, what },
        bytes,
    }
}
