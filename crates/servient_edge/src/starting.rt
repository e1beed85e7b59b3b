//! The beginning of the network: it listens, dials a host or looks one up, and with the first of these the times of
//! ticks begin.

ghost use Rattle.std.specs.Prelude.{◌≡◌, ◌<◌, IfOk};

use crate::mio_net::MioNet;
use crate::sockets::Sockets;
use crate::timing::Timing;
use coap_msg::Endpoint;
use servient_base::ConnectionId;
use servient_outside::Place;
use servient_system::{Refusal, System};
use std::alloc::Global;

// It listens already (EADDRINUSE).
const LISTENS_ALREADY: Refusal = Refusal::Failed(98);

/// The sockets, made where there are none.
fn made<S: System>(
    system: &mut S,
    alloc: Global,
    sockets: Option<Sockets>,
) -> Result<Sockets, Refusal> {
    match sockets {
        Some(sockets) => Ok(sockets),
        None => Sockets::new(system, alloc),
    }
}

impl<S: System + Drop> MioNet<S> {
    /// Binds the sockets of a place, and starts the times of tick and traffic.
    pub(crate) fn start_listening(&mut self, alloc: Global, place: &Place) -> Result<(), Refusal>
        ensures { self.new.faults ≡ self.old.faults }
    {
        self.read_clock()?;
        if self.is_listening() {
            return Err(LISTENS_ALREADY);
        }
        let http = self
            .system
            .resolve(place.http_host.as_str(), place.http_port)?;
        let coap = self
            .system
            .resolve(place.coap_host.as_str(), place.coap_port)?;
        let mut sockets = made(&mut self.system, alloc, self.sockets.take())?;
        let bound = sockets.listen(&mut self.system, http, coap);
        // Put back before the fault is handed on, so that the sockets aren't lost.
        self.sockets = Some(sockets);
        bound?;
        self.start_times(place.idle);
        Ok(())
    }

    fn is_listening(&self) -> bool {
        match &self.sockets {
            Some(sockets) => sockets.is_listening(),
            None => false,
        }
    }

    /// Starts the time without traffic, which is 0 without listening, and that of ticks, where it hasn't begun.
    fn start_times(&mut self, idle: u64)
        ensures { self.new.faults ≡ self.old.faults }
    {
        let moment = self.moments.last();
        match &mut self.timing {
            Some(timing) => {
                timing.idle = idle;
                timing.traffic = moment;
            }
            None => {
                self.timing = Some(Timing {
                    idle,
                    traffic: moment,
                    since: Some(moment),
                });
            }
        }
    }

    /// The number of a new connection to a host.
    pub(crate) fn connect(
        &mut self,
        alloc: Global,
        host: &str,
        port: u16,
    ) -> Result<ConnectionId, Refusal>
        ensures number { IfOk result (λ c. c < 64) }
        ensures faults { self.new.faults ≡ self.old.faults }
    {
        self.read_clock()?;
        let address = self.system.resolve(host, port)?;
        let mut sockets = made(&mut self.system, alloc, self.sockets.take())?;
        let dialled = sockets.dial(&mut self.system, address);
        self.sockets = Some(sockets);
        let c = dialled?;
        self.start_ticks();
        Ok(c)
    }

    /// The endpoint of a host, once a socket for datagrams is bound.
    pub(crate) fn look_up(
        &mut self,
        alloc: Global,
        host: &str,
        port: u16,
    ) -> Result<Endpoint, Refusal>
        ensures { self.new.faults ≡ self.old.faults }
    {
        self.read_clock()?;
        let endpoint = self.system.resolve(host, port)?;
        let mut sockets = made(&mut self.system, alloc, self.sockets.take())?;
        let bound = sockets.bind_any(&mut self.system);
        self.sockets = Some(sockets);
        bound?;
        self.start_ticks();
        Ok(endpoint)
    }

    /// Starts the times where they haven't begun; without listening there is none without traffic.
    fn start_ticks(&mut self)
        ensures { self.new.faults ≡ self.old.faults }
    {
        if self.timing.is_none() {
            self.start_times(0);
        }
    }
}
