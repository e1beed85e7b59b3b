//! The moments at which the network gives a tick, and ends for lack of traffic. All moments are in milliseconds.

ghost use Rattle.std.specs.Prelude.{◌≡◌, ◌≤◌, ◌^◌, Some, unwrap_or};
ghost use Rattle.std.specs.Option.{ForSome};

const TICK: u64 = 1000;

/// The event that is due when nothing else comes.
#[derive(Clone, Copy, Debug, PartialEq, Eq)]
pub enum DueEvent {
    Nothing,
    Tick,
    Stop,
}

/// The times of the last events.
#[derive(Drop)]
pub struct Timing {
    /// The run ends after this time without traffic, unless it is 0.
    pub idle: u64,
    /// The moment at which the last event that is traffic was given.
    pub traffic: u64,
    /// The moment from which the second until the next tick counts. After a tick it hasn't begun, until the next event
    /// is asked for, since the work on a tick may take longer than a second, and something else is to come before
    /// another.
    pub since: Option<u64>,
    ghost traffic_in_bounds: { traffic ≤ 10 ^ 15 },
    ghost since_in_bounds: { ForSome since (λ moment. moment ≤ 10 ^ 15) },
}

impl Timing {
    ghost use Rattle.servient_edge.specs.Timing.{IsDue, time_left};

    /// The second until the next tick has begun, at this moment if not before.
    pub fn begin(&mut self, moment: u64)
        requires { moment ≤ 10 ^ 15 }
        ensures since { self.new.since ≡ Some (unwrap_or self.old.since moment) }
        ensures idle { self.new.idle ≡ self.old.idle }
        ensures traffic { self.new.traffic ≡ self.old.traffic }
    {
        match self.since {
            Some(_) => {}
            None => self.since = Some(moment),
        }
    }

    /// The event that is due at a moment. At one moment Stop comes before Tick.
    pub fn due(&self, moment: u64) -> DueEvent
        requires { moment ≤ 10 ^ 15 }
        ensures { IsDue self.now moment result }
    {
        let since = self.since.unwrap_or(moment);
        if self.idle != 0 && self.traffic.saturating_add(self.idle) <= moment {
            DueEvent::Stop
        } else if since.saturating_add(TICK) <= moment {
            DueEvent::Tick
        } else {
            DueEvent::Nothing
        }
    }

    /// The time from a moment until something is due.
    pub fn left(&self, moment: u64) -> u64
        requires { moment ≤ 10 ^ 15 }
        ensures { result ≡ time_left self.now moment }
    {
        let since = self.since.unwrap_or(moment);
        let tick = since.saturating_add(TICK).saturating_sub(moment);
        if self.idle == 0 {
            return tick;
        }
        let stop = self
            .traffic
            .saturating_add(self.idle)
            .saturating_sub(moment);
        tick.min(stop)
    }
}
