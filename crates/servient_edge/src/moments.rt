//! The moments of a network: the milliseconds since it was made, as far as the clock was read.

ghost use Rattle.std.specs.Prelude.{◌≡◌, ◌≤◌, ◌-◌, ◌^◌, ◌/◌, min};

use servient_system::{Refusal, System};

// The last moment that there is: some 31,000 years.
const END: u64 = 1_000_000_000_000_000;

const NANOSECONDS: u64 = 1_000_000;

/// The moment at which a network was made, and the last moment that was read. Moments never fall.
#[derive(Drop)]
pub struct Moments {
    // In nanoseconds of the system's clock. The refusal, where the clock failed.
    start: Result<u64, Refusal>,
    last: u64,
    ghost last_in_bounds: { last ≤ 10 ^ 15 },
}

impl Moments {
    ghost use Rattle.servient_edge.specs.Moments.{Reads};

    /// Moments that count from now.
    pub fn new<S: System>(system: &mut S) -> Moments
        ensures { result.last ≡ 0 }
    {
        Moments {
            start: system.now(),
            last: 0,
        }
    }

    /// The last moment that was read.
    pub fn last(&self) -> u64
        ensures value { result ≡ self.now.last }
        ensures bounds { result ≤ 10 ^ 15 }
    {
        self.last
    }

    /// Reads the clock, and gives what it read.
    pub fn read<S: System>(&mut self, system: &mut S) -> Result<u64, Refusal>
        ensures moment { Reads self.old result self.new }
        ensures rises { self.old.last ≤ self.new.last }
    {
        let start = self.start?;
        let now = system.now()?;
        self.last = self.last.max(moment_after(start, now));
        Ok(now)
    }
}

/// The moment at a time of the clock, where it counts from another.
fn moment_after(start: u64, now: u64) -> u64
    ensures { result ≡ min (10 ^ 15) ((now - start) / 1_000_000) }
{
    (now.saturating_sub(start) / NANOSECONDS).min(END)
}
