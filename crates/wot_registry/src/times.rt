//! The times of an entry.

use std::marker::Model;

/// The moments at which an entry was created and last changed, and its time to live in seconds, where it has one.
/// Moments are at most 10^15 milliseconds, so that sums of them fit.
#[derive(Drop)]
pub struct Times {
    created: u64,
    modified: u64,
    ttl: Option<u32>,
}

impl Model for Times {
    ghost use Rattle.std.specs.Prelude.{◌≤◌};
    ghost use Rattle.wot_registry.specs.Times.{Times, times_code, last_moment};

    ghost Value = { Times };

    ghost coded = { times_code };

    ghost view = { λ t. record { created = t.created; modified = t.modified; ttl = t.ttl } };

    ghost invariant = { λ t. (t.created ≤ last_moment) × (t.modified ≤ last_moment) };
}

ghost use Rattle.std.specs.Prelude.{◌≡◌, ◌≤◌, option_map};
ghost use Rattle.wot_registry.specs.Times.{last_moment, expiry};
ghost use Rattle.wot_registry.specs.Times as spec;

impl Times {
    /// Those of an entry that is changed now and had these times, if it had some.
    pub fn changed(now: u64, ttl: Option<u32>, was: Option<&Times>) -> Times
        requires { now ≤ last_moment }
        ensures { result ≡ spec.changed now ttl (option_map (λ t. t.now) was.entry) }
    {
        let created = match was {
            Some(times) => times.created,
            None => now,
        };
        Times {
            created,
            modified: now,
            ttl,
        }
    }

    /// The moment at which the entry was created.
    pub fn created(&self) -> u64
        ensures is { result ≡ self.now.created }
        ensures bound { result ≤ last_moment }
    {
        self.created
    }

    /// The moment at which the entry was last changed.
    pub fn modified(&self) -> u64
        ensures is { result ≡ self.now.modified }
        ensures bound { result ≤ last_moment }
    {
        self.modified
    }

    /// The time to live.
    pub fn ttl(&self) -> Option<u32>
        ensures { result ≡ self.now.ttl }
    {
        self.ttl
    }

    /// The moment from which on the entry is gone, where it has a time to live.
    pub fn expiry(&self) -> Option<u64>
        ensures { result ≡ expiry self.now }
    {
        match self.ttl {
            Some(seconds) => Some(self.modified + 1_000 * u64::from(seconds)),
            None => None,
        }
    }
}
