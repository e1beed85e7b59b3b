//! The moments at which message IDs were used.

ghost use Rattle.std.specs.Prelude.{◌≡◌, ◌<◌, ◌≤◌, ℕ, None, Some, length, slice_index_or, slice_set, IfOk};
ghost use Rattle.coap_client.specs.Names.{is_recent};
ghost use Rattle.coap_client.specs.Finding.{FindsId};

use crate::NoMemory;
use std::alloc::Global;
use std::marker::Model;

/// The number of message IDs.
const IDS: u32 = 65_536;

/// The time for which an ID isn't used again, in milliseconds: more than EXCHANGE_LIFETIME, since it may be in use so
/// long (RFC 7252, section 4.4).
const REST: u64 = 400_000;

/// The moment at which each message ID was used last, seen as a list by ID.
#[derive(Drop)]
pub struct Ids {
    uses: Vec<Option<u64>>,
}

impl Model for Ids {
    ghost use Rattle.std.specs.Prelude.{◌≡◌, ℕ, List, Option, length};

    ghost Value = { List (Option ℕ) };

    ghost view = { λ i. i.uses.items };

    ghost invariant = { λ i. length i.uses.items ≡ 65536 };
}

impl Ids {
    /// No id was used. All memory is taken here.
    pub fn new(alloc: Global) -> Result<Ids, NoMemory>
        ensures count { IfOk result (λ ids. length ids ≡ 65536) }
        ensures unused { IfOk result (λ ids. (id : ℕ) → slice_index_or ids id None ≡ None) }
    {
        let mut uses = Vec::with_capacity(alloc, IDS as usize)?;
        for _id in 0..IDS {
            uses.push(None)?;
        }
        Ok(Ids { uses })
    }

    /// The first id from `next` on that wasn't used in the last 400 seconds. It looks at each id at most once, and
    /// mostly at one, since ids are used in their order.
    pub fn free(&self, next: u16, now: u64) -> Option<u16>
        ensures { FindsId self.now next now result }
    {
        for ahead in 0..IDS {
            let id = ((u32::from(next) + ahead) % IDS) as u16;
            if !is_recent(self.uses[id as usize], now) {
                return Some(id);
            }
        }
        None
    }

    /// The id is used now.
    pub fn use_now(&mut self, id: u16, now: u64)
        ensures { self.new ≡ slice_set self.old id (Some now) }
    {
        self.uses[id as usize] = Some(now);
    }
}

/// Whether an id that was used last at this moment may not be used again.
fn is_recent(last: Option<u64>, now: u64) -> bool
    ensures { result ≡ is_recent now last }
{
    match last {
        Some(moment) => now.saturating_sub(moment) <= REST,
        None => false,
    }
}
