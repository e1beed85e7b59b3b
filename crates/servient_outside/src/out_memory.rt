//! An output in memory with a fixed room, which records the bytes written.

ghost use Rattle.std.specs.Prelude.{◌≡◌, ◌≤◌, [], Some, IfOk, vec_len, vec_capacity};

use crate::calls::CallCount;
use crate::{Calls, Out, Put};
use servient_base::NoMemory;
use std::alloc::Global;

/// An output in memory. It takes its memory when it is made, so that a write takes none.
#[derive(Drop)]
pub struct OutMemory {
    bytes: Vec<u8>,
    room: usize,
    calls: CallCount,
    faults: u64,
    ghost has_memory: { room ≤ vec_capacity bytes },
    ghost within_room: { vec_len bytes ≤ room },
}

impl OutMemory {
    ghost use Rattle.servient_outside.specs.CallCount.{no_calls, where_none_fails};
    ghost use Rattle.servient_outside.specs.OutMemory.{calls_of, room_of, written_bytes};

    /// An output with room for `room` bytes, whose calls of these numbers fail.
    pub fn new(alloc: Global, room: usize, fails: Calls) -> Result<OutMemory, NoMemory>
        ensures seen { IfOk result (λ o. ⟦<OutMemory as Out>⟧.seen o ≡ record { written = Some []; faults = 0; room = where_none_fails fails (Some room) }) }
        ensures room { IfOk result (λ o. room_of o ≡ room) }
        ensures calls { IfOk result (λ o. calls_of o ≡ no_calls fails) }
    {
        let bytes = Vec::with_capacity(alloc, room)?;
        Ok(OutMemory {
            bytes,
            room,
            calls: CallCount { fails, made: 0 },
            faults: 0,
        })
    }

    /// The bytes that were written.
    pub fn written(&self) -> &[u8]
        ensures written { (⟦<OutMemory as Out>⟧.seen self.now).written ≡ Some result.now }
        ensures bytes { result.now ≡ written_bytes self.now }
    {
        self.bytes.as_slice()
    }
}

impl Out for OutMemory {
    ghost use Rattle.std.specs.Prelude.{◌≡◌, ◌↔◌};
    ghost use Rattle.servient_base.specs.Count.{one_more};
    ghost use Rattle.servient_outside.specs.Out.{OutShows};
    ghost use Rattle.servient_outside.specs.CallCount.{after_call};
    ghost use Rattle.servient_outside.specs.OutMemory.{calls_of, fault_count, room_of, seen_of, written_bytes, Takes};

    ghost seen = { seen_of };

    /// Failed where the call's number is in the list that `new` took, and where the piece doesn't fit into the room
    /// that is left. Nothing is written then.
    fn put(&mut self, bytes: &[u8]) -> Put
        ensures shows { OutShows (seen_of self.old) (seen_of self.new) result bytes.now }

        // The pieces that are taken, and the output after the others.
        ensures done { (result ≡ Put.Done) ↔ Takes self.old bytes.now }
        ensures nothing { result ≡ Put.Failed → written_bytes self.new ≡ written_bytes self.old }
        ensures counted { result ≡ Put.Failed → fault_count self.new ≡ one_more (fault_count self.old) }
        ensures no_fault { result ≡ Put.Done → fault_count self.new ≡ fault_count self.old }
        ensures calls { calls_of self.new ≡ after_call (calls_of self.old) }
        ensures room { room_of self.new ≡ room_of self.old }
    {
        if self.calls.next_fails() || bytes.len() > self.room - self.bytes.len() {
            self.faults = self.faults.saturating_add(1);
            return Put::Failed;
        }
        self.bytes.extend_from_slice(bytes).unwrap();
        Put::Done
    }
}
