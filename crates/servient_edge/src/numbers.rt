//! The numbers of connections, from 0 to 63, and the holder of each.

ghost use Rattle.std.specs.Prelude.{◌≡◌, ◌<◌, ◌++◌, IfSome, None, length, vec_len};

use crate::connection::Connection;
use crate::number::Number;
use crate::turns::{CONNECTIONS, Took};
use servient_base::ConnectionId;
use servient_system::System;
use std::alloc::{AllocError, Global};

/// All numbers.
#[derive(Drop)]
pub struct Numbers {
    list: Vec<Number>,
    ghost one_for_each: { vec_len list ≡ 64 },
}

impl Numbers {
    ghost use Rattle.servient_edge.specs.Numbers.{ChangesAt, TakesFrom, SendsOn, IsSilent, Settled, Settles, IsLeastVacant, LeavesAt, SendsAt, left_of, number_at, standing_at};
    ghost use Rattle.servient_edge.specs.Numbers.{vacant, connected};

    /// All are free.
    pub fn new(alloc: Global) -> Result<Numbers, AllocError> {
        let mut list = Vec::with_capacity(alloc, CONNECTIONS)?;
        for count in 0..CONNECTIONS {
            list.push(Number::Free)?;
        }
        Ok(Numbers { list })
    }

    /// The least number that is free.
    pub fn free(&self) -> Option<ConnectionId>
        ensures bound { IfSome result (λ c. c < 64) }
        ensures free { IfSome result (λ c. standing_at c self.now ≡ vacant) }
        ensures least { IsLeastVacant self.now result }
    {
        for c in 0..CONNECTIONS {
            if let Number::Free = &self.list[c] {
                return Some(c as u32);
            }
        }
        None
    }

    /// A number stands for this connection, which is open.
    pub fn open(&mut self, c: ConnectionId, connection: Connection)
        requires bound { c < 64 }
        requires open { connection.closed ≡ None }
        ensures { ChangesAt (λ before after. after ≡ connected) c self.old self.new }
    {
        self.list[c as usize] = Number::Used(connection);
    }

    /// A turn of the connection of a number. One that has ended is none any more.
    pub fn turn<S: System>(
        &mut self,
        system: &mut S,
        c: ConnectionId,
        buffer: &mut [u8],
        moment: u64,
    ) -> Took
        requires bound { c < 64 }
        requires room { length buffer.old ≡ 4096 }
        ensures stands { ChangesAt (λ before after. TakesFrom before result after) c self.old self.new }
        ensures kept { LeavesAt (number_at c self.old) result (number_at c self.new) }
    {
        self.list[c as usize].turn(system, c, buffer, moment)
    }

    /// Sends on a connection, if it is open. Whether it can't send any more; then it is given up.
    pub fn send<S: System>(
        &mut self,
        system: &mut S,
        c: ConnectionId,
        head: &[u8],
        body: &[u8],
    ) -> bool
        requires { c < 64 }
        ensures stands { ChangesAt SendsOn c self.old self.new }
        ensures kept { SendsAt (number_at c self.old) (head.now ++ body.now) (number_at c self.new) }
    {
        self.list[c as usize].send(system, c, head, body)
    }

    /// Closes a connection. Whether its number is free now.
    pub fn close<S: System>(&mut self, system: &mut S, c: ConnectionId, moment: u64) -> bool
        requires { c < 64 }
        ensures { ChangesAt (λ before after. IsSilent after) c self.old self.new }
    {
        self.list[c as usize].close(system, c, moment)
    }

    /// Ends the connections that were closed and are over.
    #[tactic(auto, using(crate::proofs::NamingLaws::settles_one))]
    pub fn end_those_over<S: System>(&mut self, system: &mut S, moment: u64)
        ensures { Settles self.old self.new }
    {
        for c in 0..CONNECTIONS as u32 {
            self.end_if_over(system, c, moment);
        }
    }

    /// Ends the connection of a number where it was closed and is over.
    fn end_if_over<S: System>(&mut self, system: &mut S, c: ConnectionId, moment: u64)
        requires { c < 64 }
        ensures settled { ChangesAt Settled c self.old self.new }
        ensures left { number_at c self.new ≡ left_of moment (number_at c self.old) }
    {
        self.list[c as usize].end_if_over(system, c, moment)
    }

    /// Writes once what is kept for each. Whether something is still kept.
    pub fn flush<S: System>(&mut self, system: &mut S, moment: u64) -> bool {
        let mut is_left = false;
        for c in 0..CONNECTIONS as u32 {
            is_left |= self.flush_one(system, c, moment);
        }
        is_left
    }

    /// Writes once what is kept for a number. Whether something is still kept.
    fn flush_one<S: System>(&mut self, system: &mut S, c: ConnectionId, moment: u64) -> bool
        requires { c < 64 }
    {
        self.list[c as usize].flush(system, c, moment)
    }
}
