//! The part that a number of a connection stands for. Where that goes, the socket of the number is given up.

ghost use Rattle.std.specs.Prelude.{◌≡◌, ◌++◌, length};

use crate::connection::Connection;
use crate::turns::Took;
use servient_base::ConnectionId;
use servient_system::System;

/// The holder of a number.
#[derive(Drop)]
pub enum Number {
    Free,
    Used(Connection),
    /// The connection was given up, and its end is still to be given.
    GivenUp,
}

impl Number {
    ghost use Rattle.servient_edge.specs.Numbers.{TakesFrom, SendsOn, IsSilent, Settled, LeavesAt, SendsAt, left_of, standing};

    /// A turn of the holder, after which its number is free where it has ended.
    pub fn turn<S: System>(
        &mut self,
        system: &mut S,
        c: ConnectionId,
        buffer: &mut [u8],
        moment: u64,
    ) -> Took
        requires { length buffer.old ≡ 4096 }
        ensures stands { TakesFrom (standing self.old) result (standing self.new) }
        ensures kept { LeavesAt self.old result self.new }
    {
        match self {
            Number::Free => Took::Nothing,
            Number::GivenUp => {
                *self = Number::Free;
                Took::Ended
            }
            Number::Used(connection) => match connection.turn(system, c, buffer, moment) {
                Took::Bytes(count) => Took::Bytes(count),
                Took::Unwanted => Took::Unwanted,
                Took::Nothing => Took::Nothing,
                Took::Ended => {
                    system.give_up(c);
                    *self = Number::Free;
                    Took::Ended
                }
                Took::Over => {
                    system.give_up(c);
                    *self = Number::Free;
                    Took::Over
                }
            },
        }
    }

    /// Sends on the holder, if it is open. Whether it can't send any more; then it is given up.
    pub fn send<S: System>(
        &mut self,
        system: &mut S,
        c: ConnectionId,
        head: &[u8],
        body: &[u8],
    ) -> bool
        ensures stands { SendsOn (standing self.old) (standing self.new) }
        ensures kept { SendsAt self.old (head.now ++ body.now) self.new }
    {
        match self {
            Number::Free | Number::GivenUp => false,
            Number::Used(connection) => match connection.send(system, c, head, body) {
                Ok(()) => false,
                Err(_) => {
                    system.give_up(c);
                    *self = Number::GivenUp;
                    true
                }
            },
        }
    }

    /// Closes the holder. Whether its number is free now.
    pub fn close<S: System>(&mut self, system: &mut S, c: ConnectionId, moment: u64) -> bool
        ensures { IsSilent (standing self.new) }
    {
        match self {
            Number::Free => false,
            Number::GivenUp => {
                *self = Number::Free;
                true
            }
            Number::Used(connection) => match connection.close(system, c, moment) {
                Ok(()) => false,
                Err(_) => {
                    system.give_up(c);
                    *self = Number::Free;
                    true
                }
            },
        }
    }

    /// A connection that was closed and is over has no number any more.
    pub fn end_if_over<S: System>(&mut self, system: &mut S, c: ConnectionId, moment: u64)
        ensures settled { Settled (standing self.old) (standing self.new) }
        ensures left { self.new ≡ left_of moment self.old }
    {
        if let Number::Used(connection) = self {
            if connection.is_over(moment) {
                system.give_up(c);
                *self = Number::Free;
            }
        }
    }

    /// Writes once what is kept. Whether something is still kept, and can be sent.
    pub fn flush<S: System>(&mut self, system: &mut S, c: ConnectionId, moment: u64) -> bool {
        match self {
            Number::Free | Number::GivenUp => false,
            Number::Used(connection) => {
                connection.flush(system, c, moment).is_ok() && connection.has_kept()
            }
        }
    }
}
