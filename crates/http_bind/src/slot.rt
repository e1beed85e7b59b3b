//! One connection as it is held: the rest of its stream, and the state of its last message.

ghost use Rattle.std.specs.Prelude.{◌≡◌, ◌≤◌, length, drop, option_map, vec_capacity, IfOk, IsSome};

use crate::looking::{HeldFront, look};
use crate::owed::Owed;
use http_wire::skip_pairs;
use std::alloc::Global;
use std::marker::Model;
use thing_ops::NoMemory;

/// The most bytes that are held of a connection: those of a message that isn't whole, and a piece.
pub const LONGEST_REST: usize = 32768;

/// A connection is idle after so many milliseconds without activity.
const IDLE_AFTER: u64 = 120_000;

/// The state of an open connection besides its bytes.
#[derive(Clone, Copy, Drop)]
pub struct ConnectionState {
    /// The 100 reply was sent for the message at the front.
    pub continued: bool,
    /// The reply that is owed to the request taken last, until it is sent.
    pub owed: Option<Owed>,
    /// The moment of the last activity.
    pub active: u64,
}

/// A connection as it is held, if it is open. Contracts see the bytes that weren't taken and the state besides them
/// (`Held` of specs/Slots.antt).
///
/// Taking a message moves no bytes, so that its time doesn't depend on those behind it: `start` is after it. The bytes
/// in front of `start` go when more come.
#[derive(Drop)]
pub struct ConnectionSlot {
    bytes: Vec<u8>,
    start: usize,
    state: Option<ConnectionState>,
}

impl Model for ConnectionSlot {
    ghost use Rattle.std.specs.Prelude.{Option};
    ghost use Rattle.http_bind.specs.Slots.{Held};

    ghost Value = { Option Held };

    ghost use Rattle.http_bind.specs.Kept.{seen, IsKept};

    ghost view = { seen };

    ghost invariant = { IsKept };
}

impl ConnectionSlot {
    ghost use Rattle.http_bind.specs.Slots.{held_at_opening, longer, owed_in, is_idle, HasRoomFor};
    ghost use Rattle.http_bind.specs.Looking.{room_size};
    ghost use Rattle.http_bind.specs.Shown.{after_finding, MayPass, LooksBehind, Passes, Settles};

    /// A connection that isn't open. Its memory is taken here.
    pub fn new(alloc: Global) -> Result<ConnectionSlot, NoMemory>
        ensures { IfOk result (λ s. s ≡ None) }
    {
        let bytes = Vec::with_capacity(alloc, LONGEST_REST)?;
        Ok(ConnectionSlot {
            bytes,
            start: 0,
            state: None,
        })
    }

    /// The connection is opened.
    pub fn open(&mut self, now: u64)
        ensures { self.new ≡ Some (held_at_opening now) }
    {
        self.bytes.clear();
        self.start = 0;
        self.state = Some(ConnectionState {
            continued: false,
            owed: None,
            active: now,
        });
    }

    /// The connection isn't open any more.
    pub fn free(&mut self)
        ensures { self.new ≡ None }
    {
        self.state = None;
    }

    /// Bytes came.
    pub fn append(&mut self, piece: &[u8], now: u64)
        requires { HasRoomFor (length piece.now) self.old }
        ensures { self.new ≡ option_map (longer piece.now now) self.old }
    {
        if let Some(state) = self.state {
            move_to_front(&mut self.bytes, self.start);
            self.start = 0;
            // Never out of memory, since the room was taken at first and the piece fits.
            self.bytes.extend_from_slice(piece).unwrap();
            self.state = Some(ConnectionState {
                active: now,
                ..state
            });
        }
    }

    /// Takes what is at the front, after CR LF pairs: a message, or the request for a 100 reply. A fault stays there.
    /// Where a reply is owed, nothing is taken, and a connection is given up that has bytes.
    pub fn next(&mut self, alloc: Global, room: &mut [u8]) -> HeldFront
        requires { room_size ≤ length room.old }
        ensures { Passes self.old result self.new room.new }
    {
        match self.state {
            None => HeldFront::Nothing,
            Some(state) => {
                if state.owed.is_some() {
                    return self.look_behind();
                }
                let rest = skip_pairs(&self.bytes[self.start..]);
                self.start = self.bytes.len() - rest.len();
                let found = look(alloc, &self.bytes[self.start..], state.continued, room);
                self.pass(&found);
                found
            }
        }
    }

    /// Looks for bytes behind a request that a reply is owed to, CR LF pairs too; if some came, gives the connection up.
    fn look_behind(&mut self) -> HeldFront
        requires { IsSome (owed_in self.old) }
        ensures { LooksBehind self.old result self.new }
    {
        if self.bytes[self.start..].is_empty() {
            HeldFront::Nothing
        } else {
            self.state = None;
            HeldFront::Interrupted
        }
    }

    /// Takes what was found.
    fn pass(&mut self, found: &HeldFront)
        requires { MayPass found.now self.old }
        ensures { self.new ≡ option_map (after_finding found.now) self.old }
    {
        if let Some(state) = self.state {
            match found {
                HeldFront::Nothing | HeldFront::Interrupted | HeldFront::Fault(_) => {}
                HeldFront::Continue => {
                    self.state = Some(ConnectionState {
                        continued: true,
                        ..state
                    });
                }
                HeldFront::Message(step, _) => {
                    self.start += step.used;
                    self.state = Some(ConnectionState {
                        continued: false,
                        owed: Some(step.owed),
                        active: state.active,
                    });
                }
            }
        }
    }

    /// The request taken last is replied to, and the connection given up where that was asked. Returns what was owed.
    pub fn take_owed(&mut self, now: u64) -> Owed
        requires { IsSome (owed_in self.old) }
        ensures { Settles now self.old result self.new }
    {
        let state = self.state.unwrap();
        let owed = state.owed.unwrap();
        self.state = if owed.closes {
            None
        } else {
            Some(ConnectionState {
                owed: None,
                active: now,
                ..state
            })
        };
        owed
    }

    /// Says whether no reply is owed, and there was no activity for so long that the connection may be closed.
    pub fn is_idle(&self, now: u64) -> bool
        ensures { result ≡ is_idle now self.now }
    {
        match self.state {
            None => false,
            Some(state) => {
                // Saturating, since moments may fall.
                state.owed.is_none() && now.saturating_sub(state.active) >= IDLE_AFTER
            }
        }
    }
}

/// Moves the bytes from a place on to the front, and gives up those before it.
fn move_to_front(bytes: &mut Vec<u8>, start: usize)
    requires { start ≤ length bytes.old.items }
    ensures items { bytes.new.items ≡ drop start bytes.old.items }
    ensures room { vec_capacity bytes.new ≡ vec_capacity bytes.old }
{
    if start > 0 {
        let rest = bytes.len() - start;
        bytes.copy_within(start.., 0);
        bytes.truncate(rest);
    }
}
