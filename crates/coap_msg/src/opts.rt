//! Options that are written one after another into a caller's slice (RFC 7252, section 3.1).

ghost use Rattle.std.specs.Prelude.{◌≡◌, ◌≤◌, ◌<◌, ◌+◌, [], ◌∷◌, ◌++◌, length, take, IfOk, OnOk, OnErr};
ghost use Rattle.coap_msg.specs.Grammar.{nibble, extended, option_spelling, options_spelling, largest_number, AreInOrder};
ghost use Rattle.coap_msg.specs.Opts.{WrittenOptions, last_number, PutsOptions};

use crate::options::{FROM_ONE_BYTE, FROM_TWO_BYTES, ONE_BYTE, TWO_BYTES};
use servient_base::put_bytes;
use std::marker::Model;
use thiserror::Error;

/// There is no room for the option that was to be written.
#[derive(Clone, Copy, Debug, PartialEq, Eq, Error)]
#[error("no room")]
pub struct NoRoom;

/// Options that are being written, seen as their list and the room for their bytes.
#[derive(Drop)]
pub struct Opts<'r> {
    room: &'r mut [u8],
    used: usize,
    last: u16,
}

impl<'r> Model for Opts<'r> {
    ghost use Rattle.std.specs.Prelude.{◌≤◌, length, take};
    ghost use Rattle.coap_msg.specs.Options.{options_of};
    ghost use Rattle.coap_msg.specs.Opts.{WrittenOptions};
    ghost use Rattle.coap_msg.specs.Kept.{AreWritten};

    ghost Value = { WrittenOptions };

    ghost view = { λ o. record { list = options_of (take o.used o.room.now); room = length o.room.now } };

    ghost invariant = { λ o. (o.used ≤ length o.room.now) × AreWritten o.last (take o.used o.room.now) };
}

impl<'r> Opts<'r> {
    /// No option yet. The bytes of all options are to fit into `room`, which is lent, since no function of this crate
    /// takes memory.
    pub fn on(room: &'r mut [u8]) -> Opts<'r>
        ensures { result ≡ record { list = []; room = length room.entry.now } }
    {
        Opts {
            room,
            used: 0,
            last: 0,
        }
    }

    /// Writes an option after those that were written: every one that the format can say.
    pub fn push(&mut self, number: u16, value: &[u8]) -> Result<(), NoRoom>
        requires order { last_number 0 self.old.list ≤ number }
        requires value { length value.now ≤ largest_number }
        ensures ok { OnOk result (self.new ≡
            record self.old { list = self.old.list ++ (number, value.now) ∷ [] }) }
        ensures fits { OnOk result
            (length (options_spelling 0 (self.old.list ++ (number, value.now) ∷ [])) ≤ self.old.room) }
        ensures unchanged { OnErr result (self.new ≡ self.old) }
        ensures no_room { OnErr result (self.old.room <
            length (options_spelling 0 (self.old.list ++ (number, value.now) ∷ []))) }
    {
        let end = put_option(self.room, self.used, self.last, number, value)?;
        self.used = end;
        self.last = number;
        Ok(())
    }

    /// The bytes that spell the options.
    pub(crate) fn as_bytes(&self) -> &[u8]
        ensures ok { result.now ≡ options_spelling 0 self.now.list }
        ensures order { AreInOrder 0 self.now.list }
    {
        &self.room[..self.used]
    }
}

/// Writes an option of this number for one segment of a path. The loop over a path is the caller's, because `Segments`
/// isn't known here.
#[tactic(auto, using(crate::proofs::OptionParts::last_written))]
pub fn put_segment(options: &mut Opts<'_>, number: u16, segment: &[u8]) -> Result<(), NoRoom>
    requires order { last_number 0 options.old.list ≤ number }
    requires segment { length segment.now ≤ largest_number }
    ensures ok { PutsOptions ((number, segment.now) ∷ []) result options.old options.new }
    ensures last { OnOk result (last_number 0 options.new.list ≡ number) }
{
    options.push(number, segment)
}

/// Writes an option after one of the number `last`, and returns the place after it.
fn put_option(
    out: &mut [u8],
    at: usize,
    last: u16,
    number: u16,
    value: &[u8],
) -> Result<usize, NoRoom>
    requires within { at ≤ length out.old }
    requires order { last ≤ number }
    requires value { length value.now ≤ largest_number }
    ensures end { IfOk result (λ end. (end ≡ at + length (option_spelling last (number, value.now)))
        × (end ≤ length out.new)) }
    ensures bytes { IfOk result (λ end. take end out.new ≡
        take at out.old ++ option_spelling last (number, value.now)) }
    ensures unchanged { OnErr result (out.new ≡ out.old) }
    ensures no_room { OnErr result (length out.old <
        at + length (option_spelling last (number, value.now))) }
{
    let delta = (number - last) as usize;
    let size = value.len();
    // The whole length is judged before a byte is written, so that a refusal leaves the room as it was.
    if out.len() - at < 1 + extended_length(delta) + extended_length(size) + size {
        return Err(NoRoom);
    }
    let first = 16 * nibble_of(delta) + nibble_of(size);
    let at = put_bytes(out, at, &[first]);
    let at = put_extended(out, at, delta);
    let at = put_extended(out, at, size);
    Ok(put_bytes(out, at, value))
}

/// The nibble of an option delta or an option length.
fn nibble_of(number: usize) -> u8
    ensures ok { result ≡ nibble number }
    ensures bound { result ≤ 14 }
{
    if number < FROM_ONE_BYTE {
        number as u8
    } else if number < FROM_TWO_BYTES {
        ONE_BYTE
    } else {
        TWO_BYTES
    }
}

/// The number of extended bytes of an option delta or an option length.
fn extended_length(number: usize) -> usize
    ensures ok { result ≡ length (extended number) }
    ensures bound { result ≤ 2 }
{
    if number < FROM_ONE_BYTE {
        0
    } else if number < FROM_TWO_BYTES {
        1
    } else {
        2
    }
}

/// Writes the extended bytes of an option delta or an option length, and returns the place after them.
fn put_extended(out: &mut [u8], at: usize, number: usize) -> usize
    requires room { at + length (extended number) ≤ length out.old }
    requires number { number ≤ largest_number }
    ensures end { result ≡ at + length (extended number) }
    ensures bytes { take result out.new ≡ take at out.old ++ extended number }
{
    if number < FROM_ONE_BYTE {
        at
    } else if number < FROM_TWO_BYTES {
        put_bytes(out, at, &[(number - FROM_ONE_BYTE) as u8])
    } else {
        let above = number - FROM_TWO_BYTES;
        put_bytes(out, at, &[(above / 256) as u8, (above % 256) as u8])
    }
}
