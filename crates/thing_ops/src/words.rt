//! The words of outcomes, by the table in `specs/Outcomes.antt`.

ghost use Rattle.std.specs.Prelude.{◌++◌, ◌+◌, ◌≤◌, length};
ghost use Rattle.std.specs.Fmt.{decimal};
ghost use Rattle.thing_ops.specs.Outcomes.{word_of};
ghost use Rattle.servient_base.specs.Writing.{Puts};

use crate::Outcome;
use itoa::Buffer;
use servient_base::put_bytes;

/// The number of bytes in which any word has room: the longest has 13.
pub const LONGEST_WORD: usize = 32;

/// Writes the word of an outcome to the beginning of `out`, and returns its length: 0 where the outcome carries a text
/// or there is nothing to say. After the word `out` stays as it was. The room is lent, since the word of `Memory` is
/// written where there is no memory.
pub fn word(outcome: &Outcome, out: &mut [u8; LONGEST_WORD]) -> usize
    ensures { Puts (word_of outcome.now) 0 result out.old out.new }
{
    match outcome {
        Outcome::NotFound | Outcome::Wait(_) => put(out, 0, b"missing"),
        Outcome::NotAllowed(_) => put(out, 0, b"method"),
        Outcome::NotAcceptable => put(out, 0, b"accept"),
        Outcome::Format => put(out, 0, b"format"),
        Outcome::BadValue => put(out, 0, b"value"),
        Outcome::TooLarge => put(out, 0, b"large"),
        Outcome::PreconditionFailed => put(out, 0, b"condition"),
        Outcome::Refused(number) => put_numbered(out, b"refused ", *number),
        Outcome::DeviceFault(number) => put_numbered(out, b"device ", *number),
        Outcome::BadAnswer => put(out, 0, b"answer"),
        Outcome::InvocationsFull => put(out, 0, b"invocations"),
        Outcome::CallsUsed => put(out, 0, b"calls"),
        Outcome::Invalid(number) => put_numbered(out, b"invalid ", u16::from(*number)),
        Outcome::IdDiffers => put(out, 0, b"differs"),
        Outcome::HasId => put(out, 0, b"hasid"),
        Outcome::BadTtl => put(out, 0, b"ttl"),
        Outcome::DirectoryFull => put(out, 0, b"directory"),
        Outcome::Memory => put(out, 0, b"memory"),
        Outcome::Content { .. }
        | Outcome::Description(_, _)
        | Outcome::NotModified(_)
        | Outcome::Empty
        | Outcome::Changed
        | Outcome::Output(_)
        | Outcome::Started(_, _)
        | Outcome::Deleted
        | Outcome::Created(_)
        | Outcome::Listed(_) => 0,
    }
}

/// Writes a name and a number after it to the beginning of `out`, and returns the length of both.
fn put_numbered(out: &mut [u8], name: &[u8], number: u16) -> usize
    requires { length name.now + 5 ≤ length out.old }
    ensures { Puts (name.now ++ decimal number) 0 result out.old out.new }
{
    let mut buffer = Buffer::new();
    let at = put(out, 0, name);
    put(out, at, buffer.format(number).as_bytes())
}

/// Writes bytes at a place of `out`, and returns the place after them.
pub(crate) fn put(out: &mut [u8], at: usize, bytes: &[u8]) -> usize
    requires { at + length bytes.now ≤ length out.old }
    ensures { Puts bytes.now at result out.old out.new }
{
    put_bytes(out, at, bytes)
}
