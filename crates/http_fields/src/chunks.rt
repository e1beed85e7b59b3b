//! Bodies at the front of bytes, and bodies in chunks (RFC 9112, section 7.1).

ghost use Rattle.std.specs.Prelude.{◌≡◌, ◌≤◌, ◌<◌, ◌+◌, ◌-◌, ◌^◌, true, length, take, drop, Some};
ghost use Rattle.std.specs.List.{list_all};
ghost use Rattle.std.specs.Char.{is_ascii_hexdigit, digit_value};
ghost use Rattle.std.specs.Str.Parse.{digits_value};
ghost use Rattle.httparse.specs.Grammar.{is_extension_byte};
ghost use Rattle.http_fields.specs.Marks.{empty_line, length_through};
ghost use Rattle.http_fields.specs.Chunks.{chunk_size, trailers_to, data_before, sized_chunk, chunk_at as chunk_of, chunks};
ghost use Rattle.http_fields.specs.Bodies.{decoded, longest_reply, AreOneBody};
ghost use Rattle.http_fields.specs.BodySeen.{body_seen, IsWithin, IsChunkWithin};

use crate::Body;
use crate::lines::cut;
use crate::marks::{front, length_through_mark, rest_from};
use crate::statuses::{BAD_REQUEST, CONTENT_TOO_LARGE};
use servient_base::put_bytes;

/// The most bytes of a reply with all that is before it, and so of any body when it is decoded.
pub const LONGEST_REPLY: usize = 65536;

/// The most bytes of a chunk line, with its CR LF.
const LONGEST_LINE: usize = 64;

/// The bytes of a CR LF.
const LINE_END: usize = 2;

/// The most digits of the size of a chunk.
const MOST_DIGITS: usize = 8;

/// The front of the bytes after a head.
#[derive(Drop)]
pub enum BodyScan<'a> {
    /// The body isn't whole yet.
    Unfinished,
    /// The body has a fault with this status.
    Faulty(u16),
    /// A whole body.
    Whole {
        /// The body.
        body: Body<'a>,
        /// The number of bytes that it takes.
        used: usize,
    },
}

/// The front of bytes at which a chunk begins.
#[derive(Clone, Copy, Drop)]
pub enum Chunk {
    /// It isn't whole yet.
    Cut,
    /// It is wrong, with this status.
    Wrong(u16),
    /// It is the last one, and the body ends after this many bytes.
    Last(usize),
    /// It has data.
    More {
        /// The place at which its data begins.
        place: usize,
        /// The number of its bytes of data.
        size: usize,
    },
}

/// The chunks at the front of bytes, all of which the body may have, with at most so many bytes of data.
pub fn chunks_at_front(most: usize, bytes: &[u8]) -> BodyScan<'_>
    requires { most ≤ longest_reply }
    ensures ok { body_seen result ≡ chunks most 0 0 bytes.now }
    ensures within { IsWithin most result (length bytes.now) }
{
    let mut place = 0;
    let mut sum = 0;
    loop {
        match chunk_at(most, sum, rest_from(bytes, place)) {
            Chunk::Cut => return BodyScan::Unfinished,
            Chunk::Wrong(status) => return BodyScan::Faulty(status),
            Chunk::Last(used) => {
                let end = place + used;
                return BodyScan::Whole {
                    body: Body::in_chunks(front(bytes, end), sum),
                    used: end,
                };
            }
            Chunk::More { place: after, size } => {
                place += after + size + LINE_END;
                sum += size;
            }
        }
    }
}

/// The chunk at the front of bytes, after `sum` bytes of data, of which there are at most so many.
fn chunk_at(most: usize, sum: usize, bytes: &[u8]) -> Chunk
    requires { sum ≤ most }
    ensures ok { result ≡ chunk_of most sum bytes.now }
    ensures within { IsChunkWithin most sum (length bytes.now) result }
{
    // A line is short, since a server ought to limit chunk extensions (RFC 9112, section 7.1.1).
    match length_through_mark(b"\r\n", front(bytes, LONGEST_LINE)) {
        None => {
            if bytes.len() >= LONGEST_LINE {
                Chunk::Wrong(BAD_REQUEST)
            } else {
                Chunk::Cut
            }
        }
        Some(end) => sized_at(most, sum, bytes, end),
    }
}

/// The chunk whose line has this many bytes.
fn sized_at(most: usize, sum: usize, bytes: &[u8], end: usize) -> Chunk
    requires sum { sum ≤ most }
    requires line { 2 ≤ end }
    requires within { end ≤ length bytes.now }
    ensures ok { result ≡ sized_chunk most sum bytes.now end (chunk_size (take (end - 2) bytes.now)) }
    ensures within { IsChunkWithin most sum (length bytes.now) result }
{
    match size_of(&bytes[..end - LINE_END]) {
        None => Chunk::Wrong(BAD_REQUEST),
        Some(0) => last_at(end - LINE_END, &bytes[end - LINE_END..]),
        Some(size) => {
            if size > most - sum {
                Chunk::Wrong(CONTENT_TOO_LARGE)
            } else {
                data_at(end, size, &bytes[end..])
            }
        }
    }
}

/// The last chunk, from the CR LF of its line on, since without trailers that CR LF is part of the mark at the end.
fn last_at(place: usize, bytes: &[u8]) -> Chunk
    requires { place + length bytes.now < 2 ^ 64 }
    ensures ok { result ≡ trailers_to place (length_through empty_line bytes.now) }
    ensures within { IsChunkWithin 0 0 (place + length bytes.now) result }
{
    match length_through_mark(b"\r\n\r\n", bytes) {
        None => Chunk::Cut,
        Some(end) => Chunk::Last(place + end),
    }
}

/// A chunk with data, from its data on.
fn data_at(place: usize, size: usize, bytes: &[u8]) -> Chunk
    ensures { result ≡ data_before place size (drop size bytes.now) }
{
    if bytes.len() < size {
        return Chunk::Cut;
    }
    match &bytes[size..] {
        [b'\r', b'\n', ..] => Chunk::More { place, size },
        [_, _, ..] => Chunk::Wrong(BAD_REQUEST),
        _ => Chunk::Cut,
    }
}

/// The size that a chunk line says.
fn size_of(line: &[u8]) -> Option<usize>
    ensures { result ≡ chunk_size line.now }
{
    let (digits, extension) = cut(b';', line);
    if !is_extension(extension) {
        return None;
    }
    if !digits.is_empty() && digits.len() <= MOST_DIGITS && are_digits(digits) {
        Some(hexadecimal(digits))
    } else {
        None
    }
}

/// Says whether no byte is a CR or an LF.
fn is_extension(bytes: &[u8]) -> bool
    ensures { result ≡ list_all is_extension_byte bytes.now }
{
    bytes.iter().all(|byte| !(*byte == b'\r' || *byte == b'\n'))
}

/// Says whether all bytes are hexadecimal digits.
fn are_digits(bytes: &[u8]) -> bool
    ensures { result ≡ list_all is_ascii_hexdigit bytes.now }
{
    bytes.iter().all(|byte| byte.is_ascii_hexdigit())
}

/// The number that up to 8 hexadecimal digits write.
fn hexadecimal(digits: &[u8]) -> usize
    requires digits { list_all is_ascii_hexdigit digits.now ≡ true }
    requires short { length digits.now ≤ 8 }
    ensures { result ≡ digits_value 16 digits.now }
{
    let mut number = 0;
    for byte in digits {
        number = number * 16 + digit(*byte);
    }
    number
}

/// The value of a hexadecimal digit.
fn digit(byte: u8) -> usize
    requires { is_ascii_hexdigit byte ≡ true }
    ensures ok { result ≡ digit_value byte }
    ensures bound { result ≤ 15 }
{
    match byte {
        b'0'..=b'9' => usize::from(byte - b'0'),
        b'A'..=b'F' => usize::from(byte - b'A') + 10,
        _ => usize::from(byte - b'a') + 10,
    }
}

/// Writes the data of the chunks into a slice that has just as many bytes.
pub fn copy_chunks(coded: &[u8], out: &mut [u8])
    requires { AreOneBody true coded.now (length out.old) }
    ensures { out.new ≡ decoded true coded.now }
{
    let mut place = 0;
    let mut sum = 0;
    loop {
        match chunk_at(LONGEST_REPLY, sum, rest_from(coded, place)) {
            // The last chunk alone comes here, since the bytes are one body.
            Chunk::Cut | Chunk::Wrong(_) | Chunk::Last(_) => return,
            Chunk::More { place: after, size } => {
                sum = put_bytes(out, sum, part(rest_from(coded, place), after, size));
                place += after + size + LINE_END;
            }
        }
    }
}

/// `size` bytes from a place on.
fn part(bytes: &[u8], place: usize, size: usize) -> &[u8]
    requires { place + size ≤ length bytes.now }
    ensures { result.now ≡ take size (drop place bytes.now) }
{
    &bytes[place..place + size]
}
