//! Bytes cut at single bytes, as the lines of a head and the items of a list are.

ghost use Rattle.std.specs.Prelude.{◌≡◌, ◌==◌};
ghost use Rattle.std.specs.List.{before_first, after_first, slice_split};
ghost use Rattle.http_fields.specs.Pieces.{pieces_left};

use memchr::memchr;

/// The bytes before the first such byte, and those after it; where there is none, all bytes and none.
pub fn cut(byte: u8, bytes: &[u8]) -> (&[u8], &[u8])
    ensures before { result.0.now ≡ before_first (λ b. b == byte) bytes.now }
    ensures after { result.1.now ≡ after_first (λ b. b == byte) bytes.now }
{
    match memchr(byte, bytes) {
        Some(place) => (&bytes[..place], &bytes[place + 1..]),
        None => (bytes, &[]),
    }
}

/// The pieces of bytes between such bytes.
pub fn cut_at_each(byte: u8, bytes: &[u8]) -> Pieces<'_>
    ensures { pieces_left result ≡ slice_split (λ b. b == byte) bytes.now }
{
    Pieces {
        byte,
        rest: Some(bytes),
    }
}

/// Pieces of bytes, from one of them on.
#[derive(Drop)]
pub struct Pieces<'a> {
    byte: u8,
    rest: Option<&'a [u8]>,
}

impl<'a> Iterator for Pieces<'a> {
    type Item = &'a [u8];

    ghost use Rattle.std.specs.Iterator.{YieldsFirstBy, item_count};
    ghost use Rattle.http_fields.specs.Pieces.{pieces_left, piece_of_item};

    ghost next_gives = { YieldsFirstBy piece_of_item pieces_left };

    ghost remaining = { item_count pieces_left };

    fn next(&mut self) -> Option<&'a [u8]> {
        let bytes = self.rest?;
        match memchr(self.byte, bytes) {
            Some(place) => {
                self.rest = Some(&bytes[place + 1..]);
                Some(&bytes[..place])
            }
            None => {
                self.rest = None;
                Some(bytes)
            }
        }
    }
}
