//! A whole body, as it is read from a stream.

ghost use Rattle.std.specs.Prelude.{◌≡◌, true, length};
ghost use Rattle.http_fields.specs.Bodies.{decoded, stated_body, AreOneBody};
ghost use Rattle.http_fields.specs.BodySeen.{body_seen, IsWithin};

use crate::chunks::{BodyScan, copy_chunks};
use std::marker::Model;

/// A whole body, over the bytes of the stream that it was read from. Contracts see its decoded bytes, which `copy_to`
/// decodes: nothing else is public of it.
#[derive(Drop)]
pub struct Body<'a> {
    coded: &'a [u8],
    chunked: bool,
    decoded_length: usize,
}

impl<'a> Model for Body<'a> {
    ghost use Rattle.std.specs.Prelude.{List, ℕ};
    ghost use Rattle.http_fields.specs.Bodies.{decoded, AreOneBody};

    ghost Value = { List ℕ };

    ghost view = { λ b. decoded b.chunked b.coded.now };

    ghost invariant = { λ b. AreOneBody b.chunked b.coded.now b.decoded_length };
}

impl<'a> Body<'a> {
    /// The body of a stated length, at the front of the bytes after a head. It is decoded as it comes.
    pub fn stated_at_front(size: usize, bytes: &'a [u8]) -> BodyScan<'a>
        ensures ok { body_seen result ≡ stated_body size bytes.now }
        ensures within { IsWithin size result (length bytes.now) }
    {
        if size <= bytes.len() {
            BodyScan::Whole {
                body: Body {
                    coded: &bytes[..size],
                    chunked: false,
                    decoded_length: size,
                },
                used: size,
            }
        } else {
            BodyScan::Unfinished
        }
    }

    /// The body that these bytes are in chunks, where it has this many bytes when it is decoded.
    pub(crate) fn in_chunks(bytes: &'a [u8], decoded_length: usize) -> Body<'a>
        requires { AreOneBody true bytes.now decoded_length }
        ensures ok { result ≡ decoded true bytes.now }
        ensures size { length result ≡ decoded_length }
    {
        Body {
            coded: bytes,
            chunked: true,
            decoded_length,
        }
    }

    /// The number of bytes that it has when it is decoded.
    pub fn length(&self) -> usize
        ensures { result ≡ length self.now }
    {
        self.decoded_length
    }

    /// Writes its decoded bytes into a slice of just that many.
    pub fn copy_to(&self, out: &mut [u8])
        requires { length out.old ≡ length self.now }
        ensures { out.new ≡ self.now }
    {
        if self.chunked {
            copy_chunks(self.coded, out);
        } else {
            out.copy_from_slice(self.coded);
        }
    }
}
