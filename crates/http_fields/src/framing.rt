//! The framing of the body after a head, by its fields.

ghost use Rattle.std.specs.Prelude.{◌≡◌, ◌≤◌, ◌+◌, ◌*◌, true, ℕ, min, IfOk};
ghost use Rattle.std.specs.List.{list_all};
ghost use Rattle.std.specs.Char.{is_ascii_digit, digit_value};
ghost use Rattle.std.specs.Str.Parse.{digits_value};
ghost use Rattle.http_fields.specs.Framings.{IsBounded, is_length, framing_by, stated_framing, coded_framing};
ghost use Rattle.http_fields.specs.Bodies.{longest_reply};
ghost use Rattle.http_fields.specs.Found.{standing_of};

use crate::fields::{FoundField, is_alike};
use crate::statuses::{BAD_REQUEST, CONTENT_TOO_LARGE, NOT_IMPLEMENTED};

/// The framing of a body, from which its end is found (RFC 9112, section 6).
#[derive(Clone, Copy, Debug, PartialEq, Eq, Drop)]
pub enum Framing {
    /// It has this many bytes.
    Stated(usize),
    /// It is in chunks.
    Chunked,
}

/// The framing by `Content-Length` and `Transfer-Encoding`, where a body has at most so many bytes.
pub fn read_framing(
    most: usize,
    newer: bool,
    length: FoundField<'_>,
    coding: FoundField<'_>,
) -> Result<Framing, u16>
    requires { most ≤ longest_reply }
    ensures ok { result ≡ framing_by most newer (standing_of length.entry) (standing_of coding.entry) }
    ensures bound { IfOk result (IsBounded most) }
{
    // Both fields are refused, since they may be an attempt to smuggle a request (RFC 9112, section 6.3). Each case has
    // an arm of its own, since that gives the proof an equation.
    match length {
        FoundField::Absent => match coding {
            FoundField::Absent => Ok(Framing::Stated(0)),
            FoundField::Once(value) => coded(newer, value),
            FoundField::Often => Err(BAD_REQUEST),
        },
        FoundField::Once(value) => match coding {
            FoundField::Absent => stated(most, value),
            FoundField::Once(_) => Err(BAD_REQUEST),
            FoundField::Often => Err(BAD_REQUEST),
        },
        FoundField::Often => Err(BAD_REQUEST),
    }
}

/// The framing of a body in this coding.
fn coded(newer: bool, value: &[u8]) -> Result<Framing, u16>
    ensures ok { result ≡ coded_framing newer value.now }
    ensures bound { (most : ℕ) → IfOk result (IsBounded most) }
{
    // In HTTP/1.0 it is a fault, as RFC 9112 says in section 6.1.
    if !newer {
        Err(BAD_REQUEST)
    } else if is_alike(value, b"chunked") {
        Ok(Framing::Chunked)
    } else {
        Err(NOT_IMPLEMENTED)
    }
}

/// The framing of a body of this length, where it is no more than so many bytes.
fn stated(most: usize, value: &[u8]) -> Result<Framing, u16>
    requires { most ≤ longest_reply }
    ensures ok { result ≡ stated_framing most value.now }
    ensures bound { IfOk result (IsBounded most) }
{
    if !is_number(value) {
        return Err(BAD_REQUEST);
    }
    let length = number(most, value);
    if length > most {
        Err(CONTENT_TOO_LARGE)
    } else {
        Ok(Framing::Stated(length))
    }
}

/// Says whether a value is a decimal digit or more.
fn is_number(value: &[u8]) -> bool
    ensures { result ≡ is_length value.now }
{
    !value.is_empty() && are_digits(value)
}

/// Says whether all bytes are decimal digits.
fn are_digits(bytes: &[u8]) -> bool
    ensures { result ≡ list_all is_ascii_digit bytes.now }
{
    bytes.iter().all(|byte| byte.is_ascii_digit())
}

/// The number that decimal digits write, if it is at most so much; else one more than that.
fn number(most: usize, value: &[u8]) -> usize
    requires most { most ≤ longest_reply }
    requires digits { list_all is_ascii_digit value.now ≡ true }
    ensures { result ≡ min (digits_value 10 value.now) (most + 1) }
{
    let mut number = 0;
    for byte in value {
        number = with_digit(most, number, *byte);
    }
    number
}

/// A number with one digit more, if it is at most so much; else one more than that, so that it never wraps.
fn with_digit(most: usize, number: usize, byte: u8) -> usize
    requires most { most ≤ longest_reply }
    requires digit { is_ascii_digit byte ≡ true }
    requires bound { number ≤ most + 1 }
    ensures { result ≡ min (number * 10 + digit_value byte) (most + 1) }
{
    let longer = number * 10 + digit(byte);
    if longer > most { most + 1 } else { longer }
}

/// The value of a decimal digit.
fn digit(byte: u8) -> usize
    requires { is_ascii_digit byte ≡ true }
    ensures ok { result ≡ digit_value byte }
    ensures bound { result ≤ 9 }
{
    usize::from(byte - b'0')
}
