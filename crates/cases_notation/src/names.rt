//! The names of CoAP's types, codes and options (RFC 7252, sections 3, 5.10 and 12; RFC 7641; RFC 7959).

use std::alloc::AllocError;
use std::fmt::Write;

/// The way in which the value of an option is written.
#[derive(Clone, Copy, PartialEq, Eq)]
pub enum Format {
    /// A number, in as few bytes as it takes.
    Number,
    /// Bytes.
    Bytes,
}

/// The options that have a name here: number, name and format.
const OPTIONS: &[(u16, &str, Format)] = &[
    (1, "If-Match", Format::Bytes),
    (3, "Uri-Host", Format::Bytes),
    (4, "ETag", Format::Bytes),
    (5, "If-None-Match", Format::Bytes),
    (6, "Observe", Format::Number),
    (7, "Uri-Port", Format::Number),
    (8, "Location-Path", Format::Bytes),
    (11, "Uri-Path", Format::Bytes),
    (12, "Content-Format", Format::Number),
    (14, "Max-Age", Format::Number),
    (15, "Uri-Query", Format::Bytes),
    (17, "Accept", Format::Number),
    (20, "Location-Query", Format::Bytes),
    (23, "Block2", Format::Number),
    (27, "Block1", Format::Number),
    (28, "Size2", Format::Number),
    (35, "Proxy-Uri", Format::Bytes),
    (39, "Proxy-Scheme", Format::Bytes),
    (60, "Size1", Format::Number),
];

/// The number and the format of an option: of one that has a name here, or of `#N`.
pub fn option_named(word: &str) -> Option<(u16, Format)> {
    if let Some(digits) = word.strip_prefix("#") {
        return match digits.parse::<u16>() {
            Ok(number) => Some((number, Format::Bytes)),
            Err(_) => None,
        };
    }
    for (number, name, format) in OPTIONS.iter() {
        if *name == word {
            return Some((*number, *format));
        }
    }
    None
}

/// The name and the format of an option, if it has a name here.
pub fn name_of(wanted: u16) -> Option<(&'static str, Format)> {
    for (number, name, format) in OPTIONS.iter() {
        if *number == wanted {
            return Some((*name, *format));
        }
    }
    None
}

/// The bits of a message's type.
pub fn type_bits(word: &str) -> u8 {
    match word {
        "CON" => 0,
        "NON" => 1,
        "ACK" => 2,
        _ => 3,
    }
}

/// The code of a method's name, or of digits as in `2.05`; 0.00 of `EMPTY` and of any other word.
pub fn code_of(word: &str) -> u8 {
    match word {
        "GET" => 1,
        "POST" => 2,
        "PUT" => 3,
        "DELETE" => 4,
        "FETCH" => 5,
        "PATCH" => 6,
        "iPATCH" => 7,
        _ => match word.split_once('.') {
            Some((class, detail)) => {
                let class = class.parse::<u8>().unwrap_or(0);
                class
                    .wrapping_mul(32)
                    .wrapping_add(detail.parse::<u8>().unwrap_or(0))
            }
            None => 0,
        },
    }
}

/// Writes a code: a method's name, or its class and detail.
pub fn put_code(text: &mut String, code: u8) -> Result<(), AllocError> {
    match code {
        0 => text.push_str("EMPTY"),
        1 => text.push_str("GET"),
        2 => text.push_str("POST"),
        3 => text.push_str("PUT"),
        4 => text.push_str("DELETE"),
        5 => text.push_str("FETCH"),
        6 => text.push_str("PATCH"),
        7 => text.push_str("iPATCH"),
        _ => write!(text, "{}.{:02}", code / 32, code % 32),
    }
}
