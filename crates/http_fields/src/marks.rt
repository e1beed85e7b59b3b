//! The marks by which the parts of a message are found, as the end of a head, and the line feeds of a head.

ghost use Rattle.std.specs.Prelude.{◌≡◌, ◌≤◌, ◌<◌, length, take, drop, IfSome};
ghost use Rattle.http_fields.specs.Marks.{length_through, line_feeds};

use memchr::memmem;

/// The most header lines of a head.
pub const MOST_LINES: usize = 64;

/// The line feeds of a head with the most header lines: 64, the start line and the empty line.
pub const MOST_LINE_FEEDS: usize = 66;

/// The first bytes, at most `most` of them.
pub fn front(bytes: &[u8], most: usize) -> &[u8]
    ensures ok { result.now ≡ take most bytes.now }
    ensures bound { length result.now ≤ length bytes.now }
    ensures most { length result.now ≤ most }
{
    if most < bytes.len() {
        &bytes[..most]
    } else {
        bytes
    }
}

/// The bytes from a place on.
pub fn rest_from(bytes: &[u8], place: usize) -> &[u8]
    requires { place ≤ length bytes.now }
    ensures { result.now ≡ drop place bytes.now }
{
    &bytes[place..]
}

/// The number of bytes up to the first mark, the mark among them.
pub fn length_through_mark(mark: &[u8], bytes: &[u8]) -> Option<usize>
    requires { 0 < length mark.now }
    ensures ok { result ≡ length_through mark.now bytes.now }
    ensures bound { IfSome result (λ n. n ≤ length bytes.now) }
    ensures through { IfSome result (λ n. length mark.now ≤ n) }
{
    match memmem::find(bytes, mark) {
        Some(place) => Some(place + mark.len()),
        None => None,
    }
}

/// Counts the line feeds.
pub fn count_line_feeds(bytes: &[u8]) -> usize
    ensures ok { result ≡ line_feeds bytes.now }
{
    let mut count = 0;
    for byte in bytes {
        if *byte == b'\n' {
            count += 1;
        }
    }
    count
}
