//! The part of the entries that a list has, by the query of its request.

ghost use Rattle.std.specs.Prelude.{◌≡◌, ◌≤◌, ◌∷◌, ◌==◌, length, option_map, IfSome};
ghost use Rattle.std.specs.Char.{is_ascii_digit};
ghost use Rattle.std.specs.List.{list_all, position_or_len};
ghost use Rattle.directory_requests.specs.Window as spec;
ghost use Rattle.directory_requests.specs.Items.{items_in, bytes_in};

use memchr::memchr;

/// The number of entries that are listed where the query doesn't say.
const USUAL_LIMIT: u32 = 32;

/// The most that are listed.
const GREATEST_LIMIT: u32 = 100;

/// The entries that are listed: the number left out before them, and the most that there are.
#[derive(Clone, Copy, Debug, PartialEq, Eq, Drop)]
pub struct Window {
    pub offset: u32,
    pub limit: u32,
}

/// The window that a query asks for by its items `offset` and `limit`, of which the first of each name counts. None:
/// one of them is no number of one to nine digits, or the limit is 0.
pub fn window_of(query: &[u8]) -> Option<Window>
    ensures window { result ≡ spec.window_of query.now }
    ensures some { IfSome result (λ w. 1 ≤ w.limit) }
{
    let offset = number_or(0, value_in(query, b"offset"))?;
    let limit = number_or(USUAL_LIMIT, value_in(query, b"limit"))?;
    if limit == 0 {
        return None;
    }
    Some(Window {
        offset,
        limit: limit.min(GREATEST_LIMIT),
    })
}

/// The value of the first item of this name.
fn value_in<'q>(query: &'q [u8], name: &[u8]) -> Option<&'q [u8]>
    ensures { option_map (λ value. value.now) result ≡ spec.value_in name.now (spec.items_of query.now) }
{
    let mut rest = Some(query);
    while let Some(items) = rest {
        let (item, further) = first_item(items);
        let (item_name, value) = cut(item);
        if item_name == name {
            return Some(value);
        }
        rest = further;
    }
    None
}

/// The first item, and the bytes of the others, if there are others.
fn first_item(items: &[u8]) -> (&[u8], Option<&[u8]>)
    ensures items { spec.items_of items.now ≡ result.0.now ∷ items_in result.1 }
    ensures shorter { bytes_in result.1 ≤ length items.now }
{
    let place = place_of(b'&', items);
    if place < items.len() {
        (&items[..place], Some(&items[place + 1..]))
    } else {
        (items, None)
    }
}

/// The bytes before the first `=`, and those behind it; where there is none, all bytes and none.
fn cut(item: &[u8]) -> (&[u8], &[u8])
    ensures name { result.0.now ≡ spec.name_of item.now }
    ensures value { result.1.now ≡ spec.value_of item.now }
{
    let place = place_of(b'=', item);
    if place < item.len() {
        (&item[..place], &item[place + 1..])
    } else {
        (item, &[])
    }
}

/// The place of the first such byte; where there is none, the length.
fn place_of(byte: u8, bytes: &[u8]) -> usize
    ensures ok { result ≡ position_or_len (λ b. b == byte) bytes.now }
    ensures bound { result ≤ length bytes.now }
{
    match memchr(byte, bytes) {
        Some(place) => place,
        None => bytes.len(),
    }
}

/// The number that an item says, or this one where there is no such item.
fn number_or(otherwise: u32, text: Option<&[u8]>) -> Option<u32>
    ensures { result ≡ spec.number_or otherwise (option_map (λ t. t.now) text.entry) }
{
    match text {
        Some(text) => number_in(text),
        None => Some(otherwise),
    }
}

/// The number that a text of one to nine digits is.
fn number_in(text: &[u8]) -> Option<u32>
    ensures { result ≡ spec.number_in text.now }
{
    // A match and not `ok()?`, since the proof cites that the bytes aren't UTF-8.
    match str::from_utf8(text) {
        Ok(text) => number_in_text(text),
        Err(_) => None,
    }
}

/// The number that a text of one to nine digits is.
fn number_in_text(text: &str) -> Option<u32>
    ensures { result ≡ spec.number_in text.now }
{
    if !is_number(text.as_bytes()) {
        return None;
    }
    match text.parse::<u32>() {
        Ok(number) => Some(number),
        Err(_) => None,
    }
}

/// These are one to nine digits.
fn is_number(text: &[u8]) -> bool
    ensures { result ≡ spec.is_number text.now }
{
    1 <= text.len() && text.len() <= 9 && are_digits(text)
}

/// All bytes are digits.
fn are_digits(text: &[u8]) -> bool
    ensures { result ≡ list_all is_ascii_digit text.now }
{
    text.iter().all(|byte| byte.is_ascii_digit())
}
