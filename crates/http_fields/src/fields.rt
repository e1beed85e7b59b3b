//! The fields of a head, read in one pass over its header lines, since a pass for each field takes longer.

ghost use Rattle.std.specs.Prelude.{◌≡◌, ◌||◌, [], map, length, true, false, None};
ghost use Rattle.std.specs.List.{All};
ghost use Rattle.std.specs.Str.{str_eq_ignore_ascii_case};
ghost use Rattle.httparse.specs.Spans.{IsHeaderWithin, header_bytes};
ghost use Rattle.http_fields.specs.Fields.{trimmed, has_item, media_type, format_of_type, is_close, takes_each, takes_json as is_json, takes_td as is_td, format_of, said_by};
ghost use Rattle.http_fields.specs.Found.{standing_of, said_in, more_if, types_in, both_taken, with_line, with_lines};

use crate::lines::{cut, cut_at_each};
use httparse::spans::HeaderSpan;
use thing_ops::{Accept, Format};

/// A field that may come once: absent, with its value, or too often.
#[derive(Clone, Copy, Drop)]
pub enum FoundField<'a> {
    /// There is no such line.
    Absent,
    /// There is one, with this value.
    Once(&'a [u8]),
    /// There are more.
    Often,
}

/// The fields that the header lines have, as far as they are read.
#[derive(Clone, Copy, Drop)]
pub struct Fields<'a> {
    /// `Host`.
    pub host: FoundField<'a>,
    /// `Content-Length`.
    pub content_length: FoundField<'a>,
    /// `Transfer-Encoding`.
    pub transfer_encoding: FoundField<'a>,
    /// `Content-Type`.
    pub content_type: FoundField<'a>,
    /// An `Expect` is `100-continue`.
    pub continues: bool,
    /// A `Connection` has the option `close`.
    pub closes: bool,
    /// The types that the lines with `Accept` take, if there are any.
    pub accept: Option<Accept>,
    /// A line asks for a version: it is `If-Match` or `If-None-Match`.
    pub conditional: bool,
}

/// The types that are taken in the reply where no line says it.
pub const EITHER_TYPE: Accept = Accept {
    json: true,
    td: true,
};

/// The fields of no header lines.
const NOTHING: Fields<'static> = Fields {
    host: FoundField::Absent,
    content_length: FoundField::Absent,
    transfer_encoding: FoundField::Absent,
    content_type: FoundField::Absent,
    continues: false,
    closes: false,
    accept: None,
    conditional: false,
};

/// Reads the header lines of a head that are at these spans.
pub fn fields_in<'a>(head: &'a [u8], headers: &[HeaderSpan]) -> Fields<'a>
    requires { All (IsHeaderWithin (length head.now)) headers.now }
    ensures { said_in result ≡ with_lines (said_by []) (map (header_bytes head.now) headers.now) }
{
    let mut fields: Fields<'a> = NOTHING;
    for header in headers {
        note(&mut fields, header.name.of(head), header.value.of(head));
    }
    fields
}

/// Notes what a line with this name and value says.
fn note<'a>(fields: &mut Fields<'a>, name: &[u8], value: &'a [u8])
    ensures { said_in fields.new ≡ with_line (name.now, value.now) (said_in fields.old) }
{
    fields.host = more(fields.host, is_alike(name, b"host"), value);
    fields.content_length = more(
        fields.content_length,
        is_alike(name, b"content-length"),
        value,
    );
    fields.transfer_encoding = more(
        fields.transfer_encoding,
        is_alike(name, b"transfer-encoding"),
        value,
    );
    fields.content_type = more(fields.content_type, is_alike(name, b"content-type"), value);
    if is_alike(name, b"accept") {
        fields.accept = Some(taken_with(fields.accept, types_of(value)));
    }
    fields.continues |= is_alike(name, b"expect") && is_alike(value, b"100-continue");
    fields.closes |= is_alike(name, b"connection") && lists_close(value);
    fields.conditional |= is_alike(name, b"if-match") || is_alike(name, b"if-none-match");
}

/// The field after a further line, which has its name or hasn't.
fn more<'a>(before: FoundField<'a>, is_named: bool, value: &'a [u8]) -> FoundField<'a>
    ensures { standing_of result ≡ more_if is_named value.now (standing_of before.entry) }
{
    if !is_named {
        return before;
    }
    match before {
        FoundField::Absent => FoundField::Once(value),
        FoundField::Once(_) | FoundField::Often => FoundField::Often,
    }
}

/// The types that one takes or the other.
fn taken_with(before: Option<Accept>, more: Accept) -> Accept
    ensures { result ≡ both_taken before more }
{
    match before {
        None => more,
        Some(before) => Accept {
            json: before.json || more.json,
            td: before.td || more.td,
        },
    }
}

/// Says whether two names differ in nothing but the case of their letters.
pub fn is_alike(one: &[u8], other: &[u8]) -> bool
    ensures { result ≡ str_eq_ignore_ascii_case one.now other.now }
{
    one.eq_ignore_ascii_case(other)
}

/// The bytes without the white space at both ends.
pub fn trim(bytes: &[u8]) -> &[u8]
    ensures { result.now ≡ trimmed bytes.now }
{
    bytes.trim_ascii()
}

/// Says whether a list with commas has the connection option `close`.
fn lists_close(value: &[u8]) -> bool
    ensures { result ≡ has_item is_close value.now }
{
    for item in cut_at_each(b',', value) {
        if is_alike(trim(item), b"close") {
            return true;
        }
    }
    false
}

/// The types that the media ranges of a list with commas take.
fn types_of(value: &[u8]) -> Accept
    ensures { result ≡ types_in value.now }
{
    let mut json = false;
    let mut td = false;
    for item in cut_at_each(b',', value) {
        json = json || takes_json(item);
        td = td || takes_td(item);
    }
    Accept { json, td }
}

/// Says whether a media range takes `application/json`.
fn takes_json(item: &[u8]) -> bool
    ensures { result ≡ is_json item.now }
{
    let range = type_of(item);
    takes_all(range) || is_alike(range, b"application/json")
}

/// Says whether a media range takes `application/td+json`.
fn takes_td(item: &[u8]) -> bool
    ensures { result ≡ is_td item.now }
{
    let range = type_of(item);
    takes_all(range) || is_alike(range, b"application/td+json")
}

/// Says whether a media range takes each type of `application`.
fn takes_all(range: &[u8]) -> bool
    ensures { result ≡ takes_each range.now }
{
    is_alike(range, b"*/*") || is_alike(range, b"application/*")
}

/// A media type without its parameters.
fn type_of(value: &[u8]) -> &[u8]
    ensures { result.now ≡ media_type value.now }
{
    let (name, _) = cut(b';', value);
    trim(name)
}

/// The format of the body.
pub fn format(content_type: FoundField<'_>) -> Format
    ensures { result ≡ format_of (standing_of content_type.entry) }
{
    match content_type {
        FoundField::Absent => Format::Absent,
        FoundField::Once(value) => format_of_name(type_of(value)),
        FoundField::Often => Format::Other,
    }
}

/// The format whose media type this is.
fn format_of_name(name: &[u8]) -> Format
    ensures { result ≡ format_of_type name.now }
{
    if is_alike(name, b"application/json") {
        Format::Json
    } else if is_alike(name, b"application/td+json") {
        Format::Td
    } else if is_alike(name, b"application/merge-patch+json") {
        Format::Patch
    } else {
        Format::Other
    }
}
