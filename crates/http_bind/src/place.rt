//! The path of a place, as it is written in a reply (RFC 3986, section 2).

ghost use Rattle.std.specs.Prelude.{◌≤◌, ◌<◌, ◌∷◌, [], codes, length, slice_index_or};
ghost use Rattle.servient_base.specs.Writing.{PutsIfRoom};
ghost use Rattle.http_bind.specs.Places.{path_text, segment_text};

use servient_base::{put_encoded, put_piece};
use thing_ops::Segments;

/// Writes a path to the beginning of `out`, if there is room for it.
pub fn put_path(path: &Segments, out: &mut [u8]) -> Option<usize>
    ensures { PutsIfRoom (path_text path.now) 0 out.old out.new result }
{
    let mut end = 0;
    for index in 0..path.len() {
        // A match and not `?`, since that gives the proof of the loop facts on `ControlFlow` alone.
        match put_segment_at(path, index, out, end) {
            Some(next) => end = next,
            None => return None,
        }
    }
    Some(end)
}

/// Writes the path of an entry of the directory to the beginning of `out`, if there is room for it.
pub fn put_entry(id: &[u8], out: &mut [u8]) -> Option<usize>
    ensures { PutsIfRoom (path_text (codes "things" ∷ id.now ∷ [])) 0 out.old out.new result }
{
    let at = put_segment(b"things", out, 0)?;
    put_segment(id, out, at)
}

/// Writes the segment with this number after a slash.
fn put_segment_at(path: &Segments, index: usize, out: &mut [u8], at: usize) -> Option<usize>
    requires index { index < length path.now }
    requires place { at ≤ length out.old }
    ensures { PutsIfRoom (segment_text (slice_index_or path.now index [])) at out.old out.new result }
{
    match path.get(index) {
        Some(segment) => put_segment(segment, out, at),
        None => None,
    }
}

/// Writes a segment after a slash.
fn put_segment(segment: &[u8], out: &mut [u8], at: usize) -> Option<usize>
    requires { at ≤ length out.old }
    ensures { PutsIfRoom (segment_text segment.now) at out.old out.new result }
{
    let at = put_piece(out, at, b"/")?;
    put_encoded(out, at, segment)
}
