//! Pieces of bytes that lie one after another.

ghost use Rattle.std.specs.Prelude.{◌≡◌, ◌<◌, length, slice_get, Some};
ghost use Rattle.thing_ops.specs.Segments.{pieces, AreEnds};

/// The piece of these bytes with this number, by where each piece ends. It is for paths that are kept elsewhere as
/// `Segments` keeps them, too.
pub fn piece<'a>(bytes: &'a [u8], ends: &[usize], index: usize) -> &'a [u8]
    requires within { index < length ends.now }
    requires ends { AreEnds 0 ends.now (length bytes.now) }
    ensures { slice_get (pieces bytes.now 0 ends.now) index ≡ Some result.now }
{
    let start = if index == 0 { 0 } else { ends[index - 1] };
    &bytes[start..ends[index]]
}
