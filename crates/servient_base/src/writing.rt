//! Writing into a caller's slice, one piece after another.

ghost use Rattle.std.specs.Prelude.{◌≡◌, ◌+◌, ◌≤◌, ◌++◌, length, take, drop};
ghost use Rattle.servient_base.specs.Writing.{PutsIfRoom};

/// Writes bytes at a place of `out`, and returns the place after them.
pub fn put_bytes(out: &mut [u8], at: usize, bytes: &[u8]) -> usize
    requires { at + length bytes.now ≤ length out.old }
    ensures end { result ≡ at + length bytes.now }
    ensures bytes { take result out.new ≡ take at out.old ++ bytes.now }
    ensures rest { drop result out.new ≡ drop result out.old }
{
    let end = at + bytes.len();
    out[at..end].copy_from_slice(bytes);
    end
}

/// Writes bytes at a place of `out` where there is room for them, and returns the place after them; else None.
pub fn put_piece(out: &mut [u8], at: usize, bytes: &[u8]) -> Option<usize>
    requires { at ≤ length out.old }
    ensures { PutsIfRoom bytes.now at out.old out.new result }
{
    if out.len() - at < bytes.len() {
        return None;
    }
    Some(put_bytes(out, at, bytes))
}
