//! The bytes of names of which the segments of Things are made.

ghost use Rattle.std.specs.Prelude.{◌≡◌};
ghost use Rattle.std.specs.List.{list_all};
ghost use Rattle.wot_forms.specs.Segments as spec;

/// A byte that a name may have: a letter or a digit of ASCII, `.`, `_` or `-`.
fn is_name_byte(byte: u8) -> bool
    ensures { result ≡ spec.is_name_byte byte }
{
    byte.is_ascii_alphanumeric() || byte == b'.' || byte == b'_' || byte == b'-'
}

/// All bytes are such that the name of an instance, or the segment of a root Thing, may have.
pub fn has_name_bytes(text: &[u8]) -> bool
    ensures { result ≡ list_all spec.is_name_byte text.now }
{
    text.iter().all(|byte| is_name_byte(*byte))
}
