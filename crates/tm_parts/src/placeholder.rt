//! Placeholders in a text, and how it is cut into pieces.

ghost use Rattle.std.specs.Prelude.{◌≡◌, ◌==◌, ℕ, ◌+◌, ◌<◌, ◌++◌, length, drop, option_copied, option_map, IfSome};
ghost use Rattle.std.specs.List.{prefix_len, position_or_len};
ghost use Rattle.tm_parts.specs.Placeholders.{is_name_byte as may_be_in_name, placeholder_at, pieces, placeholders, sole_placeholder, first_of};
ghost use Rattle.tm_parts.specs.Pieces.{pieces_of};

/// The longest name of a placeholder, in bytes.
const LONGEST_NAME: usize = 64;

/// A byte that a name may have: printable ASCII other than braces.
fn is_name_byte(byte: u8) -> bool
    ensures { result ≡ may_be_in_name byte }
{
    matches!(byte, b' '..=b'~') && byte != b'{' && byte != b'}'
}

/// The number of bytes at the beginning of a text that a name may have.
fn name_length(text: &[u8]) -> usize
    ensures { result ≡ prefix_len may_be_in_name text.now }
{
    for (place, byte) in text.iter().enumerate() {
        if !is_name_byte(*byte) {
            return place;
        }
    }
    text.len()
}

/// The placeholder with which a text begins: its name, and the rest after it.
fn placeholder(text: &str) -> Option<(&str, &str)>
    ensures name { option_map (λ p. p.0.now) result ≡ placeholder_at text.now }
    ensures rest { IfSome result (λ p. p.1.now ≡ drop (length p.0.now + 4) text.now) }
{
    let inner = text.strip_prefix("{{")?;
    let (name, after) = inner.split_at(name_length(inner.as_bytes()));
    let rest = after.strip_prefix("}}")?;
    if name.is_empty() || name.len() > LONGEST_NAME {
        return None;
    }
    Some((name, rest))
}

/// The name of the placeholder that a text is, where it is exactly one.
pub(crate) fn whole_placeholder(text: &str) -> Option<&str>
    ensures { option_copied result ≡ sole_placeholder (pieces text.now) }
{
    let (name, rest) = placeholder(text)?;
    if rest.is_empty() { Some(name) } else { None }
}

/// The beginning of a text, cut no further.
#[derive(Clone, Copy, Debug)]
pub(crate) enum Piece<'a> {
    /// Text without a placeholder.
    Plain(&'a str),
    /// A placeholder, by its name.
    Placeholder(&'a str),
}

/// The first piece of a text, and the rest after it. Plain text goes as far as the next opening brace, so
/// a text is cut in a time in proportion to its length.
pub(crate) fn first_piece(text: &str) -> (Piece<'_>, &str)
    requires { 0 < length text.now }
    ensures pieces { pieces text.now ≡ pieces_of result.0 ++ pieces result.1.now }
    ensures shorter { length result.1.now < length text.now }
{
    match placeholder(text) {
        Some((name, rest)) => (Piece::Placeholder(name), rest),
        None => {
            let length = 1 + length_before(b'{', &text.as_bytes()[1..]);
            let (plain, rest) = text.split_at(length);
            (Piece::Plain(plain), rest)
        }
    }
}

/// The number of bytes before the first that is this one.
pub(crate) fn length_before(stop: u8, text: &[u8]) -> usize
    ensures { result ≡ position_or_len (λ b. b == stop) text.now }
{
    for (place, byte) in text.iter().enumerate() {
        if *byte == stop {
            return place;
        }
    }
    text.len()
}

/// The name of the first placeholder of a text.
pub(crate) fn first_placeholder(text: &str) -> Option<&str>
    ensures { option_copied result ≡ first_of (placeholders text.now) }
{
    let mut rest = text;
    while !rest.is_empty() {
        match first_piece(rest) {
            (Piece::Placeholder(name), _) => return Some(name),
            (Piece::Plain(_), after) => rest = after,
        }
    }
    None
}
