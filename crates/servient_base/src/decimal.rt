//! Whole numbers as a person writes them: decimal digits alone, with no sign and no zero before other digits.

ghost use Rattle.std.specs.Prelude.{◌≡◌, ◌≤◌, ℕ, ◌==◌, ◌&&◌, ◌||◌, nat_lt, slice_index, length, decimal, IfSome};

/// The number that a text writes in decimal, if it is at most `most`.
pub fn parse_decimal(text: &str, most: u64) -> Option<u64>
    ensures ok { IfSome result (λ n. (text.now ≡ decimal n) × (n ≤ most)) }
    ensures complete { (n : ℕ) → n ≤ most → text.now ≡ decimal n → result ≡ Some n }
{
    if has_sign_or_leading_zero(text) {
        return None;
    }
    match text.parse::<u64>() {
        Ok(number) if number <= most => Some(number),
        _ => None,
    }
}

/// A plus (43) or a leading zero (48) is at the front; `parse` takes those, and a number has none.
fn has_sign_or_leading_zero(text: &str) -> bool
    ensures { result ≡ ((slice_index text.now 0 == 43)
        || ((slice_index text.now 0 == 48) && nat_lt 1 (length text.now))) }
{
    text.starts_with('+') || (text.starts_with('0') && text.len() > 1)
}
