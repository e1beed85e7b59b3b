//! The findings at the front of a stream, however many of its bytes are there. The finding for the first bytes stands
//! until another follows after ` | `, with the number of bytes from which on it is so. Of more than 1,000 bytes the one
//! place where it changes is found by binary search.

use std::alloc::AllocError;
use std::fmt::Write;

/// What is found at the front of a stream.
pub trait Finding: Copy + PartialEq {
    /// The finding at first.
    fn nothing() -> Self;

    /// The finding for these bytes.
    fn of(bytes: &[u8]) -> Self;

    /// Writes a finding.
    fn put(self, text: &mut String) -> Result<(), AllocError>;
}

/// The most bytes that are looked at for each number of them.
const MANY: usize = 1000;

/// The least number of these bytes at which something is found, by binary search.
fn first_found<T: Finding>(bytes: &[u8]) -> usize {
    let mut low = 0usize;
    let mut high = bytes.len();
    for _step in 0..64 {
        let middle = low.saturating_add(high) / 2;
        if T::of(bytes.get(..middle).unwrap_or(bytes)) == T::nothing() {
            low = middle;
        } else {
            high = middle;
        }
    }
    high
}

/// Writes the finding for many bytes, and the least number of bytes for it.
fn put_change<T: Finding>(text: &mut String, bytes: &[u8]) -> Result<(), AllocError> {
    if T::of(bytes) == T::nothing() {
        return Ok(());
    }
    let end = first_found::<T>(bytes);
    write!(text, "{end} ")?;
    T::of(bytes.get(..end).unwrap_or(bytes)).put(text)?;
    text.push_str(" | ")
}

/// Writes the findings for more and more of these bytes, wherever they change.
fn put_changes<T: Finding>(text: &mut String, bytes: &[u8]) -> Result<(), AllocError> {
    let mut last = T::nothing();
    for end in 0..=bytes.len() {
        let found = T::of(&bytes[..end]);
        if found != last {
            write!(text, "{end} ")?;
            found.put(text)?;
            text.push_str(" | ")?;
        }
        last = found;
    }
    Ok(())
}

/// Writes the findings for these bytes.
pub fn put_findings<T: Finding>(text: &mut String, bytes: &[u8]) -> Result<(), AllocError> {
    if bytes.len() > MANY {
        put_change::<T>(text, bytes)
    } else {
        put_changes::<T>(text, bytes)
    }
}
