//! The parts that lines of many tables have in them.

use cases_notation::number;
use servient_outside::Calls;
use std::alloc::{AllocError, Global};

/// The calls that fail, those of the lines `fails N`.
pub fn fails_of(alloc: Global, history: &str) -> Result<Calls, AllocError> {
    let mut fails = Calls::new(alloc);
    for line in history.lines() {
        if let Some(digits) = line.strip_prefix("fails ") {
            fails.push(number(Some(digits)))?;
        }
    }
    Ok(fails)
}

/// A number of bytes.
pub fn size_of(field: Option<&str>) -> usize {
    usize::try_from(number(field)).unwrap_or(0)
}
