//! Bytes in which one that comes many times in a row is written once, with the number of times: `x\*300;`.

use crate::bytes::put as put_bytes;
use std::alloc::AllocError;
use std::fmt::Write;

/// The number of times that a byte must come in a row to be written once.
const MANY: usize = 40;

/// A byte, and the number of times that it comes in a row.
#[derive(Clone, Copy)]
struct Run {
    byte: u8,
    times: usize,
}

/// Writes a run.
fn put_run(text: &mut String, run: Run) -> Result<(), AllocError> {
    if run.times >= MANY {
        put_bytes(text, &[run.byte])?;
        return write!(text, "\\*{};", run.times);
    }
    for _time in 0..run.times {
        put_bytes(text, &[run.byte])?;
    }
    Ok(())
}

/// Writes the runs of bytes, nothing where there are none.
pub fn put_plain_runs(text: &mut String, bytes: &[u8]) -> Result<(), AllocError> {
    let mut run = Run { byte: 0, times: 0 };
    for byte in bytes {
        if *byte != run.byte {
            put_run(text, run)?;
            run = Run {
                byte: *byte,
                times: 0,
            };
        }
        run.times = run.times.saturating_add(1);
    }
    put_run(text, run)
}

/// The same, `-` where there are none.
pub fn put_runs(text: &mut String, bytes: &[u8]) -> Result<(), AllocError> {
    if bytes.is_empty() {
        return text.push_str("-");
    }
    put_plain_runs(text, bytes)
}
