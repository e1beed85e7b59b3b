//! HTTP: the bytes of a stream of replies, and a client's finding at its front, however many of them are there while
//! the stream goes on (`findings.rt`), and of all of them once it ended. At first nothing is whole.

use crate::findings::{Finding, put_findings};
use cases_notation::put_runs;
use http_wire::{Body, ReplyScan, scan_reply};
use std::alloc::{AllocError, Global};
use std::fmt::Write;

/// A finding.
#[derive(Clone, Copy, PartialEq, Eq)]
enum Seen {
    Short,
    /// A reply with this status.
    Whole(u16),
    Fault,
    TooLong,
}

impl Finding for Seen {
    fn nothing() -> Seen {
        Seen::Short
    }

    /// The finding for these bytes while the stream goes on.
    fn of(bytes: &[u8]) -> Seen {
        match scan_reply(bytes, false) {
            ReplyScan::Short => Seen::Short,
            ReplyScan::Whole { status, body: _ } => Seen::Whole(status),
            ReplyScan::Fault => Seen::Fault,
            ReplyScan::TooLong => Seen::TooLong,
        }
    }

    fn put(self, text: &mut String) -> Result<(), AllocError> {
        match self {
            Seen::Short => text.push_str("short"),
            Seen::Whole(status) => write!(text, "whole {status}"),
            Seen::Fault => text.push_str("fault"),
            Seen::TooLong => text.push_str("too long"),
        }
    }
}

/// A reply with its body.
fn put_reply(
    text: &mut String,
    alloc: Global,
    status: u16,
    body: &Body<'_>,
) -> Result<(), AllocError> {
    let mut bytes = vec![in alloc; 0u8; body.length()]?;
    body.copy_to(bytes.as_mut_slice());
    write!(text, "whole {status} ")?;
    put_runs(text, bytes.as_slice())
}

/// Writes the finding for these bytes once the stream ended.
fn put_ended(text: &mut String, alloc: Global, bytes: &[u8]) -> Result<(), AllocError> {
    text.push_str("ended ")?;
    match scan_reply(bytes, true) {
        ReplyScan::Short => Seen::Short.put(text),
        ReplyScan::Whole { status, body } => put_reply(text, alloc, status, &body),
        ReplyScan::Fault => Seen::Fault.put(text),
        ReplyScan::TooLong => Seen::TooLong.put(text),
    }
}

pub fn put(text: &mut String, alloc: Global, bytes: &[u8]) -> Result<(), AllocError> {
    put_findings::<Seen>(text, bytes)?;
    put_ended(text, alloc, bytes)
}
