//! HTTP: the bytes of a stream, and the message at its front, however many of them are there (`findings.rt`). At first
//! nothing is whole and no 100 reply is asked for.

use crate::asks::accept_word;
use crate::findings::{Finding, put_findings};
use cases_notation::put_runs;
use http_wire::{Body, Head, Scanned, scan};
use std::alloc::{AllocError, Global};
use std::fmt::Write;

/// A finding at the front of a stream; and whether a 100 reply is asked for.
#[derive(Clone, Copy, PartialEq, Eq)]
enum Seen {
    /// A message that isn't whole.
    Short(bool),
    /// A message of this many bytes.
    Whole(usize, bool),
    /// A fault with this status.
    Fault(u16, bool),
}

impl Finding for Seen {
    fn nothing() -> Seen {
        Seen::Short(false)
    }

    fn of(bytes: &[u8]) -> Seen {
        match scan(bytes) {
            Scanned::Short { expect } => Seen::Short(expect),
            Scanned::Whole {
                head: _,
                body: _,
                used,
                expect,
            } => Seen::Whole(used, expect),
            Scanned::Fault { status, expect } => Seen::Fault(status, expect),
        }
    }

    fn put(self, text: &mut String) -> Result<(), AllocError> {
        match self {
            Seen::Short(expect) => write!(text, "short{}", expect_word(expect)),
            Seen::Whole(used, expect) => write!(text, "whole {used}{}", expect_word(expect)),
            Seen::Fault(status, expect) => write!(text, "fault {status}{}", expect_word(expect)),
        }
    }
}

/// The word that says whether a 100 reply is asked for.
fn expect_word(expect: bool) -> &'static str {
    if expect { ", asks for 100" } else { "" }
}

/// The bytes of a body.
fn put_body(text: &mut String, alloc: Global, body: &Body<'_>) -> Result<(), AllocError> {
    let mut bytes = vec![in alloc; 0u8; body.length()]?;
    body.copy_to(bytes.as_mut_slice());
    put_runs(text, bytes.as_slice())
}

/// Writes the parts of a head.
fn put_head(text: &mut String, head: &Head<'_>) -> Result<(), AllocError> {
    put_runs(text, head.method)?;
    text.push_str(" ")?;
    put_runs(text, head.target)?;
    let close = if head.close { " closes" } else { "" };
    write!(text, "{close}, takes {}, body ", accept_word(head.accept))
}

/// Writes the parts of a whole message.
fn put_message(
    text: &mut String,
    alloc: Global,
    head: &Head<'_>,
    body: &Body<'_>,
) -> Result<(), AllocError> {
    put_head(text, head)?;
    put_body(text, alloc, body)?;
    write!(text, " in {:?}", head.format)
}

pub fn put(text: &mut String, alloc: Global, bytes: &[u8]) -> Result<(), AllocError> {
    put_findings::<Seen>(text, bytes)?;
    match scan(bytes) {
        Scanned::Whole {
            head,
            body,
            used: _,
            expect: _,
        } => put_message(text, alloc, &head, &body),
        Scanned::Short { expect: _ } => text.push_str("more is to come"),
        Scanned::Fault {
            status: _,
            expect: _,
        } => text.push_str("refused"),
    }
}
