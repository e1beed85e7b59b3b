//! The answers of both bodies, as lines of a text.

use crate::plain::PlainObservers;
use crate::steps::Step;
use coap_observe::{Notice, Registered, Watchers};
use std::alloc::AllocError;

/// Writes a number, and the words after it.
fn put_number(text: &mut String, number: u64, after: &str) -> Result<(), AllocError> {
    cases_notation::put(text, &number.to_be_bytes())?;
    text.push_str(after)
}

/// Writes the outcome of a registration.
fn put_registered(text: &mut String, registered: Registered) -> Result<(), AllocError> {
    match registered {
        Registered::New(number) => {
            text.push_str("new ")?;
            put_number(text, number as u64, "\n")
        }
        Registered::Replaced(number) => {
            text.push_str("replaced ")?;
            put_number(text, number as u64, "\n")
        }
        Registered::Full => text.push_str("full\n"),
    }
}

/// Writes whether there was an observer of which a call says so.
fn put_found(text: &mut String, word: &str, found: bool) -> Result<(), AllocError> {
    text.push_str(if found { word } else { "nobody\n" })
}

/// Writes the notification that is sent.
fn put_notice(text: &mut String, notice: Option<Notice>) -> Result<(), AllocError> {
    match notice {
        Some(notice) => {
            text.push_str(if notice.fresh { "sent " } else { "again " })?;
            put_number(text, (notice.to.host % (1 << 32)) as u64, " ")?;
            put_number(text, notice.to.port as u64, " ")?;
            cases_notation::put(text, &notice.token)?;
            text.push_str(" ")?;
            put_number(text, notice.target as u64, " ")?;
            put_number(text, notice.id as u64, " ")?;
            put_number(text, notice.sequence as u64, "\n")
        }
        None => text.push_str("nothing\n"),
    }
}

/// Writes the answer of the linked slots to a step.
pub fn put_linked(
    text: &mut String,
    observers: &mut Watchers,
    step: Step,
) -> Result<(), AllocError> {
    match step {
        Step::Register(from, token, target) => {
            put_registered(text, observers.register(from, &[token], target))
        }
        Step::Cancel(from, token) => put_found(
            text,
            "cancelled\n",
            observers.cancel(from, &[token]),
        ),
        Step::Emit(target) => {
            observers.emit(target);
            text.push_str("emitted\n")
        }
        Step::Acknowledge(from, id) => put_found(text, "acknowledged\n", observers.acked(from, id)),
        Step::Reset(from, id) => put_found(text, "reset\n", observers.reset(from, id)),
        Step::Send(now, id) => put_notice(text, observers.next_send(now, id)),
    }
}

/// Writes the answer of the plain list to a step.
pub fn put_plain(
    text: &mut String,
    observers: &mut PlainObservers,
    step: Step,
) -> Result<(), AllocError> {
    match step {
        Step::Register(from, token, target) => {
            let registered = observers.register(from, &[token], target)?;
            put_registered(text, registered)
        }
        Step::Cancel(from, token) => put_found(
            text,
            "cancelled\n",
            observers.cancel(from, &[token]),
        ),
        Step::Emit(target) => {
            observers.emit(target);
            text.push_str("emitted\n")
        }
        Step::Acknowledge(from, id) => put_found(text, "acknowledged\n", observers.acked(from, id)),
        Step::Reset(from, id) => put_found(text, "reset\n", observers.reset(from, id)),
        Step::Send(now, id) => put_notice(text, observers.next_send(now, id)),
    }
}
