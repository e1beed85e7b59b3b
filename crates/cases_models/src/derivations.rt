//! The Things that models are derived into.

use crate::case::{Case, put_tree, word_of};
use cases_notation::size_of;
use std::alloc::{AllocError, Global};
use std::fmt::Write;
use tm_derive::{Choices, DeriveFault, Frame, Thing, Things, derive};
use wot_json::{Text, pointer};

/// Puts down a choice of a segment and a pointer, with `:` between them.
fn choose(alloc: Global, choices: &mut Choices, choice: &str) -> Result<(), AllocError> {
    match choice.split_once(':') {
        Some((segment, place)) => choices.push(
            Text::copy_of(alloc, segment)?,
            Text::copy_of(alloc, place)?,
        ),
        None => Ok(()),
    }
}

/// The choices of words.
fn choices_of(alloc: Global, words: &str) -> Result<Choices, AllocError> {
    let mut choices = Choices::new(alloc);
    for word in words.split(' ') {
        choose(alloc, &mut choices, word)?;
    }
    Ok(choices)
}

/// The Things of a model with choices after its URL.
fn derived(case: &Case, frame: &Frame, rest: &str) -> Result<Things, DeriveFault> {
    let (url, words) = word_of(rest);
    let choices = choices_of(case.alloc, words)?;
    derive(
        case.alloc,
        &case.library,
        url,
        &case.bindings,
        &choices,
        frame,
    )
}

/// Writes the segments of Things.
fn put_segments(said: &mut String, things: &[Thing]) -> Result<(), AllocError> {
    for (place, thing) in things.iter().enumerate() {
        if place > 0 {
            said.push_str(" ")?;
        }
        said.push_str(thing.segment.as_str())?;
    }
    Ok(())
}

/// Writes what is at a pointer into the description of a Thing.
fn put_part(said: &mut String, alloc: Global, thing: &Thing, at: &str) -> Result<(), AllocError> {
    if at == "-" {
        return put_tree(said, alloc, &thing.tree);
    }
    match pointer(&thing.tree, at) {
        Ok(Some(part)) => put_tree(said, alloc, part),
        Ok(None) => said.push_str("-"),
        Err(_) => said.push_str("no pointer"),
    }
}

/// Writes the segments of a model's Things, or the fault.
fn put_derived(
    said: &mut String,
    case: &Case,
    frame: &Frame,
    rest: &str,
) -> Result<(), AllocError> {
    match derived(case, frame, rest) {
        Ok(things) => put_segments(said, things.as_slice()),
        Err(fault) => write!(said, "{fault}"),
    }
}

/// Writes a part of the description of one of a model's Things, or the fault.
fn put_described(
    said: &mut String,
    case: &Case,
    frame: &Frame,
    rest: &str,
) -> Result<(), AllocError> {
    let (place, rest) = word_of(rest);
    let (at, rest) = word_of(rest);
    match derived(case, frame, rest) {
        Ok(things) => match things.as_slice().get(size_of(place)) {
            Some(thing) => put_part(said, case.alloc, thing, at),
            None => said.push_str("no such Thing"),
        },
        Err(fault) => write!(said, "{fault}"),
    }
}

/// Writes what comes of a line of this word.
pub fn put(said: &mut String, case: &Case, word: &str, rest: &str) -> Result<(), AllocError> {
    match &case.frame {
        None => said.push_str("no frame"),
        Some(frame) => match word {
            "derive" => put_derived(said, case, frame, rest),
            _ => put_described(said, case, frame, rest),
        },
    }
}
