//! The routes of paths, and the verbs that are taken there.

use crate::paths::path_of;
use cases_notation::put;
use std::alloc::{AllocError, Global};
use std::fmt::Write;
use thing_ops::{Allow, Flags, LONGEST_LINE, RouteKind, Verb, allowed, route};

/// Writes the route of a path.
///
/// # Errors
///
/// Out of memory alone.
pub fn put_route(text: &mut String, alloc: Global, given: &str) -> Result<(), AllocError> {
    let path = path_of(alloc, given)?;
    write!(text, "{:?}", route(&path))
}

/// The kind of route of a word.
fn kind_of(word: &str) -> RouteKind {
    match word {
        "Root" => RouteKind::Root,
        "Thing" => RouteKind::Thing,
        "All" => RouteKind::All,
        "Property" => RouteKind::Property,
        "Observe" => RouteKind::Observe,
        "Subscribe" => RouteKind::Subscribe,
        "Action" => RouteKind::Action,
        "Invocation" => RouteKind::Invocation(7),
        "Event" => RouteKind::Event,
        "Things" => RouteKind::Things,
        "Entry" => RouteKind::Entry,
        _ => RouteKind::Nowhere,
    }
}

/// The verbs of a row: all of them, or those at a path of this kind, with the flags after it.
fn verbs_of(given: &str) -> Allow {
    if given == "all" {
        return Allow {
            get: true,
            head: true,
            put: true,
            post: true,
            patch: true,
            delete: true,
        };
    }
    let (word, flags) = given.split_once(' ').unwrap_or((given, ""));
    let flags = Flags {
        read_only: flags.contains("readOnly"),
        write_only: flags.contains("writeOnly"),
    };
    allowed(kind_of(word), flags)
}

/// Each verb.
const VERBS: [Verb; 7] = [
    Verb::Get,
    Verb::Head,
    Verb::Put,
    Verb::Post,
    Verb::Patch,
    Verb::Delete,
    Verb::Other,
];

/// Writes the line that lists verbs.
///
/// # Errors
///
/// Out of memory alone.
pub fn put_line(text: &mut String, allow: Allow) -> Result<(), AllocError> {
    let mut line = [b'.'; LONGEST_LINE];
    let count = allow.write(&mut line);
    put(text, line.get(..count).unwrap_or(b"too long"))
}

/// Writes the line that lists the verbs of a row, and each verb that is taken.
///
/// # Errors
///
/// Out of memory alone.
pub fn put_verbs(text: &mut String, given: &str) -> Result<(), AllocError> {
    let allow = verbs_of(given);
    put_line(text, allow)?;
    text.push_str("; takes")?;
    for verb in VERBS.iter() {
        if allow.takes(*verb) {
            write!(text, " {verb:?}")?;
        }
    }
    Ok(())
}
