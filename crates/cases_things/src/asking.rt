//! Requests in words: the verb, the path, how it is sent, and the body.
//!
//! ```text
//! PUT /lamp/properties/status 100
//! GET /lamp/properties/status accept=td
//! PUT /lamp/properties/status accept=td format=other 101
//! PUT /lamp/properties/status ask:match=1,2;known=3 100
//! GET /lamp/properties/status ask:known=*
//! GET /lamp/properties/status ask:absent
//! ```
//!
//! Without a word the sender takes JSON, names no format for its body, and has no conditions. The body is bytes in
//! text.

use std::alloc::{AllocError, Global};
use thing_ops::{Accept, Conditions, Format, Tags, Verb};

/// A request, its path, its conditions and its body still in text.
#[derive(Clone, Copy)]
pub struct Ask<'a> {
    pub verb: Verb,
    pub path: &'a str,
    pub accept: Accept,
    pub format: Format,
    pub conditions: &'a str,
    pub body: &'a str,
}

/// The verb of a method.
fn verb_of(method: &str) -> Verb {
    match method {
        "GET" => Verb::Get,
        "HEAD" => Verb::Head,
        "PUT" => Verb::Put,
        "POST" => Verb::Post,
        "PATCH" => Verb::Patch,
        "DELETE" => Verb::Delete,
        _ => Verb::Other,
    }
}

/// The formats that a sender takes, by the word for them.
fn accept_of(word: &str) -> Option<Accept> {
    match word {
        "accept=td" => Some(Accept {
            json: false,
            td: true,
        }),
        "accept=both" => Some(Accept {
            json: true,
            td: true,
        }),
        "accept=none" => Some(Accept {
            json: false,
            td: false,
        }),
        _ => None,
    }
}

/// The format of a body, by the word for it.
fn format_of(word: &str) -> Option<Format> {
    match word {
        "format=json" => Some(Format::Json),
        "format=td" => Some(Format::Td),
        "format=patch" => Some(Format::Patch),
        "format=other" => Some(Format::Other),
        _ => None,
    }
}

/// The first word of a text, and the text after it.
fn cut(text: &str) -> (&str, &str) {
    text.split_once(' ').unwrap_or((text, ""))
}

/// The request of these words.
pub fn ask_of(given: &str) -> Ask<'_> {
    let (method, rest) = cut(given);
    let (path, rest) = cut(rest);
    let mut ask = Ask {
        verb: verb_of(method),
        path,
        accept: Accept {
            json: true,
            td: false,
        },
        format: Format::Absent,
        conditions: "",
        body: rest,
    };
    let (word, rest) = cut(ask.body);
    if let Some(accept) = accept_of(word) {
        ask.accept = accept;
        ask.body = rest;
    }
    let (word, rest) = cut(ask.body);
    if let Some(format) = format_of(word) {
        ask.format = format;
        ask.body = rest;
    }
    let (word, rest) = cut(ask.body);
    if let Some(conditions) = word.strip_prefix("ask:") {
        ask.conditions = conditions;
        ask.body = rest;
    }
    ask
}

/// The versions of a list; `*` for any.
fn tags_of(alloc: Global, list: &str) -> Result<Tags, AllocError> {
    let mut tags = Tags::none(alloc);
    for word in list.split(',') {
        match word.parse::<u32>() {
            Ok(version) => tags.list.push(version)?,
            Err(_) => tags.any = tags.any || word == "*",
        }
    }
    Ok(tags)
}

/// The conditions of these words.
///
/// # Errors
///
/// Out of memory alone.
pub fn conditions_of(alloc: Global, given: &str) -> Result<Conditions, AllocError> {
    let mut conditions = Conditions::none(alloc);
    for word in given.split(';') {
        match word.split_once('=') {
            Some(("match", list)) => conditions.if_match = Some(tags_of(alloc, list)?),
            Some(("known", list)) => conditions.known = tags_of(alloc, list)?,
            _ => conditions.absent = conditions.absent || word == "absent",
        }
    }
    Ok(conditions)
}
