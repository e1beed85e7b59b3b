//! HTTP requests of a consumer.
//!
//! ```text
//! VERB HOST PORT PATH BODY => BYTES     the request; PATH has its segments each after a `/`, `/` alone none; BODY `none` for none
//! ```

use cases_notation::{bytes_of, number, put as put_bytes};
use std::alloc::{AllocError, Global};
use thing_ops::{Segments, Verb};
use wot_consumer::{Chosen, Scheme, http_request};
use wot_json::Text;

/// The method of a name.
fn verb_of(name: &str) -> Verb {
    match name {
        "GET" => Verb::Get,
        "HEAD" => Verb::Head,
        "PUT" => Verb::Put,
        "POST" => Verb::Post,
        "PATCH" => Verb::Patch,
        "DELETE" => Verb::Delete,
        _ => Verb::Other,
    }
}

/// The segments of a path.
fn path_of(alloc: Global, text: &str) -> Result<Segments, AllocError> {
    let mut path = Segments::new(alloc);
    if text == "/" {
        return Ok(path);
    }
    for segment in text.split('/').skip(1) {
        let bytes = bytes_of(alloc, segment)?;
        path.push(bytes.as_slice())?;
    }
    Ok(path)
}

/// A request, in words.
fn chosen_of(alloc: Global, verb: &str, words: &str) -> Result<Chosen, AllocError> {
    let mut fields = words.splitn(3, ' ');
    let host = fields.next().unwrap_or("");
    let port = number(fields.next());
    Ok(Chosen {
        scheme: Scheme::Http,
        host: Text::copy_of(alloc, host)?,
        port: u16::try_from(port).unwrap_or(0),
        path: path_of(alloc, fields.next().unwrap_or("/"))?,
        verb: verb_of(verb),
        observe: false,
    })
}

/// Writes the request for what is chosen.
fn put_request(
    text: &mut String,
    alloc: Global,
    chosen: &Chosen,
    body: &str,
) -> Result<(), AllocError> {
    let bytes = bytes_of(alloc, body)?;
    let request = match body {
        "none" => http_request(alloc, chosen, None)?,
        _ => http_request(alloc, chosen, Some(bytes.as_slice()))?,
    };
    put_bytes(text, request.as_slice())
}

/// Writes the request of a row.
pub fn put(text: &mut String, alloc: Global, given: &str) -> Result<(), AllocError> {
    let (words, body) = given.rsplit_once(' ').unwrap_or((given, "none"));
    let (verb, words) = words.split_once(' ').unwrap_or((words, ""));
    let chosen = chosen_of(alloc, verb, words)?;
    put_request(text, alloc, &chosen, body)
}
