//! Heads of HTTP replies: the status, and those of `type`, `etag`, `location`, `allow`, `length` and `close` that a
//! reply has, each after ` | `; and the bytes of the head.

use cases_notation::put_runs;
use http_wire::{Reply, has_reason, put_reply};
use std::alloc::AllocError;

/// The status of a field.
fn status_of(field: Option<&str>) -> u16 {
    match field {
        Some(text) => text.parse::<u16>().unwrap_or(0),
        None => 0,
    }
}

/// The same reply with the value of a field.
fn with_field<'a>(reply: Reply<'a>, field: &'a str) -> Reply<'a> {
    let (name, value) = field.split_once(' ').unwrap_or((field, ""));
    match name {
        "type" => Reply {
            content_type: Some(value),
            ..reply
        },
        "etag" => Reply {
            etag: value.parse::<u32>().ok(),
            ..reply
        },
        "location" => Reply {
            location: Some(value.as_bytes()),
            ..reply
        },
        "allow" => Reply {
            allow: Some(value),
            ..reply
        },
        "length" => Reply {
            length: value.parse::<usize>().ok(),
            ..reply
        },
        "close" => Reply {
            close: true,
            ..reply
        },
        _ => reply,
    }
}

/// The reply of a row.
fn reply_of(given: &str) -> Reply<'_> {
    let mut fields = given.split(" | ");
    let mut reply = Reply {
        status: status_of(fields.next()),
        content_type: None,
        etag: None,
        location: None,
        allow: None,
        length: None,
        close: false,
    };
    for field in fields {
        reply = with_field(reply, field);
    }
    reply
}

/// The head of a reply, and whether it fits into just as many bytes and into a byte less.
fn put_head(text: &mut String, reply: &Reply<'_>) -> Result<(), AllocError> {
    if !has_reason(reply.status) {
        return text.push_str("no reason");
    }
    let mut out = [b'.'; 512];
    let Some(size) = put_reply(reply, &mut out) else {
        return text.push_str("no room");
    };
    put_runs(text, out.get(..size).unwrap_or(b""))?;
    let just = out.get_mut(..size).unwrap_or(&mut []);
    if put_reply(reply, just) != Some(size) {
        return text.push_str(" and it doesn't fit into that");
    }
    let short = out.get_mut(..size.saturating_sub(1)).unwrap_or(&mut []);
    if put_reply(reply, short).is_some() {
        return text.push_str(" and it fits into less");
    }
    Ok(())
}

pub fn put(text: &mut String, given: &str) -> Result<(), AllocError> {
    put_head(text, &reply_of(given))
}
