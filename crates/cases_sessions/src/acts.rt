//! The acts on the network, in words.

use cases_notation::{put, put_message};
use servient_outside::{Act, Place};
use std::alloc::AllocError;
use std::fmt::Write;

/// Writes the place where it was to listen. The text is lent, since a function pays at each early exit for what it
/// owns.
fn put_place(text: &mut String, place: &Place) -> Result<(), AllocError> {
    let Place {
        http_host,
        http_port,
        coap_host,
        coap_port,
        idle,
    } = place;
    write!(
        text,
        "> listen http {http_host}:{http_port} coap {coap_host}:{coap_port} idle {idle}"
    )
}

/// Writes an act.
fn put_act(text: &mut String, act: &Act) -> Result<(), AllocError> {
    match act {
        Act::Sent(connection, bytes) => {
            write!(text, "> send {connection} ")?;
            put(text, bytes.as_slice())
        }
        Act::Closed(connection) => write!(text, "> close {connection}"),
        Act::Datagram(to, bytes) => {
            write!(text, "> data {}:{} ", to.host, to.port)?;
            put_message(text, bytes.as_slice())
        }
        Act::Listened(place) => put_place(text, place),
        Act::Dialled(host, port, _) => write!(text, "> dial {}:{port}", host.as_str()),
        Act::Looked(host, port, _) => write!(text, "> look {}:{port}", host.as_str()),
    }
}

/// Writes acts but the first ones, each in a line of its own.
///
/// # Errors
///
/// Out of memory alone.
pub fn put_acts(text: &mut String, acts: &[Act], hidden: usize) -> Result<(), AllocError> {
    for act in acts.iter().skip(hidden) {
        put_act(text, act)?;
        text.push_str("\n")?;
    }
    Ok(())
}
