//! Steps of the CoAP server beside datagrams: `emit TARGET`, a new value of a target; and `next MOMENT VALUE`, the
//! notification to be sent at a moment, where the last value of its target is this; with the result.

ghost use Rattle.std.specs.Prelude.{◌≡◌};

use crate::datagrams::put_sent;
use crate::observers::{put_endpoint, target_of};
use cases_notation::{bytes_of, number};
use coap_bind::CoapBind;
use coap_msg::{LONGEST_MESSAGE, LONGEST_PAYLOAD};
use std::alloc::{AllocError, Global};

/// Whether a step is one of these.
pub fn is_step(step: &str) -> bool {
    step.starts_with("emit ") || step.starts_with("next ")
}

/// Writes the notification that is sent at a moment, where the last value of its target is this.
fn put_next(
    text: &mut String,
    server: &mut CoapBind,
    now: u64,
    value: &[u8],
) -> Result<(), AllocError>
    ensures { server.new.exchanges ≡ server.old.exchanges }
{
    let mut room = [0u8; LONGEST_MESSAGE];
    match server.next_send(now) {
        Some(notice) => {
            if value.len() > LONGEST_PAYLOAD {
                return text.push_str("too long");
            }
            let size = server.put_notice(&notice, value, &mut room);
            put_endpoint(text, notice.to)?;
            put_sent(text, room.get(..size).unwrap_or(b""))
        }
        None => text.push_str("nothing"),
    }
}

/// Does a step, and writes its result.
pub fn put(
    text: &mut String,
    alloc: Global,
    server: &mut CoapBind,
    step: &str,
) -> Result<(), AllocError>
    ensures { server.new.exchanges ≡ server.old.exchanges }
{
    let mut words = step.splitn(3, ' ');
    let word = words.next().unwrap_or("");
    let first = words.next();
    if word == "emit" {
        server.emit(target_of(first));
        return text.push_str("done");
    }
    let value = bytes_of(alloc, words.next().unwrap_or("-"))?;
    put_next(text, server, number(first), value.as_slice())
}
