//! The outcome of moves, in words.
//!
//! ```text
//! sent 0 at 0 from 1:49152 to 2:5683: CON GET 0 0000000000000000 /lamp/properties/status
//! made 0 with id 0 at 0
//! ended 0 by 2.05 7
//! took 0 8
//! now 2000
//! turns 1
//! ```

use cases_notation::{put, put_message};
use coap_msg::{Block, Endpoint};
use servient_rehearsal::{AskEnd, End, SentDatagram, World};
use std::alloc::AllocError;
use std::fmt::Write;
use thing_handler::Handlers;

/// Whether a line of a case is one of these.
pub fn is_shown(line: &str) -> bool {
    let (word, _) = line.split_once(' ').unwrap_or((line, ""));
    matches!(word, "sent" | "made" | "ended" | "took" | "now" | "turns")
}

fn put_endpoint(text: &mut String, endpoint: Endpoint) -> Result<(), AllocError> {
    write!(text, "{}:{}", endpoint.host, endpoint.port)
}

fn put_sent(text: &mut String, index: usize, sent: &SentDatagram) -> Result<(), AllocError> {
    write!(text, "sent {} at {} from ", index, sent.moment)?;
    put_endpoint(text, sent.from)?;
    text.push_str(" to ")?;
    put_endpoint(text, sent.to)?;
    text.push_str(": ")?;
    put_message(text, sent.bytes.as_slice())?;
    text.push_str("\n")
}

/// The number that says a block (RFC 7959, section 2.2).
fn put_block(text: &mut String, block: Option<Block>) -> Result<(), AllocError> {
    match block {
        Some(block) => {
            let more: u32 = if block.more { 8 } else { 0 };
            let number = block.number.saturating_mul(16).saturating_add(more);
            write!(
                text,
                "Block2={} ",
                number.saturating_add(u32::from(block.szx))
            )
        }
        None => Ok(()),
    }
}

fn put_end(text: &mut String, ended: &AskEnd) -> Result<(), AllocError> {
    write!(text, "ended {} by ", ended.ask)?;
    match &ended.end {
        End::Answered(code, block, payload) => {
            write!(text, "{}.{:02} ", *code / 32, *code % 32)?;
            put_block(text, *block)?;
            put(text, payload.as_slice())?;
        }
        End::Observed => text.push_str("a value")?,
        End::Reset => text.push_str("a reset")?,
        End::TimedOut => text.push_str("time")?,
    }
    text.push_str("\n")
}

/// Writes the whole outcome of moves but the turns of the devices.
pub fn put_world(text: &mut String, world: &World) -> Result<(), AllocError> {
    for (index, sent) in world.sent.iter().enumerate() {
        put_sent(text, index, sent)?;
    }
    for made in world.asks.iter() {
        writeln!(
            text,
            "made {} with id {} at {}",
            made.ask, made.id, made.first
        )?;
    }
    for ended in world.ends.iter() {
        put_end(text, ended)?;
    }
    for taken in world.taken.iter() {
        write!(text, "took {} ", taken.ask)?;
        put(text, taken.value.as_slice())?;
        text.push_str("\n")?;
    }
    writeln!(text, "now {}", world.moment)
}

/// Writes the number of calls of devices.
pub fn put_turns<R: Handlers>(text: &mut String, rack: &R) -> Result<(), AllocError> {
    let mut count: usize = 0;
    for slot in 0..rack.len() {
        count = count.saturating_add(rack.turns(slot).len());
    }
    writeln!(text, "turns {count}")
}
