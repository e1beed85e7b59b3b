//! The bodies that a client joins. A step is `take NUMBER more|last SZX BYTES`, or `take none BYTES` for a response
//! without Block2, and the answer.

ghost use Rattle.std.specs.Prelude.{IfSome};
ghost use Rattle.coap_msg.specs.Blocks.{IsBlock};

use crate::fields::{block_of, put_block};
use cases_notation::{bytes_of, put_rows, put_runs};
use coap_client::{Taken, Transfer};
use coap_msg::Block;
use std::alloc::{AllocError, Global};

/// Writes the answer, with the body that is whole.
fn put_taken(text: &mut String, transfer: &Transfer, taken: Taken) -> Result<(), AllocError> {
    match taken {
        Taken::Broken => text.push_str("broken"),
        Taken::TooLong => text.push_str("too long"),
        Taken::Complete => {
            text.push_str("complete ")?;
            put_runs(text, transfer.bytes())
        }
        Taken::More(block) => {
            text.push_str("more, ")?;
            put_block(text, block)
        }
    }
}

/// Takes a payload, and writes the answer.
fn put_payload(
    text: &mut String,
    transfer: &mut Transfer,
    block: Option<Block>,
    payload: &[u8],
) -> Result<(), AllocError>
    requires { IfSome block IsBlock }
{
    let taken = transfer.take(block, payload);
    put_taken(text, transfer, taken)
}

/// Writes the result of a step.
fn put_step(
    text: &mut String,
    alloc: Global,
    transfer: &mut Transfer,
    step: &str,
) -> Result<(), AllocError> {
    let mut fields = step.split(' ').skip(1);
    let number = fields.next();
    if number == Some("none") {
        let payload = bytes_of(alloc, fields.next().unwrap_or("-"))?;
        return put_payload(text, transfer, None, payload.as_slice());
    }
    let more = fields.next();
    let block = block_of(number, more, fields.next());
    let payload = bytes_of(alloc, fields.next().unwrap_or("-"))?;
    if block.is_none() {
        return text.push_str("no block");
    }
    put_payload(text, transfer, block, payload.as_slice())
}

/// A history.
pub fn put(text: &mut String, alloc: Global, history: &str) -> Result<(), AllocError> {
    let mut transfer = Transfer::new(alloc)?;
    put_rows(
        text,
        history,
        |text, step| put_step(text, alloc, &mut transfer, step),
    )
}
