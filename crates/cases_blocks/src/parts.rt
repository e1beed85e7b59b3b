//! Bodies of requests that come in blocks. A step is `MOMENT add HOST CODE PATH NUMBER more|last SZX BYTES`, and the
//! answer; or the same as `act`, where a part that becomes whole is cleared.

ghost use Rattle.std.specs.Prelude.{◌≡◌, ◌≤◌, ◌<◌, ℕ, length};
ghost use Rattle.coap_msg.specs.Blocks.{IsBlock};
ghost use Rattle.coap_blocks.specs.Paths.{path_size};

use crate::fields::{block_of, code_of, path_of};
use cases_notation::{bytes_of, endpoint_of, number, put_rows, put_runs};
use coap_blocks::{Added, Parts};
use coap_msg::{Block, Endpoint};
use std::alloc::{AllocError, Global};
use thing_ops::Segments;

/// A block that comes, but for its path and payload, and whether a part that becomes whole is cleared.
#[derive(Clone, Copy)]
struct Head {
    moment: u64,
    acts: bool,
    from: Endpoint,
    code: u8,
    block: Block,
}

/// Takes away a part that is whole.
fn clear(parts: &mut Parts, added: Added)
    requires { (place : ℕ) → added ≡ Added.Complete place → place < length parts.old }
{
    match added {
        Added::Complete(place) => parts.clear(place),
        _ => {}
    }
}

/// Writes the answer, with the body of a part that is whole.
fn put_added(text: &mut String, parts: &Parts, added: Added) -> Result<(), AllocError>
    requires { (place : ℕ) → added ≡ Added.Complete place → place < length parts.now }
{
    match added {
        Added::Continue => text.push_str("continue"),
        Added::Complete(place) => {
            text.push_str("complete ")?;
            put_runs(text, parts.bytes(place))
        }
        Added::BadBlock => text.push_str("bad block"),
        Added::Incomplete => text.push_str("incomplete"),
        Added::TooLarge => text.push_str("too large"),
        Added::Full => text.push_str("full"),
    }
}

/// Adds a block, and writes the answer.
fn put_block(
    text: &mut String,
    parts: &mut Parts,
    head: Head,
    path: &Segments,
    payload: &[u8],
) -> Result<(), AllocError>
    requires path { path_size path.now ≤ 512 }
    requires block { IsBlock head.block }
{
    let added = parts.add(head.from, head.code, path, head.block, payload, head.moment);
    put_added(text, parts, added)?;
    if head.acts {
        clear(parts, added);
    }
    Ok(())
}

/// Writes the result of a step.
fn put_step(
    text: &mut String,
    alloc: Global,
    parts: &mut Parts,
    step: &str,
) -> Result<(), AllocError> {
    let mut fields = step.split(' ');
    let moment = number(fields.next());
    let acts = fields.next() == Some("act");
    let from = endpoint_of(fields.next().unwrap_or(""));
    let code = code_of(fields.next());
    let path = path_of(alloc, fields.next())?;
    let number = fields.next();
    let more = fields.next();
    let block = block_of(number, more, fields.next());
    let payload = bytes_of(alloc, fields.next().unwrap_or("-"))?;
    match block {
        Some(block) => {
            let head = Head {
                moment,
                acts,
                from,
                code,
                block,
            };
            put_block(text, parts, head, &path, payload.as_slice())
        }
        None => text.push_str("no block"),
    }
}

/// A history.
pub fn put(text: &mut String, alloc: Global, history: &str) -> Result<(), AllocError> {
    let mut parts = Parts::new(alloc)?;
    put_rows(
        text,
        history,
        |text, step| put_step(text, alloc, &mut parts, step),
    )
}
