//! The fields of rows: codes, paths and blocks.

ghost use Rattle.std.specs.Prelude.{◌+◌, ◌≤◌, IfOk, IfSome};
ghost use Rattle.coap_msg.specs.Blocks.{IsBlock};
ghost use Rattle.coap_blocks.specs.Paths.{path_size};

use cases_notation::number;
use coap_msg::Block;
use std::alloc::{AllocError, Global};
use std::fmt::Write;
use thing_ops::Segments;

/// A code.
pub fn code_of(field: Option<&str>) -> u8 {
    u8::try_from(number(field)).unwrap_or(0)
}

/// Puts a segment at the end of a path, if it isn't empty or too long.
#[tactic(auto, using(crate::proofs::Sizes::grows, crate::proofs::Sizes::stays))]
fn push_segment(path: &mut Segments, segment: &str) -> Result<(), AllocError>
    ensures { path_size path.new ≤ path_size path.old + 256 }
{
    if segment.is_empty() || segment.len() > 255 {
        return Ok(());
    }
    path.push(segment.as_bytes())?;
    Ok(())
}

/// A path of one segment or two, as `/a/b`.
pub fn path_of(alloc: Global, field: Option<&str>) -> Result<Segments, AllocError>
    ensures { IfOk result (λ path. path_size path ≤ 512) }
{
    let mut path = Segments::new(alloc);
    let mut segments = field.unwrap_or("").split('/').skip(1);
    push_segment(&mut path, segments.next().unwrap_or(""))?;
    push_segment(&mut path, segments.next().unwrap_or(""))?;
    Ok(path)
}

/// The block of three fields, if there may be such a block.
pub fn block_of(number_field: Option<&str>, more: Option<&str>, szx: Option<&str>) -> Option<Block>
    ensures { IfSome result IsBlock }
{
    let number = u32::try_from(number(number_field)).unwrap_or(0);
    let szx = code_of(szx);
    if number >= 1 << 20 || szx > 6 {
        return None;
    }
    Some(Block {
        number,
        more: more == Some("more"),
        szx,
    })
}

/// Writes a block.
pub fn put_block(text: &mut String, block: Block) -> Result<(), AllocError> {
    let more = if block.more { "more" } else { "last" };
    write!(text, "number {} {more} szx {}", block.number, block.szx)
}
