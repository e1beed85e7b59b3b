//! The blocks of a request: the one that it has of the value that is handed in, and the one of the answer that it asks
//! for (RFC 7959, section 2).

ghost use Rattle.std.specs.Prelude.{◌≡◌, ◌<◌, ◌^◌, drop, take, IfSome, None};
ghost use Rattle.coap_msg.specs.Blocks.{IsBlock, block_size, block_start};
ghost use Rattle.network_consumer.specs.Asking.{AreBlocks, first_block as first_block_of, input_block as input_block_of, part_of as part_of_bytes};

use coap_msg::{Block, LONGEST_PAYLOAD};

/// The exponent of the size of a block of what is handed in, which is 1,024 bytes.
const INPUT_SZX: u8 = 6;

/// The size of such a block.
const INPUT_SIZE: usize = 1024;

/// The blocks that a request says.
#[derive(Clone, Copy, Debug, PartialEq, Eq)]
pub struct Blocks {
    /// The block that it has of the value that is handed in (Block1); none, where it has all of that.
    pub block1: Option<Block>,
    /// The block of the answer that it asks for (Block2); none, where that is the first.
    pub block2: Option<Block>,
}

/// The blocks of the first request, where so many bytes are handed in.
pub fn first_blocks(size: usize) -> Blocks
    ensures block1 { result.block1 ≡ first_block_of size }
    ensures block2 { result.block2 ≡ None }
    ensures blocks { AreBlocks result }
{
    Blocks {
        block1: first_block(size),
        block2: None,
    }
}

/// The first block of what is handed in, where that is longer than a payload may be.
fn first_block(size: usize) -> Option<Block>
    ensures ok { result ≡ first_block_of size }
    ensures block { IfSome result IsBlock }
{
    if size > LONGEST_PAYLOAD {
        Some(input_block(size, 0))
    } else {
        None
    }
}

/// The block with this number of what is handed in, which has so many bytes.
pub fn input_block(size: usize, number: u32) -> Block
    requires { number < 2 ^ 20 }
    ensures ok { result ≡ input_block_of size number }
    ensures block { IsBlock result }
{
    Block {
        number,
        more: INPUT_SIZE * (number as usize + 1) < size,
        szx: INPUT_SZX,
    }
}

/// The part of what is handed in that a request has.
pub fn part_of(block: Option<Block>, bytes: &[u8]) -> &[u8]
    requires { IfSome block IsBlock }
    ensures { result.now ≡ part_of_bytes block bytes.now }
{
    match block {
        Some(block) => block_of(block, bytes),
        None => bytes,
    }
}

/// The bytes of a block.
fn block_of(block: Block, bytes: &[u8]) -> &[u8]
    requires { IsBlock block }
    ensures { result.now ≡ take (block_size block) (drop (block_start block) bytes.now) }
{
    front(rest(bytes, block.start()), block.size())
}

/// The bytes from a place on; none where that is behind the end.
fn rest(bytes: &[u8], start: usize) -> &[u8]
    ensures { result.now ≡ drop start bytes.now }
{
    if start < bytes.len() {
        &bytes[start..]
    } else {
        &[]
    }
}

/// As many bytes from the beginning, or all.
fn front(bytes: &[u8], size: usize) -> &[u8]
    ensures { result.now ≡ take size bytes.now }
{
    if size < bytes.len() {
        &bytes[..size]
    } else {
        bytes
    }
}
