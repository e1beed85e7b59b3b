//! The values of the options Block1 and Block2 (RFC 7959, section 2.2).

ghost use Rattle.std.specs.Prelude.{◌≡◌, ◌≤◌, ◌<◌, ◌^◌, length, IfSome};
ghost use Rattle.coap_msg.specs.Blocks.{IsBlock, block_bytes, block_in as block_in_number, block_of};
ghost use Rattle.coap_msg.specs.Numbers.{number_of};
ghost use Rattle.coap_msg.specs.Written.{IsWritten};

use crate::constants::LONGEST_BLOCK;
use crate::numbers::{number_of, write_number};

/// The size of the smallest block, that of the exponent 0, in bytes.
const SMALLEST_SIZE: usize = 16;

/// The exponent that is reserved.
const RESERVED_SZX: u8 = 7;

/// The bit M in the number of an option's value; SZX is below it.
const MORE: u32 = 8;

/// The lowest bit of NUM there, above M.
const LOWEST_NUMBER: u32 = 16;

/// One block of a body.
#[derive(Clone, Copy, Debug, PartialEq, Eq)]
pub struct Block {
    /// Its number among the blocks of the body (NUM), counted from 0; of at most 20 bits.
    pub number: u32,
    /// Whether further blocks come after it (M).
    pub more: bool,
    /// The exponent of its size (SZX), from 0 to 6: a block has two to the power of `szx` + 4 bytes.
    pub szx: u8,
}

impl Block {
    ghost use Rattle.coap_msg.specs.Blocks.{block_size, block_start};
    ghost use Rattle.std.specs.Prelude.{◌*◌};

    /// The size of the block, in bytes: from 16 to 1,024.
    pub fn size(&self) -> usize
        requires { IsBlock self.now }
        ensures size { result ≡ block_size self.now }
        ensures least { 16 ≤ result }
        ensures most { result ≤ 1024 }
    {
        SMALLEST_SIZE << self.szx
    }

    /// The place of the block's first byte in its body.
    pub fn start(&self) -> usize
        requires { IsBlock self.now }
        ensures start { result ≡ block_start self.now }
        ensures most { result ≤ 2 ^ 20 * 1024 }
    {
        self.number as usize * self.size()
    }
}

/// The block that the value of an option says; none where it has more than three bytes, or says the size that is
/// reserved.
pub fn read_block(value: &[u8]) -> Option<Block>
    ensures ok { result ≡ block_of value.now }
    // It may be written.
    ensures block { IfSome result IsBlock }
{
    if value.len() > LONGEST_BLOCK {
        return None;
    }
    fits_24_bits(value);
    block_in(number_of(value))
}

/// For the proof: a number of up to three bytes has 24 bits. The bytes get names, since the range of one that is lent
/// is known once it is read.
fn fits_24_bits(value: &[u8])
    requires { length value.now ≤ 3 }
    ensures { number_of value.now < 2 ^ 24 }
{
    match value {
        [] => {}
        [low] => {
            let _low = *low;
        }
        [high, low] => {
            let (_high, _low) = (*high, *low);
        }
        [high, middle, low, ..] => {
            let (_high, _middle, _low) = (*high, *middle, *low);
        }
    }
}

/// The block that a number says.
fn block_in(number: u32) -> Option<Block>
    ensures { result ≡ block_in_number number }
{
    let szx = (number % MORE) as u8;
    if szx == RESERVED_SZX {
        return None;
    }
    Some(Block {
        number: number / LOWEST_NUMBER,
        more: number / MORE % 2 == 1,
        szx,
    })
}

/// Writes the value of an option for a block to the beginning of `out`, with no leading zero byte, and returns the
/// number of its bytes. The room is the caller's, since no function of this crate takes memory.
pub fn write_block(block: Block, out: &mut [u8; 3]) -> usize
    requires { IsBlock block }
    ensures { IsWritten (block_bytes block) result out.old out.new }
{
    let more = if block.more { MORE } else { 0 };
    write_number(
        LOWEST_NUMBER * block.number + more + u32::from(block.szx),
        out,
    )
}
