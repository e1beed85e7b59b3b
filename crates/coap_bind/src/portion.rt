//! The part of a payload that a reply has, and the Block option that names it (RFC 7959, section 2).

ghost use Rattle.std.specs.Prelude.{◌≡◌, ◌≤◌, ◌<◌, ◌/◌, ◌==◌, length, take, IfSome, if◌then◌else◌};
ghost use Rattle.coap_msg.specs.Blocks.{IsBlock, block_size, block_start};
ghost use Rattle.thing_ops.specs.Outcomes.{HasCode, payload_of};
ghost use Rattle.coap_bind.specs.Blocks.{IsUse, first_block, given_portion, goes_on, is_in_blocks, is_representation, most_bytes, portion_at, portion_of, success_option};
ghost use Rattle.coap_bind.specs.Portions.{HoldsBlock, portion_seen};

use crate::blocks::{BlockOption, BlockUse};
use coap_msg::{Block, DETAILS, LONGEST_PAYLOAD, SUCCESS};
use thing_ops::{Outcome, coap_code};

/// The exponent of the size of the largest block, 1,024 bytes (RFC 7959, section 2.2).
pub(crate) const LARGEST_SZX: u8 = 6;

/// The most bytes of a payload that is given in blocks.
pub const LONGEST_BODY: usize = 65_536;

/// A part of a payload. Definitions have it apart from its place in memory (`portion_seen`).
#[derive(Clone, Copy)]
pub struct Portion<'a> {
    /// The option that names the part, where the payload isn't whole or a block was asked for.
    pub block: Option<BlockOption>,
    /// The part.
    pub payload: &'a [u8],
}

/// The most bytes of the payload of an outcome.
pub fn most_bytes(blocks: &BlockUse, outcome: &Outcome) -> usize
    ensures { result ≡ most_bytes blocks.now outcome.now }
{
    match blocks {
        BlockUse::Whole => LONGEST_PAYLOAD,
        BlockUse::Gives(_) => {
            if is_representation(outcome) {
                LONGEST_BODY
            } else {
                LONGEST_PAYLOAD
            }
        }
        BlockUse::Joined(_) => LONGEST_PAYLOAD,
    }
}

/// Whether an outcome is a representation of the resource at the path of its request.
pub fn is_representation(outcome: &Outcome) -> bool
    ensures { result ≡ is_representation outcome.now }
{
    match outcome {
        Outcome::Content { .. } => true,
        Outcome::Description(_, _) => true,
        _ => false,
    }
}

/// The part of the payload of an outcome that a reply has.
pub fn portion_of<'a>(blocks: &BlockUse, outcome: &Outcome, payload: &'a [u8]) -> Portion<'a>
    requires code { HasCode outcome.now }
    requires blocks { IsUse blocks.now }
    requires payload { payload.now ≡ payload_of outcome.now }
    ensures ok { portion_seen result ≡ portion_of blocks.now outcome.now }
    ensures block { HoldsBlock result.block }
{
    match blocks {
        BlockUse::Whole => Portion {
            block: None,
            payload,
        },
        BlockUse::Gives(giving) => {
            if is_representation(outcome) {
                given_portion(giving.szx, payload)
            } else {
                Portion {
                    block: None,
                    payload,
                }
            }
        }
        BlockUse::Joined(block) => Portion {
            block: success_option(outcome, *block),
            payload,
        },
    }
}

/// The option that a reply to the last block of a request has. A refusal has none, as the option acknowledges a block
/// (RFC 7959, section 2.3).
fn success_option(outcome: &Outcome, block: Block) -> Option<BlockOption>
    requires code { HasCode outcome.now }
    requires block { IsBlock block }
    ensures ok { result ≡ success_option outcome.now block }
    ensures block { HoldsBlock result }
{
    if coap_code(outcome) / DETAILS != SUCCESS {
        return None;
    }
    Some(BlockOption::Block1(Block {
        number: block.number,
        more: false,
        szx: block.szx,
    }))
}

/// The part of a payload that is given, where a block of this size was asked for, or none.
pub fn given_portion(szx: Option<u8>, payload: &[u8]) -> Portion<'_>
    requires { IfSome szx (λ z. z ≤ 6) }
    ensures ok { portion_seen result ≡ given_portion szx payload.now }
    ensures block { HoldsBlock result.block }
{
    if is_in_blocks(szx, payload.len()) {
        portion_at(first_block(szx), payload)
    } else {
        Portion {
            block: None,
            payload,
        }
    }
}

/// Whether a payload of this length is given in blocks.
fn is_in_blocks(szx: Option<u8>, length: usize) -> bool
    requires { IfSome szx (λ z. z ≤ 6) }
    ensures { result ≡ is_in_blocks szx length }
{
    first_block(szx).size() < length || (szx.is_some() && length > 0)
}

/// The first block, of the size that was asked for.
pub fn first_block(szx: Option<u8>) -> Block
    requires { IfSome szx (λ z. z ≤ 6) }
    ensures ok { result ≡ first_block szx }
    ensures block { IsBlock result }
{
    Block {
        number: 0,
        more: false,
        szx: szx.unwrap_or(LARGEST_SZX),
    }
}

/// The block of a body with this number and size, which begins in it.
pub fn portion_at(block: Block, bytes: &[u8]) -> Portion<'_>
    requires block { IsBlock block }
    requires within { block_start block ≤ length bytes.now }
    ensures ok { portion_seen result ≡ portion_at block bytes.now }
    ensures block { HoldsBlock result.block }
    ensures length { length result.payload.now ≤ 1024 }
{
    let start = block.start();
    let size = block.size();
    Portion {
        block: Some(BlockOption::Block2(Block {
            number: block.number,
            more: start + size < bytes.len(),
            szx: block.szx,
        })),
        payload: front(&bytes[start..], size),
    }
}

/// As many bytes from the beginning, or all.
fn front(bytes: &[u8], size: usize) -> &[u8]
    ensures { result.now ≡ take size bytes.now }
{
    if size < bytes.len() {
        &bytes[..size]
    } else {
        bytes
    }
}
