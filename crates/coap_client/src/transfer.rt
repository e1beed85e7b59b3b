//! The body of a response that comes in blocks.

ghost use Rattle.std.specs.Prelude.{◌≡◌, ◌≤◌, [], length, Some, IfOk, IfSome};
ghost use Rattle.coap_msg.specs.declared.block.Block.{Block as BlockSeen};
ghost use Rattle.coap_msg.specs.Blocks.{IsBlock};
ghost use Rattle.coap_client.specs.Transfers.{after_response, answer_to, is_broken, longest_transfer, Takes};

use crate::NoMemory;
use coap_msg::Block;
use std::alloc::Global;
use std::marker::Model;

/// The most bytes of a body of a response.
const LONGEST_TRANSFER: usize = 65_536;

/// The outcome of a response, or of a block of one (RFC 7959, section 2.4).
#[derive(Clone, Copy, Debug, PartialEq, Eq)]
pub enum Taken {
    /// It doesn't go on where the body so far ends, or isn't as long as it says; nothing changed.
    Broken,
    /// The body would be longer than a body may be; nothing changed.
    TooLong,
    /// It was the last: the body is whole.
    Complete,
    /// It was taken, and this is the block to be asked for next.
    More(Block),
}

/// The body of a response, as far as its blocks came. Contracts see the bytes that came.
#[derive(Drop)]
pub struct Transfer {
    bytes: Vec<u8>,
}

impl Model for Transfer {
    ghost use Rattle.std.specs.Prelude.{List, ℕ, ◌≤◌, length, vec_capacity};
    ghost use Rattle.coap_client.specs.Transfers.{longest_transfer};

    ghost Value = { List ℕ };

    ghost view = { λ t. t.bytes.items };

    ghost invariant = { λ t. (longest_transfer ≤ vec_capacity t.bytes) × (length t.bytes.items ≤ longest_transfer) };
}

impl Transfer {
    /// Nothing came yet. All its memory is taken here.
    pub fn new(alloc: Global) -> Result<Transfer, NoMemory>
        ensures { IfOk result (λ t. t ≡ []) }
    {
        Ok(Transfer {
            bytes: Vec::with_capacity(alloc, LONGEST_TRANSFER)?,
        })
    }

    /// Takes the payload of a response, whose Block2 option says this block; none, where the payload is the whole body.
    pub fn take(&mut self, block: Option<Block>, payload: &[u8]) -> Taken
        requires block { IfSome block IsBlock }
        ensures taken { Takes (after_response block payload.now self.old) result self.new }
        ensures block { (b : BlockSeen) → result ≡ Taken.More b → IsBlock b }
    {
        let length = self.bytes.len();
        if is_broken(block, payload, length) {
            return Taken::Broken;
        }
        if payload.len() > LONGEST_TRANSFER - length {
            return Taken::TooLong;
        }
        // There is room, since that of the longest body was taken at first.
        self.bytes.extend_from_slice(payload).unwrap();
        answer_to(block, length + payload.len())
    }

    /// The bytes that came, in order.
    pub fn bytes(&self) -> &[u8]
        ensures bytes { result.now ≡ self.now }
        ensures bound { length result.now ≤ longest_transfer }
    {
        self.bytes.as_slice()
    }
}

/// Whether a response doesn't go on where the body so far ends, or isn't as long as it says.
fn is_broken(block: Option<Block>, payload: &[u8], length: usize) -> bool
    requires { IfSome block IsBlock }
    ensures { result ≡ is_broken block payload.now length }
{
    match block {
        Some(block) => { block.start() != length || (block.more && payload.len() != block.size()) }
        None => length != 0,
    }
}

/// The answer to a response that was taken, after which the body has this length.
fn answer_to(block: Option<Block>, length: usize) -> Taken
    requires block { IfSome block IsBlock }
    requires length { length ≤ longest_transfer }
    ensures answer { result ≡ answer_to block length }
    ensures block { (b : BlockSeen) → result ≡ Taken.More b → IsBlock b }
{
    match block {
        Some(block) => next_block(block, length),
        None => Taken::Complete,
    }
}

/// The block to be asked for after this one, if it isn't the last.
#[tactic(auto, using(crate::proofs::Taking::number_within, crate::proofs::Taking::asked_is))]
fn next_block(block: Block, length: usize) -> Taken
    requires block { IsBlock block }
    requires length { length ≤ longest_transfer }
    ensures answer { result ≡ answer_to (Some block) length }
    ensures block { (b : BlockSeen) → result ≡ Taken.More b → IsBlock b }
{
    if !block.more {
        return Taken::Complete;
    }
    Taken::More(Block {
        number: (length / block.size()) as u32,
        more: false,
        szx: block.szx,
    })
}
