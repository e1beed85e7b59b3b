//! The value that is handed in and the one that comes back, as far as they have travelled in blocks (RFC 7959).

ghost use Rattle.std.specs.Prelude.{◌≡◌, Some, option_map};
ghost use Rattle.coap_msg.specs.declared.block.Block.{Block as BlockSeen};
ghost use Rattle.coap_msg.specs.Blocks.{IsBlock};
ghost use Rattle.coap_client.specs.Asking.{asking_of};
ghost use Rattle.network_consumer.specs.declared.blocks.Blocks.{Blocks as BlocksSeen};
ghost use Rattle.network_consumer.specs.Asking.{AreBlocks, asking_for, input_size as size_of_input, observe_for as observe_of};
ghost use Rattle.network_consumer.specs.Blockwise.{after_block as step_after_block, after_continue as step_after_continue, after_joining as step_after_joining, after_one as step_after_one};

use crate::blocks::{Blocks, first_blocks, input_block, part_of};
use crate::coap_asking::method_code;
use coap_client::{Ask, Taken, Transfer};
use coap_msg::{Block, CONTINUE, JSON};
use std::marker::Model;
use wot_consumer::Chosen;
use wot_json::Bytes;

/// The most blocks of what is handed in that are sent: half of the message IDs, so that there is one for each request.
const MOST_INPUT_BLOCKS: u32 = 32_768;

/// An answer that isn't a value of what is observed.
#[derive(Clone, Copy)]
pub struct RequestAnswer<'a> {
    /// The code, its class in the upper three bits.
    pub code: u8,
    /// The block of its body that it has.
    pub block2: Option<Block>,
    pub payload: &'a [u8],
}

/// The next step after an answer.
#[derive(Clone, Copy, Debug, PartialEq, Eq)]
pub enum NextStep {
    /// A request with these blocks.
    Ask(Blocks),
    /// The answer is whole, and is judged.
    Judge,
    /// It may not follow the answers before it.
    Malformed,
    /// It or the value that is handed in is too long.
    Long,
}

/// The value that is handed in, the blocks of the last request, and the parts of the answer that came back, joined.
#[derive(Drop)]
pub struct BlockTransfer {
    input: Option<Bytes>,
    asked: Blocks,
    answer: Transfer,
}

impl Model for BlockTransfer {
    ghost use Rattle.network_consumer.specs.Asking.{AreBlocks};
    ghost use Rattle.network_consumer.specs.Blockwise.{Transferred};

    ghost Value = { Transferred };

    ghost view = { λ t. record { input = t.input; asked = t.asked; joined = t.answer } };

    ghost invariant = { λ t. AreBlocks t.asked };
}

impl BlockTransfer {
    ghost use Rattle.std.specs.Prelude.{◌≡◌, [], IfSome};
    ghost use Rattle.coap_msg.specs.Blocks.{IsBlock};
    ghost use Rattle.coap_client.specs.Asking.{asking_of};
    ghost use Rattle.network_consumer.specs.declared.blocks.Blocks.{Blocks as BlocksSeen};
    ghost use Rattle.network_consumer.specs.Asking.{AreBlocks, asking_for};
    ghost use Rattle.network_consumer.specs.Blockwise.{nothing_joined, after_answer, after_code, after_end, whole_payload};

    /// Nothing came back yet; this is handed in, if anything is.
    pub fn new(input: Option<Bytes>, answer: Transfer) -> Self
        requires { answer ≡ [] }
        ensures { result ≡ nothing_joined input }
    {
        let asked = first_blocks(input_size(&input));
        BlockTransfer {
            input,
            asked,
            answer,
        }
    }

    /// The blocks of the last request, or of the first.
    pub fn asked(&self) -> Blocks
        ensures asked { result ≡ self.now.asked }
        ensures blocks { AreBlocks result }
    {
        self.asked
    }

    /// The request with these blocks.
    pub fn ask<'a>(&'a self, chosen: &'a Chosen, blocks: Blocks) -> Ask<'a>
        requires { AreBlocks blocks }
        ensures { asking_of result ≡ asking_for chosen.now self.now.input blocks }
    {
        ask_with(chosen, slice_of(&self.input), blocks)
    }

    /// A request with these blocks is the last.
    pub fn note_asked(&mut self, blocks: Blocks)
        requires { AreBlocks blocks }
        ensures { self.new ≡ record self.old { asked = blocks } }
    {
        self.asked = blocks;
    }

    /// Takes an answer, which is joined with those before it or isn't, and says what follows.
    pub fn take(&mut self, joins: bool, answer: &RequestAnswer<'_>) -> NextStep
        requires { IfSome answer.now.block2 IsBlock }
        ensures step { result ≡ (after_answer joins self.old answer.now.code answer.now.block2 answer.now.payload.now).0 }
        ensures transfer { self.new ≡ record self.old {
          joined = (after_answer joins self.old answer.now.code answer.now.block2 answer.now.payload.now).1;
        } }
        ensures blocks { (b : BlocksSeen) → result ≡ NextStep.Ask b → AreBlocks b }
    {
        match self.after_code(answer.code) {
            Some(step) => step,
            None => self.end(joins, answer),
        }
    }

    /// The next step after an answer with this code that may let the sending go on; none, where it ends that.
    fn after_code(&self, code: u8) -> Option<NextStep>
        ensures ok { result ≡ after_code self.now code }
        ensures blocks { (b : BlocksSeen) → result ≡ Some (NextStep.Ask b) → AreBlocks b }
    {
        if code != CONTINUE {
            return None;
        }
        after_continue(input_size(&self.input), self.asked)
    }

    /// Takes an answer that ends the sending.
    fn end(&mut self, joins: bool, answer: &RequestAnswer<'_>) -> NextStep
        requires { IfSome answer.now.block2 IsBlock }
        ensures step { result ≡ (after_end joins self.old answer.now.code answer.now.block2 answer.now.payload.now).0 }
        ensures transfer { self.new ≡ record self.old {
          joined = (after_end joins self.old answer.now.code answer.now.block2 answer.now.payload.now).1;
        } }
        ensures blocks { (b : BlocksSeen) → result ≡ NextStep.Ask b → AreBlocks b }
    {
        if answer.code / 32 != 2 {
            return NextStep::Judge;
        }
        if !joins {
            return after_one(answer.block2);
        }
        let taken = self.answer.take(answer.block2, answer.payload);
        after_joining(self.asked, taken)
    }

    /// The payload of the whole answer, of which this came last.
    pub fn whole<'a>(&'a self, joins: bool, payload: &'a [u8]) -> &'a [u8]
        ensures { result.now ≡ whole_payload joins self.now payload.now }
    {
        if joins { self.answer.bytes() } else { payload }
    }
}

/// The number of bytes that are handed in.
fn input_size(input: &Option<Bytes>) -> usize
    ensures { result ≡ size_of_input input.now }
{
    match input {
        Some(bytes) => bytes.len(),
        None => 0,
    }
}

/// The bytes that are handed in, if any are.
pub fn slice_of(input: &Option<Bytes>) -> Option<&[u8]>
    ensures { option_map (λ b. b.now) result ≡ input.now }
{
    match input {
        Some(bytes) => Some(bytes.as_slice()),
        None => None,
    }
}

/// The request with these blocks, where this value is handed in, if any is.
fn ask_with<'a>(chosen: &'a Chosen, input: Option<&'a [u8]>, blocks: Blocks) -> Ask<'a>
    requires { AreBlocks blocks }
    ensures { asking_of result ≡ asking_for chosen.now (option_map (λ b. b.now) input.entry) blocks }
{
    Ask {
        code: method_code(chosen.verb),
        path: &chosen.path,
        observe: observe_for(chosen.observe),
        format: input.map(|_| JSON),
        block1: blocks.block1,
        block2: blocks.block2,
        payload: part_of(blocks.block1, input.unwrap_or(&[])),
    }
}

/// Whether values are asked for as they come.
fn observe_for(observe: bool) -> Option<bool>
    ensures { result ≡ observe_of observe }
{
    if observe { Some(true) } else { None }
}

/// The next step after a 2.31 to a request with these blocks, where so many bytes are handed in; none, where that is an
/// answer like any other.
fn after_continue(size: usize, asked: Blocks) -> Option<NextStep>
    requires { AreBlocks asked }
    ensures ok { result ≡ step_after_continue size asked.block1 asked.block2 }
    ensures blocks { (b : BlocksSeen) → result ≡ Some (NextStep.Ask b) → AreBlocks b }
{
    match asked.block1 {
        Some(block) if asked.block2.is_none() => Some(after_block(size, block)),
        _ => None,
    }
}

/// The next step after a 2.31 to this block of the value that is handed in, which has so many bytes.
fn after_block(size: usize, block: Block) -> NextStep
    requires { IsBlock block }
    ensures ok { result ≡ step_after_block size block }
    ensures blocks { (b : BlocksSeen) → result ≡ NextStep.Ask b → AreBlocks b }
{
    if !block.more {
        return NextStep::Malformed;
    }
    let number = block.number + 1;
    if number >= MOST_INPUT_BLOCKS {
        return NextStep::Long;
    }
    NextStep::Ask(Blocks {
        block1: Some(input_block(size, number)),
        block2: None,
    })
}

/// The next step after an answer that was taken so, to a request with these blocks.
fn after_joining(asked: Blocks, taken: Taken) -> NextStep
    requires asked { AreBlocks asked }
    requires taken { (b : BlockSeen) → taken ≡ Taken.More b → IsBlock b }
    ensures ok { result ≡ step_after_joining asked taken }
    ensures blocks { (b : BlocksSeen) → result ≡ NextStep.Ask b → AreBlocks b }
{
    match taken {
        Taken::Broken => NextStep::Malformed,
        Taken::TooLong => NextStep::Long,
        Taken::Complete => NextStep::Judge,
        Taken::More(block) => NextStep::Ask(Blocks {
            block1: asked.block1,
            block2: Some(block),
        }),
    }
}

/// The next step after an answer that isn't joined, which says this of blocks.
fn after_one(block2: Option<Block>) -> NextStep
    ensures ok { result ≡ step_after_one block2 }
    ensures blocks { (b : BlocksSeen) → result ≡ NextStep.Ask b → AreBlocks b }
{
    match block2 {
        Some(block) if block.more || block.number > 0 => NextStep::Malformed,
        _ => NextStep::Judge,
    }
}
