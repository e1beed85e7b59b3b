//! The wish of a request for blocks, and the part that these have in its reply (RFC 7959).

ghost use Rattle.std.specs.Prelude.{◌≡◌};
ghost use Rattle.coap_opts.specs.AskSeen.{ask_seen};
ghost use Rattle.coap_bind.specs.Blocks.{block2_of, wanted_of};
ghost use Rattle.coap_bind.specs.Links.{size_asked};

use crate::observing::Observing;
use coap_msg::{Block, Code, GET, POST, PUT};
use coap_opts::CoapAsk;
use thing_ops::Segments;

/// The wish of a request, by the blocks that it names.
#[derive(Clone, Copy, Debug, PartialEq, Eq)]
pub enum BlockWish {
    /// To be acted on as it is.
    Act,
    /// A block of a response that was given, after its first.
    LaterBlock(Block),
    /// The joining of this block of it to those before.
    Joining(Block),
}

/// The part that blocks have in the reply to a request.
#[derive(Debug, Drop)]
pub enum BlockUse {
    /// Nothing: its payload is whole.
    Whole,
    /// Its payload is given in blocks, where it is longer than one.
    Gives(Giving),
    /// The request came in blocks, of which this was the last.
    Joined(Block),
}

/// The giving of a response's payload in blocks.
#[derive(Debug, Drop)]
pub struct Giving {
    /// The path of the request: its sender and the path lead to the later blocks.
    pub path: Segments,
    /// The exponent of the size of a block that was asked for, from 0 to 6.
    pub szx: Option<u8>,
    /// The moment at which the request came, in milliseconds.
    pub moment: u64,
}

/// The option of a reply that says a block (RFC 7959, section 2.1).
#[derive(Clone, Copy, Debug, PartialEq, Eq)]
pub enum BlockOption {
    /// The block of the response that it has.
    Block2(Block),
    /// The block of the request that came.
    Block1(Block),
}

/// The wish of a request of this code that has this wish for the observers.
pub fn wanted_of(code: Code, observing: Observing, ask: &CoapAsk<'_>) -> BlockWish
    ensures { result ≡ wanted_of code observing (ask_seen ask.now) }
{
    match code {
        GET => match block2_of(observing, ask) {
            Some(block) => {
                if block.number == 0 {
                    BlockWish::Act
                } else {
                    BlockWish::LaterBlock(block)
                }
            }
            None => BlockWish::Act,
        },
        POST | PUT => match ask.block1 {
            Some(block) => BlockWish::Joining(block),
            None => BlockWish::Act,
        },
        _ => BlockWish::Act,
    }
}

/// Block2 of a GET, where it is read.
pub fn block2_of(observing: Observing, ask: &CoapAsk<'_>) -> Option<Block>
    ensures { result ≡ block2_of observing (ask_seen ask.now) }
{
    match observing {
        // Not read, since notifications aren't given in blocks.
        Observing::Registers => None,
        Observing::Unchanged | Observing::Deregisters => ask.block2,
    }
}

/// The exponent of the size of a block that a GET asks for, if it asks for one.
pub fn size_asked(observing: Observing, ask: &CoapAsk<'_>) -> Option<u8>
    ensures { result ≡ size_asked observing (ask_seen ask.now) }
{
    match block2_of(observing, ask) {
        Some(block) => Some(block.szx),
        None => None,
    }
}
