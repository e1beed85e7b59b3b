//! The steps of asks that count in rows of block-wise asks: as their first datagrams say them, and as the client was
//! told that they ended.

use crate::played::copy_in;
use coap_msg::{BLOCK1, BLOCK2, Block, GET, Message, OBSERVE, POST, PUT, URI_PATH, read_block};
use servient_rehearsal::{AskMade, End, World};
use std::alloc::{AllocError, Global};

/// The way in which a body travels in blocks.
#[derive(Clone, Copy, PartialEq, Eq)]
pub enum Way {
    Read,
    Written,
}

/// An answer: its code, its block and its payload.
#[derive(Clone, Copy)]
pub struct Answer<'a> {
    pub code: u8,
    pub block: Option<Block>,
    pub payload: &'a [u8],
}

/// An ask.
#[derive(Drop)]
pub struct Step<'a> {
    pub code: u8,
    /// The path, with a slash before each segment.
    pub path: Vec<u8>,
    /// The block that it asks for or brings, if it does.
    pub block: Option<(Way, Block)>,
    pub payload: &'a [u8],
    /// The moment at which it was sent first, in milliseconds.
    pub first: u64,
    pub answer: Option<Answer<'a>>,
}

/// The first block that an option of this number says, if there is one.
pub fn block_in(request: &Message<'_>, wanted: u16) -> Option<Block> {
    for (number, value) in request.options.iter() {
        if number == wanted {
            return read_block(value);
        }
    }
    None
}

/// Whether there is an option of this number.
fn has_option(request: &Message<'_>, wanted: u16) -> bool {
    for (number, _) in request.options.iter() {
        if number == wanted {
            return true;
        }
    }
    false
}

/// The block that a request is about, of a GET without Observe that which it wants, of a PUT or POST that which it
/// brings.
fn block_of(request: &Message<'_>) -> Option<(Way, Block)> {
    match request.code {
        GET if !has_option(request, OBSERVE) => {
            let block = block_in(request, BLOCK2)?;
            Some((Way::Read, block))
        }
        PUT | POST => {
            let block = block_in(request, BLOCK1)?;
            Some((Way::Written, block))
        }
        _ => None,
    }
}

/// The path of a request.
fn path_of(alloc: Global, request: &Message<'_>) -> Result<Vec<u8>, AllocError> {
    let mut path = Vec::new(alloc);
    for (number, value) in request.options.iter() {
        if number == URI_PATH {
            path.push(b'/')?;
            path.extend_from_slice(value)?;
        }
    }
    Ok(path)
}

/// The answer to an ask, if there was one.
fn answer_to<'a>(world: &'a World, made: &AskMade) -> Option<Answer<'a>> {
    for ended in world.ends.iter() {
        if ended.ask == made.ask {
            if let End::Answered(code, block, payload) = &ended.end {
                return Some(Answer {
                    code: *code,
                    block: *block,
                    payload: payload.as_slice(),
                });
            }
        }
    }
    None
}

/// The request in the first datagram of an ask.
fn request_of<'a>(world: &'a World, made: &AskMade) -> Option<Message<'a>> {
    for sent in world.sent.iter() {
        if let Some(request) = copy_in(sent, made) {
            return Some(request);
        }
    }
    None
}

/// All asks, in the order in which they were made.
pub fn steps_of<'a>(alloc: Global, world: &'a World) -> Result<Vec<Step<'a>>, AllocError> {
    let mut steps = Vec::new(alloc);
    for made in world.asks.iter() {
        if let Some(request) = request_of(world, made) {
            steps.push(Step {
                code: request.code,
                path: path_of(alloc, &request)?,
                block: block_of(&request),
                payload: request.payload,
                first: made.first,
                answer: answer_to(world, made),
            })?;
        }
    }
    Ok(steps)
}
