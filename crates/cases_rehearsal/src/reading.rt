//! Moves in words.

use cases_notation::{bytes_of, format_of, message_of, number, option_of};
use coap_msg::{Block, Endpoint};
use servient_outside::What;
use servient_rehearsal::{Move, Moves};
use std::alloc::{AllocError, Global};
use thing_ops::Segments;
use wot_json::Bytes;

/// The code of a method; GET for any other word.
fn code_of(method: &str) -> u8 {
    match method {
        "POST" => 2,
        "PUT" => 3,
        "DELETE" => 4,
        _ => 1,
    }
}

/// A path.
fn path_of(alloc: Global, text: &str) -> Result<Segments, AllocError> {
    let mut path = Segments::new(alloc);
    for segment in text.split('/').skip(1) {
        if !segment.is_empty() {
            path.push(bytes_of(alloc, segment)?.as_slice())?;
        }
    }
    Ok(path)
}

/// The block that a number says (RFC 7959, section 2.2); none where it is too great.
fn block_of(digits: Option<&str>) -> Option<Block> {
    let value = match digits {
        Some(digits) => number(Some(digits)),
        None => return None,
    };
    if value >= 1 << 24 {
        return None;
    }
    Some(Block {
        number: (value / 16) as u32,
        more: value / 8 % 2 == 1,
        szx: (value % 8) as u8,
    })
}

/// The ask of these words.
fn ask_of(alloc: Global, observe: Option<bool>, words: &str) -> Result<Move, AllocError> {
    let mut fields = words.splitn(3, ' ');
    let code = code_of(fields.next().unwrap_or(""));
    let path = path_of(alloc, fields.next().unwrap_or(""))?;
    let (format, words) = option_of("Content-Format=", fields.next().unwrap_or("-"));
    let (block2, words) = option_of("Block2=", words);
    let (block1, payload) = option_of("Block1=", words);
    Ok(Move::Ask {
        code,
        path,
        observe,
        format: format_of(format),
        block1: block_of(block1),
        block2: block_of(block2),
        payload: Bytes::from_vec(bytes_of(alloc, payload)?),
    })
}

/// The number of a connection.
fn connection_of(word: &str) -> u32 {
    u32::try_from(number(Some(word))).unwrap_or(0)
}

/// Bytes on a connection.
fn bytes_on(alloc: Global, words: &str) -> Result<Move, AllocError> {
    let (connection, written) = words.split_once(' ').unwrap_or((words, "-"));
    let bytes = bytes_of(alloc, written)?;
    Ok(Move::Other(
        What::Bytes(connection_of(connection), bytes.len()),
        Bytes::from_vec(bytes),
    ))
}

/// The endpoint of a word, as `3:5683`.
fn endpoint_of(word: &str) -> Endpoint {
    let (host, port) = word.split_once(':').unwrap_or((word, "5683"));
    Endpoint {
        host: u128::from(number(Some(host))),
        port: u16::try_from(number(Some(port))).unwrap_or(0),
    }
}

/// A datagram of elsewhere.
fn datagram_from(alloc: Global, words: &str) -> Result<Move, AllocError> {
    let (from, message) = words.split_once(' ').unwrap_or((words, ""));
    let bytes = message_of(alloc, message)?;
    Ok(Move::Other(
        What::Datagram(endpoint_of(from), bytes.len()),
        Bytes::from_vec(bytes),
    ))
}

/// An event that comes without bytes.
fn besides(alloc: Global, what: What) -> Move {
    Move::Other(what, Bytes::new(alloc))
}

/// The move of these words, if they are one.
fn move_of(alloc: Global, line: &str) -> Result<Option<Move>, AllocError> {
    let (word, words) = line.split_once(' ').unwrap_or((line, ""));
    let next = match word {
        "ask" => ask_of(alloc, None, words)?,
        "observe" => ask_of(alloc, Some(true), words)?,
        "unobserve" => ask_of(alloc, Some(false), words)?,
        "due" => Move::Due,
        "deliver" => Move::Deliver(connection_of(words)),
        "pass" => Move::Pass(number(Some(words))),
        "open" => besides(alloc, What::Opened(connection_of(words))),
        "end" => besides(alloc, What::Ended(connection_of(words))),
        "tick" => besides(alloc, What::Tick),
        "bytes" => bytes_on(alloc, words)?,
        "data" => datagram_from(alloc, words)?,
        _ => return Ok(None),
    };
    Ok(Some(next))
}

/// Puts the move of these words at the end, if they are one, and says whether they are.
pub fn push_move(moves: &mut Moves, alloc: Global, line: &str) -> Result<bool, AllocError> {
    match move_of(alloc, line)? {
        Some(next) => {
            moves.push(next)?;
            Ok(true)
        }
        None => Ok(false),
    }
}
