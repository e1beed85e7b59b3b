//! The answers that a system in memory plays: lines `answer CALL ..`, as `answer read 0 abc`, `answer wrote 0 3`,
//! `answer polled 64 65`. In place of what is answered, `refused R` says that the call is refused, with `later`,
//! `aborted`, `memory`, or the error's number in errno.h.

use cases_notation::{bytes_of, endpoint_of, number};
use servient_system::{Asked, Ready, ReceivedDatagram, Refusal};
use std::alloc::{AllocError, Global};
use wot_json::{Bytes, Text};

/// The refusal of a word.
fn refusal_of(word: &str) -> Refusal {
    match word {
        "later" => Refusal::NotNow,
        "aborted" => Refusal::Aborted,
        "memory" => Refusal::NoMemory,
        _ => Refusal::Failed(word.parse::<i32>().unwrap_or(0)),
    }
}

/// The refusal that words say, if they say one.
fn refused_in(words: &str) -> Option<Refusal> {
    match words.split_once("refused ") {
        Some((_, word)) => Some(refusal_of(word)),
        None => None,
    }
}

/// Done, unless words say that it is refused.
fn done_of(words: &str) -> Result<(), Refusal> {
    match refused_in(words) {
        Some(refusal) => Err(refusal),
        None => Ok(()),
    }
}

/// The time of words, in nanoseconds, which they have in milliseconds.
fn time_of(words: &str) -> Result<u64, Refusal> {
    match refused_in(words) {
        Some(refusal) => Err(refusal),
        None => Ok(number(Some(words)).saturating_mul(1_000_000)),
    }
}

/// The sockets that words name.
fn ready_of(words: &str) -> Ready {
    let mut ready = Ready::new();
    for word in words.split(' ') {
        if let Ok(number) = word.parse::<u32>() {
            ready.add(number);
        }
    }
    ready
}

/// The number of a connection, and the words after it.
fn numbered(words: &str) -> (u32, &str) {
    let (word, rest) = words.split_once(' ').unwrap_or((words, "-"));
    (word.parse::<u32>().unwrap_or(0), rest)
}

/// A read.
fn read_of(alloc: Global, words: &str) -> Result<Asked, AllocError> {
    let (c, rest) = numbered(words);
    if let Some(refusal) = refused_in(rest) {
        return Ok(Asked::Read(c, Err(refusal)));
    }
    let bytes = Bytes::from_vec(bytes_of(alloc, rest)?);
    Ok(Asked::Read(c, Ok(bytes)))
}

/// A write.
fn write_of(alloc: Global, words: &str) -> Asked {
    let (c, rest) = numbered(words);
    let taken = match refused_in(rest) {
        Some(refusal) => Err(refusal),
        None => Ok(rest.parse::<usize>().unwrap_or(0)),
    };
    Asked::Wrote(c, Bytes::new(alloc), taken)
}

/// A datagram that comes.
fn datagram_of(alloc: Global, words: &str) -> Result<Asked, AllocError> {
    if let Some(refusal) = refused_in(words) {
        return Ok(Asked::Received(Err(refusal)));
    }
    let (from, bytes) = words.split_once(' ').unwrap_or((words, "-"));
    let bytes = Bytes::from_vec(bytes_of(alloc, bytes)?);
    Ok(Asked::Received(Ok(ReceivedDatagram {
        from: endpoint_of(from),
        bytes,
    })))
}

/// An address that is looked up.
fn address_of(alloc: Global, words: &str) -> Asked {
    let answer = match refused_in(words) {
        Some(refusal) => Err(refusal),
        None => Ok(endpoint_of(words)),
    };
    Asked::Resolved(Text::from_string(String::new(alloc)), 0, answer)
}

/// The answer to a call that is done or refused.
fn outcome_of(alloc: Global, word: &str, words: &str) -> Asked {
    let done = done_of(words);
    let any = endpoint_of("host0");
    match word {
        "prepared" => Asked::Prepared(done),
        "paused" => Asked::Paused(0, done),
        "listened" => Asked::Listened(any, done),
        "bound" => Asked::Bound(any, done),
        "accepted" => Asked::Accepted(0, done),
        "dialled" => Asked::Dialled(0, any, done),
        "connected" => Asked::Connected(0, done),
        "attached" => Asked::Attached(0, done),
        "shut" => Asked::ShutDown(numbered(words).0, done),
        _ => Asked::SentTo(any, Bytes::new(alloc), done),
    }
}

/// The answer of a line.
fn answer_of(alloc: Global, line: &str) -> Result<Asked, AllocError> {
    let (word, words) = line.split_once(' ').unwrap_or((line, ""));
    match word {
        "clock" => Ok(Asked::Clock(time_of(words))),
        "polled" => Ok(Asked::Polled(0, done_of(words), ready_of(words))),
        "awaited" => Ok(Asked::Awaited(0, Ok(words == "yes"))),
        "resolved" => Ok(address_of(alloc, words)),
        "read" => read_of(alloc, words),
        "wrote" => Ok(write_of(alloc, words)),
        "received" => datagram_of(alloc, words),
        _ => Ok(outcome_of(alloc, word, words)),
    }
}

/// The answers of the lines `answer ..`.
pub fn answers_of(alloc: Global, history: &str) -> Result<Vec<Asked>, AllocError> {
    let mut answers = Vec::new(alloc);
    for line in history.lines() {
        if let Some(words) = line.strip_prefix("answer ") {
            answers.push(answer_of(alloc, words)?)?;
        }
    }
    Ok(answers)
}
