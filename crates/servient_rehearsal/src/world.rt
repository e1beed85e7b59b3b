//! The world of a rehearsal, as it is seen.

use coap_msg::{Block, Endpoint};
use wot_json::Bytes;

/// The place of the client.
pub const CLIENT: Endpoint = Endpoint {
    host: 1,
    port: 49152,
};

/// The place of the servient.
pub const SERVIENT: Endpoint = Endpoint {
    host: 2,
    port: 5683,
};

/// The outcome of the moves of a rehearsal. Each list is in the order in which it came about.
#[derive(Debug, Drop)]
pub struct World {
    /// All datagrams that either end sent.
    pub sent: SentList,
    /// The asks that were made and not skipped.
    pub asks: AskList,
    /// The ends of asks.
    pub ends: EndList,
    /// The values that the client took of its observation.
    pub taken: TakenList,
    /// The time that passed, in milliseconds.
    pub moment: u64,
}

pub type SentList = Vec<SentDatagram>;

pub type AskList = Vec<AskMade>;

pub type EndList = Vec<AskEnd>;

pub type TakenList = Vec<TakenValue>;

/// A datagram, with the moment and the two places of its way.
#[derive(Debug, Drop)]
pub struct SentDatagram {
    /// Milliseconds since the beginning.
    pub moment: u64,
    pub from: Endpoint,
    pub to: Endpoint,
    pub bytes: Bytes,
}

/// An ask that was made.
#[derive(Clone, Copy, Debug, Drop)]
pub struct AskMade {
    /// The number of the ask. Those that were made and not skipped are counted from 0.
    pub ask: u32,
    /// Its message ID.
    pub id: u16,
    /// The moment at which it was sent first, in milliseconds.
    pub first: u64,
}

/// The end of an ask.
#[derive(Debug, Drop)]
pub struct AskEnd {
    /// The number of the ask.
    pub ask: u32,
    pub end: End,
}

/// The end of an ask.
#[derive(Debug, Drop)]
pub enum End {
    /// By a response, with its code, the block of its body that it says if it says one (RFC 7959, section 2.1), and its
    /// payload.
    Answered(u8, Option<Block>, Bytes),
    /// By a value of its registration.
    Observed,
    /// By a Reset (RFC 7252, section 4.2).
    Reset,
    /// Without a response, by time.
    TimedOut,
}

/// A value that the client took (RFC 7641, section 3.4).
#[derive(Debug, Drop)]
pub struct TakenValue {
    /// The number of the ask that registered for it.
    pub ask: u32,
    pub value: Bytes,
}
