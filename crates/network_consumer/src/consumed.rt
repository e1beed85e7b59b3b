//! The ends of an operation, or of a discovery.

/// The end of an operation, or of a discovery.
#[derive(Clone, Copy, Debug, PartialEq, Eq)]
pub enum Consumed {
    /// It was done. Each payload that it brought was printed, where it isn't empty, or the lines of the Things.
    Done,
    /// It came to something else, and nothing of that was printed.
    Other(ConsumedOutcome),
    /// The deadline passed without an answer.
    Silent,
    /// The network failed.
    Failed,
    /// The output failed.
    Unprinted,
    /// 100,000 events were taken, and none ended it.
    Spent,
    /// Out of memory.
    NoMemory,
}

/// The outcome of an operation that wasn't done.
#[derive(Clone, Copy, Debug, PartialEq, Eq)]
pub enum ConsumedOutcome {
    /// The value handed in isn't as the description says, and nothing was sent.
    Input,
    /// The value that came back isn't as the description says.
    Output,
    /// The answer isn't HTTP, or its payload no JSON, or no links that can be joined; or it has a block that can't follow what
    /// came before.
    Malformed,
    /// The answer has more than 65,536 bytes, over HTTP with its head; or a request has more than 1,152 over CoAP: of the first
    /// one nothing was sent.
    Long,
    /// The connection ended before the answer was whole.
    Closed,
    /// The request was reset (RFC 7252, section 4.2).
    Reset,
    /// The run ended before the answer was whole.
    Stopped,
    /// The answer has this status, which isn't one of success.
    Status(Status),
}

/// The status of an answer.
#[derive(Clone, Copy, Debug, PartialEq, Eq)]
pub enum Status {
    /// The status code of an HTTP response (RFC 9110, section 15).
    Http(u16),
    /// The code of a CoAP response, its class in the upper three bits (RFC 7252, section 5.9).
    Coap(u8),
}
