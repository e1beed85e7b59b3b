//! The purpose of a request.

ghost use Rattle.std.specs.Prelude.{◌≡◌};
ghost use Rattle.network_consumer.specs.Answers.{count_of};

use crate::ThingOperation;

/// The purpose of a request: it says what an answer of success comes to.
#[derive(Clone, Copy)]
pub enum Purpose<'a> {
    /// An operation of a Thing, by whose description a payload is judged.
    Operation(ThingOperation<'a>),
    /// To learn the Things of the server with this URL, of which a payload is the links (RFC 6690).
    Discovery(&'a str),
}

impl Purpose<'_> {
    /// The number of values that are waited for, where they are asked for as they come.
    pub fn count(&self) -> u32
        ensures { result ≡ count_of self.now }
    {
        match self {
            Purpose::Operation(operation) => operation.count,
            Purpose::Discovery(_) => 1,
        }
    }
}
