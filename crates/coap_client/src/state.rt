//! The state of a client, which code and definitions share, so that laws are equations on it.

use crate::ids::Ids;
use crate::observation::{Latest, Observation};
use crate::outstanding::Outstanding;
use coap_msg::Endpoint;

/// The contents of a client. specs/Exchange.antt says how the calls change them.
#[derive(Drop)]
pub struct State {
    /// The last moment that was handed in, in milliseconds.
    pub moment: u64,
    /// The request that is unanswered.
    pub outstanding: Option<Outstanding>,
    /// The observation.
    pub observation: Option<Observation>,
    /// The number whose eight bytes are the next token.
    pub next_token: u64,
    /// The id from which the next one is sought.
    pub next_id: u16,
    /// The moment at which each ID was used last.
    pub uses: Ids,
}
