//! The verdict on a request by a table of exchanges.

/// The number of the place in which an exchange and its reply are kept, as long as the exchange lives.
pub type ExchangeSlot = u32;

/// The verdict on a request by a table of exchanges (RFC 7252, section 4.5).
#[derive(Clone, Copy, Debug, PartialEq, Eq)]
pub enum Met {
    /// No exchange that lives: it is admitted, and acted on. Its reply may be kept in this slot as long as it lives.
    Fresh(ExchangeSlot),
    /// An exchange that lives, of which it is a duplicate: it isn't acted on again. The slot of the
    /// reply, where one was kept.
    Repeat(Option<ExchangeSlot>),
    /// No exchange that lives, and no room for another: it isn't acted on.
    Full,
}
