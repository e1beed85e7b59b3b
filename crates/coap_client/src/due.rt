//! The task of a client at a moment: to send again, or to give up.

/// The task of a client at a moment.
#[derive(Clone, Copy, Debug, PartialEq, Eq)]
pub enum Due {
    /// Nothing.
    Nothing,
    /// To send the outstanding request again, which has this many bytes.
    Send(usize),
    /// The time of the outstanding request is over: it ended without a response.
    TimedOut,
}
