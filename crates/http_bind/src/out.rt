//! A reply as it is sent: its head, and its payload.

/// The bytes to send on a connection: those of `head`, and after them those of `body`. While a request waits, both are
/// empty.
#[derive(Debug, Drop)]
pub struct HttpOut<'a> {
    /// The status line, the header lines and the empty line.
    pub head: &'a [u8],
    /// The payload.
    pub body: &'a [u8],
    /// The connection is closed after it.
    pub close: bool,
    /// The request waits: nothing is sent yet.
    pub waits: bool,
}

impl HttpOut<'_> {
    ghost use Rattle.std.specs.Prelude.{◌≡◌, [], true, false};

    /// Nothing is sent, because the request waits.
    pub(crate) fn of_a_wait() -> HttpOut<'static>
        ensures head { result.head.now ≡ [] }
        ensures body { result.body.now ≡ [] }
        ensures close { result.close ≡ false }
        ensures waits { result.waits ≡ true }
    {
        HttpOut {
            head: &[],
            body: &[],
            close: false,
            waits: true,
        }
    }
}
