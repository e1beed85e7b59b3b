//! The requests that both tables get: drawn by a generator that gives the same ones each time.

ghost use Rattle.std.specs.Prelude.{◌<◌};

use coap_msg::Endpoint;

/// A request, and the reply to it.
#[derive(Clone, Copy)]
pub struct Request {
    /// The time from the request before it to this one, in milliseconds.
    pub later: u64,
    /// The endpoint from which it comes.
    pub from: Endpoint,
    /// Its message ID.
    pub id: u16,
    /// Whether it is Confirmable.
    pub confirmable: bool,
    /// Whether its reply is kept.
    pub answered: bool,
    /// The reply: the number of the request.
    pub reply: [u8; 4],
}

/// A generator of numbers: x becomes 1103515245 x + 12345 modulo 2^31, and x / 2^16 is drawn.
#[derive(Drop)]
pub struct Draws {
    state: u64,
}

impl Draws {
    /// A generator that begins at 1.
    pub fn new() -> Draws {
        Draws { state: 1 }
    }

    /// The next number below a limit.
    fn draw(&mut self, limit: u64) -> u64
        requires { 0 < limit }
        ensures { result < limit }
    {
        self.state = self.state.wrapping_mul(1_103_515_245).wrapping_add(12_345) % (1 << 31);
        self.state / (1 << 16) % limit
    }

    /// The next request. Of 256 of them seven or so come later than the one before: by one millisecond, or by one less
    /// than a lifetime, a lifetime or one more, or by a time between both lifetimes.
    pub fn request(&mut self, number: u32) -> Request {
        let later = match self.draw(256) {
            0 => 1,
            1 => 144_999,
            2 => 145_000,
            3 => 145_001,
            4 => 102_000,
            5 => 246_999,
            6 => 247_000,
            7 => 247_001,
            _ => 0,
        };
        let host = self.draw(2) as u128;
        let port = self.draw(2) as u16;
        let id = self.draw(10) as u16;
        let confirmable = self.draw(2) == 0;
        let answered = self.draw(2) == 0;
        Request {
            later,
            from: Endpoint { host, port },
            id,
            confirmable,
            answered,
            reply: number.to_be_bytes(),
        }
    }
}
