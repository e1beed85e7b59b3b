//! The steps that both bodies get: drawn by a generator that gives the same ones each time.

ghost use Rattle.std.specs.Prelude.{◌<◌};

use coap_msg::Endpoint;

/// One call.
#[derive(Clone, Copy)]
pub enum Step {
    /// The endpoint registers, with a token of one byte, for the target.
    Register(Endpoint, u8, u32),
    /// The endpoint ends the observation with this token.
    Cancel(Endpoint, u8),
    /// The target has a new value.
    Emit(u32),
    /// The endpoint acknowledges the message with this ID.
    Acknowledge(Endpoint, u16),
    /// The endpoint rejects the message with this ID.
    Reset(Endpoint, u16),
    /// The next notification is asked for at this moment, with this message ID.
    Send(u64, u16),
}

/// A generator of numbers: x becomes 1103515245 x + 12345 modulo 2^31, and x / 2^16 is drawn.
#[derive(Drop)]
pub struct Draws {
    state: u64,
    now: u64,
    id: u16,
}

impl Draws {
    /// A generator that begins at 1, at the moment 0 and with the message ID 0.
    pub fn new() -> Draws {
        Draws {
            state: 1,
            now: 0,
            id: 0,
        }
    }

    /// The next number below a limit.
    fn draw(&mut self, limit: u64) -> u64
        requires { 0 < limit }
        ensures { result < limit }
    {
        self.state = self.state.wrapping_mul(1_103_515_245).wrapping_add(12_345) % (1 << 31);
        self.state / (1 << 16) % limit
    }

    /// One of four endpoints.
    fn endpoint(&mut self) -> Endpoint {
        let host = self.draw(2) as u128;
        let port = self.draw(2) as u16;
        Endpoint { host, port }
    }

    /// One of the last six message IDs.
    fn recent(&mut self) -> u16 {
        self.id.wrapping_sub(self.draw(6) as u16)
    }

    /// The next step.
    pub fn step(&mut self) -> Step {
        match self.draw(20) {
            0 | 1 | 2 => Step::Register(self.endpoint(), self.draw(4) as u8, self.draw(5) as u32),
            3 => Step::Cancel(self.endpoint(), self.draw(4) as u8),
            4 | 5 | 6 => Step::Emit(self.draw(5) as u32),
            7 | 8 | 9 | 10 | 11 => Step::Acknowledge(self.endpoint(), self.recent()),
            12 => Step::Reset(self.endpoint(), self.recent()),
            _ => self.send(),
        }
    }

    /// The next notification is asked for, mostly at the same moment as before, with a further message ID.
    fn send(&mut self) -> Step {
        let later = match self.draw(16) {
            0 => 1,
            1 => 1_999,
            2 => 2_000,
            3 => 3_000,
            4 => 6_000,
            5 => 24_000,
            6 => 48_000,
            _ => 0,
        };
        self.now = self.now.saturating_add(later);
        self.id = self.id.wrapping_add(1);
        Step::Send(self.now, self.id)
    }
}
