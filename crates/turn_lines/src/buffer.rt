//! A buffer before an output, which is written when it is full and when its owner says so.

ghost use Rattle.std.specs.Prelude.{◌≡◌, ◌≤◌, ◌<◌, [], ◌∷◌, IfOk, length, vec_len, vec_capacity};
ghost use Rattle.servient_outside.specs.Out.{OutSeen};
ghost use Rattle.turn_lines.specs.declared.buffer.TheConstants.{PIECE_BYTES};

use itoa::{Buffer, Integer};
use servient_base::NoMemory;
use servient_outside::{Out, Put};
use std::alloc::Global;

/// The most bytes that are written in one piece.
pub const PIECE_BYTES: usize = 4096;

/// Bytes that wait to be written, and the answer of the last write. Once a write failed, nothing more is kept and nothing
/// more is written.
#[derive(Drop)]
pub struct LineBuffer {
    held: Vec<u8>,
    put: Put,
    ghost has_memory: { PIECE_BYTES ≤ vec_capacity held },
    ghost within: { vec_len held ≤ PIECE_BYTES },
}

impl LineBuffer {
    ghost use Rattle.turn_lines.specs.Buffer.{buffered_of, HasPut, WritesHeld, nothing_held};

    /// A buffer that holds nothing. It takes all its memory here.
    pub fn new(alloc: Global) -> Result<LineBuffer, NoMemory>
        ensures { IfOk result (λ b. buffered_of b ≡ nothing_held) }
    {
        let held = Vec::with_capacity(alloc, PIECE_BYTES)?;
        Ok(LineBuffer {
            held,
            put: Put::Done,
        })
    }

    /// Writes what is held, where there is any, and says whether all writes so far were done.
    pub fn flush<O: Out>(&mut self, out: &mut O) -> Put
        ensures answer { result ≡ (buffered_of self.new).put }
        ensures put { HasPut [] (buffered_of self.old) (buffered_of self.new) (O.seen out.old) (O.seen out.new) }
        ensures empty { (buffered_of self.new).held ≡ [] }
    {
        self.put = self.write_held(out);
        self.held.clear();
        self.put
    }

    /// Writes what is held, where there is any and no write failed before. The answer is that of the last write.
    #[tactic(auto, using(crate::proofs::Putting::writes_nothing, crate::proofs::Putting::stays_failed, crate::proofs::Putting::writes_all))]
    fn write_held<O: Out>(&self, out: &mut O) -> Put
        ensures { WritesHeld (buffered_of self.now) (O.seen out.old) (O.seen out.new) result }
    {
        if self.held.is_empty() {
            return self.put;
        }
        match self.put {
            Put::Done => out.put(self.held.as_slice()),
            Put::Failed => Put::Failed,
        }
    }

    /// Puts bytes behind what is held.
    pub fn push<O: Out>(&mut self, out: &mut O, bytes: &[u8])
        ensures { HasPut bytes.now (buffered_of self.old) (buffered_of self.new) (O.seen out.old) (O.seen out.new) }
    {
        for byte in bytes {
            self.push_byte(out, *byte);
        }
    }

    /// Puts a number there in decimal.
    pub fn push_number<O: Out, I: Integer>(&mut self, out: &mut O, number: I)
        ensures { HasPut (I.text number) (buffered_of self.old) (buffered_of self.new) (O.seen out.old) (O.seen out.new) }
    {
        let mut digits = Buffer::new();
        self.push(out, digits.format(number).as_bytes());
    }

    /// Puts a byte behind what is held.
    fn push_byte<O: Out>(&mut self, out: &mut O, byte: u8)
        ensures { HasPut (byte ∷ []) (buffered_of self.old) (buffered_of self.new) (O.seen out.old) (O.seen out.new) }
    {
        self.make_room(out);
        self.keep(byte);
    }

    /// Makes room for a byte: what is held is written where the buffer is full.
    fn make_room<O: Out>(&mut self, out: &mut O)
        ensures put { HasPut [] (buffered_of self.old) (buffered_of self.new) (O.seen out.old) (O.seen out.new) }
        ensures room { length (buffered_of self.new).held < PIECE_BYTES }
    {
        if self.held.len() == PIECE_BYTES {
            let _put = self.flush(out);
        }
    }

    /// Keeps a byte, unless a write failed before.
    fn keep(&mut self, byte: u8)
        requires { length (buffered_of self.old).held < PIECE_BYTES }
        ensures { (out : OutSeen) → HasPut (byte ∷ []) (buffered_of self.old) (buffered_of self.new) out out }
    {
        match self.put {
            Put::Done => self.held.push_reserved(byte),
            Put::Failed => {}
        }
    }
}
