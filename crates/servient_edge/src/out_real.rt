//! An output over a writer of the machine. The bytes written aren't recorded.

ghost use Rattle.std.specs.Prelude.{◌≡◌, ◌++◌, List, ℕ};
ghost use Rattle.std.specs.Io.KnownBytes.{Appends};

use servient_outside::{Out, Put};
use std::io::Write;

/// An output over a writer, as that to the standard output. It counts failures.
#[derive(Drop)]
pub struct OutReal<W: Write + Drop> {
    writer: W,
    faults: u64,
}

impl<W: Write + Drop> OutReal<W> {
    ghost use Rattle.servient_edge.specs.OutReal.{fault_count, writer_of};

    /// An output over this writer.
    pub fn new(writer: W) -> OutReal<W>
        ensures writer { writer_of result ≡ writer }
        ensures faults { fault_count result ≡ 0 }
    {
        OutReal { writer, faults: 0 }
    }
}

/// Writes until the writer has taken all, in a loop of its own, since std says too little of a writer after an error.
/// The content of a writer is recorded of writers in memory alone.
fn write_whole<W: Write>(writer: &mut W, piece: &[u8]) -> Put
    ensures done { result ≡ Put.Done → Appends (W.contents writer.old) (W.contents writer.new) piece.now }
    ensures front { result ≡ Put.Failed
        → (front : List ℕ) × (rest : List ℕ) × (piece.now ≡ front ++ rest)
        × Appends (W.contents writer.old) (W.contents writer.new) front }
{
    let mut rest = piece;
    while !rest.is_empty() {
        match writer.write(rest) {
            Ok(0) => return Put::Failed,
            Ok(count) => rest = &rest[count..],
            Err(_) => return Put::Failed,
        }
    }
    Put::Done
}

impl<W: Write + Drop> Out for OutReal<W> {
    ghost use Rattle.std.specs.Prelude.{◌≡◌, ◌++◌, ℕ, List};
    ghost use Rattle.std.specs.Io.KnownBytes.{Appends};
    ghost use Rattle.servient_base.specs.Count.{one_more};
    ghost use Rattle.servient_outside.specs.Out.{OutShows};
    ghost use Rattle.servient_edge.specs.OutReal.{fault_count, seen_of, writer_of};

    ghost seen = { seen_of };

    /// A write that takes nothing of a piece that isn't empty is a failure, and so is every error, an
    /// interruption too.
    fn put(&mut self, bytes: &[u8]) -> Put
        ensures shows { OutShows (seen_of self.old) (seen_of self.new) result bytes.now }

        // The bytes that reached the writer, where its content is known.
        ensures done { result ≡ Put.Done
            → Appends (W.contents (writer_of self.old)) (W.contents (writer_of self.new)) bytes.now }
        ensures front { result ≡ Put.Failed
            → (front : List ℕ) × (rest : List ℕ) × (bytes.now ≡ front ++ rest)
            × Appends (W.contents (writer_of self.old)) (W.contents (writer_of self.new)) front }
        ensures counted { result ≡ Put.Failed → fault_count self.new ≡ one_more (fault_count self.old) }
        ensures no_fault { result ≡ Put.Done → fault_count self.new ≡ fault_count self.old }
    {
        let put = write_whole(&mut self.writer, bytes);
        if put == Put::Failed {
            self.faults = self.faults.saturating_add(1);
        }
        put
    }
}
