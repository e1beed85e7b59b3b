//! The files of the machine. Neither their content is recorded nor the reads that were made.

ghost use Rattle.std.specs.Prelude.{◌≡◌, ◌≢◌, ◌≤◌, ◌<◌, ◌+◌, ◌++◌, ◌↔◌, ◌⊎◌, [], length, IfErr, IfOk, IfSome, IsErrAnd, OnOk};
ghost use Rattle.std.specs.IoError.{error_kind};

use servient_outside::{Files, Got};
use std::alloc::Global;
use std::io::{ErrorKind, Read};
use std::{fs, io, rt};
use wot_json::Bytes;

const BUFFER_BYTES: usize = 4096;

/// The files of the machine. It counts failures.
#[derive(Drop)]
pub struct FilesReal<R: rt::Files + Drop> {
    rt: R,
    faults: u64,
}

impl<R: rt::Files + Drop> FilesReal<R> {
    ghost use Rattle.servient_edge.specs.FilesReal.{fault_count};

    /// The files that this runtime has.
    pub fn new(rt: R) -> FilesReal<R>
        ensures { fault_count result ≡ 0 }
    {
        FilesReal { rt, faults: 0 }
    }
}

/// Reads to the end, where a read gives no byte, but not past the limit, in a loop of its own, since std says too
/// little of a reader after an error. The rest of a reader is recorded of readers in memory alone.
fn read_whole<F: Read>(alloc: Global, file: &mut F, limit: usize, into: &mut Bytes) -> Got
    ensures present { result ≢ Got.Absent }
    ensures within_limit { result ≡ Got.Whole → length into.new ≤ limit }
    ensures whole { result ≡ Got.Whole → IfSome (F.remaining file.old) (λ all. into.new ≡ all) }
    ensures too_long { result ≡ Got.TooLong → IfSome (F.remaining file.old) (λ all. limit < length all) }
{
    let mut bytes = Bytes::new(alloc);
    let got = read_pieces(file, limit, &mut bytes);
    if got == Got::Whole {
        *into = bytes;
    }
    got
}

/// Reads piece after piece to the end, but not past the limit.
fn read_pieces<F: Read>(file: &mut F, limit: usize, bytes: &mut Bytes) -> Got
    requires { bytes.old ≡ [] }
    ensures present { result ≢ Got.Absent }
    ensures within_limit { result ≡ Got.Whole → length bytes.new ≤ limit }
    ensures whole { result ≡ Got.Whole → IfSome (F.remaining file.old) (λ all. bytes.new ≡ all) }
    ensures too_long { result ≡ Got.TooLong → IfSome (F.remaining file.old) (λ all. limit < length all) }
{
    let mut buffer = [0; BUFFER_BYTES];
    for _ in 0..u64::MAX {
        match file.read(&mut buffer) {
            Ok(0) => return Got::Whole,
            Ok(count) => match push_piece(bytes, &buffer[..count], limit) {
                Ok(()) => {}
                Err(got) => return got,
            },
            Err(_) => return Got::Failed,
        }
    }
    Got::Failed
}

/// Puts a piece after the bytes that were read before, where all of them are within the limit.
fn push_piece(bytes: &mut Bytes, piece: &[u8], limit: usize) -> Result<(), Got>
    requires { length bytes.old ≤ limit }
    ensures ok { OnOk result (bytes.new ≡ bytes.old ++ piece.now) }
    ensures within { OnOk result (length bytes.new ≤ limit) }
    ensures fault { IfErr result (λ got. (got ≡ Got.NoMemory) ⊎ ((got ≡ Got.TooLong) × (limit < length bytes.old + length piece.now))) }
{
    if piece.len() > limit - bytes.len() {
        return Err(Got::TooLong);
    }
    match bytes.extend(piece) {
        Ok(()) => Ok(()),
        Err(_) => Err(Got::NoMemory),
    }
}

/// Reads a file that was to be opened. Every error but that there is no such file is a failure.
fn read_opened<F: Read + Drop>(
    alloc: Global,
    opened: io::Result<F>,
    limit: usize,
    into: &mut Bytes,
) -> Got
    ensures absent { (result ≡ Got.Absent) ↔ IsErrAnd opened (λ e. error_kind e ≡ ErrorKind.NotFound) }
    ensures within_limit { result ≡ Got.Whole → length into.new ≤ limit }
    ensures whole { result ≡ Got.Whole
        → IfOk opened (λ file. IfSome (F.remaining file) (λ all. into.new ≡ all)) }
    ensures too_long { result ≡ Got.TooLong
        → IfOk opened (λ file. IfSome (F.remaining file) (λ all. limit < length all)) }
{
    match opened {
        Ok(mut file) => read_whole(alloc, &mut file, limit, into),
        Err(error) => {
            if error.kind() == ErrorKind::NotFound {
                Got::Absent
            } else {
                Got::Failed
            }
        }
    }
}

impl<R: rt::Files + Drop> Files for FilesReal<R> {
    ghost use Rattle.std.specs.Prelude.{◌≡◌, ◌≢◌};
    ghost use Rattle.servient_base.specs.Count.{one_more};
    ghost use Rattle.servient_outside.specs.Files.{AnswersRead, FilesShow};
    ghost use Rattle.servient_edge.specs.FilesReal.{fault_count, seen_of};

    ghost seen = { seen_of };

    /// An interruption counts as a failure, as every error does but that there is no such file.
    fn read(&mut self, alloc: Global, name: &str, limit: usize, into: &mut Bytes) -> Got
        ensures answer { AnswersRead (seen_of self.old).held name.now limit result into.new }
        ensures shows { FilesShow (seen_of self.old) (seen_of self.new) name.now limit result }

        // The failures that are counted.
        ensures counted { result ≡ Got.Failed → fault_count self.new ≡ one_more (fault_count self.old) }
        ensures no_fault { result ≢ Got.Failed → fault_count self.new ≡ fault_count self.old }
    {
        let got = read_opened(alloc, fs::open(&self.rt, name), limit, into);
        if got == Got::Failed {
            self.faults = self.faults.saturating_add(1);
        }
        got
    }
}
