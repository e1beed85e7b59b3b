//! The files: the answer of a read, and the view of them in contracts.

ghost use Rattle.std.specs.Prelude.{◌≡◌, [], ◌∷◌, ◌++◌, OnErr, OnOk};

use servient_base::NoMemory;
use std::alloc::Global;
use std::marker::Model;
use wot_json::{Bytes, Text};

/// The answer of `Files::read`.
#[derive(Clone, Copy, Debug, PartialEq, Eq)]
pub enum Got {
    /// The whole file was read.
    Whole,
    /// There is no file of this name.
    Absent,
    /// The file is longer than the limit.
    TooLong,
    /// The file couldn't be opened or read.
    Failed,
    NoMemory,
}

/// A file in memory.
#[derive(Debug, Drop)]
pub struct HeldFile {
    pub name: Text,
    pub bytes: Bytes,
}

/// A call of `Files::read`.
#[derive(Debug, Drop)]
pub struct FileRead {
    pub name: Text,
    /// The most bytes that it may have.
    pub limit: usize,
}

/// Files in memory. Of two files of one name the first counts.
#[derive(Drop)]
pub struct Held {
    files: Vec<HeldFile>,
}

impl Model for Held {
    ghost use Rattle.std.specs.Prelude.{List};
    ghost use Rattle.servient_outside.specs.declared.files.HeldFile.{HeldFile};

    ghost Value = { List HeldFile };

    ghost view = { λ h. h.files.items };
}

impl Held {
    ghost use Rattle.std.specs.Prelude.{option_copied};
    ghost use Rattle.servient_outside.specs.Files.{content_of};

    /// No files.
    pub fn new(alloc: Global) -> Self
        ensures { result ≡ [] }
    {
        Held {
            files: Vec::new(alloc),
        }
    }

    /// The vector that holds these files.
    pub fn into_vec(self) -> Vec<HeldFile>
        ensures { result.items ≡ self }
    {
        let Held { files } = self;
        files
    }

    /// Puts a file after the others.
    pub fn push(&mut self, file: HeldFile) -> Result<(), NoMemory>
        ensures ok { OnOk result (self.new ≡ self.old ++ file ∷ []) }
        ensures unchanged { OnErr result (self.new ≡ self.old) }
    {
        self.files.push(file)?;
        Ok(())
    }

    /// The content of the first file of this name.
    pub(crate) fn content(&self, name: &str) -> Option<&[u8]>
        ensures { option_copied result ≡ content_of self.now name.now }
    {
        for file in &self.files {
            if file.name.as_str() == name {
                return Some(file.bytes.as_slice());
            }
        }
        None
    }
}

/// The files that a run may read.
pub trait Files {
    ghost use Rattle.servient_outside.specs.Files.{AnswersRead, FilesSeen, FilesShow};

    /// The view of them: the content of each file, the reads so far, and the number of those that failed. A read for
    /// which there was no memory isn't among them.
    ghost seen: { Self → FilesSeen };

    /// Reads a whole file of at most `limit` bytes. After any answer but `Whole` the content of `into` is open, and
    /// `NoMemory` may come at any call.
    fn read(&mut self, alloc: Global, name: &str, limit: usize, into: &mut Bytes) -> Got
        ensures answer { AnswersRead (seen self.old).held name.now limit result into.new }
        ensures shows { FilesShow (seen self.old) (seen self.new) name.now limit result };
}
