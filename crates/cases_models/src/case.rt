//! The lines of a case:
//!
//! ```text
//! # TEXT                              says what the case is
//! start TEXT                          what `..` stands for, where a model begins with it
//! model URL TEXT                      puts a model into the library
//! bind NAME TEXT                      binds a placeholder to a JSON value
//! frame SEGMENT ID HTTP COAP INSTANCE where Things are derived to; `-` for no instance
//! each A..B LINE                      the line for each number from A on and below B: `$` stands in it for the number, `%` for the next one
//! substitute TEXT => JSON or fault    the JSON text with the bound values in place of its placeholders
//! hole TEXT => NAME at POINTER        the first placeholder of a JSON text, or none
//! get URL => kept                     whether the library has a model under this URL, or none
//! source URL => JSON or fault         the model of the library with the bound values
//! location URL => URL                 where the library says that it is
//! join URL TEXT => URL                a text that is joined to that, or no URL
//! target URL TEXT => URL at POINTER   where a text leads from a URL
//! links extends|submodel URL => ..    index, target and instance name of each link that counts
//! optional URL => JSON                what is optional in a model, or -
//! resolve URL => JSON or fault        the value of a model
//! derive URL CHOICES => SEGMENTS      the Things of a model, or the fault; a choice is SEGMENT:POINTER
//! describe N POINTER URL CHOICES => JSON   what is at a pointer (`-` for the whole) of the description of the Nth of these, from 0
//! display NAME => TEXT                how the fault of this name is displayed that is out of memory
//! ```

use crate::{derivations, parts, resolving};
use cases_notation::{expanded, numbered, size_of};
use std::alloc::{AllocError, Global};
use std::fmt::Write;
use std::str;
use tm_derive::Frame;
use tm_parts::{Bindings, Library};
use wot_forms::Bases;
use wot_json::{Text, Tree, read, text_of};

/// The models, the values and the frame of a case.
#[derive(Drop)]
pub struct Case {
    pub alloc: Global,
    pub library: Library,
    pub bindings: Bindings,
    pub frame: Option<Frame>,
    start: String,
}

/// Writes the text of a JSON value.
pub fn put_tree(said: &mut String, alloc: Global, tree: &Tree) -> Result<(), AllocError> {
    let bytes = text_of(alloc, tree)?;
    said.push_str(str::from_utf8(bytes.as_slice()).unwrap_or("no text"))
}

/// The words of a line up to a blank, and what is after it.
pub fn word_of(text: &str) -> (&str, &str) {
    text.split_once(' ').unwrap_or((text, ""))
}

impl Case {
    pub fn new(alloc: Global) -> Case {
        Case {
            alloc,
            library: Library::new(alloc),
            bindings: Bindings::new(alloc),
            frame: None,
            start: String::new(alloc),
        }
    }

    /// Puts a model into the library.
    fn add(&mut self, said: &mut String, url: &str, text: &str) -> Result<(), AllocError> {
        match read(self.alloc, text.as_bytes()) {
            Err(fault) => write!(said, "{fault}"),
            Ok(model) => match self.library.add(url, model) {
                Ok(()) => said.push_str("added"),
                Err(fault) => write!(said, "{fault}"),
            },
        }
    }

    /// The same of a model whose beginning may be what others begin with too.
    fn add_started(&mut self, said: &mut String, url: &str, text: &str) -> Result<(), AllocError> {
        match text.strip_prefix("..") {
            Some(rest) => {
                let start = self.start.as_str();
                let whole = format!(in self.alloc; "{start}{rest}")?;
                self.add(said, url, whole.as_str())
            }
            None => self.add(said, url, text),
        }
    }

    /// Binds a placeholder.
    fn bind(&mut self, said: &mut String, name: &str, text: &str) -> Result<(), AllocError> {
        match read(self.alloc, text.as_bytes()) {
            Err(fault) => write!(said, "{fault}"),
            Ok(value) => self.bindings.push(Text::copy_of(self.alloc, name)?, value),
        }
    }

    /// Sets the text with which the models begin from here on.
    fn start(&mut self, text: &str) -> Result<(), AllocError> {
        self.start.clear();
        self.start.push_str(text)
    }

    /// The frame from here on.
    fn set_frame(&mut self, text: &str) -> Result<(), AllocError> {
        self.frame = Some(frame_of(self.alloc, text)?);
        Ok(())
    }

    /// Takes a line whose repeats are written out.
    fn take_expanded(&mut self, said: &mut String, line: &str) -> Result<(), AllocError> {
        let (word, rest) = word_of(line);
        let (first, second) = word_of(rest);
        match word {
            "#" | "" => Ok(()),
            "start" => self.start(rest),
            "model" => self.add_started(said, first, second),
            "bind" => self.bind(said, first, second),
            "frame" => self.set_frame(rest),
            "derive" | "describe" => derivations::put(said, self, word, rest),
            "links" | "optional" | "resolve" => resolving::put(said, self, word, rest),
            _ => parts::put(said, self, word, rest),
        }
    }

    /// Takes a line in which `%` stands for a number.
    fn take_next(&mut self, said: &mut String, line: &str, next: usize) -> Result<(), AllocError> {
        let line = numbered(self.alloc, line, '%', next)?;
        said.clear();
        self.take_expanded(said, line.as_str())
    }

    /// Takes a line in which `$` stands for a number, and `%` for the next one.
    fn take_numbered(
        &mut self,
        said: &mut String,
        line: &str,
        number: usize,
    ) -> Result<(), AllocError> {
        let line = numbered(self.alloc, line, '$', number)?;
        self.take_next(said, line.as_str(), number.saturating_add(1))
    }

    /// Takes a line for each number of a range.
    fn take_each(&mut self, said: &mut String, range: &str, line: &str) -> Result<(), AllocError> {
        let (from, to) = range.split_once("..").unwrap_or(("0", range));
        for number in size_of(from)..size_of(to) {
            self.take_numbered(said, line, number)?;
        }
        Ok(())
    }

    /// Takes a line: what it makes, or what comes of it, is said after `said`.
    pub fn take(&mut self, said: &mut String, line: &str) -> Result<(), AllocError> {
        let line = expanded(self.alloc, line)?;
        match line.as_str().strip_prefix("each ") {
            Some(rest) => {
                let (range, repeated) = word_of(rest);
                self.take_each(said, range, repeated)
            }
            None => self.take_expanded(said, line.as_str()),
        }
    }
}

/// The bases of two URLs.
fn bases_of(alloc: Global, http: &str, coap: &str) -> Result<Bases, AllocError> {
    Ok(Bases {
        http: Text::copy_of(alloc, http)?,
        coap: Text::copy_of(alloc, coap)?,
    })
}

/// The instance of a word.
fn instance_of(alloc: Global, word: &str) -> Result<Option<Text>, AllocError> {
    match word {
        "-" => Ok(None),
        _ => Ok(Some(Text::copy_of(alloc, word)?)),
    }
}

/// The frame of five words.
fn frame_of(alloc: Global, text: &str) -> Result<Frame, AllocError> {
    let (segment, rest) = word_of(text);
    let (id, rest) = word_of(rest);
    let (http, rest) = word_of(rest);
    let (coap, instance) = word_of(rest);
    Ok(Frame {
        segment: Text::copy_of(alloc, segment)?,
        id: Text::copy_of(alloc, id)?,
        bases: bases_of(alloc, http, coap)?,
        instance: instance_of(alloc, instance)?,
    })
}
