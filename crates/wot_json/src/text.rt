//! A text in UTF-8.

ghost use Rattle.std.specs.Prelude.{◌≡◌, List, ℕ, IfOk};
ghost use Rattle.std.specs.String.{string_bytes};

use servient_base::NoMemory;
use std::alloc::Global;
use std::fmt;
use std::marker::Model;

/// A text. Contracts see the list of its UTF-8 bytes.
#[derive(Debug, Drop)]
pub struct Text {
    text: String,
}

impl Model for Text {
    ghost Value = { List ℕ };

    ghost view = { λ t. string_bytes t.text };
}

impl Text {
    /// The text of a string, which is taken over as it is.
    pub fn from_string(text: String) -> Self
        ensures { result ≡ string_bytes text }
    {
        Text { text }
    }

    /// The string that holds this text.
    pub fn into_string(self) -> String
        ensures { string_bytes result ≡ self }
    {
        let Text { text } = self;
        text
    }

    /// A copy of this text.
    pub fn copy_of(alloc: Global, text: &str) -> Result<Self, NoMemory>
        ensures { IfOk result (λ t. t ≡ text.now) }
    {
        let text = String::from_str(alloc, text)?;
        Ok(Text { text })
    }

    /// The text as a `str`.
    pub fn as_str(&self) -> &str
        ensures { result.now ≡ self.now }
    {
        self.text.as_str()
    }
}

impl fmt::Display for Text {
    ghost use Rattle.std.specs.Fmt.{styled_text};
    ghost use Rattle.std.specs.declared.option.Option.TheVariants.{Some};

    ghost output = { λ t. Some t };

    ghost styled_output = { λ t s. Some (styled_text s t) };

    fn fmt<W: fmt::Write>(&self, f: &mut fmt::Formatter<W>) -> fmt::Result {
        f.pad(self.as_str())
    }
}
