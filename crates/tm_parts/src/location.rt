//! The location of a model: the text of its URL, parsed once for all that is joined to it.

ghost use Rattle.std.specs.Prelude.{◌≡◌, ◌⊎◌, Some, None, Ok, IfOk, IfErr, MatchOption};
ghost use Rattle.servient_base.specs.Location.{joined_url, IsRefused};
ghost use Rattle.tm_parts.specs.References.{location_target, reference_target, IsLostLocation, LeadsNowhere};

use crate::reference::{RefFault, Reference, written_pointer};
use servient_base::{NoMemory, join, join_to};
use std::alloc::Global;
use std::marker::Model;
use url::Url;
use wot_json::Text;

/// The text of a URL. Contracts see its bytes.
#[derive(Drop)]
pub struct Location {
    text: Text,
    base: Option<Url>,
}

impl Model for Location {
    ghost use Rattle.std.specs.Prelude.{◌≡◌, List, ℕ, None, Ok, MatchOption};
    ghost use Rattle.url.specs.Parser.{parse_url};
    ghost use Rattle.servient_base.specs.Location.{IsRefused};

    ghost Value = { List ℕ };

    ghost view = { λ l. l.text };

    ghost invariant = { λ l. MatchOption l.base (IsRefused (parse_url None l.text)) (λ base. parse_url None l.text ≡ Ok base) };
}

impl Location {
    /// The location of a text, which is parsed; a text that is no URL is a location to which nothing can be joined.
    pub fn new(alloc: Global, text: &str) -> Result<Self, NoMemory>
        ensures { IfOk result (λ l. l ≡ text.now) }
    {
        let base = join(alloc, None, text)?;
        let text = Text::copy_of(alloc, text)?;
        Ok(Location { text, base })
    }

    /// The text of the URL, as it was handed in.
    pub fn as_str(&self) -> &str
        ensures { result.now ≡ self.now }
    {
        self.text.as_str()
    }

    /// The URL of a text that is joined to this one. None where it can't be joined, or this one is no URL.
    pub fn join(&self, text: &str) -> Result<Option<Url>, NoMemory>
        ensures { IfOk result (λ url. MatchOption url (IsRefused (joined_url (Some self.now) text.now))
            (λ url. joined_url (Some self.now) text.now ≡ Ok url)) }
    {
        match &self.base {
            None => Ok(None),
            Some(base) => join_to(base, text),
        }
    }

    /// The target of a reference in the model at this location: `target` of its URL.
    pub fn target(&self, alloc: Global, text: &str) -> Result<Reference, RefFault>
        ensures ok { IfOk result (λ r. reference_target self.now text.now ≡ Some r) }
        ensures fault { IfErr result (λ e. (e ≡ RefFault.NoMemory) ⊎ (reference_target self.now text.now ≡ None)) }
        ensures refused { IfErr result (λ e. e ≡ RefFault.BadRef → LeadsNowhere self.now text.now) }
    {
        match text.split_once('#') {
            None => Err(RefFault::BadRef),
            Some((location, fragment)) => {
                let pointer = written_pointer(alloc, fragment)?;
                let url = self.url_of(alloc, location)?;
                Ok(Reference { url, pointer })
            }
        }
    }

    /// The text of the URL that the location of a reference leads to.
    fn url_of(&self, alloc: Global, location: &str) -> Result<Text, RefFault>
        ensures ok { IfOk result (λ u. location_target self.now location.now ≡ Some u) }
        ensures fault { IfErr result (λ e. (e ≡ RefFault.NoMemory) ⊎ (location_target self.now location.now ≡ None)) }
        ensures refused { IfErr result (λ e. e ≡ RefFault.BadRef → IsLostLocation self.now location.now) }
    {
        if location.is_empty() {
            return Ok(Text::copy_of(alloc, self.as_str())?);
        }
        match self.join(location)? {
            None => Err(RefFault::BadRef),
            Some(url) => Ok(Text::copy_of(alloc, url.as_str())?),
        }
    }
}
