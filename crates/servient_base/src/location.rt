//! Joining the text of a URL to a base (URL Standard, section 4.4), for hrefs of forms and links and for references
//! between models.

ghost use Rattle.std.specs.Prelude.{◌≡◌, ◌↔◌, Some, None, Ok, IfOk, MatchOption, MatchResult};
ghost use Rattle.std.specs.Option.{option_copied};
ghost use Rattle.url.specs.Parser.{parse_url, IsOutOfRoom};
ghost use Rattle.servient_base.specs.Location.{joined_url, IsRefused};

use crate::NoMemory;
use std::alloc::{AllocError, Global};
use url::{ParseError, Url};

/// The URL of a text: joined to the base where there is one, and else by itself. None where the text can't be joined,
/// or the base is no URL.
pub fn join(alloc: Global, base: Option<&str>, text: &str) -> Result<Option<Url>, NoMemory>
    ensures { IfOk result (λ url. MatchOption url (IsRefused (joined_url (option_copied base.entry) text.now))
        (λ url. joined_url (option_copied base.entry) text.now ≡ Ok url)) }
{
    let Some(base) = base else {
        return parsed(alloc, text);
    };
    match Url::parse(alloc, base) {
        Err(error) => refused(error),
        Ok(base) => join_to(&base, text),
    }
}

/// The URL of a text that is joined to a base. None where the text can't be joined.
pub fn join_to(base: &Url, text: &str) -> Result<Option<Url>, NoMemory>
    ensures { IfOk result (λ url. MatchOption url (IsRefused (parse_url (Some base.now) text.now))
        (λ url. parse_url (Some base.now) text.now ≡ Ok url)) }
{
    match base.join(text) {
        Err(error) => refused(error),
        Ok(url) => Ok(Some(url)),
    }
}

/// The URL of a text by itself.
fn parsed(alloc: Global, text: &str) -> Result<Option<Url>, NoMemory>
    ensures { IfOk result (λ url. MatchOption url (IsRefused (parse_url None text.now)) (λ url. parse_url None text.now ≡ Ok url)) }
{
    match Url::parse(alloc, text) {
        Err(error) => refused(error),
        Ok(url) => Ok(Some(url)),
    }
}

/// Translates a refusal of the URL parser: a text that has no room is out of memory, and any other refusal says that
/// there is no URL.
fn refused(error: ParseError) -> Result<Option<Url>, NoMemory>
    ensures { MatchResult result (λ url. (url ≡ None) × ¬ IsOutOfRoom error) (λ _. IsOutOfRoom error) }
{
    match error {
        ParseError::Overflow | ParseError::OutOfMemory => Err(AllocError),
        _ => Ok(None),
    }
}
