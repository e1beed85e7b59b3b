//! The URLs that forms and links name.

ghost use Rattle.std.specs.Prelude.{◌≡◌, ◌⊎◌, Ok, IfOk, IfErr};
ghost use Rattle.std.specs.Option.{option_copied};
ghost use Rattle.url.specs.Parts.{Parts, serialize};
ghost use Rattle.servient_base.specs.Location.{IsRefused, joined_url};

use servient_base::join;
use std::alloc::{AllocError, Global};
use thiserror::Error;
use wot_json::Text;

/// The reason for which an `href` names no URL.
#[derive(Debug, Drop, Error)]
pub enum HrefFault {
    /// The base is no URL, or the `href` can't be joined to it, or is no URL of its own where there is no base.
    #[error("the href names no URL")]
    BadHref,
    /// Out of memory.
    #[error("out of memory")]
    NoMemory,
}

impl From<AllocError> for HrefFault {
    ghost use Rattle.std.specs.Prelude.{◌≡◌};
    ghost use Rattle.wot_forms.specs.declared.href.HrefFault.TheVariants.{NoMemory};

    ghost from_gives = { λ _ fault. fault ≡ NoMemory };

    fn from(_error: AllocError) -> HrefFault {
        HrefFault::NoMemory
    }
}

/// The URL that an `href` names, as the URL Standard writes it: joined to the base where there is one, and else by
/// itself (TD 1.1, section 5.3.4.2; URL Standard, section 4.4).
pub fn resolve(alloc: Global, base: Option<&str>, href: &str) -> Result<Text, HrefFault>
    ensures ok { IfOk result (λ text. (url : Parts)
        × (joined_url (option_copied base.entry) href.now ≡ Ok url) × (text ≡ serialize url)) }
    ensures fault { IfErr result (λ fault. (fault ≡ HrefFault.NoMemory)
        ⊎ IsRefused (joined_url (option_copied base.entry) href.now)) }
{
    match join(alloc, base, href)? {
        Some(url) => Ok(Text::copy_of(alloc, url.as_str())?),
        None => Err(HrefFault::BadHref),
    }
}
