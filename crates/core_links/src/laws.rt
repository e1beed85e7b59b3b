//! Laws of links and their texts, as contracts of functions that no code needs to call.

ghost use Rattle.std.specs.Prelude.{◌≡◌, ◌≢◌, ℕ, List, Ok, Err, Result};
ghost use Rattle.core_links.specs.Links.{IsLinkText, ReadsLinks};
ghost use Rattle.core_links.specs.Writing.{CanBeWritten, links_text};
ghost use Rattle.core_links.specs.declared.links.Link.{Link};
ghost use Rattle.core_links.specs.declared.reading.LinkFault.{LinkFault};
ghost use Rattle.core_links.specs.declared.reading.LinkFault.TheVariants.{NoMemory};

/// The text of links is a link text, of those links and no others: so what `write` wrote is read by `read` as what it
/// was, or `read` is out of memory.
pub fn links_are_read_back()
    ensures is_text { (links : List Link) → CanBeWritten links → IsLinkText (links_text links) links }
    ensures of_one { (bytes : List ℕ) → (links others : List Link) → IsLinkText bytes links → IsLinkText bytes others → links ≡ others }
    ensures back { (links : List Link) → (r : Result (List Link) LinkFault) → CanBeWritten links → ReadsLinks (links_text links) r → r ≢ Err NoMemory → r ≡ Ok links }
{}
