//! A flag among the words of a command, as `--endless` and `--log` of `serve`. It takes no value, which `clap` is never asked about: the
//! word is found and taken out here, and `clap` reads the others.

ghost use Rattle.std.specs.Prelude.{◌≡◌, ◌++◌, ◌+◌, ◌<◌, false, length, take, drop, Some, None, IfOk, MatchResult};
ghost use Rattle.command_words.specs.Words.{arguments_after, word_kind};
ghost use Rattle.command_words.specs.declared.fault.WordsFault.TheVariants.{Usage};
ghost use Rattle.std.specs.Prelude.{if◌then◌else◌};
ghost use Rattle.std.specs.Str.{bytes_eq};
ghost use Rattle.command_words.specs.Flags.{arguments_around, awaits_value as awaits, flag_place, is_open, is_open_but, words_without as without, IsFlagPlace};
ghost use Rattle.command_words.specs.Line.{AreTexts};
ghost use Rattle.command_words.specs.Parts.{texts};

use crate::fault::WordsFault;
use servient_base::NoMemory;
use std::alloc::Global;

/// The place of the first word that is this flag, where the options haven't ended before it.
pub fn place_of_flag(words: &[&str], flag: &str) -> Option<usize>
    ensures { result ≡ flag_place flag.now (texts words.now) }
{
    for (index, word) in words.iter().enumerate() {
        if *word == flag {
            return Some(index);
        }
        if *word == "--" {
            return None;
        }
    }
    None
}

/// The other words than that at the place of a flag. They are refused where the option before it would have its value
/// behind it.
pub fn words_around<'a>(
    alloc: Global,
    words: &[&'a str],
    place: usize,
) -> Result<Vec<&'a str>, WordsFault>
    requires text { AreTexts (texts words.now) }
    requires place { IsFlagPlace (texts words.now) place }
    ensures text { IfOk result (λ rest. AreTexts (texts rest.items)) }
    ensures arguments { MatchResult result
        (λ rest. arguments_after (texts rest.items) None ≡ arguments_around (take place (texts words.now)) (drop (place + 1) (texts words.now)))
        (λ fault. fault ≡ Usage → arguments_around (take place (texts words.now)) (drop (place + 1) (texts words.now)) ≡ None) }
{
    if is_open_at(words, place) {
        return Err(WordsFault::Usage);
    }
    Ok(words_but(alloc, words, place)?)
}

/// The other words than that at the place of a flag, as they are. They are refused where an option before it would have
/// its value behind it; `other` is a flag that may stand before it, too.
pub fn words_without<'a>(
    alloc: Global,
    words: &[&'a str],
    place: usize,
    other: &str,
) -> Result<Vec<&'a str>, WordsFault>
    requires text { AreTexts (texts words.now) }
    requires place { IsFlagPlace (texts words.now) place }
    ensures text { IfOk result (λ rest. AreTexts (texts rest.items)) }
    ensures words { MatchResult result
        (λ rest. without other.now (texts words.now) place ≡ Some (texts rest.items))
        (λ fault. fault ≡ Usage → without other.now (texts words.now) place ≡ None) }
{
    if is_open_before(words, place, other) {
        return Err(WordsFault::Usage);
    }
    Ok(words_but(alloc, words, place)?)
}

/// An option before this place awaits its value, where this flag awaits none.
fn is_open_before(words: &[&str], place: usize, other: &str) -> bool
    requires { place < length words.now }
    ensures { result ≡ is_open_but other.now false (take place (texts words.now)) }
{
    let (before, _) = words.split_at(place);
    is_open_after(before, other)
}

/// The same after some words.
fn is_open_after(words: &[&str], other: &str) -> bool
    ensures { result ≡ is_open_but other.now false (texts words.now) }
{
    let mut open = false;
    for word in words {
        open = opens(open, word, other);
    }
    open
}

/// An option awaits its value after this word, where one did or didn't before it.
fn opens(before: bool, word: &str, other: &str) -> bool
    ensures { result ≡ (if bytes_eq word.now other.now then before else awaits (word_kind word.now)) }
{
    if word == other {
        return before;
    }
    awaits_value(word)
}

/// The word before this place is an option that awaits its value.
fn is_open_at(words: &[&str], place: usize) -> bool
    requires { place < length words.now }
    ensures { result ≡ is_open false (take place (texts words.now)) }
{
    place > 0 && awaits_value(words[place - 1])
}

/// All words but that at this place.
fn words_but<'a>(alloc: Global, words: &[&'a str], place: usize) -> Result<Vec<&'a str>, NoMemory>
    requires { place < length words.now }
    ensures { IfOk result (λ rest. texts rest.items ≡ take place (texts words.now) ++ drop (place + 1) (texts words.now)) }
{
    let mut rest = Vec::new(alloc);
    rest.extend_from_slice(&words[..place])?;
    rest.extend_from_slice(&words[place + 1..])?;
    Ok(rest)
}

/// The word is an option without a value, which the next word gives it.
#[tactic(auto, using(crate::proofs::FlagLaws::awaits_as))]
fn awaits_value(word: &str) -> bool
    ensures { result ≡ awaits (word_kind word.now) }
{
    let bytes = word.as_bytes();
    bytes.len() > 2 && bytes.starts_with(b"--") && !bytes.contains(&b'=')
}
