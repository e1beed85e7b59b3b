//! The value at a place of a tree: JSON Pointer (RFC 6901).
//!
//! `serde_json` has such a look-up too, but takes `~2` as plain text. This one compares a name with a token as it is
//! written, so it takes no memory.

ghost use Rattle.std.specs.Prelude.{◌≡◌, ◌∷◌, [], ◌++◌, List, ℕ, ◌↔◌, option_map, IsTrue, IfOk, IfErr, IfSome, MatchOption, None, ◌<◌, length};
ghost use Rattle.std.specs.Cmp.Lexicographic.{slice_cmp};
ghost use Rattle.std.specs.Ordering.{nat_cmp};
ghost use Rattle.wot_json.specs.Lookup.{member_named};
ghost use Rattle.wot_json.specs.Meaning.{json_of};
ghost use Rattle.wot_json.specs.Places.{token_text, place_text};
ghost use Rattle.wot_json.specs.Pointer.{IsPointer, escapes, element_at, part_at, value_at, part_of};

use crate::{Items, Members, Text, Tree};
use servient_base::parse_decimal;
use std::cmp::Ordering;
use thiserror::Error;

/// The text is no JSON Pointer: it isn't empty and doesn't begin with `/`, or neither `0` nor `1` comes after a `~`
/// (RFC 6901, section 3).
#[derive(Debug, Drop, Error)]
#[error("no JSON pointer")]
pub struct BadPointer;

/// The value at a place, if there is one. The whole text is judged before anything is looked up.
///
/// An index of a list is decimal digits with no zero before others; `-` and an index past the end lead nowhere
/// (RFC 6901, section 4). It takes no memory. The name of a member is found by binary search, so the time is in
/// proportion to the length of the text, times the logarithm of the number of members on the way.
pub fn pointer<'a>(tree: &'a Tree, at: &str) -> Result<Option<&'a Tree>, BadPointer>
    ensures ok { IfOk result (λ part. IsPointer at.now
        × (option_map (λ t. json_of t.now) part ≡ part_of at.now (json_of tree.now))) }
    ensures fault { IfErr result (λ _. ¬ IsPointer at.now) }
{
    if at.is_empty() {
        return Ok(Some(tree));
    }
    let Some(tokens) = at.strip_prefix('/') else {
        return Err(BadPointer);
    };
    if !is_escaped(tokens.as_bytes()) {
        return Err(BadPointer);
    }
    Ok(value_at_tokens(tree, tokens))
}

/// After each `~` comes a `0` or a `1`.
fn is_escaped(text: &[u8]) -> bool
    ensures { result ≡ escapes text.now }
{
    for (place, byte) in text.iter().enumerate() {
        if *byte == b'~' && !matches!(text.get(place + 1), Some(b'0' | b'1')) {
            return false;
        }
    }
    true
}

/// The value where one token or more lead, with a `/` between them.
fn value_at_tokens<'a>(tree: &'a Tree, tokens: &str) -> Option<&'a Tree>
    ensures { (token : List ℕ) → (further : List (List ℕ)) → tokens.now ≡ token_text token ++ place_text further
        → option_map (λ t. json_of t.now) result ≡ value_at (token ∷ further) (json_of tree.now) }
{
    let (token, further) = first_token(tokens);
    let part = part_at(tree, token)?;
    match further {
        None => Some(part),
        Some(further) => value_at_tokens(part, further),
    }
}

/// The first token, and the others if there are any.
fn first_token(tokens: &str) -> (&str, Option<&str>)
    ensures cut { (token : List ℕ) → (further : List (List ℕ)) → tokens.now ≡ token_text token ++ place_text further
        → (result.0.now ≡ token_text token) × MatchOption result.1 (further ≡ [])
        (λ rest. (next : List ℕ) × (more : List (List ℕ)) × (further ≡ next ∷ more) × (rest.now ≡ token_text next ++ place_text more)) }
    ensures shorter { IfSome result.1 (λ rest. length rest.now < length tokens.now) }
{
    match tokens.split_once('/') {
        None => (tokens, None),
        Some((token, further)) => (token, Some(further)),
    }
}

/// The part of a value that a token names.
fn part_at<'a>(tree: &'a Tree, token: &str) -> Option<&'a Tree>
    ensures { (name : List ℕ) → token.now ≡ token_text name
        → option_map (λ t. json_of t.now) result ≡ part_at name (json_of tree.now) }
{
    match tree {
        Tree::Null | Tree::Bool(_) | Tree::Int(_) | Tree::Text(_) => None,
        Tree::List(items) => element(items, token),
        Tree::Obj(members) => member(members, token),
    }
}

/// The element whose index a token writes.
fn element<'a>(items: &'a Items, token: &str) -> Option<&'a Tree>
    ensures { (name : List ℕ) → token.now ≡ token_text name
        → option_map (λ t. json_of t.now) result ≡ element_at name 0 items.now }
{
    let list = items.as_slice();
    match parse_decimal(token, u64::MAX) {
        Some(index) => list.get(index as usize),
        None => None,
    }
}

/// The value of the member whose name a token writes.
fn member<'a>(members: &'a Members, token: &str) -> Option<&'a Tree>
    ensures { (name : List ℕ) → token.now ≡ token_text name
        → option_map (λ t. json_of t.now) result ≡ member_named name members.now }
{
    let order = |member: &(Text, Tree)| -> Ordering
        ensures { (name : List ℕ) → token.entry.now ≡ token_text name → result ≡ slice_cmp nat_cmp member.now.0 name }
    { compare(member.0.as_str().as_bytes(), token.as_bytes()) };
    match members.list.binary_search_by(order) {
        Ok(place) => Some(&members.list[place].1),
        Err(_) => None,
    }
}

/// Compares a name to the one that a token writes.
fn compare(name: &[u8], token: &[u8]) -> Ordering
    ensures { (other : List ℕ) → token.now ≡ token_text other → result ≡ slice_cmp nat_cmp name.now other }
{
    let mut rest = token;
    for byte in name {
        match first_byte(rest) {
            None => return Ordering::Greater,
            Some((first, after)) => match byte.cmp(&first) {
                Ordering::Equal => rest = after,
                order => return order,
            },
        }
    }
    if rest.is_empty() {
        Ordering::Equal
    } else {
        Ordering::Less
    }
}

/// The first byte of the name that a token writes, and what is written after it.
fn first_byte(token: &[u8]) -> Option<(u8, &[u8])>
    ensures { (name : List ℕ) → token.now ≡ token_text name
        → MatchOption result (name ≡ []) (λ x. (after : List ℕ) × (name ≡ x.0 ∷ after) × (x.1.now ≡ token_text after)) }
{
    let (first, after) = token.split_first()?;
    if *first != b'~' {
        return Some((*first, after));
    }
    match after.split_first() {
        Some((b'0', after)) => Some((b'~', after)),
        Some((_, after)) => Some((b'/', after)),
        None => None,
    }
}
