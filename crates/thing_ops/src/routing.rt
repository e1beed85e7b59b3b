//! The routes of paths, by the table of paths.

ghost use Rattle.std.specs.Prelude.{◌≡◌, ◌∷◌, [], length, if◌then◌else◌};
ghost use Rattle.std.specs.Str.{is_utf8};
ghost use Rattle.std.specs.Str.Parse.{digits_value};
ghost use Rattle.thing_ops.specs.Routes.{route_of, entry_id, invocation_id, number_of_id};
ghost use Rattle.thing_ops.specs.Segments.{pieces, AreEnds};

use crate::pieces::piece;
use servient_base::parse_decimal;

// The words of the table.
const WELL_KNOWN: &[u8] = b".well-known";

const WOT: &[u8] = b"wot";

const THINGS: &[u8] = b"things";

const PROPERTIES: &[u8] = b"properties";

const ACTIONS: &[u8] = b"actions";

const EVENTS: &[u8] = b"events";

const OBSERVE: &[u8] = b"observe";

const SUBSCRIBE: &[u8] = b"subscribe";

/// The route of a path, by its form alone. It doesn't say that there is such a Thing, affordance, invocation or entry.
#[derive(Clone, Copy, Debug, PartialEq, Eq, Drop)]
pub enum RouteKind {
    /// `/.well-known/wot`, the description of the first Thing (WoT Discovery, "Well-Known URIs").
    Root,
    /// The description of a Thing.
    Thing,
    /// All properties of a Thing at once.
    All,
    /// A property.
    Property,
    /// The next value of a property.
    Observe,
    /// The next emission of an event.
    Subscribe,
    /// An action.
    Action,
    /// The invocation of an action with this id, which is not 0.
    Invocation(u32),
    /// The last emission of an event.
    Event,
    /// The directory (WoT Discovery, "Things API").
    Things,
    /// An entry of the directory.
    Entry,
    /// None of these.
    Nowhere,
}

/// The route of a path of these pieces. Of two rows of the table that fit, the one that names the first segment counts.
pub(crate) fn route_of_pieces(bytes: &[u8], ends: &[usize]) -> RouteKind
    requires { AreEnds 0 ends.now (length bytes.now) }
    ensures { result ≡ route_of (pieces bytes.now 0 ends.now) }
{
    match ends.len() {
        1 => {
            if piece(bytes, ends, 0) == THINGS {
                RouteKind::Things
            } else {
                RouteKind::Thing
            }
        }
        2 => {
            let first = piece(bytes, ends, 0);
            let second = piece(bytes, ends, 1);
            if first == WELL_KNOWN && second == WOT {
                RouteKind::Root
            } else if first == THINGS && is_entry_id(second) {
                RouteKind::Entry
            } else if second == PROPERTIES {
                RouteKind::All
            } else {
                RouteKind::Nowhere
            }
        }
        3 => {
            let kind = piece(bytes, ends, 1);
            if kind == PROPERTIES {
                RouteKind::Property
            } else if kind == ACTIONS {
                RouteKind::Action
            } else if kind == EVENTS {
                RouteKind::Event
            } else {
                RouteKind::Nowhere
            }
        }
        4 => route_of_four(
            piece(bytes, ends, 0),
            piece(bytes, ends, 1),
            piece(bytes, ends, 2),
            piece(bytes, ends, 3),
        ),
        _ => RouteKind::Nowhere,
    }
}

fn route_of_four(thing: &[u8], kind: &[u8], name: &[u8], last: &[u8]) -> RouteKind
    ensures { result ≡ route_of (thing.now ∷ kind.now ∷ name.now ∷ last.now ∷ []) }
{
    if kind == PROPERTIES && last == OBSERVE {
        RouteKind::Observe
    } else if kind == EVENTS && last == SUBSCRIBE {
        RouteKind::Subscribe
    } else if kind == ACTIONS {
        route_of_invocation(last)
    } else {
        RouteKind::Nowhere
    }
}

/// The route of a path to an invocation whose last segment is this one.
fn route_of_invocation(last: &[u8]) -> RouteKind
    ensures { result ≡ (if invocation_id last.now then RouteKind.Invocation (digits_value 10 last.now) else RouteKind.Nowhere) }
{
    match invocation_number(last) {
        Some(number) => RouteKind::Invocation(number),
        None => RouteKind::Nowhere,
    }
}

/// The segment may be the id of an entry in the directory.
fn is_entry_id(segment: &[u8]) -> bool
    ensures { result ≡ entry_id segment.now }
{
    match segment {
        [] => false,
        _ => is_text(segment),
    }
}

/// The bytes are UTF-8.
fn is_text(bytes: &[u8]) -> bool
    ensures { result ≡ is_utf8 bytes.now }
{
    match str::from_utf8(bytes) {
        Ok(_) => true,
        Err(_) => false,
    }
}

/// The id of an invocation that a segment spells.
fn invocation_number(segment: &[u8]) -> Option<u32>
    ensures { result ≡ number_of_id segment.now }
{
    match str::from_utf8(segment) {
        Ok(text) => number_in(text),
        Err(_) => None,
    }
}

/// The id of an invocation that a text spells.
fn number_in(text: &str) -> Option<u32>
    ensures { result ≡ number_of_id text.now }
{
    match parse_decimal(text, u64::from(u32::MAX)) {
        Some(0) | None => None,
        Some(number) => Some(number as u32),
    }
}
