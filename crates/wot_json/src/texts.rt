//! One text or several: a value that is a text, or a list that has it.

ghost use Rattle.std.specs.Prelude.{◌≡◌};
ghost use Rattle.std.specs.List.{list_any};
ghost use Rattle.wot_json.specs.Meaning.{json_of, json_items};
ghost use Rattle.wot_json.specs.Texts.{is_text_of, has_text as has_text_in};

use crate::Tree;

/// The value is this text, or a list that has it. So the types and the contexts of JSON-LD are written: one by itself,
/// or several in a list (JSON-LD 1.1, section 3).
pub fn has_text(value: &Tree, text: &str) -> bool
    ensures { result ≡ has_text_in text.now (json_of value.now) }
{
    match value {
        Tree::List(items) => is_among(text, items.as_slice()),
        other => is_text(text, other),
    }
}

/// One of the values is this text.
fn is_among(text: &str, items: &[Tree]) -> bool
    ensures { result ≡ list_any (is_text_of text.now) (json_items items.now) }
{
    for item in items {
        if is_text(text, item) {
            return true;
        }
    }
    false
}

/// The value is this text.
fn is_text(text: &str, value: &Tree) -> bool
    ensures { result ≡ is_text_of text.now (json_of value.now) }
{
    match value {
        Tree::Text(other) => text == other.as_str(),
        _ => false,
    }
}
