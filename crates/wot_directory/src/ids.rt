//! Ids of descriptions (TD 1.1, section 5.3.1.1).

ghost use Rattle.std.specs.Prelude.{◌≡◌, ◌↔◌, Some, is_some, IfOk, IsTrue};
ghost use Rattle.wot_json.specs.Meaning.{json_of};
ghost use Rattle.wot_json.specs.Tree.{string};
ghost use Rattle.wot_directory.specs.Directory.{id_of};
ghost use Rattle.wot_directory.specs.Directory as spec;

use servient_base::NoMemory;
use std::alloc::Global;
use wot_json::{Text, Tree, is_equal};

/// The name of the member that holds the id.
const ID: &str = "id";

/// The value is this text.
fn is_text(value: &Tree, text: &str) -> bool
    ensures { IsTrue result ↔ (json_of value.now ≡ string text.now) }
{
    match value {
        Tree::Text(own) => own.as_str() == text,
        _ => false,
    }
}

/// The description has an `id`.
pub(crate) fn is_named(tree: &Tree) -> bool
    ensures { result ≡ is_some (id_of (json_of tree.now)) }
{
    tree.member(ID).is_some()
}

/// The description has this text as its id.
pub(crate) fn has_id(tree: &Tree, id: &str) -> bool
    ensures { IsTrue result ↔ (id_of (json_of tree.now) ≡ Some (string id.now)) }
{
    match tree.member(ID) {
        Some(value) => is_text(value, id),
        None => false,
    }
}

/// Both have the same `id`, or neither has one.
pub(crate) fn have_same_id(left: &Tree, right: &Tree) -> bool
    ensures { IsTrue result ↔ (id_of (json_of left.now) ≡ id_of (json_of right.now)) }
{
    match left.member(ID) {
        Some(one) => match right.member(ID) {
            Some(other) => is_equal(one, other),
            None => false,
        },
        None => right.member(ID).is_none(),
    }
}

/// The id of this number: `local:` and the number in decimal.
pub fn local_id(alloc: Global, number: u64) -> Result<Text, NoMemory>
    ensures { IfOk result (λ t. t ≡ spec.local_id number) }
{
    let id = format!(in alloc; "local:{number}")?;
    Ok(Text::from_string(id))
}

/// The number from which the id after that of this number is sought.
pub(crate) fn number_after(number: u64) -> u64
    ensures { result ≡ spec.number_after number }
{
    if number == u64::MAX { 1 } else { number + 1 }
}
