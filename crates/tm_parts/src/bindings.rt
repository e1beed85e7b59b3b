//! The values that are to take the places of placeholders.

ghost use Rattle.std.specs.Prelude.{◌≡◌, ◌++◌, [], ◌∷◌, OnErr, OnOk};
ghost use Rattle.wot_json.specs.Meaning.{json_of, json_members};

use servient_base::NoMemory;
use std::alloc::Global;
use std::marker::Model;
use wot_json::{Text, Tree};

/// Values by the names of the placeholders that they are bound to. Contracts see the list of names and values.
/// Of two with one name the first counts.
#[derive(Debug, Drop)]
pub struct Bindings {
    list: Vec<(Text, Tree)>,
}

impl Model for Bindings {
    ghost use Rattle.std.specs.Prelude.{List, ℕ};
    ghost use Rattle.wot_json.specs.JsonCodes.{members_code};
    ghost use Rattle.wot_json.specs.Tree.{Json};

    ghost Value = { List (List ℕ × Json) };

    ghost coded = { members_code };

    ghost use Rattle.wot_json.specs.Meaning.{json_members};

    ghost view = { λ b. json_members b.list.items };
}

impl Bindings {
    /// No values.
    pub fn new(alloc: Global) -> Self
        ensures { result ≡ [] }
    {
        Bindings {
            list: Vec::new(alloc),
        }
    }

    /// The names and values of a vector, which is taken over as it is.
    pub fn from_vec(list: Vec<(Text, Tree)>) -> Self
        ensures { result ≡ json_members list.items }
    {
        Bindings { list }
    }

    /// Binds a value to a name, after the others.
    pub fn push(&mut self, name: Text, value: Tree) -> Result<(), NoMemory>
        ensures ok { OnOk result (self.new ≡ self.old ++ (name, json_of value) ∷ []) }
        ensures unchanged { OnErr result (self.new ≡ self.old) }
    {
        self.list.push((name, value))?;
        Ok(())
    }

    /// The names and values, in the order in which they were bound.
    pub fn as_slice(&self) -> &[(Text, Tree)]
        ensures { json_members result.now ≡ self.now }
    {
        self.list.as_slice()
    }
}
