//! Things: descriptions, each with the segment under which it is exposed.

ghost use Rattle.std.specs.Prelude.{◌≡◌, ◌++◌, [], ◌∷◌, length, OnErr, OnOk};
ghost use Rattle.wot_json.specs.Meaning.{json_of};

use servient_base::NoMemory;
use std::alloc::Global;
use std::marker::Model;
use wot_json::{Text, Tree};

/// A Thing: the segment in the paths of its URLs, and its description.
#[derive(Debug, Drop)]
pub struct Thing {
    pub segment: Text,
    pub tree: Tree,
}

/// Things, in an order that their maker gives. Contracts see the list of their segments and descriptions.
#[derive(Debug, Drop)]
pub struct Things {
    list: Vec<Thing>,
}

impl Model for Things {
    ghost use Rattle.std.specs.Prelude.{List, ℕ};
    ghost use Rattle.wot_json.specs.JsonCodes.{members_code};
    ghost use Rattle.wot_json.specs.Tree.{Json};

    ghost Value = { List (List ℕ × Json) };

    ghost coded = { members_code };

    ghost use Rattle.wot_terms.specs.ThingLists.{kept_things};

    ghost view = { λ t. kept_things t.list.items };
}

impl Things {
    ghost use Rattle.wot_terms.specs.ThingLists.{kept_things as seen};

    /// No Things.
    pub fn new(alloc: Global) -> Self
        ensures { result ≡ [] }
    {
        Things {
            list: Vec::new(alloc),
        }
    }

    /// The Things as they are.
    pub fn as_slice(&self) -> &[Thing]
        ensures { seen result.now ≡ self.now }
    {
        self.list.as_slice()
    }

    /// Puts a Thing at the end.
    pub fn push(&mut self, segment: Text, tree: Tree) -> Result<(), NoMemory>
        ensures ok { OnOk result (self.new ≡ self.old ++ (segment, json_of tree) ∷ []) }
        ensures unchanged { OnErr result (self.new ≡ self.old) }
    {
        self.list.push(Thing { segment, tree })?;
        Ok(())
    }
}
