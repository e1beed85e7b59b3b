//! The choices of optional affordances that a derivation is given.

ghost use Rattle.std.specs.Prelude.{◌≡◌, ◌++◌, [], ◌∷◌, map, OnErr, OnOk};

use servient_base::NoMemory;
use std::alloc::Global;
use std::marker::Model;
use wot_json::Text;

/// Choices of optional affordances, each by the segment of its Thing and the pointer to the affordance
/// (RFC 6901), as `/actions/fade`. Contracts see the list of segments and pointers.
#[derive(Debug, Drop)]
pub struct Choices {
    list: Vec<(Text, Text)>,
}

impl Model for Choices {
    ghost use Rattle.std.specs.Prelude.{List, ℕ};

    ghost Value = { List (List ℕ × List ℕ) };

    ghost view = { λ c. c.list.items };
}

impl Choices {
    /// No choices.
    pub fn new(alloc: Global) -> Self
        ensures { result ≡ [] }
    {
        Choices {
            list: Vec::new(alloc),
        }
    }

    /// Chooses an affordance, after the others.
    pub fn push(&mut self, segment: Text, pointer: Text) -> Result<(), NoMemory>
        ensures ok { OnOk result (self.new ≡ self.old ++ (segment, pointer) ∷ []) }
        ensures unchanged { OnErr result (self.new ≡ self.old) }
    {
        self.list.push((segment, pointer))?;
        Ok(())
    }

    /// The segments and pointers.
    pub fn as_slice(&self) -> &[(Text, Text)]
        ensures { result.now ≡ self.now }
    {
        self.list.as_slice()
    }
}
