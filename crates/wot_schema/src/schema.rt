//! The data schema with its compiled form: read, compiled, and asked whether it accepts a value.

ghost use Rattle.std.specs.Prelude.{◌≡◌, ◌⊎◌, ◌↔◌, [], IsTrue, IfOk, OnOk, IfErr};
ghost use Rattle.wot_json.specs.Meaning.{json_of};
ghost use Rattle.wot_schema.specs.Acceptance.{Accepts};
ghost use Rattle.wot_schema.specs.Faults.{schema_faults, IsSchemaRefusal};

use crate::SchemaFault;
use crate::acceptance::accepts;
use crate::compilation::compile;
use crate::node::SchemaNode;
use crate::validity::check;
use std::alloc::Global;
use std::marker::Model;
use wot_json::{NoMemory, Tree, copy};

/// A data schema (TD 1.1, section 5.3.2), compiled, with the tree that it was read from. Contracts see it as
/// that tree.
#[derive(Debug, Drop)]
pub struct Schema {
    // Contracts see a schema as this tree. It is kept while the program runs because the kit lets no type that is read
    // through a reference hold a value for proofs alone.
    tree: Tree,
    // Accepts what the tree accepts, and leaves out what says nothing.
    root: SchemaNode,
}

impl Model for Schema {
    ghost use Rattle.std.specs.Prelude.{List};
    ghost use Rattle.wot_json.specs.JsonCodes.{json_code};
    ghost use Rattle.wot_json.specs.Tree.{Json};
    ghost use Rattle.wot_json.specs.Meaning.{json_of};
    ghost use Rattle.wot_schema.specs.Nodes.{schema_of};
    ghost use Rattle.wot_schema.specs.Alike.{AcceptAlike};

    ghost Value = { Json };

    ghost coded = { json_code };

    ghost view = { λ s. json_of s.tree };

    ghost invariant = { λ s. AcceptAlike (schema_of s.root) (json_of s.tree) };
}

impl Schema {
    /// The schema of a tree, or its first fault, as `check` gives it. The time is in proportion
    /// to the size of the tree.
    pub fn read(alloc: Global, tree: &Tree) -> Result<Schema, SchemaFault>
        ensures ok { IfOk result (λ s. (s ≡ json_of tree.now) × (schema_faults (json_of tree.now) ≡ [])) }
        ensures fault { IfErr result (IsSchemaRefusal (schema_faults (json_of tree.now))) }
    {
        check(alloc, tree)?;
        let schema = Schema::compile(alloc, tree)?;
        Ok(schema)
    }

    /// The schema of a tree that has no fault, as a caller knows who has checked it. So a tree that was checked isn't
    /// checked again, and no refusal is left that can't come.
    pub fn compile(alloc: Global, tree: &Tree) -> Result<Schema, NoMemory>
        requires { schema_faults (json_of tree.now) ≡ [] }
        ensures { IfOk result (λ s. s ≡ json_of tree.now) }
    {
        let root = compile(alloc, tree)?;
        let tree = copy(alloc, tree)?;
        Ok(Schema { tree, root })
    }

    /// The schema accepts the value. It takes no memory, and its time is at most in proportion to the size of the
    /// schema times that of the value.
    pub fn accepts(&self, value: &Tree) -> bool
        ensures { IsTrue result ↔ Accepts self.now (json_of value.now) }
    {
        accepts(&self.root, value)
    }

    /// The tree of the schema.
    pub fn tree(&self) -> &Tree
        ensures { json_of result.now ≡ self.now }
    {
        &self.tree
    }
}
