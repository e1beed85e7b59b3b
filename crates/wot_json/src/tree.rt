//! JSON values, and an equal copy of each.

use crate::Text;
use servient_base::NoMemory;
use std::alloc::Global;
use std::cmp::Ordering;
use std::marker::Model;

/// A JSON value (RFC 8259, section 3) whose numbers are whole.
#[derive(Debug, Drop)]
#[cycle(tree)]
pub enum Tree {
    Null,
    Bool(bool),
    /// A whole number of 64 bits with sign.
    Int(i64),
    Text(Text),
    List(Items),
    Obj(Members),
}

/// The elements of a list. Contracts see the list of their values.
#[derive(Debug, Drop)]
#[cycle(tree)]
pub struct Items {
    pub(crate) list: Vec<Tree>,
}

impl Model for Items {
    ghost use Rattle.std.specs.Prelude.{List};
    ghost use Rattle.wot_json.specs.JsonCodes.{elements_code};
    ghost use Rattle.wot_json.specs.Tree.{Json, most_nesting};

    ghost Value = { List Json };

    ghost coded = { elements_code };

    ghost use Rattle.wot_json.specs.Meaning.{json_items};

    ghost view = { λ i. json_items i.list.items };

    ghost size = { most_nesting };

    ghost use Rattle.std.proofs.Common.{arith};
    ghost use Rattle.wot_json.specs.JsonSizes.{most_le};

    ghost size_decreases = { λ a h. omega (arith, most_le a.list.items) };
}

/// The members of an object, in the byte order of their names, each name once, because each value then has one form and
/// one text; `serde_json`'s map has this order too. Contracts see the list of names and values.
#[derive(Debug, Drop)]
#[cycle(tree)]
pub struct Members {
    pub(crate) list: Vec<(Text, Tree)>,
}

impl Model for Members {
    ghost use Rattle.std.specs.Prelude.{List, ℕ};
    ghost use Rattle.wot_json.specs.JsonCodes.{members_code};
    ghost use Rattle.wot_json.specs.Tree.{Json, most_member_nesting, AreOrdered};

    ghost Value = { List (List ℕ × Json) };

    ghost coded = { members_code };

    ghost use Rattle.wot_json.specs.Meaning.{json_members};

    ghost view = { λ m. json_members m.list.items };

    ghost invariant = { λ m. AreOrdered (json_members m.list.items) };

    ghost size = { most_member_nesting };

    ghost use Rattle.std.proofs.Common.{arith};
    ghost use Rattle.wot_json.specs.JsonSizes.{most_member_le};

    ghost size_decreases = { λ a h. omega (arith, most_member_le a.list.items) };
}

ghost use Rattle.std.specs.Prelude.{◌≡◌, ◌++◌, [], ◌∷◌, length, option_map, IfOk, OnErr, OnOk};
ghost use Rattle.std.specs.Cmp.Lexicographic.{slice_cmp};
ghost use Rattle.std.specs.Ordering.{nat_cmp};
ghost use Rattle.wot_json.specs.Tree.{AreOrdered, members_of};
ghost use Rattle.wot_json.specs.Meaning.{json_of, json_items, json_members};
ghost use Rattle.wot_json.specs.Lookup.{member_named, value_under};
ghost use Rattle.wot_json.specs.Merge.{members_under};

impl Tree {
    /// The value of the member of this name, where the value is an object that has it.
    pub fn member(&self, name: &str) -> Option<&Tree>
        ensures { option_map (λ t. json_of t.now) result ≡ member_named name.now (members_under (json_of self.now)) }
    {
        match self {
            Tree::Obj(members) => members.get(name),
            _ => None,
        }
    }
}

impl Items {
    /// No elements.
    pub fn new(alloc: Global) -> Self
        ensures { result ≡ [] }
    {
        Items {
            list: Vec::new(alloc),
        }
    }

    /// The number of elements.
    pub fn len(&self) -> usize
        ensures { result ≡ length self.now }
    {
        self.list.len()
    }

    /// The elements of a vector, which is taken over as it is.
    pub fn from_vec(list: Vec<Tree>) -> Self
        ensures { result ≡ json_items list.items }
    {
        Items { list }
    }

    /// The vector that holds the elements.
    pub fn into_vec(self) -> Vec<Tree>
        ensures { json_items result.items ≡ self }
    {
        let Items { list } = self;
        list
    }

    /// The elements as a slice.
    pub fn as_slice(&self) -> &[Tree]
        ensures { json_items result.now ≡ self.now }
    {
        self.list.as_slice()
    }

    /// Puts an element at the end.
    pub fn push(&mut self, item: Tree) -> Result<(), NoMemory>
        ensures ok { OnOk result (self.new ≡ self.old ++ json_of item ∷ []) }
        ensures unchanged { OnErr result (self.new ≡ self.old) }
    {
        self.list.push(item)?;
        Ok(())
    }
}

impl Members {
    /// No members.
    pub fn new(alloc: Global) -> Self
        ensures { result ≡ [] }
    {
        Members {
            list: Vec::new(alloc),
        }
    }

    /// The number of members.
    pub fn len(&self) -> usize
        ensures { result ≡ length self.now }
    {
        self.list.len()
    }

    /// The members of a vector, which is taken over as it is. Their names are in byte order, each once: a vector that
    /// `into_vec` gave has them so, and no such caller could meet a refusal.
    pub fn from_vec(list: Vec<(Text, Tree)>) -> Self
        requires { AreOrdered (json_members list.items) }
        ensures { result ≡ json_members list.items }
    {
        Members { list }
    }

    /// The vector that holds the members, in the byte order of the names.
    pub fn into_vec(self) -> Vec<(Text, Tree)>
        ensures members { json_members result.items ≡ self }
        ensures ordered { AreOrdered self }
    {
        let Members { list } = self;
        list
    }

    /// The members as a slice of names and values, in the byte order of the names.
    pub fn as_slice(&self) -> &[(Text, Tree)]
        ensures members { json_members result.now ≡ self.now }
        ensures ordered { AreOrdered self.now }
    {
        self.list.as_slice()
    }

    /// The value of the member of this name, found by binary search.
    pub fn get(&self, name: &str) -> Option<&Tree>
        ensures { option_map (λ t. json_of t.now) result ≡ member_named name.now self.now }
    {
        let order = |member: &(Text, Tree)| -> Ordering
            ensures { result ≡ slice_cmp nat_cmp member.now.0 name.entry.now }
        { member.0.as_str().cmp(name) };
        match self.list.binary_search_by(order) {
            Ok(place) => Some(&self.list[place].1),
            Err(_) => None,
        }
    }

    /// The same as `get`, for contracts that speak of the object of these members.
    pub fn value_under(&self, name: &str) -> Option<&Tree>
        ensures { option_map (λ t. json_of t.now) result ≡ value_under name.now (members_of self.now) }
    {
        self.get(name)
    }

    /// Puts a member at the end. Its name is after all others in byte order.
    pub fn push(&mut self, name: Text, value: Tree) -> Result<(), NoMemory>
        requires { AreOrdered (self.old ++ (name, json_of value) ∷ []) }
        ensures ok { OnOk result (self.new ≡ self.old ++ (name, json_of value) ∷ []) }
        ensures unchanged { OnErr result (self.new ≡ self.old) }
    {
        self.list.push((name, value))?;
        Ok(())
    }
}

/// An equal tree.
#[cycle(copy)]
pub fn copy(alloc: Global, tree: &Tree) -> Result<Tree, NoMemory>
    ensures { IfOk result (λ t. t ≡ tree.now) }
{
    match tree {
        Tree::Null => Ok(Tree::Null),
        Tree::Bool(truth) => Ok(Tree::Bool(*truth)),
        Tree::Int(number) => Ok(Tree::Int(*number)),
        Tree::Text(text) => Ok(Tree::Text(Text::copy_of(alloc, text.as_str())?)),
        Tree::List(items) => Ok(Tree::List(copy_items(alloc, items)?)),
        Tree::Obj(members) => Ok(Tree::Obj(copy_members(alloc, members)?)),
    }
}

#[cycle(copy)]
fn copy_items(alloc: Global, items: &Items) -> Result<Items, NoMemory>
    ensures { IfOk result (λ i. i ≡ items.now) }
{
    let mut copies = Vec::with_capacity(alloc, items.list.len())?;
    for item in &items.list {
        copies.push(copy(alloc, item)?)?;
    }
    Ok(Items { list: copies })
}

#[cycle(copy)]
fn copy_members(alloc: Global, members: &Members) -> Result<Members, NoMemory>
    ensures { IfOk result (λ m. m ≡ members.now) }
{
    let mut copies = Vec::with_capacity(alloc, members.list.len())?;
    for (name, member) in &members.list {
        copies.push((Text::copy_of(alloc, name.as_str())?, copy(alloc, member)?))?;
    }
    Ok(Members { list: copies })
}
