//! A model with values in place of its placeholders, seen without building it: nothing is built
//! before its size is known.

ghost use Rattle.std.specs.Prelude.{◌≡◌, ◌<◌, ◌≤◌, ◌++◌, ℕ, List, length, IfOk, IfSome, IsNone, ◌↔◌, option_map, option_and_then};
ghost use Rattle.std.specs.Str.{bytes_eq};
ghost use Rattle.wot_json.specs.Json.{json_string};
ghost use Rattle.wot_json.specs.Lookup.{member_list, member_named};
ghost use Rattle.wot_json.specs.Meaning.{json_of};
ghost use Rattle.wot_json.specs.Merge.{members_under};
ghost use Rattle.wot_json.specs.Pointer.{part_of, tokens_in};
ghost use Rattle.wot_json.specs.Tree.{Json, string};
ghost use Rattle.std.specs.List.{flat_map};
ghost use Rattle.tm_parts.specs.Placeholders.{pieces, sole_placeholder};
ghost use Rattle.tm_parts.specs.Substitution.{bound_value, piece_text, put_text};
ghost use Rattle.tm_parts.specs.Views.{seen, seen_text, seen_members, node_value, values_in};

use crate::building::built;
use crate::placeholder::{Piece, first_piece, length_before, whole_placeholder};
use crate::values::Values;
use servient_base::NoMemory;
use std::alloc::Global;
use wot_json::{Members, Text, Tree, copy, pointer, quoted_length};

/// A node of a model as it is with values in place of its placeholders, or a node of such a value. It reads
/// placeholders as it is asked, and builds nothing. Its fields are public and it has no Model, because all that can be
/// said of it is `seen`.
#[derive(Clone, Copy)]
pub struct View<'a> {
    /// The node as it is in the model, or in the value.
    pub tree: &'a Tree,
    /// The values that take the places of placeholders; none do within a value, since that isn't read again.
    pub values: Option<&'a Values<'a>>,
}

/// A node once its placeholders are read.
#[derive(Clone, Copy)]
pub enum Node<'a> {
    Null,
    Bool(bool),
    Int(i64),
    Text(TextView<'a>),
    List(ListView<'a>),
    Object(ObjectView<'a>),
}

/// A text with values in place of its placeholders.
#[derive(Clone, Copy)]
pub struct TextView<'a> {
    pub text: &'a str,
    pub values: Option<&'a Values<'a>>,
}

/// A list whose elements are seen with values in place of their placeholders.
#[derive(Clone, Copy)]
pub struct ListView<'a> {
    pub items: &'a [Tree],
    pub values: Option<&'a Values<'a>>,
}

/// An object whose members are seen with values in place of their placeholders. Its names are as they are written.
#[derive(Clone, Copy)]
pub struct ObjectView<'a> {
    pub members: &'a Members,
    pub values: Option<&'a Values<'a>>,
}

impl<'a> View<'a> {
    /// The node once its placeholders are read. A text that is exactly one bound placeholder is the node of the
    /// value. A text is read each time that it is visited, so counting takes a time in proportion to the model as it
    /// is written, and not to its weight alone.
    pub fn node(self) -> Node<'a>
        ensures { node_value result ≡ seen self.entry }
    {
        let View { tree, values } = self.followed();
        match tree {
            Tree::Null => Node::Null,
            Tree::Bool(truth) => Node::Bool(*truth),
            Tree::Int(number) => Node::Int(*number),
            Tree::Text(text) => Node::Text(TextView {
                text: text.as_str(),
                values,
            }),
            Tree::List(items) => Node::List(ListView {
                items: items.as_slice(),
                values,
            }),
            Tree::Obj(members) => Node::Object(ObjectView { members, values }),
        }
    }

    /// The node itself, or the value where it is a text that is exactly one bound placeholder. A
    /// text that is left is none.
    fn followed(self) -> View<'a>
        ensures same { seen result ≡ seen self.entry }
        ensures text { (text : List ℕ) → json_of result.tree.now ≡ string text
            → seen result ≡ string (flat_map (piece_text (values_in result.values)) (pieces text)) }
    {
        match self.tree {
            Tree::Text(text) => match value_of(text.as_str(), self.values) {
                Some(tree) => View { tree, values: None },
                None => self,
            },
            _ => self,
        }
    }

    /// The value of a member, where the node is an object that has it.
    pub fn member(self, name: &str) -> Option<View<'a>>
        ensures { option_map seen result ≡ member_named name.now (members_under (seen self.entry)) }
    {
        match self.node() {
            Node::Object(object) => object.get(name),
            Node::Null | Node::Bool(_) | Node::Int(_) | Node::Text(_) | Node::List(_) => None,
        }
    }

    /// The node at a place (RFC 6901), where there is one. A text that is no pointer leads nowhere.
    pub fn part(self, place: &str) -> Option<View<'a>>
        ensures { option_map seen result ≡ part_of place.now (seen self.entry) }
    {
        let mut view = self;
        let mut rest = place;
        while !rest.is_empty() {
            let (step, after) = first_step(rest);
            match view.step(step) {
                Some(next) => view = next,
                None => return None,
            }
            rest = after;
        }
        Some(view)
    }

    /// The node, built.
    pub fn build(self, alloc: Global) -> Result<Tree, NoMemory>
        ensures { IfOk result (λ t. json_of t ≡ seen self.entry) }
    {
        match self.values {
            Some(values) => built(alloc, self.tree, values),
            None => copy(alloc, self.tree),
        }
    }

    /// The node that a place of one step leads to.
    fn step(self, step: &str) -> Option<View<'a>>
        requires { length (tokens_in step.now) ≤ 1 }
        ensures { option_map seen result ≡ part_of step.now (seen self.entry) }
    {
        let View { tree, values } = self.followed();
        match pointer(tree, step) {
            Ok(Some(tree)) => Some(View { tree, values }),
            Ok(None) => None,
            Err(_) => None,
        }
    }
}

/// The first step of a place, a `/` and a token, and the steps after it.
fn first_step(place: &str) -> (&str, &str)
    requires { 0 < length place.now }
    ensures cut { (v : Json) → part_of place.now v ≡ option_and_then (part_of result.1.now) (part_of result.0.now v) }
    ensures one { length (tokens_in result.0.now) ≤ 1 }
    ensures shorter { length result.1.now < length place.now }
{
    let length = 1 + length_before(b'/', &place.as_bytes()[1..]);
    place.split_at(length)
}

/// The value of a text that is exactly one bound placeholder.
pub(crate) fn value_of<'a>(text: &str, values: Option<&'a Values<'a>>) -> Option<&'a Tree>
    ensures { option_map (λ t. json_of t.now) result
        ≡ option_and_then (λ name. bound_value name (values_in values.entry)) (sole_placeholder (pieces text.now)) }
{
    match whole_placeholder(text) {
        Some(name) => bound(name, values),
        None => None,
    }
}

/// The value that is bound to a name.
fn bound<'a>(name: &str, values: Option<&'a Values<'a>>) -> Option<&'a Tree>
    ensures { option_map (λ t. json_of t.now) result ≡ bound_value name.now (values_in values.entry) }
{
    match values {
        Some(values) => values.get(name),
        None => None,
    }
}

impl<'a> TextView<'a> {
    /// The length of the JSON text of the text (RFC 8259, section 7), where it is at most `most`. It stops as soon as
    /// `most` is passed.
    pub fn quoted_length(self, most: usize) -> Option<usize>
        ensures ok { IfSome result (λ n. n ≡ length (json_string (seen_text self.entry))) }
        ensures no_room { IsNone result ↔ (most < length (json_string (seen_text self.entry))) }
    {
        if most < 2 {
            return None;
        }
        let mut length = 2;
        let mut rest = self.text;
        while !rest.is_empty() {
            let (part, after) = first_part(rest, self.values);
            match quoted_length(part, most - length + 2) {
                Some(more) => length += more - 2,
                None => return None,
            }
            rest = after;
        }
        Some(length)
    }

    /// The text is this one.
    pub fn is(self, text: &str) -> bool
        ensures { result ≡ bytes_eq (seen_text self.entry) text.now }
    {
        let mut left = text;
        let mut rest = self.text;
        while !rest.is_empty() {
            let (part, after) = first_part(rest, self.values);
            match left.strip_prefix(part) {
                Some(more) => left = more,
                None => return false,
            }
            rest = after;
        }
        left.is_empty()
    }

    /// The text, built.
    pub fn build(self, alloc: Global) -> Result<Text, NoMemory>
        ensures { IfOk result (λ t. t ≡ seen_text self.entry) }
    {
        let mut built = String::new(alloc);
        let mut rest = self.text;
        while !rest.is_empty() {
            let (part, after) = first_part(rest, self.values);
            built.push_str(part)?;
            rest = after;
        }
        Ok(Text::from_string(built))
    }
}

/// The beginning of a text once its placeholders are read, cut no further, and the rest after it.
fn first_part<'a>(text: &'a str, values: Option<&'a Values<'a>>) -> (&'a str, &'a str)
    requires { 0 < length text.now }
    ensures seen { flat_map (piece_text (values_in values.entry)) (pieces text.now)
        ≡ result.0.now ++ flat_map (piece_text (values_in values.entry)) (pieces result.1.now) }
    ensures shorter { length result.1.now < length text.now }
{
    let (piece, rest) = first_piece(text);
    match piece {
        Piece::Plain(plain) => (plain, rest),
        Piece::Placeholder(name) => match bound(name, values) {
            Some(value) => (text_in(value), rest),
            None => (text.split_at(text.len() - rest.len()).0, rest),
        },
    }
}

/// The text that a value puts into a longer text: a text itself, and any other value nothing.
fn text_in(value: &Tree) -> &str
    ensures { result.now ≡ put_text (json_of value.now) }
{
    match value {
        Tree::Text(text) => text.as_str(),
        Tree::Null | Tree::Bool(_) | Tree::Int(_) | Tree::List(_) | Tree::Obj(_) => "",
    }
}

impl<'a> ObjectView<'a> {
    /// The value of a member, where there is one of this name.
    pub fn get(self, name: &str) -> Option<View<'a>>
        ensures { option_map seen result ≡ member_named name.now (member_list (seen_members self.entry)) }
    {
        match self.members.get(name) {
            Some(tree) => Some(View {
                tree,
                values: self.values,
            }),
            None => None,
        }
    }
}
