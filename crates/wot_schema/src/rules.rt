//! The demands of a schema on a value by itself, without the schemas below it.

ghost use Rattle.std.specs.Prelude.{◌≡◌, ◌↔◌, [], map, codes, IsTrue, IfSome, IfOk};
ghost use Rattle.std.specs.Option.{option_map};
ghost use Rattle.wot_json.specs.Tree.{members_of, elements_of, array, string};
ghost use Rattle.wot_json.specs.Meaning.{json_of, json_items};
ghost use Rattle.wot_json.specs.Lookup.{value_under};
ghost use Rattle.wot_schema.specs.Faults.{IsMet, AreRowsMet, type_name, list_with_element, list_of_texts, is_text, are_texts};
ghost use Rattle.wot_schema.specs.Values.{code_points};
ghost use Rattle.wot_schema.specs.Acceptance.{type_of};
ghost use Rattle.wot_schema.specs.Kinds.{kind_name};
ghost use Rattle.wot_schema.specs.Rules.{AreRulesOf, IsAllowed, AreContentsAllowed, IsAmong, HasAll};

use crate::counts::CountRange;
use crate::kind::{ValueType, kind_named, kind_of};
use crate::numbers::NumberRules;
use std::alloc::Global;
use wot_json::{Items, Members, NoMemory, Text, Tree, copy, is_equal};

/// The rows of the table that hold no schemas.
#[derive(Debug, Drop)]
pub(crate) struct Rules {
    pub(crate) kind: Option<ValueType>,
    pub(crate) constant: Option<Tree>,
    pub(crate) choices: Option<Vec<Tree>>,
    pub(crate) numbers: NumberRules,
    pub(crate) characters: CountRange,
    pub(crate) items: CountRange,
    pub(crate) required: Option<Vec<Text>>,
}

impl Rules {
    /// The rules that the members of a schema give.
    pub(crate) fn read(alloc: Global, members: &Members) -> Result<Rules, NoMemory>
        requires { AreRowsMet (members_of members.now) }
        ensures { IfOk result (λ r. AreRulesOf (members_of members.now) r) }
    {
        let constant = read_constant(alloc, members)?;
        let choices = read_choices(alloc, members)?;
        let required = read_required(alloc, members)?;
        Ok(Rules {
            kind: read_kind(members),
            constant,
            choices,
            numbers: NumberRules::read(members),
            characters: CountRange::read(members, "minLength", "maxLength"),
            items: CountRange::read(members, "minItems", "maxItems"),
            required,
        })
    }

    /// The value meets the rules.
    pub(crate) fn accept(&self, value: &Tree) -> bool
        ensures { IsTrue result ↔ IsAllowed self.now (json_of value.now) }
    {
        self.kind.is_none_or(|kind| kind == kind_of(value))
            && self
                .constant
                .as_ref()
                .is_none_or(|constant| is_equal(value, constant))
            && self
                .choices
                .as_ref()
                .is_none_or(|choices| is_among(value, choices))
            && self.accept_contents(value)
    }

    /// The number, the text, the list or the object meets the rules that speak of it.
    fn accept_contents(&self, value: &Tree) -> bool
        ensures { IsTrue result ↔ AreContentsAllowed self.now (json_of value.now) }
    {
        match value {
            Tree::Int(number) => self.numbers.accept(*number),
            Tree::Text(text) => self.characters.has(character_count(text.as_str())),
            Tree::List(items) => self.items.has(items.len()),
            Tree::Obj(members) => has_required(&self.required, members),
            _ => true,
        }
    }
}

fn character_count(text: &str) -> usize
    ensures { result ≡ code_points text.now }
{
    text.chars().count()
}

fn is_among(value: &Tree, choices: &[Tree]) -> bool
    ensures { IsTrue result ↔ IsAmong (json_of value.now) choices.now }
{
    for choice in choices {
        if is_equal(value, choice) {
            return true;
        }
    }
    false
}

fn has_required(required: &Option<Vec<Text>>, members: &Members) -> bool
    ensures { IsTrue result ↔ IfSome required.now (λ names. HasAll (members_of members.now) names.items) }
{
    match required {
        None => true,
        Some(names) => has_all(members, names),
    }
}

fn has_all(members: &Members, names: &[Text]) -> bool
    ensures { IsTrue result ↔ HasAll (members_of members.now) names.now }
{
    for name in names {
        if members.value_under(name.as_str()).is_none() {
            return false;
        }
    }
    true
}

fn read_kind(members: &Members) -> Option<ValueType>
    requires { IsMet (members_of members.now) (codes "type", type_name) }
    ensures { value_under (codes "type") (members_of members.now) ≡ option_map (λ k. string (kind_name k)) result }
{
    match members.value_under("type")? {
        Tree::Text(name) => kind_named(name.as_str()),
        _ => None,
    }
}

fn read_constant(alloc: Global, members: &Members) -> Result<Option<Tree>, NoMemory>
    ensures { IfOk result (λ o. value_under (codes "const") (members_of members.now) ≡ option_map json_of o) }
{
    match members.value_under("const") {
        None => Ok(None),
        Some(constant) => Ok(Some(copy(alloc, constant)?)),
    }
}

fn read_choices(alloc: Global, members: &Members) -> Result<Option<Vec<Tree>>, NoMemory>
    requires { IsMet (members_of members.now) (codes "enum", list_with_element) }
    ensures { IfOk result (λ o.
        value_under (codes "enum") (members_of members.now) ≡ option_map (λ ts. array (elements_of (json_items ts.items))) o) }
{
    match members.value_under("enum") {
        None => Ok(None),
        Some(value) => Ok(Some(choices_of(alloc, value)?)),
    }
}

fn choices_of(alloc: Global, value: &Tree) -> Result<Vec<Tree>, NoMemory>
    requires { list_with_element (json_of value.now) ≡ [] }
    ensures { IfOk result (λ ts. json_of value.now ≡ array (elements_of (json_items ts.items))) }
{
    match value {
        Tree::List(choices) => copies_of(alloc, choices),
        _ => unreachable!(),
    }
}

fn copies_of(alloc: Global, items: &Items) -> Result<Vec<Tree>, NoMemory>
    ensures { IfOk result (λ ts. json_items ts.items ≡ items.now) }
{
    let mut copies = Vec::with_capacity(alloc, items.len())?;
    for item in items.as_slice() {
        copies.push(copy(alloc, item)?)?;
    }
    Ok(copies)
}

fn read_required(alloc: Global, members: &Members) -> Result<Option<Vec<Text>>, NoMemory>
    requires { IsMet (members_of members.now) (codes "required", list_of_texts) }
    ensures { IfOk result (λ o. value_under (codes "required") (members_of members.now) ≡
        option_map (λ names. array (elements_of (map string names.items))) o) }
{
    match members.value_under("required") {
        None => Ok(None),
        Some(value) => Ok(Some(names_of(alloc, value)?)),
    }
}

fn names_of(alloc: Global, value: &Tree) -> Result<Vec<Text>, NoMemory>
    requires { list_of_texts (json_of value.now) ≡ [] }
    ensures { IfOk result (λ ts. json_of value.now ≡ array (elements_of (map string ts.items))) }
{
    match value {
        Tree::List(names) => texts_of(alloc, names.as_slice()),
        _ => unreachable!(),
    }
}

/// Copies of texts.
fn texts_of(alloc: Global, items: &[Tree]) -> Result<Vec<Text>, NoMemory>
    requires { IsTrue (are_texts (elements_of (json_items items.now))) }
    ensures { IfOk result (λ ts. map string ts.items ≡ json_items items.now) }
{
    let mut texts = Vec::with_capacity(alloc, items.len())?;
    for item in items {
        let text = text_of(alloc, item)?;
        texts.push(text)?;
    }
    Ok(texts)
}

fn text_of(alloc: Global, item: &Tree) -> Result<Text, NoMemory>
    requires { IsTrue (is_text (json_of item.now)) }
    ensures { IfOk result (λ t. json_of item.now ≡ string t) }
{
    match item {
        Tree::Text(text) => Text::copy_of(alloc, text.as_str()),
        _ => unreachable!(),
    }
}
