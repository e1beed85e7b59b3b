//! The members of a plan, each read as its row of the table says.

ghost use Rattle.std.specs.Prelude.{◌≡◌, ◌≤◌, true, codes, option_and_then, option_map, Some, IfOk, IfSome};
ghost use Rattle.wot_json.specs.Meaning.{json_of};
ghost use Rattle.wot_json.specs.Tree.{elements_of};
ghost use Rattle.wot_json.specs.Merge.{members_under};
ghost use Rattle.servient_plan.specs.Plan.{Reads};
ghost use Rattle.servient_plan.specs.Plan as spec;

use crate::plan::{ModelFiles, PlanFault};
use crate::texts::TextRow;
use std::alloc::Global;
use thing_site::Slots;
use tm_parts::{Bindings, Choices};
use wot_json::{Items, NoMemory, Text, Tree, copy};

/// The most models of a plan.
const MOST_MODELS: usize = 256;

/// The greatest number of a slot.
const LAST_SLOT: u32 = 65_535;

/// The least and the most exchanges, and their number where a plan doesn't say.
const LEAST_EXCHANGES: u32 = 16;

const MOST_EXCHANGES: u32 = 65_536;

const USUAL_EXCHANGES: u32 = 1024;

/// The latest beginning of the clock: the last millisecond of the year 9999.
const LAST_EPOCH: u64 = 253_402_300_799_999;

/// The greatest number up to which versions may be left out.
const LAST_LEFT_OUT: u32 = 4_000_000_000;

/// The text that a value is.
pub(crate) fn text_in(value: Option<&Tree>) -> Option<&str>
    ensures { option_map (λ text. text.now) result ≡ spec.text_in (option_map (λ t. json_of t.now) value.entry) }
{
    match value {
        Some(tree) => text_of(tree),
        None => None,
    }
}

fn text_of(tree: &Tree) -> Option<&str>
    ensures { option_map (λ text. text.now) result ≡ spec.text_in (Some (json_of tree.now)) }
{
    match tree {
        Tree::Text(text) => Some(text.as_str()),
        _ => None,
    }
}

/// The value of a member that is as its row says, or the fault of the member of this name.
pub(crate) fn row<A>(alloc: Global, name: &str, value: Option<A>) -> Result<A, PlanFault>
    ensures { Reads result (spec.row_of name.now value) }
{
    match value {
        Some(value) => Ok(value),
        None => Err(PlanFault::of_member(alloc, name)),
    }
}

/// A member that is a text.
pub(crate) fn text_row(alloc: Global, tree: &Tree, member: TextRow) -> Result<Text, PlanFault>
    ensures reads { Reads result (spec.text_row member (members_under (json_of tree.now))) }
    ensures taken { IfOk result (λ text. spec.takes_text member text ≡ true) }
{
    let text = taken_text(alloc, member, text_in(tree.member(member.name())))?;
    row(alloc, member.name(), text)
}

/// A copy of a text that a member may be.
pub(crate) fn taken_text(
    alloc: Global,
    member: TextRow,
    text: Option<&str>,
) -> Result<Option<Text>, NoMemory>
    ensures { IfOk result (λ o. o ≡ spec.taken_text member (option_map (λ t. t.now) text.entry)) }
{
    match text {
        Some(text) if member.takes(text) => Ok(Some(Text::copy_of(alloc, text)?)),
        _ => Ok(None),
    }
}

/// The two texts of an entry under these names.
fn two_texts(
    alloc: Global,
    entry: &Tree,
    first: &str,
    second: &str,
) -> Result<Option<(Text, Text)>, NoMemory>
    ensures { IfOk result (λ o. o ≡ spec.two_texts first.now second.now (json_of entry.now)) }
{
    let one = text_in(entry.member(first));
    let other = text_in(entry.member(second));
    match (one, other) {
        (Some(one), Some(other)) => Ok(Some((
            Text::copy_of(alloc, one)?,
            Text::copy_of(alloc, other)?,
        ))),
        _ => Ok(None),
    }
}

/// The entries of a list, two texts each under these names.
fn pairs_in(
    alloc: Global,
    list: &Items,
    first: &str,
    second: &str,
) -> Result<Option<Vec<(Text, Text)>>, NoMemory>
    ensures { IfOk result (λ o. option_map (λ v. v.items) o
        ≡ spec.each_read (spec.two_texts first.now second.now) (elements_of list.now)) }
{
    let entries = list.as_slice();
    let mut pairs = Vec::with_capacity(alloc, entries.len())?;
    for entry in entries {
        match two_texts(alloc, entry, first, second)? {
            Some(pair) => pairs.push(pair)?,
            None => return Ok(None),
        }
    }
    Ok(Some(pairs))
}

/// The models of a plan.
fn models_in(alloc: Global, value: Option<&Tree>) -> Result<Option<ModelFiles>, NoMemory>
    ensures { IfOk result (λ o. o ≡ spec.models_in (option_map (λ t. json_of t.now) value.entry)) }
{
    match value {
        Some(tree) => models_of(alloc, tree),
        None => Ok(None),
    }
}

fn models_of(alloc: Global, tree: &Tree) -> Result<Option<ModelFiles>, NoMemory>
    ensures { IfOk result (λ o. o ≡ spec.models_in (Some (json_of tree.now))) }
{
    match tree {
        Tree::List(list) => Ok(if_few(pairs_in(alloc, list, "url", "file")?)),
        _ => Ok(None),
    }
}

/// The models, where they are as many as a plan may have.
fn if_few(pairs: Option<Vec<(Text, Text)>>) -> Option<ModelFiles>
    ensures { result ≡ option_and_then spec.if_few (option_map (λ v. v.items) pairs) }
{
    match pairs {
        Some(pairs) if !pairs.is_empty() && pairs.len() <= MOST_MODELS => {
            Some(ModelFiles::from_vec(pairs))
        }
        _ => None,
    }
}

/// The member `models`.
pub(crate) fn models_row(alloc: Global, tree: &Tree) -> Result<ModelFiles, PlanFault>
    ensures { Reads result (spec.member_row (codes "models") spec.models_in (members_under (json_of tree.now))) }
{
    let models = models_in(alloc, tree.member("models"))?;
    row(alloc, "models", models)
}

/// The values to which placeholders are bound.
fn bindings_in(alloc: Global, value: Option<&Tree>) -> Result<Option<Bindings>, NoMemory>
    ensures { IfOk result (λ o. o ≡ spec.bindings_in (option_map (λ t. json_of t.now) value.entry)) }
{
    match value {
        Some(tree) => bindings_of(alloc, tree),
        None => Ok(Some(Bindings::new(alloc))),
    }
}

fn bindings_of(alloc: Global, tree: &Tree) -> Result<Option<Bindings>, NoMemory>
    ensures { IfOk result (λ o. o ≡ spec.bindings_in (Some (json_of tree.now))) }
{
    // A copy, since the bindings own their values.
    let tree = copy(alloc, tree)?;
    match tree {
        Tree::Obj(members) => Ok(Some(Bindings::from_vec(members.into_vec()))),
        _other => Ok(None),
    }
}

/// The member `bindings`.
pub(crate) fn bindings_row(alloc: Global, tree: &Tree) -> Result<Bindings, PlanFault>
    ensures { Reads result (spec.member_row (codes "bindings") spec.bindings_in (members_under (json_of tree.now))) }
{
    let bindings = bindings_in(alloc, tree.member("bindings"))?;
    row(alloc, "bindings", bindings)
}

/// The choices that these pairs are.
fn choices_of(alloc: Global, pairs: Vec<(Text, Text)>) -> Result<Choices, NoMemory>
    ensures { IfOk result (λ choices. choices ≡ pairs.items) }
{
    let mut choices = Choices::new(alloc);
    for (segment, pointer) in pairs {
        choices.push(segment, pointer)?;
    }
    Ok(choices)
}

/// The optional affordances that are chosen.
fn choices_in(alloc: Global, value: Option<&Tree>) -> Result<Option<Choices>, NoMemory>
    ensures { IfOk result (λ o. o ≡ spec.entries_in spec.choice_entry (option_map (λ t. json_of t.now) value.entry)) }
{
    match value {
        Some(tree) => chosen_in(alloc, tree),
        None => Ok(Some(Choices::new(alloc))),
    }
}

fn chosen_in(alloc: Global, tree: &Tree) -> Result<Option<Choices>, NoMemory>
    ensures { IfOk result (λ o. o ≡ spec.entries_in spec.choice_entry (Some (json_of tree.now))) }
{
    match tree {
        Tree::List(list) => match pairs_in(alloc, list, "thing", "pointer")? {
            Some(pairs) => Ok(Some(choices_of(alloc, pairs)?)),
            None => Ok(None),
        },
        _ => Ok(None),
    }
}

/// The member `optional`.
pub(crate) fn choices_row(alloc: Global, tree: &Tree) -> Result<Choices, PlanFault>
    ensures { Reads result (spec.member_row (codes "optional") (spec.entries_in spec.choice_entry) (members_under (json_of tree.now))) }
{
    let choices = choices_in(alloc, tree.member("optional"))?;
    row(alloc, "optional", choices)
}

/// The instance of a version, which may be absent.
fn instance_in(alloc: Global, value: Option<&Tree>) -> Result<Option<Option<Text>>, NoMemory>
    ensures { IfOk result (λ o. o ≡ spec.instance_in (option_map (λ t. json_of t.now) value.entry)) }
{
    match value {
        Some(tree) => instance_of(alloc, tree),
        None => Ok(Some(None)),
    }
}

fn instance_of(alloc: Global, tree: &Tree) -> Result<Option<Option<Text>>, NoMemory>
    ensures { IfOk result (λ o. o ≡ spec.instance_in (Some (json_of tree.now))) }
{
    match tree {
        Tree::Text(text) => Ok(Some(Some(Text::copy_of(alloc, text.as_str())?))),
        _ => Ok(None),
    }
}

/// The member `instance`.
pub(crate) fn instance_row(alloc: Global, tree: &Tree) -> Result<Option<Text>, PlanFault>
    ensures { Reads result (spec.member_row (codes "instance") spec.instance_in (members_under (json_of tree.now))) }
{
    let instance = instance_in(alloc, tree.member("instance"))?;
    row(alloc, "instance", instance)
}

/// The number that a value is, if it is one of these.
fn number_in(value: Option<&Tree>, least: u32, most: u32) -> Option<u32>
    ensures { result ≡ spec.number_within least most (option_map (λ t. json_of t.now) value.entry) }
{
    match value {
        Some(tree) => number_in_value(tree, least, most),
        None => None,
    }
}

fn number_in_value(tree: &Tree, least: u32, most: u32) -> Option<u32>
    ensures { result ≡ spec.number_within least most (Some (json_of tree.now)) }
{
    match tree {
        Tree::Int(number) => match u32::try_from(*number) {
            Ok(number) if least <= number && number <= most => Some(number),
            _ => None,
        },
        _ => None,
    }
}

/// The entry of a slot: the segment of a Thing, the pointer to an affordance, and the slot of its handler.
fn slot_entry(alloc: Global, entry: &Tree) -> Result<Option<(Text, Text, usize)>, NoMemory>
    ensures { IfOk result (λ o. o ≡ spec.slot_entry (json_of entry.now)) }
{
    let named = two_texts(alloc, entry, "thing", "pointer")?;
    let slot = number_in(entry.member("slot"), 0, LAST_SLOT);
    match (named, slot) {
        (Some((segment, pointer)), Some(slot)) => Ok(Some((segment, pointer, slot as usize))),
        _ => Ok(None),
    }
}

fn slots_of(alloc: Global, tree: &Tree) -> Result<Option<Slots>, NoMemory>
    ensures { IfOk result (λ o. o ≡ spec.entries_in spec.slot_entry (Some (json_of tree.now))) }
{
    match tree {
        Tree::List(list) => slots_among(alloc, list),
        _ => Ok(None),
    }
}

fn slots_among(alloc: Global, list: &Items) -> Result<Option<Slots>, NoMemory>
    ensures { IfOk result (λ o. o ≡ spec.each_read spec.slot_entry (elements_of list.now)) }
{
    let mut slots = Slots::new(alloc);
    for entry in list.as_slice() {
        match slot_entry(alloc, entry)? {
            Some((segment, pointer, slot)) => slots.push(segment, pointer, slot)?,
            None => return Ok(None),
        }
    }
    Ok(Some(slots))
}

/// The slots of the handlers.
fn slots_in(alloc: Global, value: Option<&Tree>) -> Result<Option<Slots>, NoMemory>
    ensures { IfOk result (λ o. o ≡ spec.entries_in spec.slot_entry (option_map (λ t. json_of t.now) value.entry)) }
{
    match value {
        Some(tree) => slots_of(alloc, tree),
        None => Ok(Some(Slots::new(alloc))),
    }
}

/// The member `slots`.
pub(crate) fn slots_row(alloc: Global, tree: &Tree) -> Result<Slots, PlanFault>
    ensures { Reads result (spec.member_row (codes "slots") (spec.entries_in spec.slot_entry) (members_under (json_of tree.now))) }
{
    let slots = slots_in(alloc, tree.member("slots"))?;
    row(alloc, "slots", slots)
}

/// The number of exchanges that may live.
fn exchanges_in(value: Option<&Tree>) -> Option<u32>
    ensures { result ≡ spec.exchanges_in (option_map (λ t. json_of t.now) value.entry) }
{
    match value {
        Some(tree) => number_in_value(tree, LEAST_EXCHANGES, MOST_EXCHANGES),
        None => Some(USUAL_EXCHANGES),
    }
}

/// The member `exchanges`.
pub(crate) fn exchanges_row(alloc: Global, tree: &Tree) -> Result<u32, PlanFault>
    ensures reads { Reads result (spec.member_row (codes "exchanges") spec.exchanges_in (members_under (json_of tree.now))) }
    ensures few { IfOk result (λ n. (16 ≤ n) × (n ≤ 65536)) }
{
    row(alloc, "exchanges", exchanges_in(tree.member("exchanges")))
}

/// The moment at which the clock began, which may be absent.
fn epoch_in(value: Option<&Tree>) -> Option<Option<u64>>
    ensures { result ≡ spec.epoch_in (option_map (λ t. json_of t.now) value.entry) }
{
    match value {
        Some(tree) => epoch_of(tree),
        None => Some(None),
    }
}

fn epoch_of(tree: &Tree) -> Option<Option<u64>>
    ensures { result ≡ spec.epoch_in (Some (json_of tree.now)) }
{
    match tree {
        Tree::Int(number) => match u64::try_from(*number) {
            Ok(epoch) if epoch <= LAST_EPOCH => Some(Some(epoch)),
            _ => None,
        },
        _ => None,
    }
}

/// The member `epoch`.
pub(crate) fn epoch_row(alloc: Global, tree: &Tree) -> Result<Option<u64>, PlanFault>
    ensures reads { Reads result (spec.member_row (codes "epoch") spec.epoch_in (members_under (json_of tree.now))) }
    ensures early { IfOk result (λ epoch. IfSome epoch (λ e. e ≤ spec.last_epoch)) }
{
    row(alloc, "epoch", epoch_in(tree.member("epoch")))
}

/// The number up to which versions are left out, which may be absent.
fn versions_in(value: Option<&Tree>) -> Option<u32>
    ensures { result ≡ spec.versions_in (option_map (λ t. json_of t.now) value.entry) }
{
    match value {
        Some(tree) => number_in_value(tree, 0, LAST_LEFT_OUT),
        None => Some(0),
    }
}

/// The member `versions`.
pub(crate) fn versions_row(alloc: Global, tree: &Tree) -> Result<u32, PlanFault>
    ensures { Reads result (spec.member_row (codes "versions") spec.versions_in (members_under (json_of tree.now))) }
{
    row(alloc, "versions", versions_in(tree.member("versions")))
}
