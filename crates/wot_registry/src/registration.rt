//! The registration information of a description (WoT Discovery): the time to live that it asks for, and the times that
//! it says.

ghost use Rattle.std.specs.Prelude.{◌≡◌, ◌≤◌, ◌+◌, ◌*◌, ◌++◌, ◌∷◌, [], None, Some, option_map, IfOk, IfErr, OnOk, pos, codes};
ghost use Rattle.wot_json.specs.Tree.{integer, string, AreOrdered};
ghost use Rattle.wot_json.specs.Meaning.{json_of};
ghost use Rattle.wot_json.specs.Merge.{without_member};
ghost use Rattle.wot_registry.specs.Dates.{last_millisecond};
ghost use Rattle.wot_registry.specs.Registration.{ttl_in, shown, with_ttl, registered_as, said_of};
ghost use Rattle.wot_registry.specs.Registration as spec;
ghost use Rattle.wot_registry.specs.Dates as dates;
ghost use Rattle.wot_registry.specs.declared.fault.RegFault.TheVariants.{Ttl};

use crate::dates::date_text;
use crate::fault::RegFault;
use crate::times::Times;
use servient_base::NoMemory;
use std::alloc::Global;
use wot_json::{Members, Text, Tree, copy, merge_patch};

/// The member of a description that holds its registration information.
const REGISTRATION: &str = "registration";
/// Its member with the time to live in seconds.
const TTL: &str = "ttl";
/// The longest time to live in seconds: 365 days.
const LONGEST_TTL: i64 = 31_536_000;

/// The time to live that the value of `ttl` asks for.
fn ttl_of(value: Option<&Tree>) -> Result<Option<u32>, RegFault>
    ensures ok { IfOk result (λ ttl. ttl_in (option_map (λ t. json_of t.now) value.entry) ≡ Some ttl) }
    ensures fault { IfErr result (λ e. (e ≡ Ttl) × (ttl_in (option_map (λ t. json_of t.now) value.entry) ≡ None)) }
{
    match value {
        None => Ok(None),
        Some(Tree::Int(seconds)) => {
            if 1 <= *seconds && *seconds <= LONGEST_TTL {
                Ok(Some(*seconds as u32))
            } else {
                Err(RegFault::Ttl)
            }
        }
        Some(_) => Err(RegFault::Ttl),
    }
}

/// The time to live that a description asks for.
pub fn asked_ttl(tree: &Tree) -> Result<Option<u32>, RegFault>
    ensures ok { IfOk result (λ ttl. spec.asked_ttl (json_of tree.now) ≡ Some ttl) }
    ensures fault { IfErr result (λ e. (e ≡ Ttl) × (spec.asked_ttl (json_of tree.now) ≡ None)) }
{
    match tree.member(REGISTRATION) {
        None => Ok(None),
        Some(Tree::Obj(members)) => ttl_of(members.value_under(TTL)),
        Some(_) => Err(RegFault::Ttl),
    }
}

/// A description but for its registration information.
pub fn without_registration(tree: Tree) -> Tree
    ensures { json_of result ≡ spec.without_registration (json_of tree) }
{
    match tree {
        Tree::Obj(members) => Tree::Obj(without_member_registration(members)),
        other => other,
    }
}

/// Members but for the registration information.
fn without_member_registration(members: Members) -> Members
    ensures { result ≡ without_member (codes "registration") members }
{
    let mut list = members.into_vec();
    list.retain(|member| member.0.as_str() != REGISTRATION);
    Members::from_vec(list)
}

/// Puts a date and time at the end.
fn put_moment(alloc: Global, members: &mut Members, name: &str, at: u64) -> Result<(), NoMemory>
    requires { AreOrdered (members.old ++ (name.now, string (dates.date_text at)) ∷ []) }
    ensures { OnOk result (members.new ≡ members.old ++ (name.now, string (dates.date_text at)) ∷ []) }
{
    let date = Tree::Text(date_text(alloc, at)?);
    let name = Text::copy_of(alloc, name)?;
    members.push(name, date)
}

/// Puts a time to live at the end.
fn put_ttl(alloc: Global, members: &mut Members, seconds: u32) -> Result<(), NoMemory>
    requires { AreOrdered (members.old ++ (codes "ttl", integer (pos seconds)) ∷ []) }
    ensures { OnOk result (members.new ≡ members.old ++ (codes "ttl", integer (pos seconds)) ∷ []) }
{
    let name = Text::copy_of(alloc, TTL)?;
    members.push(name, Tree::Int(i64::from(seconds)))
}

/// Puts the times of an entry without a time to live.
fn say_lasting(
    alloc: Global,
    epoch: u64,
    times: &Times,
    members: &mut Members,
) -> Result<(), NoMemory>
    requires bound { epoch ≤ last_millisecond }
    requires empty { members.old ≡ [] }
    ensures { OnOk result (members.new ≡ said_of epoch times.now None) }
{
    put_moment(alloc, members, "created", epoch + times.created())?;
    put_moment(alloc, members, "modified", epoch + times.modified())
}

/// Puts the times of an entry with this time to live.
fn say_passing(
    alloc: Global,
    epoch: u64,
    times: &Times,
    seconds: u32,
    members: &mut Members,
) -> Result<(), NoMemory>
    requires bound { epoch ≤ last_millisecond }
    requires empty { members.old ≡ [] }
    ensures { OnOk result (members.new ≡ said_of epoch times.now (Some seconds)) }
{
    put_moment(alloc, members, "created", epoch + times.created())?;
    put_moment(
        alloc,
        members,
        "expires",
        epoch + (times.modified() + 1_000 * u64::from(seconds)),
    )?;
    put_moment(alloc, members, "modified", epoch + times.modified())?;
    put_ttl(alloc, members, seconds)
}

/// A value that has this registration information and no other members.
fn registered(alloc: Global, said: Members) -> Result<Tree, NoMemory>
    ensures { IfOk result (λ t. json_of t ≡ registered_as said) }
{
    let name = Text::copy_of(alloc, REGISTRATION)?;
    let mut members = Members::new(alloc);
    members.push(name, Tree::Obj(said))?;
    Ok(Tree::Obj(members))
}

/// The registration information of an entry.
fn said(alloc: Global, epoch: u64, times: &Times) -> Result<Tree, NoMemory>
    requires { epoch ≤ last_millisecond }
    ensures { IfOk result (λ t. json_of t ≡ registered_as (said_of epoch times.now times.now.ttl)) }
{
    let mut members = Members::new(alloc);
    match times.ttl() {
        Some(seconds) => say_passing(alloc, epoch, times, seconds, &mut members)?,
        None => say_lasting(alloc, epoch, times, &mut members)?,
    }
    registered(alloc, members)
}

/// A description as it is given out.
pub fn show(
    alloc: Global,
    epoch: u64,
    times: Option<&Times>,
    description: &Tree,
) -> Result<Tree, NoMemory>
    requires { epoch ≤ last_millisecond }
    ensures { IfOk result (λ t. json_of t ≡ shown epoch (option_map (λ t. t.now) times.entry) (json_of description.now)) }
{
    match times {
        Some(times) => {
            let said = said(alloc, epoch, times)?;
            merge_patch(alloc, description, &said)
        }
        None => copy(alloc, description),
    }
}

/// A kept description as a patch is applied to it.
pub fn patched_from(alloc: Global, ttl: Option<u32>, kept: &Tree) -> Result<Tree, NoMemory>
    ensures { IfOk result (λ t. json_of t ≡ with_ttl ttl (json_of kept.now)) }
{
    match ttl {
        Some(seconds) => {
            let mut members = Members::new(alloc);
            put_ttl(alloc, &mut members, seconds)?;
            let asked = registered(alloc, members)?;
            merge_patch(alloc, kept, &asked)
        }
        None => copy(alloc, kept),
    }
}
