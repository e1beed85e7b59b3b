//! The members of a plan that its definition doesn't know.

ghost use Rattle.std.specs.Prelude.{◌≡◌, ◌++◌, [], ◌∷◌, map, IfOk, OnOk, if◌then◌else◌};
ghost use Rattle.std.specs.List.{list_any};
ghost use Rattle.std.specs.Str.{bytes_eq};
ghost use Rattle.wot_json.specs.Meaning.{json_of, json_members};
ghost use Rattle.wot_json.specs.Merge.{members_under};
ghost use Rattle.servient_plan.specs.Plan as spec;

use crate::UnknownMembers;
use std::alloc::Global;
use wot_json::{NoMemory, Text, Tree};

/// The members that a plan has. A member that comes later joins them.
const MEMBERS: [&str; 14] = [
    "name",
    "id",
    "http",
    "coap",
    "model",
    "models",
    "bindings",
    "optional",
    "instance",
    "slots",
    "exchanges",
    "epoch",
    "versions",
    "listen",
];

/// The names of the members of a tree that no plan has, in their order.
pub(crate) fn unknown_in(alloc: Global, tree: &Tree) -> Result<UnknownMembers, NoMemory>
    ensures { IfOk result (λ names. names ≡ spec.unknown_in (members_under (json_of tree.now))) }
{
    match tree {
        Tree::Obj(members) => unknown_among(alloc, members.as_slice()),
        _ => Ok(UnknownMembers::new(alloc)),
    }
}

/// The names of these members that no plan has.
fn unknown_among(alloc: Global, members: &[(Text, Tree)]) -> Result<UnknownMembers, NoMemory>
    ensures { IfOk result (λ names. names ≡ spec.unknown_in (json_members members.now)) }
{
    let mut names = UnknownMembers::new(alloc);
    for (name, _) in members {
        push_unknown(alloc, &mut names, name)?;
    }
    Ok(names)
}

/// Puts a name at the end, if no plan has a member of that name.
fn push_unknown(alloc: Global, names: &mut UnknownMembers, name: &Text) -> Result<(), NoMemory>
    ensures { OnOk result (names.new ≡ names.old ++ (if spec.is_unknown name.now then name.now ∷ [] else [])) }
{
    if is_unknown(name.as_str()) {
        names.push(Text::copy_of(alloc, name.as_str())?)?;
    }
    Ok(())
}

/// No plan has a member of this name.
fn is_unknown(name: &str) -> bool
    ensures { result ≡ spec.is_unknown name.now }
{
    !is_among(name, &MEMBERS)
}

/// The name is one of these.
fn is_among(name: &str, names: &[&str]) -> bool
    ensures { result ≡ list_any (λ other. bytes_eq name.now other) (map (λ s. s.now) names.now) }
{
    for other in names {
        if name == *other {
            return true;
        }
    }
    false
}
