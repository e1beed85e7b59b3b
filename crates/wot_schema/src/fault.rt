//! The faults of a schema, and the findings of a check.

ghost use Rattle.std.specs.Prelude.{◌≡◌, ◌++◌, List, ℕ, map, Err, IfOk};
ghost use Rattle.wot_schema.specs.Checks.{FindsFirst};
ghost use Rattle.wot_schema.specs.Faults.{wrong_form, unsupported_word, fault_through, faults_in_member, faults_in_element};
ghost use Rattle.wot_schema.specs.declared.fault.SchemaFault.{SchemaFault};

use servient_base::NoMemory;
use std::alloc::Global;
use thiserror::Error;
use wot_json::{Text, through_element, through_member};

/// The reason for which a tree is no schema that this product reads.
#[derive(Debug, Drop, Error)]
pub enum SchemaFault {
    /// A member that is not supported: its JSON Pointer (RFC 6901), and its name, or `number` for a type.
    #[error("`{1}` at `{0}` is not supported")]
    Unsupported(Text, Text),
    /// A value of another form than its place asks for, by its JSON Pointer (RFC 6901).
    #[error("the value at `{0}` has another form than a data schema asks for there")]
    Malformed(Text),
    /// Out of memory.
    #[error("out of memory")]
    NoMemory,
}

impl From<NoMemory> for SchemaFault {
    ghost use Rattle.std.specs.Prelude.{◌≡◌};
    ghost use Rattle.wot_schema.specs.declared.fault.SchemaFault.TheVariants as fault;

    ghost from_gives = { λ _ e. e ≡ fault.NoMemory };

    fn from(_: NoMemory) -> Self {
        SchemaFault::NoMemory
    }
}

/// The finding of a check: nothing, or the first fault, with its place seen from the value that was checked.
pub(crate) type Checked = Result<(), SchemaFault>;

/// Reports that a value has another form than is asked for.
pub(crate) fn malformed(alloc: Global) -> Checked
    ensures { FindsFirst wrong_form result }
{
    Err(SchemaFault::Malformed(Text::from_string(String::new(alloc))))
}

/// Reports that a value is not supported, or is a word that is not.
pub(crate) fn unsupported(alloc: Global, word: &str) -> Checked
    ensures { FindsFirst (unsupported_word word.now) result }
{
    let word = Text::copy_of(alloc, word)?;
    Err(SchemaFault::Unsupported(Text::from_string(String::new(alloc)), word))
}

/// The finding of a member, with its place seen from the object.
pub(crate) fn in_member(alloc: Global, name: &str, found: Checked) -> Checked
    ensures { (faults : List SchemaFault) → FindsFirst faults found → FindsFirst (faults_in_member name.now faults) result }
{
    match found {
        Ok(()) => Ok(()),
        Err(fault) => {
            let step = through_member(alloc, name, "")?;
            through(step, fault)
        }
    }
}

/// The finding of an element, with its place seen from the list.
pub(crate) fn in_element(alloc: Global, index: usize, found: Checked) -> Checked
    ensures { (faults : List SchemaFault) → FindsFirst faults found → FindsFirst (faults_in_element index faults) result }
{
    match found {
        Ok(()) => Ok(()),
        Err(fault) => {
            let step = through_element(alloc, index, "")?;
            through(step, fault)
        }
    }
}

/// A fault that is reached through a step.
fn through(step: Text, fault: SchemaFault) -> Checked
    ensures { (faults : List SchemaFault) → FindsFirst faults (Err fault) → FindsFirst (map (fault_through step) faults) result }
{
    match fault {
        SchemaFault::Malformed(place) => {
            let place = joined(step, place.as_str())?;
            Err(SchemaFault::Malformed(place))
        }
        SchemaFault::Unsupported(place, word) => {
            let place = joined(step, place.as_str())?;
            Err(SchemaFault::Unsupported(place, word))
        }
        SchemaFault::NoMemory => Err(SchemaFault::NoMemory),
    }
}

fn joined(step: Text, place: &str) -> Result<Text, NoMemory>
    ensures { IfOk result (λ t. t ≡ step ++ place.now) }
{
    let mut text = step.into_string();
    text.push_str(place)?;
    Ok(Text::from_string(text))
}
