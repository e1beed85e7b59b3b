//! The faults of a description, and their places.

ghost use Rattle.std.specs.Prelude.{◌≡◌, ◌≢◌, ◌++◌, ◌∷◌, [], if◌then◌else◌};
ghost use Rattle.wot_terms.specs.Faults.{here, in_member, in_element, Places};
ghost use Rattle.wot_terms.specs.Rows.{IsFinding};

use servient_base::NoMemory;
use std::alloc::Global;
use thiserror::Error;
use wot_json::{Text, through_element, through_member};

/// The first fault of a description.
#[derive(Debug, Drop, Error)]
#[error("the description does not meet condition {number} at `{pointer}`")]
pub struct TdFault {
    /// The number of the row of conditions that is not met.
    pub number: u8,
    /// The JSON Pointer (RFC 6901) to the place.
    pub pointer: Text,
}

/// The reason for which a tree is no description that this product takes.
#[derive(Debug, Drop, Error)]
pub enum CheckFault {
    /// The first fault.
    #[error("{0}")]
    Td(TdFault),
    /// Out of memory.
    #[error("out of memory")]
    NoMemory,
}

/// The reason for which a part does not meet a row of the table.
#[derive(Debug, Drop)]
pub(crate) enum RowFault {
    /// The place, seen from the part.
    At(Text),
    NoMemory,
}

impl From<NoMemory> for RowFault {
    ghost use Rattle.std.specs.Prelude.{◌≡◌};
    ghost use Rattle.wot_terms.specs.declared.fault.RowFault.TheVariants as fault;

    ghost from_gives = { λ _ e. e ≡ fault.NoMemory };

    fn from(_: NoMemory) -> Self {
        RowFault::NoMemory
    }
}

/// The finding of a part: nothing where it meets the row.
pub(crate) type Finding = Result<(), RowFault>;

/// Reports that the part itself does not meet the row.
pub(crate) fn wrong(alloc: Global) -> Finding
    ensures ok { IsFinding here result }
    ensures takes_no_memory { result ≢ Err RowFault.NoMemory }
{
    Err(RowFault::At(Text::from_string(String::new(alloc))))
}

/// Reports that the part itself does not meet the row, unless it passes a test.
pub(crate) fn wrong_unless(alloc: Global, passes: bool) -> Finding
    ensures ok { IsFinding (if passes then [] else here) result }
    ensures takes_no_memory { result ≢ Err RowFault.NoMemory }
{
    if passes { Ok(()) } else { wrong(alloc) }
}

/// Reports that the member of this name is missing.
pub(crate) fn missing(alloc: Global, name: &str) -> Finding
    ensures { IsFinding (in_member name.now here) result }
{
    in_member(alloc, name, wrong(alloc))
}

/// The finding of a member, with its place seen from the object.
#[tactic(auto, using(crate::proofs::Findings::some_places))]
pub(crate) fn in_member(alloc: Global, name: &str, finding: Finding) -> Finding
    ensures { (places : Places) → IsFinding places finding → IsFinding (in_member name.now places) result }
{
    match finding {
        Err(RowFault::At(place)) => {
            let place = through_member(alloc, name, place.as_str())?;
            Err(RowFault::At(place))
        }
        Err(RowFault::NoMemory) => Err(RowFault::NoMemory),
        Ok(()) => Ok(()),
    }
}

/// The finding of an element, with its place seen from the list.
#[tactic(auto, using(crate::proofs::Findings::some_places))]
pub(crate) fn in_element(alloc: Global, index: usize, finding: Finding) -> Finding
    ensures { (places : Places) → IsFinding places finding → IsFinding (in_element index places) result }
{
    match finding {
        Err(RowFault::At(place)) => {
            let place = through_element(alloc, index, place.as_str())?;
            Err(RowFault::At(place))
        }
        Err(RowFault::NoMemory) => Err(RowFault::NoMemory),
        Ok(()) => Ok(()),
    }
}
