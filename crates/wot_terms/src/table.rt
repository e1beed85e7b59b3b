//! The table of conditions, in the order of its rows.

ghost use Rattle.std.specs.Prelude.{◌≡◌, IfErr, IsOk, OnOk, IsTrue};
ghost use Rattle.wot_json.specs.Tree.{members_of, object};
ghost use Rattle.wot_json.specs.Meaning.{json_of};
ghost use Rattle.wot_terms.specs.Faults.{IsValid, faults_of, IsCheckRefusal};
ghost use Rattle.wot_terms.specs.Rows.{IsFinding, row_places, fault_in};

use crate::affordances::{AffordanceRow, each_affordance, each_form};
use crate::demand::{Demand, optional, required};
use crate::fault::{CheckFault, Finding, RowFault, TdFault};
use crate::forms::FormRow;
use crate::rows::{
    affordance_maps, context, links, root_forms, security, security_definitions, types, version,
};
use std::alloc::Global;
use wot_json::{Members, Text, Tree};

/// The number of rows of the table.
const ROWS: u8 = 18;

/// The description meets all conditions of the table in docs/REFERENCE.md, or the first fault: of the rows in their
/// order, and in a row of the places in preorder, an object in the byte order of its names. A valid description takes
/// no memory; else a pointer is written for the fault that is answered.
pub fn check(alloc: Global, tree: &Tree) -> Result<(), CheckFault>
    ensures ok { OnOk result (IsValid (json_of tree.now)) }
    // Where nothing is wrong it is never out of memory: contracts can't speak of allocations.
    ensures complete { IsValid (json_of tree.now) → IsOk result }
    ensures fault { IfErr result (IsCheckRefusal (faults_of (json_of tree.now))) }
{
    match tree {
        Tree::Obj(root) => check_rows(alloc, root),
        _ => Err(CheckFault::Td(TdFault {
            number: 1,
            pointer: Text::from_string(String::new(alloc)),
        })),
    }
}

/// The first fault of the rows after the first.
fn check_rows(alloc: Global, root: &Members) -> Result<(), CheckFault>
    ensures ok { OnOk result (IsValid (object (members_of root.now))) }
    ensures fault { IfErr result (IsCheckRefusal (faults_of (object (members_of root.now)))) }
{
    for number in 2..ROWS + 1 {
        match row(alloc, number, root) {
            Ok(()) => {}
            Err(fault) => return Err(in_row(number, fault)),
        }
    }
    Ok(())
}

/// The fault of the row of this number.
fn in_row(number: u8, fault: RowFault) -> CheckFault
    ensures { result ≡ fault_in number fault }
{
    match fault {
        RowFault::At(pointer) => CheckFault::Td(TdFault { number, pointer }),
        RowFault::NoMemory => CheckFault::NoMemory,
    }
}

/// The finding of the row of this number. At its end are the sections of TD 1.1 that it is from.
fn row(alloc: Global, number: u8, root: &Members) -> Finding
    ensures { IsFinding (row_places number (members_of root.now)) result }
{
    match number {
        2 => context(alloc, root), // section 5.3.1.1
        3 => required(alloc, root, "title", Demand::Text), // section 5.3.1.1
        4 => security_definitions(alloc, root), // sections 5.3.1.1 and 5.3.3.1
        5 => security(alloc, root), // section 5.3.1.1
        6 => optional(alloc, root, "id", Demand::TextNotEmpty), // section 5.3.1.1
        7 => optional(alloc, root, "base", Demand::Text), // section 5.3.1.1
        8 => types(alloc, root), // section 5.3.1.1
        9 => affordance_maps(alloc, root), // section 5.3.1.1
        10 => each_affordance(alloc, root, AffordanceRow::Forms), // section 5.3.1.2
        11 => root_forms(alloc, root), // section 5.3.1.1
        12 => each_form(alloc, root, FormRow::Href), // section 5.3.4.2
        13 => each_form(alloc, root, FormRow::Operations), // section 5.3.4.2
        14 => each_form(alloc, root, FormRow::Texts), // section 5.3.4.2
        15 => each_affordance(alloc, root, AffordanceRow::Flags), // sections 5.3.1.3, 5.3.1.4 and 5.3.2.1
        16 => each_affordance(alloc, root, AffordanceRow::Schemas), // section 5.3.2
        17 => links(alloc, root), // sections 5.3.1.1 and 5.3.4.1
        18 => version(alloc, root), // sections 5.3.1.1 and 5.3.1.6
        _ => Ok(()),
    }
}
