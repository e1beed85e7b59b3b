//! Whether a value may be handed in to an operation, and whether it may come back.
//!
//! ```text
//! given JSON                                  members of a description, beside those that each has to have
//! input|output OPERATION NAME VALUE => ..     accepted or refused; `-` for no value
//! ```

ghost use Rattle.std.specs.Prelude.{IsTrue};
ghost use Rattle.wot_json.specs.Meaning.{json_of};
ghost use Rattle.wot_terms.specs.Faults.{IsValid};
ghost use Rattle.wot_consumer.specs.Operations.{is_consumed};
ghost use Rattle.wot_consumer.specs.Judgement.{HasAffordance};

use crate::descriptions::{description_of, op_of, value_of};
use std::alloc::{AllocError, Global};
use std::fmt::Write;
use wot_consumer::{ChooseFault, choose, judge_input, judge_output};
use wot_json::Tree;
use wot_terms::Op;

/// A value that is judged, in words.
#[derive(Clone, Copy)]
struct Row<'a> {
    direction: &'a str,
    name: &'a str,
    value: &'a str,
}

/// The judgement of a value.
fn judged(
    alloc: Global,
    tree: &Tree,
    op: Op,
    row: Row<'_>,
    value: Option<&Tree>,
) -> Result<bool, AllocError>
    requires valid { IsValid (json_of tree.now) }
    requires consumed { IsTrue (is_consumed op) }
    requires affordance { HasAffordance (json_of tree.now) op row.name.now }
{
    match row.direction {
        "input" => judge_input(alloc, tree, op, row.name, value),
        _ => judge_output(alloc, tree, op, row.name, value),
    }
}

/// Writes the judgement of a value in words.
fn put_judged(
    text: &mut String,
    alloc: Global,
    tree: &Tree,
    op: Op,
    row: Row<'_>,
) -> Result<(), AllocError>
    requires valid { IsValid (json_of tree.now) }
    requires consumed { IsTrue (is_consumed op) }
    requires affordance { HasAffordance (json_of tree.now) op row.name.now }
{
    let value = value_of(alloc, row.value.as_bytes())?;
    let accepted = judged(alloc, tree, op, row, value.as_ref())?;
    text.push_str(if accepted { "accepted" } else { "refused" })
}

/// Writes the judgement of a row where the description has the affordance, as a choice among its forms shows.
fn put_row(
    text: &mut String,
    alloc: Global,
    tree: &Tree,
    op: Op,
    row: Row<'_>,
) -> Result<(), AllocError>
    requires valid { IsValid (json_of tree.now) }
    requires consumed { IsTrue (is_consumed op) }
{
    match choose(alloc, tree, op, row.name, None) {
        Ok(_) => put_judged(text, alloc, tree, op, row),
        Err(ChooseFault::NoMemory) => Err(AllocError),
        Err(fault) => write!(text, "{fault}"),
    }
}

/// Writes what comes of a row over the description with these members.
pub fn put(text: &mut String, alloc: Global, members: &str, given: &str) -> Result<(), AllocError> {
    let mut fields = given.splitn(4, ' ');
    let direction = fields.next().unwrap_or("");
    let op = op_of(fields.next().unwrap_or(""));
    let name = fields.next().unwrap_or("");
    let value = fields.next().unwrap_or("-");
    let row = Row {
        direction,
        name,
        value,
    };
    match (description_of(alloc, members)?, op) {
        (Some(tree), Some(op)) => put_row(text, alloc, &tree, op, row),
        _ => text.push_str("no valid description, or no such operation"),
    }
}
