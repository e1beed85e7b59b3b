//! Things as they are exposed: their fit to a rack, and their histories.

ghost use Rattle.std.specs.Prelude.{IfOk};
ghost use Rattle.std.specs.List.{AllByRecursion};
ghost use Rattle.wot_terms.specs.Faults.{IsValid};

use crate::case::Case;
use crate::histories::put_steps;
use cases_notation::{put_histories, put_rows};
use cases_values::Device;
use std::alloc::{AllocError, Global};
use std::fmt::Write;
use thing_core::{ExposeFault, Exposed};
use thing_handler::{Handler, Rack, SHIPPED_SLOTS, Scripted, shipped_in};
use wot_json::{Text, read};
use wot_terms::{Things, check};

/// The Thing of a case; where its description isn't valid, that counts as out of memory.
fn things_of(alloc: Global, segment: &str, description: &str) -> Result<Things, AllocError>
    ensures { IfOk result (λ things. AllByRecursion (λ t. IsValid t.1) things) }
{
    let tree = match read(alloc, description.as_bytes()) {
        Ok(tree) => tree,
        Err(_) => return Err(AllocError),
    };
    if check(alloc, &tree).is_err() {
        return Err(AllocError);
    }
    let mut things = Things::new(alloc);
    things.push(Text::copy_of(alloc, segment)?, tree)?;
    Ok(things)
}

/// Writes the cause for which Things don't fit a rack.
fn put_fault(text: &mut String, fault: &ExposeFault) -> Result<(), AllocError> {
    match fault {
        ExposeFault::NoSlot(segment, pointer) => write!(text, "no slot {segment} {pointer}")?,
        ExposeFault::KindDiffers(segment, pointer) => {
            write!(text, "another kind {segment} {pointer}")?;
        }
        ExposeFault::SlotTwice(segment, pointer) => write!(text, "taken {segment} {pointer}")?,
        ExposeFault::NoMemory => {}
    }
    write!(text, "; {fault}")
}

/// Writes a case whose Things don't fit, so that each step says that.
fn put_unfit(text: &mut String, fault: &ExposeFault, block: &str) -> Result<(), AllocError> {
    put_rows(text, block, |text, _step| put_fault(text, fault))
}

/// The handler of a device.
fn scripted(alloc: Global, device: Device) -> Scripted {
    let Device { kind, answers } = device;
    Scripted::new(alloc, kind, answers)
}

/// Exposes the Thing of a case, and writes what comes of its steps.
fn put_exposed(
    text: &mut String,
    alloc: Global,
    case: Case,
    block: &str,
) -> Result<(), AllocError> {
    let Case {
        segment,
        description,
        slots,
        devices,
        left_out,
        ..
    } = case;
    let things = things_of(alloc, segment.as_str(), description.as_str())?;
    let mut list: Vec<Box<dyn Handler>> = Vec::new(alloc);
    let is_shipped = devices.is_empty();
    for device in devices {
        list.push(Box::new(alloc, scripted(alloc, device))?)?;
    }
    for slot in 0..SHIPPED_SLOTS {
        if is_shipped {
            list.push(Box::new(alloc, shipped_in(alloc, slot))?)?;
        }
    }
    if list.len() > SHIPPED_SLOTS {
        return Err(AllocError);
    }
    let mut rack = Rack::new(alloc, list);
    match Exposed::new(alloc, things, &slots, &rack, left_out) {
        Ok(exposed) => {
            let mut exposed = exposed;
            put_steps(text, alloc, &mut exposed, &mut rack, block)
        }
        Err(fault) => put_unfit(text, &fault, block),
    }
}

/// Takes the lines of a case that are no steps.
fn take(case: &mut Case, block: &str) -> Result<(), AllocError> {
    for line in block.lines() {
        if !line.contains(" => ") {
            case.take(line)?;
        }
    }
    Ok(())
}

/// Writes a case with what comes of its steps.
fn put_case(
    text: &mut String,
    alloc: Global,
    shared: &mut String,
    block: &str,
) -> Result<(), AllocError> {
    if !block.contains(" => ") {
        shared.push_str(block)?;
        shared.push_str("\n")?;
        for line in block.lines() {
            writeln!(text, "{line}")?;
        }
        return Ok(());
    }
    let mut case = Case::new(alloc);
    take(&mut case, block)?;
    take(&mut case, shared.as_str())?;
    put_exposed(text, alloc, case, block)
}

/// Writes the cases of a file, each with what comes of its steps. The lines of a case without steps count for each that
/// comes after it.
///
/// # Errors
///
/// Out of memory alone.
pub fn put_cases(text: &mut String, alloc: Global, lines: &str) -> Result<(), AllocError> {
    let mut shared = String::new(alloc);
    put_histories(
        text,
        lines,
        |text, block| put_case(text, alloc, &mut shared, block),
    )
}
