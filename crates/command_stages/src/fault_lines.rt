//! The lines on the first fault of a derivation, and on an affordance that doesn't fit the rack.

ghost use Rattle.std.specs.Prelude.{◌≡◌, ◌≢◌, ◌++◌, [], ◌∷◌, codes, IfOk, OnOk};
ghost use Rattle.wot_json.specs.Json.{json_string};
ghost use Rattle.command_stages.specs.FaultLines.{field_text, fault_line as line_of, kind_word as word_of, misfit_text, refused_line};
ghost use Rattle.command_stages.specs.Lines.{input_line};

use crate::ending::Ending;
use std::alloc::{AllocError, Global};
use thing_site::ExposeFault;
use tm_derive::DeriveFault;
use tm_resolve::{ResolveFault, ResolveKind};
use wot_json::{Bytes, NoMemory, Text, quoted};

/// The end of a derivation that has this fault first.
pub fn refused(alloc: Global, fault: &DeriveFault) -> Result<Ending, NoMemory>
    ensures line { IfOk result (λ e. (e.status ≡ 5) × (e.text ≡ refused_line fault.now)) }
    ensures known { OnOk result (fault.now ≢ DeriveFault.NoMemory) }
{
    let text = fault_text(alloc, fault)?;
    Ok(Ending { status: 5, text })
}

/// The line on a fault.
fn fault_text(alloc: Global, fault: &DeriveFault) -> Result<Bytes, NoMemory>
    ensures line { IfOk result (λ text. text ≡ refused_line fault.now) }
    ensures known { OnOk result (fault.now ≢ DeriveFault.NoMemory) }
{
    match fault {
        DeriveFault::Resolve(segment, fault) => resolve_text(alloc, segment, fault),
        DeriveFault::Optional(segment, pointer) => {
            one_field(alloc, segment, "optional", pointer)
        }
        DeriveFault::Instance(segment, pointer) => {
            one_field(alloc, segment, "instance", pointer)
        }
        DeriveFault::TwiceInstance(segment, pointer) => {
            one_field(alloc, segment, "twiceinstance", pointer)
        }
        DeriveFault::Unbound(segment, name, pointer) => {
            two_fields(alloc, segment, "unbound", name, pointer)
        }
        DeriveFault::Invalid(segment, found) => {
            let word = format!(in alloc; "invalid {}", found.number)?;
            one_field(alloc, segment, word.as_str(), &found.pointer)
        }
        DeriveFault::NoMemory => Err(AllocError),
    }
}

/// The line on a fault of the value of a model.
fn resolve_text(alloc: Global, segment: &Text, fault: &ResolveFault) -> Result<Bytes, NoMemory>
    ensures { IfOk result (λ text. text ≡ refused_line (DeriveFault.Resolve segment.now fault.now)) }
{
    match fault {
        ResolveFault::At(kind, model, pointer) => {
            two_fields(alloc, segment, kind_word(*kind), model, pointer)
        }
        ResolveFault::NoMemory => Err(AllocError),
    }
}

/// The word for a kind of faults.
fn kind_word(kind: ResolveKind) -> &'static str
    ensures { result.now ≡ word_of kind }
{
    match kind {
        ResolveKind::TooLarge => "toolarge",
        ResolveKind::BadRef => "badref",
        ResolveKind::BadHref => "badhref",
        ResolveKind::MissingModel => "missingmodel",
        ResolveKind::MissingNode => "missingnode",
        ResolveKind::NotObject => "notobject",
        ResolveKind::Circular => "circular",
        ResolveKind::TwoExtends => "twoextends",
        ResolveKind::NotText => "nottext",
        ResolveKind::InName => "inname",
    }
}

/// A line with one field.
fn one_field(alloc: Global, segment: &Text, word: &str, field: &Text) -> Result<Bytes, NoMemory>
    ensures { IfOk result (λ text. text ≡ line_of segment.now word.now (field.now ∷ [])) }
{
    let mut text = line_start(alloc, segment, word)?;
    put_field(alloc, &mut text, field)?;
    text.extend(b"\n")?;
    Ok(text)
}

/// A line with two fields.
fn two_fields(
    alloc: Global,
    segment: &Text,
    word: &str,
    first: &Text,
    second: &Text,
) -> Result<Bytes, NoMemory>
    ensures { IfOk result (λ text. text ≡ line_of segment.now word.now (first.now ∷ second.now ∷ [])) }
{
    let mut text = line_start(alloc, segment, word)?;
    put_field(alloc, &mut text, first)?;
    put_field(alloc, &mut text, second)?;
    text.extend(b"\n")?;
    Ok(text)
}

/// The beginning of a line.
fn line_start(alloc: Global, segment: &Text, word: &str) -> Result<Bytes, NoMemory>
    ensures { IfOk result (λ text. text
        ≡ codes "servient: refused " ++ json_string segment.now ++ codes " " ++ word.now) }
{
    let mut text = Bytes::copy_of(alloc, b"servient: refused ")?;
    text.extend(quoted(alloc, segment.as_str())?.as_slice())?;
    text.extend(b" ")?;
    text.extend(word.as_bytes())?;
    Ok(text)
}

/// Puts a field at the end.
fn put_field(alloc: Global, text: &mut Bytes, field: &Text) -> Result<(), NoMemory>
    ensures { OnOk result (text.new ≡ text.old ++ field_text field.now) }
{
    let field = quoted(alloc, field.as_str())?;
    text.extend(b" ")?;
    text.extend(field.as_slice())
}

/// The end of a plan whose Things don't fit the rack, with this fault first.
pub fn misfit(alloc: Global, name: &str, fault: &ExposeFault) -> Result<Ending, NoMemory>
    ensures line { IfOk result (λ e. (e.status ≡ 4) × (e.text ≡ input_line name.now (misfit_text fault.now))) }
    ensures known { OnOk result (fault.now ≢ ExposeFault.NoMemory) }
{
    match fault {
        ExposeFault::NoSlot(segment, pointer) => {
            misfit_line(alloc, name, b"noslot ", segment, pointer)
        }
        ExposeFault::KindDiffers(segment, pointer) => {
            misfit_line(alloc, name, b"kind ", segment, pointer)
        }
        ExposeFault::SlotTwice(segment, pointer) => {
            misfit_line(alloc, name, b"slottwice ", segment, pointer)
        }
        ExposeFault::NoMemory => Err(AllocError),
    }
}

/// The ending with the line on an affordance that doesn't fit; `word` ends with a blank.
fn misfit_line(
    alloc: Global,
    name: &str,
    word: &[u8],
    segment: &Text,
    pointer: &Text,
) -> Result<Ending, NoMemory>
    ensures { IfOk result (λ e. (e.status ≡ 4) × (e.text
        ≡ input_line name.now (word.now ++ json_string segment.now ++ field_text pointer.now))) }
{
    let mut what = Bytes::copy_of(alloc, word)?;
    what.extend(quoted(alloc, segment.as_str())?.as_slice())?;
    put_field(alloc, &mut what, pointer)?;
    Ending::input_bytes(alloc, name, what.as_slice())
}
