//! The conditions of a request on the version of a property, by its options (RFC 7252, sections 5.10.6 and 5.10.8). The
//! options are gone over once more only where one of them has a condition.

ghost use Rattle.std.specs.Prelude.{◌≡◌, ◌≤◌, ◌<◌, ◌++◌, ◌∷◌, [], length, filter_map, ◌==◌, ◌&&◌, IfOk, OnOk, IfErr, true};
ghost use Rattle.std.specs.List.{list_any};
ghost use Rattle.coap_opts.specs.Reading.{version_of as version_said, conditions_by};
ghost use Rattle.coap_opts.specs.Found.{asks_for_version, noted_of, noted_then, asked_by as asked_by_noted};

use coap_msg::{ETAG, IF_MATCH, IF_NONE_MATCH, Options, number_of};
use std::alloc::Global;
use thing_ops::{Conditions, NoMemory, Tags, Versions};

/// The most bytes of a version's tag.
const LONGEST_TAG: usize = 4;

/// Notes on some options.
#[derive(Drop)]
pub struct NotedOptions {
    /// One of them is If-Match.
    pub stands: bool,
    /// The versions that the options If-Match say.
    pub matched: Tags,
    /// The versions that the options ETag say.
    pub known: Tags,
    /// One of them is If-None-Match.
    pub absent: bool,
}

/// The conditions of options, where some have one or none has, and where those of ETag count or don't.
#[tactic(auto, using(crate::proofs::NotedOptions::none_ask))]
pub fn read_conditions(
    alloc: Global,
    options: &Options<'_>,
    some_ask: bool,
    counts: bool,
) -> Result<Conditions, NoMemory>
    requires { some_ask ≡ list_any asks_for_version options.now }
    ensures asked { IfOk result (λ c. c ≡ conditions_by counts options.now) }
    ensures memory { IfErr result (λ _. some_ask ≡ true) }
{
    if some_ask {
        conditions_in(alloc, options, counts)
    } else {
        Ok(Conditions::none(alloc))
    }
}

/// The conditions of options.
fn conditions_in(alloc: Global, options: &Options<'_>, counts: bool) -> Result<Conditions, NoMemory>
    ensures { IfOk result (λ c. c ≡ conditions_by counts options.now) }
{
    let mut noted = NotedOptions {
        stands: false,
        matched: Tags::none(alloc),
        known: Tags::none(alloc),
        absent: false,
    };
    note_options(&mut noted, options, counts)?;
    Ok(asked_by(noted))
}

/// Notes options. The notes are lent and not returned, since each early exit costs what a function owns.
fn note_options(
    noted: &mut NotedOptions,
    options: &Options<'_>,
    counts: bool,
) -> Result<(), NoMemory>
    ensures { OnOk result (noted.new ≡ noted_then noted.old (noted_of counts options.now)) }
{
    for (number, value) in options.iter() {
        note_option(noted, number, value, counts)?;
    }
    Ok(())
}

/// Notes one option.
fn note_option(
    noted: &mut NotedOptions,
    number: u16,
    value: &[u8],
    counts: bool,
) -> Result<(), NoMemory>
    ensures { OnOk result (noted.new ≡ noted_then noted.old (noted_of counts ((number, value.now) ∷ []))) }
{
    if number == IF_MATCH {
        noted.stands = true;
        noted.matched.any = noted.matched.any || value.is_empty();
        push_version(&mut noted.matched.list, value)
    } else if is_counted(number, counts) {
        push_version(&mut noted.known.list, value)
    } else {
        noted.absent = noted.absent || number == IF_NONE_MATCH;
        Ok(())
    }
}

/// Whether an option is an ETag that counts. A function of its own, since the proof looks through this test.
fn is_counted(number: u16, counts: bool) -> bool
    ensures { result ≡ ((number == ETAG) && counts) }
{
    number == ETAG && counts
}

/// Puts the version that a value says at the end, if it says one.
fn push_version(versions: &mut Versions, value: &[u8]) -> Result<(), NoMemory>
    ensures { OnOk result (versions.new ≡ versions.old ++ filter_map version_said (value.now ∷ [])) }
{
    match version_of(value) {
        Some(version) => versions.push(version),
        None => Ok(()),
    }
}

/// The version that a value says.
fn version_of(value: &[u8]) -> Option<u32>
    ensures { result ≡ version_said value.now }
{
    if 1 <= value.len() && value.len() <= LONGEST_TAG && value[0] != 0 {
        Some(number_of(value))
    } else {
        None
    }
}

/// The conditions of these notes.
fn asked_by(noted: NotedOptions) -> Conditions
    ensures { result ≡ asked_by_noted noted }
{
    let NotedOptions {
        stands,
        matched,
        known,
        absent,
    } = noted;
    Conditions {
        if_match: if stands { Some(matched) } else { None },
        known,
        absent,
    }
}
