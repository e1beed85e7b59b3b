//! Reads of properties: of one, or of all of a Thing.

ghost use Rattle.std.specs.Prelude.{◌≡◌, ◌≤◌, ◌<◌, ◌+◌, ◌++◌, ◌∷◌, [], length, vec_len, vec_capacity, IfOk, IfSome, OnOk};
ghost use Rattle.std.specs.List.{filter};
ghost use Rattle.wot_json.specs.Json.{json_string};
ghost use Rattle.thing_site.specs.Site.{of_kind};
ghost use Rattle.thing_core.specs.Thing.{is_readable, read_outcome, readable, Reads, ReadsEach};
ghost use Rattle.thing_core.specs.Performing.{with_member, room_of_all, AllStand, IsValueOf, MakesDone, OrMemory, ReadsOne};
ghost use Rattle.thing_state.specs.Calls.{CallsFor};

use crate::NoMemory;
use crate::field::Field;
use std::alloc::Global;
use thing_handler::{Answer, CallKind, Handlers};
use thing_ops::{Conditions, Outcome};
use thing_site::{HeldThing, LONGEST_VALUE, Spot};
use thing_state::{Machine, call, failure, taken_text};
use wot_json::{Bytes, Tree};
use wot_terms::Kind;

/// The bytes of an object without members: its braces.
const BRACES: usize = 2;

/// The bytes of a member besides its name and its value: a comma and a colon.
const SIGNS: usize = 2;

/// Reads a property, and judges it by the version that it then has. The room for its text is taken before the call, so
/// that an answer takes no more memory.
pub fn read<R: Handlers>(
    alloc: Global,
    spot: Spot<'_>,
    conditions: &Conditions,
    machine: &mut Machine,
    rack: &mut R,
) -> Outcome
    requires { spot.slot < length (R.slots rack.old) }
    ensures { MakesDone (OrMemory (Reads spot.entry conditions.now)) result machine.old machine.new (R.slots rack.old) (R.slots rack.new) }
{
    let room = match Vec::with_capacity(alloc, LONGEST_VALUE) {
        Ok(room) => room,
        Err(_) => return Outcome::Memory,
    };
    let value = match read_value(&spot, machine, rack) {
        Ok(value) => value,
        Err(outcome) => return outcome,
    };
    let mut buffer = [0; LONGEST_VALUE];
    match taken_text(&spot.affordance().output, &value, &mut buffer) {
        Some(text) => {
            let version = machine.see(spot.slot(), text);
            judged(conditions, version, room, text)
        }
        None => Outcome::BadAnswer,
    }
}

/// The outcome of reading a property at this version, with this text, for which there is this room.
fn judged(conditions: &Conditions, version: u32, mut room: Vec<u8>, text: &[u8]) -> Outcome
    requires empty { room.items ≡ [] }
    requires room { length text.now ≤ vec_capacity room }
    ensures { result ≡ read_outcome conditions.now version text.now }
{
    if conditions.fails(version) {
        Outcome::PreconditionFailed
    } else if conditions.known.has(version) {
        Outcome::NotModified(version)
    } else {
        room.extend_from_slice(text).unwrap();
        Outcome::Content {
            text: Bytes::from_vec(room),
            tag: Some(version),
        }
    }
}

/// The value that a property's device gives, or the outcome of the request where it gives none.
fn read_value<R: Handlers>(
    spot: &Spot<'_>,
    machine: &mut Machine,
    rack: &mut R,
) -> Result<Tree, Outcome>
    requires { spot.now.slot < length (R.slots rack.old) }
    ensures { CallsFor (λ called. IsValueOf called result) spot.now.slot CallKind.Read machine.old machine.new (R.slots rack.old) (R.slots rack.new) }
{
    match call(machine, rack, spot.slot(), &CallKind::Read) {
        Ok(answer) => {
            let failed = failure(&answer);
            // For the proof: an answer that was lent is moved before it is taken apart.
            let given = answer;
            match given {
                Answer::Value(value) => Ok(value),
                Answer::Done
                | Answer::Started
                | Answer::Running
                | Answer::Finished(_)
                | Answer::Cancelled
                | Answer::Quiet
                | Answer::Fired(_)
                | Answer::Refused(_)
                | Answer::DeviceFault(_) => Err(failed),
            }
        }
        Err(outcome) => Err(outcome),
    }
}

/// Reads all properties of a Thing that aren't write-only, until one fails. All room is taken before the first call.
pub fn read_all<R: Handlers>(
    alloc: Global,
    thing: &HeldThing,
    machine: &mut Machine,
    rack: &mut R,
) -> Outcome
    requires { AllStand (length (R.slots rack.old)) thing.now.affordances }
    ensures { MakesDone (OrMemory (ReadsEach (readable thing.now) [])) result machine.old machine.new (R.slots rack.old) (R.slots rack.new) }
{
    let fields = match fields_of(alloc, thing) {
        Ok(fields) => fields,
        Err(_) => return Outcome::Memory,
    };
    match room_for(alloc, fields.as_slice()) {
        Some(text) => read_fields(fields.as_slice(), text, machine, rack),
        None => Outcome::Memory,
    }
}

/// Reads these properties, until one fails, into this room.
fn read_fields<R: Handlers>(
    fields: &[Field<'_>],
    mut text: Vec<u8>,
    machine: &mut Machine,
    rack: &mut R,
) -> Outcome
    requires slots { AllStand (length (R.slots rack.old)) fields.now }
    requires empty { text.items ≡ [] }
    requires len { vec_len text ≡ 0 }
    requires room { room_of_all fields.now ≤ vec_capacity text }
    ensures { MakesDone (ReadsEach fields.now []) result machine.old machine.new (R.slots rack.old) (R.slots rack.new) }
{
    text.push_reserved(b'{');
    for field in fields {
        match read_one(field, &mut text, machine, rack) {
            None => {}
            Some(outcome) => return outcome,
        }
    }
    text.push_reserved(b'}');
    Outcome::Content {
        text: Bytes::from_vec(text),
        tag: None,
    }
}

/// Reads a property, and puts it after the others into the text of an object; or the outcome where that fails.
fn read_one<R: Handlers>(
    field: &Field<'_>,
    text: &mut Vec<u8>,
    machine: &mut Machine,
    rack: &mut R,
) -> Option<Outcome>
    requires slot { field.now.slot < length (R.slots rack.old) }
    requires room { vec_len text.old + length (json_string field.now.affordance.name) + LONGEST_VALUE + 2 ≤ vec_capacity text.old }
    ensures read { ReadsOne field.now result text.old.items text.new.items machine.old machine.new (R.slots rack.old) (R.slots rack.new) }
    ensures pending { machine.new.pending ≡ machine.old.pending }
    ensures slots { length (R.slots rack.new) ≡ length (R.slots rack.old) }
    ensures len { vec_len text.new ≤ vec_len text.old + length (json_string field.now.affordance.name) + LONGEST_VALUE + 2 }
    ensures places { vec_capacity text.old ≤ vec_capacity text.new }
{
    let property = field.spot();
    let value = match read_value(property, machine, rack) {
        Ok(value) => value,
        Err(outcome) => return Some(outcome),
    };
    let mut buffer = [0; LONGEST_VALUE];
    match taken_text(&property.affordance().output, &value, &mut buffer) {
        Some(value) => {
            let _version = machine.see(property.slot(), value);
            put_member(text, field.name(), value);
            None
        }
        None => Some(Outcome::BadAnswer),
    }
}

/// Puts a member after the others into the text of an object that has no end yet.
fn put_member(text: &mut Vec<u8>, name: &[u8], value: &[u8])
    requires { vec_len text.old + length name.now + length value.now + 2 ≤ vec_capacity text.old }
    ensures items { text.new.items ≡ with_member text.old.items name.now value.now }
    ensures len { vec_len text.new ≤ vec_len text.old + length name.now + length value.now + 2 }
    ensures places { vec_capacity text.old ≤ vec_capacity text.new }
{
    if 1 < text.len() {
        text.push_reserved(b',');
    }
    text.extend_from_slice(name).unwrap();
    text.push_reserved(b':');
    text.extend_from_slice(value).unwrap();
}

/// The properties of a Thing to read.
fn fields_of(alloc: Global, thing: &HeldThing) -> Result<Vec<Field<'_>>, NoMemory>
    ensures { IfOk result (λ fields. fields.items ≡ readable thing.now) }
{
    let mut fields = Vec::new(alloc);
    for index in 0..thing.len() {
        // A match and not `let .. else`, since the proof cites that there is no such affordance.
        let spot = match thing.spot(index) {
            Some(spot) => spot,
            None => return Ok(fields),
        };
        push_if_readable(alloc, &mut fields, spot)?;
    }
    Ok(fields)
}

/// Puts a property at the end, where it is read.
fn push_if_readable<'a>(
    alloc: Global,
    fields: &mut Vec<Field<'a>>,
    spot: Spot<'a>,
) -> Result<(), NoMemory>
    ensures { OnOk result (fields.new.items ≡ fields.old.items ++ filter is_readable (filter (of_kind Kind.Property) (spot.entry ∷ []))) }
{
    let is_property = match spot.affordance().kind {
        Kind::Property => true,
        Kind::Action | Kind::Event => false,
    };
    if is_property && !spot.affordance().write_only {
        fields.push(Field::of(alloc, spot)?)?;
    }
    Ok(())
}

/// Room for the text of these properties with their values.
fn room_for(alloc: Global, fields: &[Field<'_>]) -> Option<Vec<u8>>
    ensures empty { IfSome result (λ text. text.items ≡ []) }
    ensures len { IfSome result (λ text. vec_len text ≡ 0) }
    ensures room { IfSome result (λ text. room_of_all fields.now ≤ vec_capacity text) }
{
    match size_of_all(fields) {
        Some(size) => Vec::with_capacity(alloc, size).ok(),
        None => None,
    }
}

/// The most bytes that the text of these properties with their values has, where that is a number of bytes.
fn size_of_all(fields: &[Field<'_>]) -> Option<usize>
    ensures { IfSome result (λ size. size ≡ room_of_all fields.now) }
{
    let mut size = BRACES;
    for field in fields {
        size = match size_with(size, field.name().len()) {
            Some(size) => size,
            None => return None,
        };
    }
    Some(size)
}

/// The size with a further property.
fn size_with(size: usize, name: usize) -> Option<usize>
    ensures { IfSome result (λ all. all ≡ size + (name + (LONGEST_VALUE + 2))) }
{
    match name.checked_add(LONGEST_VALUE + SIGNS) {
        Some(field) => size.checked_add(field),
        None => None,
    }
}
