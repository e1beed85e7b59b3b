//! The reasons for which a request is refused in every state of the Things.

ghost use Rattle.std.specs.Prelude.{◌≡◌, ◌↔◌, option_map, option_and_then, ◌⊎◌, Some, None, IfOk, IfErr, OnOk, IsTrue};
ghost use Rattle.wot_json.specs.Reading.{tree_of};
ghost use Rattle.wot_json.specs.Tree.{members_of};
ghost use Rattle.wot_json.specs.Meaning.{json_of};
ghost use Rattle.thing_ops.specs.Requests.{request_seen};
ghost use Rattle.thing_site.specs.Refusals as refusal;
ghost use Rattle.thing_site.specs.HandedIn.{AreInputsTaken, AreInputsRefused, HasNoInputs, IsRefusedByRequest, IsUnrefused};

use crate::formats::{AnswerFormat, BodyFormat, judge_formats};
use crate::{HeldThing, Input, Spot, ThingAct};
use std::alloc::Global;
use thing_ops::{Outcome, Request};
use wot_json::{Members, ReadFault, Tree, read};
use wot_schema::Schema;
use wot_terms::Kind;

/// The most bytes that the text of a value may have that is handed in or comes back.
pub const LONGEST_VALUE: usize = 1024;

/// Reads what a request hands in to an act, where nothing is against it that needs no state; else the outcome: it
/// isn't acceptable, or its body has another format, isn't as it should be, is too long or refused by a schema, in this
/// order; or it is out of memory.
pub fn judge<'a>(
    alloc: Global,
    act: &ThingAct<'a>,
    request: &Request<'_>,
) -> Result<Vec<Input<'a>>, Outcome>
    ensures ok { IfOk result (λ inputs. IsUnrefused act.now (request_seen request.now) inputs.items) }
    ensures fault { IfErr result (λ o. IsRefusedByRequest act.now (request_seen request.now) o) }
{
    let (answer, body) = formats_of(act);
    judge_formats(answer, body, request)?;
    let inputs = inputs_of(alloc, act, request.body)?;
    judge_inputs(inputs.as_slice())?;
    Ok(inputs)
}

/// The formats of an act: that of its answer, and that of its body.
fn formats_of(act: &ThingAct<'_>) -> (AnswerFormat, BodyFormat)
    ensures answer { result.0 ≡ refusal.answer_format act.now }
    ensures body { result.1 ≡ refusal.body_format act.now }
{
    match act {
        ThingAct::Describes(_) => (AnswerFormat::Description, BodyFormat::Description),
        ThingAct::ReadsAll(_)
        | ThingAct::Reads(_)
        | ThingAct::Invokes(_)
        | ThingAct::Queries(_, _)
        | ThingAct::ReadsEvent(_)
        | ThingAct::Waits(_) => (AnswerFormat::Json, BodyFormat::Json),
        ThingAct::WritesMany(_) | ThingAct::Writes(_) | ThingAct::Cancels(_, _) => (
            AnswerFormat::Any,
            BodyFormat::Json,
        ),
    }
}

/// Reads what a body hands in to an act.
fn inputs_of<'a>(alloc: Global, act: &ThingAct<'a>, body: &[u8]) -> Result<Vec<Input<'a>>, Outcome>
    ensures ok { IfOk result (λ inputs. refusal.inputs_of act.now body.now ≡ Some inputs.items) }
    ensures fault { IfErr result (λ o. HasNoInputs (refusal.inputs_of act.now body.now) o) }
{
    match act {
        ThingAct::WritesMany(thing) => object_inputs(alloc, thing.thing(), body),
        ThingAct::Writes(spot) => one_input(alloc, spot, body),
        ThingAct::Invokes(spot) => invoke_inputs(alloc, spot, body),
        ThingAct::Describes(_)
        | ThingAct::ReadsAll(_)
        | ThingAct::Reads(_)
        | ThingAct::Queries(_, _)
        | ThingAct::Cancels(_, _)
        | ThingAct::ReadsEvent(_)
        | ThingAct::Waits(_) => no_inputs(alloc, body),
    }
}

/// An act that takes no body has no inputs, where there is none.
fn no_inputs<'a>(alloc: Global, body: &[u8]) -> Result<Vec<Input<'a>>, Outcome>
    ensures ok { IfOk result (λ inputs. refusal.no_inputs body.now ≡ Some inputs.items) }
    ensures fault { IfErr result (λ o. HasNoInputs (refusal.no_inputs body.now) o) }
{
    if body.is_empty() {
        Ok(Vec::new(alloc))
    } else {
        Err(Outcome::BadValue)
    }
}

/// Reads what is handed in to an action, which takes a body exactly where it has an input schema.
fn invoke_inputs<'a>(alloc: Global, spot: &Spot<'a>, body: &[u8]) -> Result<Vec<Input<'a>>, Outcome>
    ensures ok { IfOk result (λ inputs. refusal.invoke_inputs spot.now spot.now.affordance.input body.now ≡ Some inputs.items) }
    ensures fault { IfErr result (λ o. HasNoInputs (refusal.invoke_inputs spot.now spot.now.affordance.input body.now) o) }
{
    match &spot.affordance().input {
        Some(_) => one_input(alloc, spot, body),
        None => no_inputs(alloc, body),
    }
}

/// Reads a body that is one value.
fn one_input<'a>(alloc: Global, spot: &Spot<'a>, body: &[u8]) -> Result<Vec<Input<'a>>, Outcome>
    ensures ok { IfOk result (λ inputs. option_map (refusal.only_input spot.now) (tree_of body.now) ≡ Some inputs.items) }
    ensures fault { IfErr result (λ o. HasNoInputs (option_map (refusal.only_input spot.now) (tree_of body.now)) o) }
{
    let value = value_in(alloc, body)?;
    // The same again: a Model on a struct that borrows rules out `Copy`.
    let spot = Spot {
        affordance: spot.affordance,
        slot: spot.slot,
    };
    let mut inputs = Vec::with_capacity(alloc, 1)?;
    inputs.push_reserved(Input::of(alloc, spot, value)?);
    Ok(inputs)
}

/// The value that a body is, where it is a JSON text; else the outcome.
pub fn value_in(alloc: Global, body: &[u8]) -> Result<Tree, Outcome>
    ensures ok { IfOk result (λ value. tree_of body.now ≡ Some (json_of value)) }
    ensures fault { IfErr result (λ o. (o ≡ Outcome.Memory) ⊎ ((tree_of body.now ≡ None) × (o ≡ Outcome.BadValue))) }
{
    match read(alloc, body) {
        Ok(value) => Ok(value),
        Err(ReadFault::NoMemory) => Err(Outcome::Memory),
        Err(ReadFault::NotJson) | Err(ReadFault::TooDeep) | Err(ReadFault::NotInteger(_)) => {
            Err(Outcome::BadValue)
        }
    }
}

/// Reads a body that is an object whose members name properties that may be written.
fn object_inputs<'a>(
    alloc: Global,
    thing: &'a HeldThing,
    body: &[u8],
) -> Result<Vec<Input<'a>>, Outcome>
    ensures ok { IfOk result (λ inputs. option_and_then (refusal.object_inputs thing.now) (tree_of body.now) ≡ Some inputs.items) }
    ensures fault { IfErr result (λ o. HasNoInputs (option_and_then (refusal.object_inputs thing.now) (tree_of body.now)) o) }
{
    let value = value_in(alloc, body)?;
    match value {
        Tree::Obj(members) => member_inputs(alloc, thing, members),
        Tree::Null | Tree::Bool(_) | Tree::Int(_) | Tree::Text(_) | Tree::List(_) => {
            Err(Outcome::BadValue)
        }
    }
}

/// The values that the members of an object hand in.
fn member_inputs<'a>(
    alloc: Global,
    thing: &'a HeldThing,
    members: Members,
) -> Result<Vec<Input<'a>>, Outcome>
    ensures ok { IfOk result (λ inputs. refusal.member_inputs thing.now (members_of members) ≡ Some inputs.items) }
    ensures fault { IfErr result (λ o. HasNoInputs (refusal.member_inputs thing.now (members_of members)) o) }
{
    let mut inputs = Vec::new(alloc);
    for (name, value) in members.into_vec() {
        let spot = match writable(thing, name.as_str().as_bytes()) {
            Some(spot) => spot,
            None => return Err(Outcome::BadValue),
        };
        inputs.reserve(1)?;
        inputs.push_reserved(Input::of(alloc, spot, value)?);
    }
    Ok(inputs)
}

/// The property of this name that may be written.
fn writable<'a>(thing: &'a HeldThing, name: &[u8]) -> Option<Spot<'a>>
    ensures { result ≡ refusal.written_property thing.now name.now }
{
    match thing.affordance(Kind::Property, name) {
        Some(spot) => {
            if spot.affordance().read_only {
                None
            } else {
                Some(spot)
            }
        }
        None => None,
    }
}

/// Judges what is handed in: no value is longer than is taken, and no schema refuses one.
fn judge_inputs(inputs: &[Input<'_>]) -> Result<(), Outcome>
    ensures ok { OnOk result (AreInputsTaken inputs.now) }
    ensures fault { IfErr result (λ o. AreInputsRefused inputs.now o) }
{
    for input in inputs {
        if LONGEST_VALUE < input.text.len() {
            return Err(Outcome::TooLarge);
        }
    }
    for input in inputs {
        if !is_accepted(&input.spot.affordance().input, &input.value) {
            return Err(Outcome::BadValue);
        }
    }
    Ok(())
}

/// The schema accepts the value, or there is none.
pub fn is_accepted(schema: &Option<Schema>, value: &Tree) -> bool
    ensures { IsTrue result ↔ refusal.IsAccepted schema.now (json_of value.now) }
{
    match schema {
        Some(schema) => schema.accepts(value),
        None => true,
    }
}
