//! The built-in Thing, which is served where no plan is named. It is derived from its one model like any other.

ghost use Rattle.std.specs.Prelude.{◌≡◌, ◌++◌, ◌∷◌, [], codes, IfOk, OnOk};
ghost use Rattle.wot_json.specs.Meaning.{json_of};
ghost use Rattle.servient_plan.specs.Plan.{MayBeServed};
ghost use Rattle.servient_plan.specs.BuiltIn.{built_in_plan, built_in_model as model_of, built_in_slots};

use crate::{ModelFiles, Plan, UnknownMembers};
use std::alloc::{AllocError, Global};
use thing_site::Slots;
use tm_parts::{Bindings, Choices};
use wot_forms::{Bases, Frame};
use wot_json::{NoMemory, Text, Tree, read};

/// The Thing Model, as JSON.
const MODEL: &str =
    "{\"@context\":\"https://www.w3.org/2022/wot/td/v1.1\",\"@type\":\"tm:ThingModel\",\"title\":\"Lamp\",\"properties\":{\"status\":{\"type\":\"integer\",\"minimum\":0,\"maximum\":100,\"observable\":true}},\"actions\":{\"fade\":{\"input\":{\"type\":\"integer\",\"minimum\":0,\"maximum\":100},\"output\":{\"type\":\"integer\"}},\"halt\":{}},\"events\":{\"beat\":{\"data\":{\"type\":\"integer\"}}}}";

impl Plan {
    /// The plan of the built-in Thing.
    pub fn built_in(alloc: Global) -> Result<Plan, NoMemory>
        ensures plan { IfOk result (λ plan. plan ≡ built_in_plan) }
        ensures served { IfOk result MayBeServed }
    {
        let frame = frame(alloc)?;
        Ok(Plan {
            frame,
            root: Text::copy_of(alloc, "https://models.example/builtin.tm.json")?,
            models: ModelFiles::from_vec(Vec::new(alloc)),
            bindings: Bindings::new(alloc),
            choices: Choices::new(alloc),
            slots: slots(alloc)?,
            exchanges: 1024,
            epoch: None,
            versions: 0,
            listen: None,
            unknown: UnknownMembers::new(alloc),
        })
    }

    /// The one model of the built-in Thing.
    pub fn built_in_model(alloc: Global) -> Result<Tree, NoMemory>
        ensures { IfOk result (λ tree. json_of tree ≡ model_of) }
    {
        match read(alloc, MODEL.as_bytes()) {
            Ok(model) => Ok(model),
            Err(_) => Err(AllocError),
        }
    }
}

/// The segment and the `id` of the Thing, and the beginnings of its URLs.
fn frame(alloc: Global) -> Result<Frame, NoMemory>
    ensures { IfOk result (λ frame. frame ≡ built_in_plan.frame) }
{
    let bases = Bases {
        http: Text::copy_of(alloc, "http://127.0.0.1:8080")?,
        coap: Text::copy_of(alloc, "coap://127.0.0.1:5683")?,
    };
    Ok(Frame {
        segment: Text::copy_of(alloc, "lamp")?,
        id: Text::copy_of(alloc, "urn:x:lamp")?,
        bases,
        instance: None,
    })
}

/// The slots of its affordances.
fn slots(alloc: Global) -> Result<Slots, NoMemory>
    ensures { IfOk result (λ slots. slots ≡ built_in_slots) }
{
    let mut slots = Slots::new(alloc);
    give(&mut slots, alloc, "/properties/status", 0)?;
    give(&mut slots, alloc, "/actions/fade", 34)?;
    give(&mut slots, alloc, "/actions/halt", 32)?;
    give(&mut slots, alloc, "/events/beat", 48)?;
    Ok(slots)
}

/// Gives an affordance of the built-in Thing its slot.
fn give(slots: &mut Slots, alloc: Global, pointer: &str, slot: usize) -> Result<(), NoMemory>
    ensures { OnOk result (slots.new ≡ slots.old ++ (codes "lamp", pointer.now, slot) ∷ []) }
{
    slots.push(
        Text::copy_of(alloc, "lamp")?,
        Text::copy_of(alloc, pointer)?,
        slot,
    )
}
