//! The servient of the built-in Thing, and a rehearsal with it.

ghost use Rattle.std.specs.Prelude.{◌≡◌, true, IfOk};
ghost use Rattle.std.specs.List.{AllByRecursion};
ghost use Rattle.wot_forms.specs.Segments.{is_plain_segment};
ghost use Rattle.wot_terms.specs.Faults.{IsValid};
ghost use Rattle.thing_site.specs.Fits.{Fits};
ghost use Rattle.servient_rehearsal.specs.Moves.{AreShort};
ghost use Rattle.servient_rehearsal.specs.Rehearsal.{IsUnused};

use coap_client::Client;
use servient_core::{Plan, Servient};
use servient_rehearsal::{Moves, World, are_short, rehearse};
use std::alloc::{AllocError, Global};
use thing_handler::Handlers;
use tm_derive::derive;
use tm_parts::Library;
use wot_terms::Things;

/// The slot of the lamp's status.
pub const STATUS: usize = 0;

/// The slot of its fading.
pub const FADE: usize = 34;

/// The Things of the built-in plan.
fn things_of(alloc: Global, plan: &Plan) -> Result<Things, AllocError>
    requires plain { is_plain_segment plan.now.frame.segment ≡ true }
    ensures valid { IfOk result (AllByRecursion (λ t. IsValid t.1)) }
    ensures plain { IfOk result (AllByRecursion (λ t. is_plain_segment t.0 ≡ true)) }
{
    let root = plan.root.as_str();
    let model = Plan::built_in_model(alloc)?;
    let mut library = Library::new(alloc);
    match library.add(root, model) {
        Ok(()) => {}
        Err(_) => return Err(AllocError),
    }
    match derive(
        alloc,
        &library,
        root,
        &plan.bindings,
        &plan.choices,
        &plan.frame,
    ) {
        Ok(things) => Ok(things),
        Err(_) => Err(AllocError),
    }
}

/// A new servient of the built-in Thing.
#[tactic(auto, using(crate::proofs::Beginnings::unused_of, crate::proofs::Beginnings::plain_of))]
pub fn servient_on<R: Handlers>(alloc: Global, rack: &R) -> Result<Servient, AllocError>
    ensures fits { IfOk result (λ s. Fits s.exposed.site (R.slots rack.now)) }
    ensures unused { IfOk result (λ s. IsUnused s) }
{
    let plan = Plan::built_in(alloc)?;
    let things = things_of(alloc, &plan)?;
    match Servient::new(alloc, &plan, things, rack) {
        Ok(servient) => Ok(servient),
        Err(_) => Err(AllocError),
    }
}

/// The outcome of moves with a servient that is new, and a new client, whose first message has the id 0.
#[tactic(auto, using(crate::proofs::Beginnings::new_of))]
fn rehearsed<R: Handlers>(
    alloc: Global,
    servient: &mut Servient,
    rack: &mut R,
    moves: &Moves,
) -> Result<World, AllocError>
    requires fits { Fits servient.old.exposed.site (R.slots rack.old) }
    requires servient { IsUnused servient.old }
    requires moves { AreShort moves.now.items }
{
    let mut client = Client::new(alloc, 0)?;
    rehearse(alloc, servient, &mut client, rack, moves)
}

/// The outcome of moves with both ends new.
///
/// # Errors
///
/// Out of memory, and where the moves are too many or take too long.
pub fn world_of<R: Handlers>(
    alloc: Global,
    rack: &mut R,
    moves: &Moves,
) -> Result<World, AllocError> {
    if !are_short(moves) {
        return Err(AllocError);
    }
    let mut servient = servient_on(alloc, rack)?;
    rehearsed(alloc, &mut servient, rack, moves)
}
