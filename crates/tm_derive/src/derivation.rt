//! All Things of a derivation, one after another.

ghost use Rattle.std.specs.Prelude.{◌≡◌, ◌≢◌, ◌⊎◌, ◌++◌, [], ◌∷◌, true, take, map, AllPairs, Ok, Err, IfOk, IfErr};
ghost use Rattle.std.specs.List.{AllByRecursion, flat_map};
ghost use Rattle.tm_derive.specs.Derivation.{outcomes_within, outcomes, things_or_fault, derived, root_place as place_of_root};
ghost use Rattle.tm_derive.specs.Kept.{given_of};
ghost use Rattle.tm_derive.specs.Making.{Derives, PutsThings};
ghost use Rattle.tm_derive.specs.Optional.{is_among, choices_elsewhere};
ghost use Rattle.tm_derive.specs.Refusals.{Finds};
ghost use Rattle.wot_forms.specs.Segments.{is_plain_segment};
ghost use Rattle.wot_terms.specs.Faults.{IsValid};
ghost use Rattle.wot_terms.specs.ThingLists.{segments_in};

use crate::common::Common;
use crate::fault::DeriveFault;
use crate::making::{make_thing, most_below};
use crate::place::ThingPlace;
use crate::refusals::optional_fault;
use servient_base::NoMemory;
use std::alloc::Global;
use tm_parts::{Bindings, Choices, Library};
use tm_resolve::Resolver;
use wot_forms::Frame;
use wot_json::Text;
use wot_terms::{Thing, Things};

/// Derives a Thing Model: makes the description of its Thing and of each Thing that it is composed of, the root first,
/// and each before those below it.
///
/// Each model has the bound values in the places of its placeholders. A Thing goes through these steps, of which each
/// may have a fault, before the Things below it: its model is resolved, together with all that it brings in; its
/// optional affordances are those that are chosen; its links to submodels lead to models of the library, each with an
/// instance name of its own, and to none that is that of this Thing or of one above it; its description is finished,
/// with links among the Things and with generated forms; no placeholder is left in it; it meets the conditions on
/// descriptions. Then the choices are judged for whose segments there is no Thing. `TooLarge` of the root comes before
/// all other faults.
///
/// Each Thing costs what resolving its model costs, once for itself and once for each Thing above it, and some copies
/// of its description.
pub fn derive(
    alloc: Global,
    library: &Library,
    root: &str,
    bindings: &Bindings,
    choices: &Choices,
    frame: &Frame,
) -> Result<Things, DeriveFault>
    ensures ok { IfOk result (λ things. derived library.now bindings.now choices.now frame.now root.now ≡ Ok things) }
    ensures fault { IfErr result (λ e. (e ≡ DeriveFault.NoMemory)
        ⊎ (derived library.now bindings.now choices.now frame.now root.now ≡ Err e)) }
    ensures root { IfOk result (λ things. take 1 (map (λ t. t.0) things) ≡ frame.now.segment ∷ []) }
    ensures distinct { IfOk result (AllPairs (λ a b. a.0 ≢ b.0)) }
    ensures valid { IfOk result (AllByRecursion (λ t. IsValid t.1)) }
    ensures plain { IfOk result (λ things. is_plain_segment frame.now.segment ≡ true → AllByRecursion (λ t. is_plain_segment t.0 ≡ true) things) }
{
    let resolver = Resolver::new(alloc, library, bindings)?;
    let common = Common {
        alloc,
        library,
        resolver,
        choices,
        frame,
    };
    derive_with(&common, root)
}

/// The same, with the inputs that all Things share. They are lent, because a function that owned them would give them
/// up at each `?`.
fn derive_with(common: &Common<'_>, root: &str) -> Result<Things, DeriveFault>
    ensures { Derives (things_or_fault common.now.choices.now (outcomes (given_of common.now) root.now)) result }
{
    let place = root_place(common.alloc, common.frame, root)?;
    let mut things = Things::new(common.alloc);
    put_thing(common, &[], &place, most_below(), &mut things)?;
    judge_elsewhere(common.alloc, things.as_slice(), common.choices.as_slice())?;
    Ok(things)
}

/// The place of the root.
fn root_place(alloc: Global, frame: &Frame, root: &str) -> Result<ThingPlace, NoMemory>
    ensures { IfOk result (λ place. place ≡ place_of_root frame.now root.now) }
{
    Ok(ThingPlace {
        segment: Text::copy_of(alloc, frame.segment.as_str())?,
        id: Text::copy_of(alloc, frame.id.as_str())?,
        model: Text::copy_of(alloc, root)?,
        parent: None,
    })
}

/// One of these Things has this segment.
fn has_segment(segment: &str, things: &[Thing]) -> bool
    ensures { result ≡ is_among segment.now (segments_in things.now) }
{
    for thing in things {
        if segment == thing.segment.as_str() {
            return true;
        }
    }
    false
}

/// Finds the first choice for a segment that no Thing has.
fn judge_elsewhere(
    alloc: Global,
    things: &[Thing],
    choices: &[(Text, Text)],
) -> Result<(), DeriveFault>
    ensures { Finds (choices_elsewhere (segments_in things.now) choices.now) result }
{
    for (chosen_for, place) in choices {
        if !has_segment(chosen_for.as_str(), things) {
            return Err(optional_fault(alloc, chosen_for.as_str(), place.as_str()));
        }
    }
    Ok(())
}

/// Puts a Thing and those that it is composed of at the end, below Things of these models, where `room` more may be
/// one below another. `room` falls with each, so that the check sees that the recursion ends.
#[cycle(put_thing)]
fn put_thing(
    common: &Common<'_>,
    above: &[Text],
    place: &ThingPlace,
    room: usize,
    things: &mut Things,
) -> Result<(), DeriveFault>
    ensures { PutsThings things.old things.new (outcomes_within room (given_of common.now) above.now place.now) result }
{
    if room == 0 {
        return Ok(());
    }
    let made = make_thing(common, above, place)?;
    let segment = Text::copy_of(common.alloc, place.segment.as_str())?;
    things.push(segment, made.tree)?;
    let models = with_model(common.alloc, above, place.model.as_str())?;
    put_things(
        common,
        models.as_slice(),
        made.children.as_slice(),
        room - 1,
        things,
    )
}

/// Puts some Things and those that they are composed of at the end.
#[cycle(put_thing)]
fn put_things(
    common: &Common<'_>,
    above: &[Text],
    places: &[ThingPlace],
    room: usize,
    things: &mut Things,
) -> Result<(), DeriveFault>
    ensures { PutsThings things.old things.new
        (flat_map (outcomes_within room (given_of common.now) above.now) places.now) result }
{
    for place in places {
        put_thing(common, above, place, room, things)?;
    }
    Ok(())
}

/// The URLs of models, and one more after them.
fn with_model(alloc: Global, above: &[Text], url: &str) -> Result<Vec<Text>, NoMemory>
    ensures { IfOk result (λ models. models.items ≡ above.now ++ url.now ∷ []) }
{
    let mut models = Vec::new(alloc);
    for model in above {
        models.push(Text::copy_of(alloc, model.as_str())?)?;
    }
    models.push(Text::copy_of(alloc, url)?)?;
    Ok(models)
}
