//! One Thing: its description, and the Things that it is composed of.

ghost use Rattle.std.specs.Prelude.{◌≡◌, ◌⊎◌, ◌++◌, [], map, Ok, IfOk};
ghost use Rattle.wot_json.specs.Meaning.{json_of};
ghost use Rattle.tm_resolve.specs.ModelLinks.{kept_links};
ghost use Rattle.tm_resolve.specs.Resolver.{resolver_models};
ghost use Rattle.tm_derive.specs.Derivation as spec;
ghost use Rattle.tm_derive.specs.Finishing.{indices_of};
ghost use Rattle.tm_derive.specs.Given.{most_below as most_things_below};
ghost use Rattle.tm_derive.specs.Kept.{given_of};
ghost use Rattle.tm_derive.specs.Making.{Chooses, Resolves, MakesFrom, MakesThing};
ghost use Rattle.tm_derive.specs.Optional.{optional_texts, optional_faults, unlisted_choices};
ghost use Rattle.tm_derive.specs.Refusals.{FindsPlaces};
ghost use Rattle.tm_derive.specs.Submodels.{submodel_faults};

use crate::common::Common;
use crate::dropping::{Selection, chosen_value};
use crate::fault::DeriveFault;
use crate::finishing::{Setting, description};
use crate::judging::judge_tree;
use crate::links::push_indices;
use crate::made::Made;
use crate::optional::{judge_choices, push_optional};
use crate::place::ThingPlace;
use crate::submodels::{Parent, children_of};
use servient_base::NoMemory;
use tm_resolve::{CountedLink, Relation, ResolveFault};
use wot_json::{Text, Tree};

/// Makes the description of the Thing at a place below Things of these models.
pub(crate) fn make_thing(
    common: &Common<'_>,
    above: &[Text],
    place: &ThingPlace,
) -> Result<Made, DeriveFault>
    ensures { MakesThing (given_of common.now) above.now place.now result }
{
    let value = resolved(common, place)?;
    make_from(common, above, place, &value)
}

/// The same, from the value of its model.
fn make_from(
    common: &Common<'_>,
    above: &[Text],
    place: &ThingPlace,
    value: &Tree,
) -> Result<Made, DeriveFault>
    ensures { MakesFrom (given_of common.now) above.now place.now (Ok (json_of value.now)) result }
{
    let texts = choose(common, place)?;
    let children = children(common, above, place)?;
    let tree = thing_tree(common, place, texts.as_slice(), children.as_slice(), value)?;
    judge_tree(common.alloc, place.segment.as_str(), &tree)?;
    Ok(Made { tree, children })
}

/// The Things that a Thing is composed of, below Things of these models.
fn children(
    common: &Common<'_>,
    above: &[Text],
    place: &ThingPlace,
) -> Result<Vec<ThingPlace>, DeriveFault>
    ensures { FindsPlaces (spec.children (given_of common.now) place.now)
        (submodel_faults common.now.library.now above.now place.now [] 1 (spec.submodels (given_of common.now) place.now)) result }
{
    let links = submodels(common, place)?;
    let parent = Parent {
        alloc: common.alloc,
        library: common.library,
        above,
        place,
    };
    children_of(&parent, links.as_slice())
}

/// The links of the model of a Thing to its submodels.
fn submodels(common: &Common<'_>, place: &ThingPlace) -> Result<Vec<CountedLink>, NoMemory>
    ensures { IfOk result (λ links. kept_links links.items ≡ spec.submodels (given_of common.now) place.now) }
{
    common
        .resolver
        .links(place.model.as_str(), Relation::Submodel)
}

/// The value of the model of a Thing.
fn resolved(common: &Common<'_>, place: &ThingPlace) -> Result<Tree, DeriveFault>
    ensures { Resolves (given_of common.now) place.now result }
{
    match common.resolver.resolve(place.model.as_str()) {
        Ok(value) => Ok(value),
        Err(fault) => Err(no_value(common, place, fault)),
    }
}

/// The fault of a Thing whose model has no value. It is a function, because the fault of the model moves into it.
fn no_value(common: &Common<'_>, place: &ThingPlace, fault: ResolveFault) -> DeriveFault
    ensures memory { fault ≡ ResolveFault.NoMemory → result ≡ DeriveFault.NoMemory }
    ensures fault { (result ≡ DeriveFault.NoMemory) ⊎ (result ≡ DeriveFault.Resolve place.now.segment fault) }
{
    match fault {
        ResolveFault::NoMemory => DeriveFault::NoMemory,
        ResolveFault::At(kind, model, pointer) => {
            match Text::copy_of(common.alloc, place.segment.as_str()) {
                Ok(segment) => DeriveFault::Resolve(
                    segment,
                    ResolveFault::At(kind, model, pointer),
                ),
                Err(_) => DeriveFault::NoMemory,
            }
        }
    }
}

/// The texts of what is optional for a Thing, of which all choices for it are.
fn choose(common: &Common<'_>, place: &ThingPlace) -> Result<Vec<Text>, DeriveFault>
    ensures { Chooses (spec.optionals (given_of common.now) place.now)
        (spec.choosing_faults (given_of common.now) place.now) result }
{
    let room = most_below();
    choose_for(common, place.segment.as_str(), place.model.as_str(), room)
}

/// The same, for the Thing of this segment and model, where at most `room` models are gone through.
fn choose_for(
    common: &Common<'_>,
    segment: &str,
    url: &str,
    room: usize,
) -> Result<Vec<Text>, DeriveFault>
    ensures { Chooses (optional_texts room (resolver_models common.now.resolver) url.now)
        (map (DeriveFault.Optional segment.now) (optional_faults room (resolver_models common.now.resolver) url.now
        ++ unlisted_choices (optional_texts room (resolver_models common.now.resolver) url.now) segment.now common.now.choices.now)) result }
{
    let mut texts = Vec::new(common.alloc);
    push_optional(common, segment, url, room, &mut texts)?;
    judge_choices(
        common.alloc,
        segment,
        texts.as_slice(),
        common.choices.as_slice(),
    )?;
    Ok(texts)
}

/// The most Things one below another, which is more than the most models each of which extends the next.
pub(crate) fn most_below() -> usize
    ensures { result ≡ most_things_below }
{
    17
}

/// The indices of the links of the model of a Thing to other models.
fn leaving(common: &Common<'_>, place: &ThingPlace) -> Result<Vec<usize>, NoMemory>
    ensures { IfOk result (λ indices. indices.items ≡ indices_of (spec.extended (given_of common.now) place.now)
        ++ indices_of (spec.submodels (given_of common.now) place.now)) }
{
    let url = place.model.as_str();
    let mut indices = Vec::new(common.alloc);
    let extended = common.resolver.links(url, Relation::Extends)?;
    push_indices(&mut indices, extended.as_slice())?;
    let submodels = common.resolver.links(url, Relation::Submodel)?;
    push_indices(&mut indices, submodels.as_slice())?;
    Ok(indices)
}

/// The description of a Thing with these parts, from the value of its model, where these texts are optional.
fn thing_tree(
    common: &Common<'_>,
    place: &ThingPlace,
    texts: &[Text],
    parts: &[ThingPlace],
    value: &Tree,
) -> Result<Tree, NoMemory>
    ensures { IfOk result (λ t. json_of t ≡ spec.thing_with (given_of common.now) place.now texts.now parts.now (json_of value.now)) }
{
    let alloc = common.alloc;
    let selection = Selection {
        segment: place.segment.as_str(),
        texts,
        choices: common.choices.as_slice(),
    };
    let chosen = chosen_value(alloc, &selection, value)?;
    let indices = leaving(common, place)?;
    let setting = Setting {
        frame: common.frame,
        place,
        leaving: indices.as_slice(),
        parts,
    };
    description(alloc, &setting, &chosen)
}
