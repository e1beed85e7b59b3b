//! The place of a request's path among Things, and the act that its verb asks for there.

ghost use Rattle.std.specs.Prelude.{◌≡◌, Some, None, MatchResult};
ghost use Rattle.thing_ops.specs.Routes.{route_of};
ghost use Rattle.thing_ops.specs.Verbs.{verbs_in, verbs_of};
ghost use Rattle.thing_site.specs.Places as spec;

use crate::{IndexedThings, LentThing, Spot};
use servient_base::Target;
use thing_ops::{Allow, Flags, RouteKind, Segments, Verb, allowed, route};
use wot_terms::Kind;

/// The place of an affordance's name in a path.
const NAME: usize = 2;

/// The place of a path.
#[derive(Drop)]
pub enum Resource<'a> {
    Description(LentThing<'a>),
    AllProperties(LentThing<'a>),
    Property(Spot<'a>),
    /// The place at which a property is observed.
    Observed(Spot<'a>),
    Action(Spot<'a>),
    /// An invocation of an action, by its id and not by what is there, because a place then borrows the Things alone
    /// and the state may change while it is held.
    Invocation(Spot<'a>, u32),
    Event(Spot<'a>),
    /// The place at which an event is subscribed to.
    Subscribed(Spot<'a>),
}

/// An act that a request asks for.
#[derive(Drop)]
pub enum ThingAct<'a> {
    Describes(LentThing<'a>),
    ReadsAll(LentThing<'a>),
    WritesMany(LentThing<'a>),
    Reads(Spot<'a>),
    Writes(Spot<'a>),
    Invokes(Spot<'a>),
    Queries(Spot<'a>, u32),
    Cancels(Spot<'a>, u32),
    ReadsEvent(Spot<'a>),
    Waits(Spot<'a>),
}

/// The place of a path, where it leads anywhere. A path leads to an invocation also where there is none of this id.
pub fn place_at<'a>(things: &'a IndexedThings, path: &Segments) -> Option<Resource<'a>>
    ensures { result ≡ spec.place_at (route_of path.now) path.now things.now }
{
    match route(path) {
        RouteKind::Root => Some(Resource::Description(LentThing::of(things.as_slice().first()?))),
        RouteKind::Thing => Some(Resource::Description(LentThing::of(things.named(path.get(0)?)?))),
        RouteKind::All => Some(Resource::AllProperties(LentThing::of(things.named(path.get(0)?)?))),
        RouteKind::Property => Some(Resource::Property(affordance_in(
            things,
            path,
            Kind::Property,
        )?)),
        RouteKind::Observe => observed(affordance_in(things, path, Kind::Property)?),
        RouteKind::Subscribe => Some(Resource::Subscribed(affordance_in(
            things,
            path,
            Kind::Event,
        )?)),
        RouteKind::Action => Some(Resource::Action(affordance_in(things, path, Kind::Action)?)),
        RouteKind::Invocation(id) => Some(Resource::Invocation(
            affordance_in(things, path, Kind::Action)?,
            id,
        )),
        RouteKind::Event => Some(Resource::Event(affordance_in(things, path, Kind::Event)?)),
        RouteKind::Things | RouteKind::Entry | RouteKind::Nowhere => None,
    }
}

/// The affordance of this kind that the third segment names, of the Thing that the first one names.
fn affordance_in<'a>(things: &'a IndexedThings, path: &Segments, kind: Kind) -> Option<Spot<'a>>
    ensures { result ≡ spec.affordance_in kind path.now things.now }
{
    let thing = things.named(path.get(0)?)?;
    thing.affordance(kind, path.get(NAME)?)
}

/// The place at which a property is observed, if it is observable.
fn observed<'a>(property: Spot<'a>) -> Option<Resource<'a>>
    ensures { result ≡ spec.where_observable property.entry }
{
    if property.affordance().observable {
        Some(Resource::Observed(property))
    } else {
        None
    }
}

/// The act of a verb at a place to which a path of this form leads; else the verbs that are taken there.
pub fn act_at<'a>(route: RouteKind, place: Resource<'a>, verb: Verb) -> Result<ThingAct<'a>, Allow>
    ensures { MatchResult result
        (λ act. spec.act_at route place.entry verb ≡ Some act)
        (λ allow. (spec.act_at route place.entry verb ≡ None) × (verbs_in allow ≡ verbs_of route (spec.flags_of place.entry))) }
{
    let flags = match &place {
        Resource::Property(spot) => Flags {
            read_only: spot.affordance().read_only,
            write_only: spot.affordance().write_only,
        },
        _ => Flags {
            read_only: false,
            write_only: false,
        },
    };
    let allow = allowed(route, flags);
    if allow.takes(verb) {
        Ok(act_of(place, verb))
    } else {
        Err(allow)
    }
}

/// The act of a verb at a place where it is taken. The table `verbs_of`, which `act_at` asks, alone says which verbs
/// these are.
fn act_of<'a>(place: Resource<'a>, verb: Verb) -> ThingAct<'a>
    ensures { result ≡ spec.act_of place.entry verb }
{
    match (place, verb) {
        (Resource::Description(thing), _) => ThingAct::Describes(thing),
        (Resource::AllProperties(thing), Verb::Put) => ThingAct::WritesMany(thing),
        (Resource::AllProperties(thing), _) => ThingAct::ReadsAll(thing),
        (Resource::Property(spot), Verb::Put) => ThingAct::Writes(spot),
        (Resource::Property(spot), _) => ThingAct::Reads(spot),
        (Resource::Observed(spot) | Resource::Subscribed(spot), _) => ThingAct::Waits(spot),
        (Resource::Action(spot), _) => ThingAct::Invokes(spot),
        (Resource::Invocation(spot, id), Verb::Delete) => ThingAct::Cancels(spot, id),
        (Resource::Invocation(spot, id), _) => ThingAct::Queries(spot, id),
        (Resource::Event(spot), _) => ThingAct::ReadsEvent(spot),
    }
}

/// The target of the own path of an observable property or an event: the slot of its affordance.
pub fn target_at(place: Option<Resource<'_>>) -> Option<Target>
    ensures { result ≡ spec.target_at place.entry }
{
    match place {
        Some(Resource::Property(spot)) => {
            if spot.affordance().observable {
                Some(spot.slot())
            } else {
                None
            }
        }
        Some(Resource::Event(spot)) => Some(spot.slot()),
        _ => None,
    }
}
