//! Polls of events, and what they emit.

ghost use Rattle.std.specs.Prelude.{◌≡◌, ◌≤◌, ◌<◌, ◌+◌, ◌∷◌, [], List, length, drop, true, false, MatchOption};
ghost use Rattle.std.specs.List.{filter};
ghost use Rattle.wot_terms.specs.declared.kind.Kind.TheVariants as kind;
ghost use Rattle.thing_site.specs.Site.{Placed, ExposedThing, events_of, of_kind};
ghost use Rattle.thing_core.specs.Rounds.{events_left};
ghost use Rattle.thing_core.specs.Performing.{AllStand, PollsSome};

use thing_handler::{CallKind, Handlers};
use thing_site::{HeldThing, LONGEST_VALUE, Spot, is_kind};
use thing_state::{Machine, call, fired, taken_text};
use wot_terms::Kind;

/// The position of a round of polls: the affordance that comes next, and its Thing. Contracts see the events that are
/// left (`events_left` of specs/Rounds.antt).
#[derive(Clone, Copy, Debug, PartialEq, Eq, Drop)]
pub struct Round {
    thing: usize,
    affordance: usize,
}

impl Round {
    /// The beginning of a round: all events are left.
    pub fn new() -> Round
        ensures { (things : List ExposedThing) → events_left result things ≡ events_of things }
    {
        Round {
            thing: 0,
            affordance: 0,
        }
    }
}

/// Polls each event, in the order of Things and affordances.
pub fn poll_all<R: Handlers>(things: &[HeldThing], machine: &mut Machine, rack: &mut R)
    requires slots { AllStand (length (R.slots rack.old)) (events_of things.now) }
    requires room { length (events_of things.now) ≤ machine.old.room }
    ensures { PollsSome (events_of things.now) machine.old machine.new (R.slots rack.old) (R.slots rack.new) }
{
    let mut round = Round::new();
    while poll_next(things, machine, rack, &mut round) {}
}

/// Polls the next event of a round, and returns true if one was left.
pub fn poll_next<R: Handlers>(
    things: &[HeldThing],
    machine: &mut Machine,
    rack: &mut R,
    round: &mut Round,
) -> bool
    requires slots { AllStand (length (R.slots rack.old)) (events_left round.old things.now) }
    requires room { length (events_left round.old things.now) ≤ machine.old.room }
    ensures one { result ≡ true → (e : Placed) × (events_left round.old things.now ≡ e ∷ events_left round.new things.now)
        × PollsSome (e ∷ []) machine.old machine.new (R.slots rack.old) (R.slots rack.new) }
    ensures none { result ≡ false → events_left round.old things.now ≡ [] }
    ensures machine { result ≡ false → machine.new ≡ machine.old }
    ensures rack { result ≡ false → R.slots rack.new ≡ R.slots rack.old }
    ensures room { length (events_left round.new things.now) ≤ machine.new.room }
    ensures slots { length (R.slots rack.new) ≡ length (R.slots rack.old) }
{
    match next_event(things, round) {
        Some(spot) => {
            poll(spot, machine, rack);
            true
        }
        None => false,
    }
}

/// The next event of a round, which goes on behind it.
fn next_event<'a>(things: &'a [HeldThing], round: &mut Round) -> Option<Spot<'a>>
    ensures { MatchOption result ((events_left round.old things.now ≡ []) × (events_left round.new things.now ≡ []))
        (λ p. events_left round.old things.now ≡ p ∷ events_left round.new things.now) }
{
    while round.thing < things.len() {
        if let Some(spot) = event_from(&things[round.thing], &mut round.affordance) {
            return Some(spot);
        }
        round.thing += 1;
        round.affordance = 0;
    }
    None
}

/// The next event among the affordances of a Thing from this one on; the number is then that of the one behind it.
fn event_from<'a>(thing: &'a HeldThing, number: &mut usize) -> Option<Spot<'a>>
    ensures { MatchOption result (filter (of_kind kind.Event) (drop number.old thing.now.affordances) ≡ [])
        (λ p. filter (of_kind kind.Event) (drop number.old thing.now.affordances)
        ≡ p ∷ filter (of_kind kind.Event) (drop number.new thing.now.affordances)) }
{
    for index in *number..thing.len() {
        // A match and not `let .. else`, since the proof cites that there is no such affordance.
        let spot = match thing.spot(index) {
            Some(spot) => spot,
            None => return None,
        };
        *number = index + 1;
        if is_kind(Kind::Event, spot.affordance().kind) {
            return Some(spot);
        }
    }
    None
}

/// Polls an event: its value is emitted where it is taken.
fn poll<R: Handlers>(spot: Spot<'_>, machine: &mut Machine, rack: &mut R)
    requires slot { spot.slot < length (R.slots rack.old) }
    requires room { 0 < machine.old.room }
    ensures polled { PollsSome (spot.entry ∷ []) machine.old machine.new (R.slots rack.old) (R.slots rack.new) }
    ensures room { machine.old.room ≤ machine.new.room + 1 }
    ensures slots { length (R.slots rack.new) ≡ length (R.slots rack.old) }
{
    let answer = match call(machine, rack, spot.slot(), &CallKind::Poll) {
        Ok(answer) => answer,
        Err(_) => return,
    };
    let value = match fired(answer) {
        Some(value) => value,
        None => return,
    };
    let mut buffer = [0; LONGEST_VALUE];
    match taken_text(&spot.affordance().output, &value, &mut buffer) {
        Some(text) => machine.emit(spot.slot(), text),
        None => {}
    }
}
