//! Serving in sections: the events of a network are taken one by one, up to a Stop, a failure or a bound, and the
//! handlers forget their turns now and then. So a run need not end because its turns fill the memory.

ghost use Rattle.std.specs.Prelude.{◌≡◌, ◌≤◌};
ghost use Rattle.servient_base.specs.Moves.{Refines};
ghost use Rattle.thing_site.specs.Fits.{Fits};
ghost use Rattle.servient_trace.specs.Trace.{outside};
ghost use Rattle.servient_core.specs.Serving.{StandsFor};
ghost use Rattle.thing_state.specs.State.{most_turns};
ghost use Rattle.servient_trace.specs.ShownSections.{ShowsInSections};
ghost use Rattle.servient_core.specs.Sections.{ForgetsIfDue, ServesInSections};

use crate::serving::BUFFER_BYTES;
use crate::{Net, Next, Servient, What};
use thing_handler::Handlers;

/// The number of turns at which the handlers forget theirs.
pub const MOST_KEPT: u64 = 4096;

/// The bounds of a run that is served in sections.
#[derive(Clone, Copy, Debug, PartialEq, Eq)]
pub struct RunBounds {
    /// It takes at most so many events.
    pub events: u64,
    /// Once it has so many turns, or more by its last step, it takes no further event.
    pub turns: u64,
}

/// The end of serving in sections.
#[derive(Clone, Copy, Debug, PartialEq, Eq)]
pub enum SectionsEnd {
    /// A Stop came; it was the last event that was taken.
    Stopped,
    /// The network failed.
    Failed,
    /// One of the bounds was reached, and no event was a Stop.
    Spent,
}

/// Takes the events of the network one after another, until a Stop or a failure comes or one of the bounds is reached.
/// Being out of memory shows as in `Servient::step`.
pub fn serve_in_sections<N: Net, R: Handlers>(
    servient: &mut Servient,
    net: &mut N,
    rack: &mut R,
    bounds: RunBounds,
) -> SectionsEnd
    requires { Fits servient.old.exposed.site (R.slots rack.old) }
    ensures serves { Refines StandsFor ShowsInSections (ServesInSections servient.old.exposed.site bounds result) servient.old servient.new
        (outside (N.seen net.old) (R.slots rack.old)) (outside (N.seen net.new) (R.slots rack.new)) }
    ensures site { servient.new.exposed.site ≡ servient.old.exposed.site }
{
    let mut buffer = [0u8; BUFFER_BYTES];
    let mut due = servient.turns() + MOST_KEPT;
    for count in 0..bounds.events {
        let turns = servient.turns();
        if turns >= bounds.turns {
            return SectionsEnd::Spent;
        }
        due = forget_if_due(rack, turns, due);
        match net.next(&mut buffer) {
            Next::Failed => return SectionsEnd::Failed,
            Next::Got(event) => {
                let size = event.what.byte_count();
                servient.step(net, rack, &event, &buffer[..size]);
                if let What::Stop = event.what {
                    return SectionsEnd::Stopped;
                }
            }
        }
    }
    SectionsEnd::Spent
}

/// Has the handlers forget their turns, once the run has `due` of them. Returns the number of turns at which they are
/// to forget again. It is a function of its own, because both ways go on to one call.
fn forget_if_due<R: Handlers>(rack: &mut R, turns: u64, due: u64) -> u64
    requires { turns ≤ most_turns 0 }
    ensures { ForgetsIfDue turns due result (R.slots rack.old) (R.slots rack.new) }
{
    if turns < due {
        return due;
    }
    rack.forget();
    turns + MOST_KEPT
}
