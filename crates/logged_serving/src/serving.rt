//! The events of a network are taken one by one, and before each the lines of all turns so far were written.

ghost use Rattle.std.specs.Prelude.{◌≡◌, ◌≤◌};
ghost use Rattle.thing_handler.specs.Turns.{RunTurn};
ghost use Rattle.thing_site.specs.Fits.{Fits};
ghost use Rattle.thing_state.specs.State.{most_turns};
ghost use Rattle.servient_base.specs.Moves.{Refines};
ghost use Rattle.servient_trace.specs.Trace.{outside};
ghost use Rattle.servient_trace.specs.ShownSections.{ShowsInSections};
ghost use Rattle.servient_core.specs.Sections.{ForgetsIfDue};
ghost use Rattle.servient_core.specs.Serving.{StandsFor};
ghost use Rattle.servient_script.specs.Merging.{counts_of};
ghost use Rattle.turn_lines.specs.Buffer.{buffered_of, nothing_held};
ghost use Rattle.logged_serving.specs.Logging.{ServesLogged};

use crate::run_log::{RunLog, StepTurns};
use servient_core::{Net, Next, Servient, What};
use servient_outside::{Out, Put};
use thing_handler::Handlers;

/// Room for the bytes of one event.
const BUFFER_BYTES: usize = 4096;

/// The number of turns at which the handlers forget theirs, as without a log.
const MOST_KEPT: u64 = 4096;

/// The end of serving with a log.
#[derive(Clone, Copy, Debug, PartialEq, Eq)]
pub enum LoggedEnd {
    /// A Stop came; it was the last event that was taken.
    Stopped,
    /// The network failed.
    Failed,
    /// One of the bounds was reached, and no event was a Stop.
    Spent,
    /// A write of the lines of the last step failed.
    Unwritten,
}

/// Takes the events of the network one after another, and writes the lines of the turns of each before the next, until a
/// Stop or a failure comes, a write fails, or one of the bounds of the log is reached. Being out of memory shows as in
/// `Servient::step`.
pub fn serve_logged<N: Net, R: Handlers, O: Out>(
    servient: &mut Servient,
    net: &mut N,
    rack: &mut R,
    out: &mut O,
    log: &mut RunLog,
) -> LoggedEnd
    requires fits { Fits servient.old.exposed.site (R.slots rack.old) }
    requires lines { buffered_of log.old.lines ≡ nothing_held }
    requires written { log.old.written.items ≡ counts_of (R.slots rack.old) }
    ensures { Refines StandsFor ShowsInSections (ServesLogged servient.old.exposed.site log.old.bounds (O.seen out.old) (O.seen out.new) result) servient.old servient.new
        (outside (N.seen net.old) (R.slots rack.old)) (outside (N.seen net.new) (R.slots rack.new)) }
{
    let bounds = log.bounds;
    let mut buffer = [0u8; BUFFER_BYTES];
    let mut due = servient.turns() + MOST_KEPT;
    for count in 0..bounds.events {
        let first = servient.turns();
        if first >= bounds.turns {
            return LoggedEnd::Spent;
        }
        due = forget_if_due(rack, log, first, due);
        match net.next(&mut buffer) {
            Next::Failed => return LoggedEnd::Failed,
            Next::Got(event) => {
                let size = event.what.byte_count();
                servient.step(net, rack, &event, &buffer[..size]);
                let after = servient.turns();
                let step = StepTurns {
                    moment: event.moment,
                    first,
                    after,
                };
                match log.write_turns(out, rack, step) {
                    Put::Failed => return LoggedEnd::Unwritten,
                    Put::Done => {}
                }
                if let What::Stop = event.what {
                    return LoggedEnd::Stopped;
                }
            }
        }
    }
    LoggedEnd::Spent
}

/// Has the handlers forget their turns, once the run has `due` of them. Returns the number of turns at which they are
/// to forget again.
fn forget_if_due<R: Handlers>(rack: &mut R, log: &mut RunLog, turns: u64, due: u64) -> u64
    requires turns { turns ≤ most_turns 0 }
    requires written { log.old.written.items ≡ counts_of (R.slots rack.old) }
    ensures forgets { ForgetsIfDue turns due result (R.slots rack.old) (R.slots rack.new) }
    ensures written { log.new.written.items ≡ counts_of (R.slots rack.new) }
    ensures lines { log.new.lines ≡ log.old.lines }
    ensures bounds { log.new.bounds ≡ log.old.bounds }
{
    if turns < due {
        return due;
    }
    log.forget(rack);
    turns + MOST_KEPT
}
