//! `serve`: the events of a network are taken one by one, up to a Stop, a failure or a budget.

ghost use Rattle.std.specs.Prelude.{◌≡◌};
ghost use Rattle.servient_base.specs.Moves.{Refines};
ghost use Rattle.thing_site.specs.Fits.{Fits};
ghost use Rattle.servient_trace.specs.Trace.{Shows, outside};
ghost use Rattle.servient_core.specs.Serving.{StandsFor, Serves};

use crate::{Net, Next, Servient, What};
use thing_handler::Handlers;

/// Room for the bytes of one event.
pub(crate) const BUFFER_BYTES: usize = 4096;

/// The end of serving.
#[derive(Clone, Copy, Debug, PartialEq, Eq)]
pub enum Served {
    /// A Stop came; it was the last event that was taken.
    Stopped,
    /// The network failed.
    Failed,
    /// The budget of events was taken, and none of them was a Stop.
    Spent,
}

/// Takes the events of the network one after another, until a Stop or a failure comes, and at most `budget` of them.
/// Where it is out of memory, that shows as in `Servient::step`.
pub fn serve<N: Net, R: Handlers>(
    servient: &mut Servient,
    net: &mut N,
    rack: &mut R,
    budget: u64,
) -> Served
    requires { Fits servient.old.exposed.site (R.slots rack.old) }
    ensures serves { Refines StandsFor Shows (Serves servient.old.exposed.site budget result) servient.old servient.new
        (outside (N.seen net.old) (R.slots rack.old)) (outside (N.seen net.new) (R.slots rack.new)) }
    ensures site { servient.new.exposed.site ≡ servient.old.exposed.site }
{
    let mut buffer = [0u8; BUFFER_BYTES];
    for count in 0..budget {
        match net.next(&mut buffer) {
            Next::Failed => return Served::Failed,
            Next::Got(event) => {
                let size = event.what.byte_count();
                servient.step(net, rack, &event, &buffer[..size]);
                if let What::Stop = event.what {
                    return Served::Stopped;
                }
            }
        }
    }
    Served::Spent
}
