//! `discover HOST:PORT`: the Things of a server.

ghost use Rattle.std.specs.Prelude.{List};
ghost use Rattle.thing_handler.specs.Handler.{Seen};
ghost use Rattle.servient_outside.specs.Files.{FilesSeen};
ghost use Rattle.servient_trace.specs.Trace.{outside};
ghost use Rattle.command_stages.specs.Stages.{around};
ghost use Rattle.servient_cli.specs.Consuming.{EndsPrinting};
ghost use Rattle.servient_cli.specs.Discovering.{DiscoversThings};

use crate::consumption::end_of;
use command_stages::{Ended, Ending};
use network_consumer::discover;
use servient_outside::{Net, Out};
use std::alloc::Global;

/// Asks the server at this host and port for its links, and prints the URLs of its Things.
pub fn discover_things<N: Net, O: Out>(
    alloc: Global,
    host: &str,
    port: u16,
    net: &mut N,
    out: &mut O,
) -> Result<Ending, Ended>
    ensures { (files : FilesSeen) → (slots : List Seen) → EndsPrinting (DiscoversThings host.now port)
        (around files (outside (N.seen net.old) slots)) (around files (outside (N.seen net.new) slots))
        (O.seen out.old) (O.seen out.new) result }
{
    end_of(alloc, discover(alloc, host, port, net, out))
}
