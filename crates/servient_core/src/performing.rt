//! A request is performed: by the Things, or, where it came by HTTP and its path is one of the directory's, by the
//! directory.

ghost use Rattle.std.specs.Prelude.{◌≡◌, ◌≤◌, [], length};
ghost use Rattle.std.specs.List.{All};
ghost use Rattle.thing_ops.specs.Requests.{request_seen};
ghost use Rattle.thing_site.specs.Fits.{Fits};
ghost use Rattle.thing_core.specs.Performing.{MakesAct};
ghost use Rattle.wot_registry.specs.Times.{last_moment};
ghost use Rattle.coap_opts.specs.AskSeen.{ask_seen};
ghost use Rattle.servient_core.specs.Machine.{observed_target};
ghost use Rattle.servient_core.specs.Keeping.{IsSendable, MakesByHttp};

use coap_opts::CoapAsk;
use directory_requests::{DirectoryServer, is_of_directory};
use thing_core::Exposed;
use thing_handler::Handlers;
use thing_ops::{Outcome, Request, route};

/// Performs a request by HTTP, at the machine's moment. Its emissions wait to be delivered.
pub fn perform_by_http<R: Handlers>(
    exposed: &mut Exposed,
    directory: &mut DirectoryServer,
    moment: u64,
    rack: &mut R,
    request: &Request<'_>,
) -> Outcome
    requires pending { exposed.old.pending ≡ [] }
    requires fits { Fits exposed.old.site (R.slots rack.old) }
    requires bound { moment ≤ last_moment }
    ensures { MakesByHttp exposed.old exposed.new directory.old directory.new moment (request_seen request.now) result (R.slots rack.old) (R.slots rack.new) }
{
    if is_of_directory(route(&request.path)) {
        return directory.perform(request, moment);
    }
    perform(exposed, rack, request)
}

/// Performs a request. Its emissions wait to be delivered.
pub fn perform<R: Handlers>(exposed: &mut Exposed, rack: &mut R, request: &Request<'_>) -> Outcome
    requires pending { exposed.old.pending ≡ [] }
    requires fits { Fits exposed.old.site (R.slots rack.old) }
    ensures performed { MakesAct exposed.old exposed.new (request_seen request.now) result (R.slots rack.old) (R.slots rack.new) }
    ensures sendable { All (λ segment. length segment ≤ 255) request.now.path → IsSendable result }
{
    // Read for the proof, since a number that was read has 64 bits.
    let _next = exposed.next_invocation();
    exposed.perform(rack, request)
}

/// The target that a request may observe: that of its path, where it says Observe.
pub fn observed_by(exposed: &Exposed, ask: &CoapAsk<'_>) -> Option<u32>
    ensures { result ≡ observed_target exposed.now.site exposed.now.state (ask_seen ask.now) }
{
    match ask.observe {
        Some(_) => exposed.target_of(&ask.request.path),
        None => None,
    }
}
