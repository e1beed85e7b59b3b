//! The Things of a server: it is asked for its links (RFC 6690).

ghost use Rattle.std.specs.Prelude.{◌≡◌};
ghost use Rattle.wot_consumer.specs.Discovery.{links_of, server_url as url_of_server};
ghost use Rattle.network_consumer.specs.Deeds.{put_of, sight, Shows};
ghost use Rattle.network_consumer.specs.Asking.{IsAskable};
ghost use Rattle.network_consumer.specs.Consuming.{Discovers};

use crate::coap_asking::ask_by_coap;
use crate::{ClientTask, Consumed, Purpose};
use servient_outside::{Net, Out};
use std::alloc::Global;
use wot_consumer::{Chosen, links_request, server_url};

/// Asks the server at this host and port for its links, over CoAP, and prints the URLs of the Things to which they lead, one a
/// line and in their order. Where the links can't be read, or one that leads to a Thing can't be joined to the URL of the
/// server, the outcome is `Malformed`, and nothing is printed. Where it is out of memory, the request may have been sent.
pub fn discover<N: Net, O: Out>(
    alloc: Global,
    host: &str,
    port: u16,
    net: &mut N,
    out: &mut O,
) -> Consumed
    ensures { Shows (λ deeds. Discovers (links_of host.now port) deeds result)
        (sight (N.seen net.old) (O.seen out.old)) (sight (N.seen net.new) (O.seen out.new)) (put_of result) }
{
    match links_request(alloc, host, port) {
        Ok(request) => ask_for_links(alloc, &request, net, out),
        Err(_) => Consumed::NoMemory,
    }
}

/// Asks for links by this request.
fn ask_for_links<N: Net, O: Out>(
    alloc: Global,
    request: &Chosen,
    net: &mut N,
    out: &mut O,
) -> Consumed
    requires { IsAskable request.now }
    ensures { Shows (λ deeds. Discovers request.now deeds result)
        (sight (N.seen net.old) (O.seen out.old)) (sight (N.seen net.new) (O.seen out.new)) (put_of result) }
{
    match server_url(alloc, request.host.as_str(), request.port) {
        Ok(server) => ask_server(alloc, request, server.as_str(), net, out),
        Err(_) => Consumed::NoMemory,
    }
}

/// Asks the server with this URL for its links.
fn ask_server<'a, N: Net, O: Out>(
    alloc: Global,
    request: &'a Chosen,
    server: &'a str,
    net: &mut N,
    out: &mut O,
) -> Consumed
    requires askable { IsAskable request.now }
    requires server { server.now ≡ url_of_server request.now.host request.now.port }
    ensures { Shows (λ deeds. Discovers request.now deeds result)
        (sight (N.seen net.old) (O.seen out.old)) (sight (N.seen net.new) (O.seen out.new)) (put_of result) }
{
    let purpose = Purpose::Discovery(server);
    let task = ClientTask {
        alloc,
        purpose,
        chosen: request,
    };
    ask_by_coap(&task, None, net, out)
}
