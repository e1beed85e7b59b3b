//! A request over CoAP: its server is looked up, and the request is sent there (RFC 7252, section 5).

ghost use Rattle.std.specs.Prelude.{◌≡◌};
ghost use Rattle.coap_client.specs.Exchange.{IsNew};
ghost use Rattle.network_consumer.specs.Deeds.{put_of, sight, Shows};
ghost use Rattle.network_consumer.specs.Answers.{CanBeJudged};
ghost use Rattle.network_consumer.specs.Asking.{method_code as code_of_method, IsAskable};
ghost use Rattle.network_consumer.specs.Blockwise.{nothing_joined};
ghost use Rattle.network_consumer.specs.Consuming.{AsksByCoap, AsksPeer, IsFresh};

use crate::asking::{MOST_EVENTS, await_end};
use crate::block_transfer::BlockTransfer;
use crate::coap_waiting::CoapWaiting;
use crate::waiting::Waiting;
use crate::{ClientTask, Consumed, ConsumedOutcome};
use coap_client::{Client, Transfer};
use coap_msg::{DELETE, EMPTY, GET, POST, PUT};
use servient_outside::{Found, Net, Out};
use thing_ops::Verb;
use wot_json::Bytes;

/// The id of the first message.
const FIRST_ID: u16 = 0;

/// Asks over CoAP with this body, or with none, and awaits what comes of it.
pub fn ask_by_coap<N: Net, O: Out>(
    task: &ClientTask<'_>,
    body: Option<Bytes>,
    net: &mut N,
    out: &mut O,
) -> Consumed
    requires asked { CanBeJudged task.now.purpose }
    requires askable { IsAskable task.now.chosen.now }
    ensures { Shows (λ deeds. AsksByCoap task.now.purpose task.now.chosen.now body deeds result)
        (sight (N.seen net.old) (O.seen out.old)) (sight (N.seen net.new) (O.seen out.new)) (put_of result) }
{
    match Transfer::new(task.alloc) {
        Ok(answer) => make_client(task, BlockTransfer::new(body, answer), net, out),
        Err(_) => Consumed::NoMemory,
    }
}

/// Asks with a new client.
fn make_client<N: Net, O: Out>(
    task: &ClientTask<'_>,
    transfer: BlockTransfer,
    net: &mut N,
    out: &mut O,
) -> Consumed
    requires asked { CanBeJudged task.now.purpose }
    requires askable { IsAskable task.now.chosen.now }
    requires transfer { transfer ≡ nothing_joined transfer.input }
    ensures { Shows (λ deeds. AsksByCoap task.now.purpose task.now.chosen.now transfer.input deeds result)
        (sight (N.seen net.old) (O.seen out.old)) (sight (N.seen net.new) (O.seen out.new)) (put_of result) }
{
    match Client::new(task.alloc, FIRST_ID) {
        Ok(client) => find(task, client, transfer, net, out),
        Err(_) => Consumed::NoMemory,
    }
}

/// Looks the server up, and asks there.
fn find<N: Net, O: Out>(
    task: &ClientTask<'_>,
    client: Client,
    transfer: BlockTransfer,
    net: &mut N,
    out: &mut O,
) -> Consumed
    requires asked { CanBeJudged task.now.purpose }
    requires askable { IsAskable task.now.chosen.now }
    requires client { IsNew 0 client }
    requires transfer { transfer ≡ nothing_joined transfer.input }
    ensures { Shows (λ deeds. AsksByCoap task.now.purpose task.now.chosen.now transfer.input deeds result)
        (sight (N.seen net.old) (O.seen out.old)) (sight (N.seen net.new) (O.seen out.new)) (put_of result) }
{
    match net.find(task.alloc, task.chosen.host.as_str(), task.chosen.port) {
        Found::At(peer) => {
            let waiting = CoapWaiting {
                client,
                moment: 0,
                peer,
                left: task.purpose.count(),
                transfer,
            };
            ask_peer(task, waiting, net, out)
        }
        Found::Failed => Consumed::Failed,
        Found::NoMemory => Consumed::NoMemory,
    }
}

/// Asks the server, where that fits into a message.
fn ask_peer<N: Net, O: Out>(
    task: &ClientTask<'_>,
    waiting: CoapWaiting,
    net: &mut N,
    out: &mut O,
) -> Consumed
    requires asked { CanBeJudged task.now.purpose }
    requires askable { IsAskable task.now.chosen.now }
    requires fresh { IsFresh task.now.purpose waiting.transfer.input waiting.peer waiting }
    ensures { Shows (λ deeds. AsksPeer task.now.purpose task.now.chosen.now waiting deeds result)
        (sight (N.seen net.old) (O.seen out.old)) (sight (N.seen net.new) (O.seen out.new)) (put_of result) }
{
    let mut waiting = waiting;
    let blocks = waiting.transfer.asked();
    match waiting.send(task.chosen, blocks, net) {
        Ok(()) => {
            let mut waiting = Waiting::Coap(waiting);
            await_end(task, &mut waiting, MOST_EVENTS, net, out)
        }
        Err(_) => Consumed::Other(ConsumedOutcome::Long),
    }
}

/// The code of a method; that of an empty message for those that aren't chosen.
pub fn method_code(verb: Verb) -> u8
    ensures { result ≡ code_of_method verb }
{
    match verb {
        Verb::Get => GET,
        Verb::Post => POST,
        Verb::Put => PUT,
        Verb::Delete => DELETE,
        Verb::Head | Verb::Patch | Verb::Other => EMPTY,
    }
}
