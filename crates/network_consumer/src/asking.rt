//! The whole of an operation: the value that is handed in is judged, the request is sent, and its answer is awaited.

ghost use Rattle.std.specs.Prelude.{◌≡◌, option_map};
ghost use Rattle.wot_forms.specs.declared.scheme.Scheme.TheVariants as scheme;
ghost use Rattle.wot_json.specs.Meaning.{json_of};
ghost use Rattle.wot_json.specs.Json.{text_of as text_of_value};
ghost use Rattle.wot_consumer.specs.Messages.{request_bytes};
ghost use Rattle.network_consumer.specs.Deeds.{put_of, sight, Shows};
ghost use Rattle.network_consumer.specs.Answers.{CanBeAsked, CanBeJudged};
ghost use Rattle.network_consumer.specs.Asking.{IsAskable, IsChoice};
ghost use Rattle.network_consumer.specs.Consuming.{AsksBy, AsksByHttp, AsksOrNot, Consumes};
ghost use Rattle.network_consumer.specs.Waiting.{Awaits, IsReady};

use crate::block_transfer::slice_of;
use crate::coap_asking::ask_by_coap;
use crate::http_waiting::HttpWaiting;
use crate::waiting::{Came, Waiting};
use crate::{ClientTask, Consumed, ConsumedOutcome, Purpose, ThingOperation};
use servient_outside::{Dialled, Net, Next, Out};
use std::alloc::Global;
use wot_consumer::{Chosen, Scheme, http_request, judge_input};
use wot_json::{Bytes, Tree, text_of};

/// Room for the bytes of one event.
const BUFFER_BYTES: usize = 4096;

/// The most events that are taken.
pub const MOST_EVENTS: u64 = 100_000;

/// Does one operation by the form that was chosen for it, and prints each payload that it brings with a line feed after
/// it, as it comes, where it isn't empty. The value that is handed in is judged first: where the description refuses it,
/// nothing is sent. Where it is out of memory, the request may have been sent.
pub fn consume<N: Net, O: Out>(
    alloc: Global,
    operation: &ThingOperation<'_>,
    chosen: &Chosen,
    net: &mut N,
    out: &mut O,
) -> Consumed
    requires asked { CanBeAsked operation.now }
    requires choice { IsChoice operation.now chosen.now }
    ensures { Shows (λ deeds. Consumes operation.now chosen.now deeds result)
        (sight (N.seen net.old) (O.seen out.old)) (sight (N.seen net.new) (O.seen out.new)) (put_of result) }
{
    let purpose = Purpose::Operation(*operation);
    let task = ClientTask {
        alloc,
        purpose,
        chosen,
    };
    // A match and not `?`, since the end of an operation is no `Result`.
    match judge_input(
        alloc,
        operation.tree,
        operation.op,
        operation.name,
        operation.input,
    ) {
        Ok(true) => ask(&task, operation.input, net, out),
        Ok(false) => Consumed::Other(ConsumedOutcome::Input),
        Err(_) => Consumed::NoMemory,
    }
}

/// Asks with the text of the value that is handed in, or with none.
fn ask<N: Net, O: Out>(
    task: &ClientTask<'_>,
    input: Option<&Tree>,
    net: &mut N,
    out: &mut O,
) -> Consumed
    requires asked { CanBeJudged task.now.purpose }
    requires askable { task.now.chosen.now.scheme ≡ scheme.Coap → IsAskable task.now.chosen.now }
    ensures { Shows (λ deeds. AsksOrNot task.now.purpose task.now.chosen.now
        (option_map text_of_value (option_map (λ v. json_of v.now) input.entry)) deeds result)
        (sight (N.seen net.old) (O.seen out.old)) (sight (N.seen net.new) (O.seen out.new)) (put_of result) }
{
    match input {
        None => ask_with(task, None, net, out),
        Some(value) => match text_of(task.alloc, value) {
            Ok(body) => ask_with(task, Some(body), net, out),
            Err(_) => Consumed::NoMemory,
        },
    }
}

/// Asks with this body, or with none.
fn ask_with<N: Net, O: Out>(
    task: &ClientTask<'_>,
    body: Option<Bytes>,
    net: &mut N,
    out: &mut O,
) -> Consumed
    requires asked { CanBeJudged task.now.purpose }
    requires askable { task.now.chosen.now.scheme ≡ scheme.Coap → IsAskable task.now.chosen.now }
    ensures { Shows (λ deeds. AsksBy task.now.purpose task.now.chosen.now body task.now.chosen.now.scheme deeds result)
        (sight (N.seen net.old) (O.seen out.old)) (sight (N.seen net.new) (O.seen out.new)) (put_of result) }
{
    match task.chosen.scheme {
        Scheme::Http => ask_by_http(task, slice_of(&body), net, out),
        Scheme::Coap => ask_by_coap(task, body, net, out),
    }
}

/// Asks over HTTP.
fn ask_by_http<N: Net, O: Out>(
    task: &ClientTask<'_>,
    body: Option<&[u8]>,
    net: &mut N,
    out: &mut O,
) -> Consumed
    requires { CanBeJudged task.now.purpose }
    ensures { Shows (λ deeds. AsksByHttp task.now.purpose task.now.chosen.now
        (request_bytes task.now.chosen.now (option_map (λ b. b.now) body.entry)) deeds result)
        (sight (N.seen net.old) (O.seen out.old)) (sight (N.seen net.new) (O.seen out.new)) (put_of result) }
{
    match http_request(task.alloc, task.chosen, body) {
        Ok(request) => send_by_http(task, request.as_slice(), net, out),
        Err(_) => Consumed::NoMemory,
    }
}

/// Dials, sends a request, and awaits its reply.
fn send_by_http<N: Net, O: Out>(
    task: &ClientTask<'_>,
    request: &[u8],
    net: &mut N,
    out: &mut O,
) -> Consumed
    requires { CanBeJudged task.now.purpose }
    ensures { Shows (λ deeds. AsksByHttp task.now.purpose task.now.chosen.now request.now deeds result)
        (sight (N.seen net.old) (O.seen out.old)) (sight (N.seen net.new) (O.seen out.new)) (put_of result) }
{
    match net.dial(task.alloc, task.chosen.host.as_str(), task.chosen.port) {
        Dialled::Connected(connection) => {
            net.send(connection, request, &[]);
            let mut waiting = Waiting::Http(HttpWaiting::new(task.alloc, connection));
            await_end(task, &mut waiting, MOST_EVENTS, net, out)
        }
        Dialled::Failed => Consumed::Failed,
        Dialled::NoMemory => Consumed::NoMemory,
    }
}

/// Takes events until one ends the wait, and at most this many. The wait is lent, because a function that owned it
/// would give it up at each way out.
pub fn await_end<N: Net, O: Out>(
    task: &ClientTask<'_>,
    waiting: &mut Waiting,
    most: u64,
    net: &mut N,
    out: &mut O,
) -> Consumed
    requires asked { CanBeJudged task.now.purpose }
    requires ready { IsReady task.now.chosen.now waiting.old }
    ensures { Shows (Awaits task.now.purpose task.now.chosen.now result most waiting.old)
        (sight (N.seen net.old) (O.seen out.old)) (sight (N.seen net.new) (O.seen out.new)) (put_of result) }
{
    let mut buffer = [0u8; BUFFER_BYTES];
    for count in 0..most {
        match net.next(&mut buffer) {
            Next::Failed => return Consumed::Failed,
            Next::Got(event) => {
                let size = event.what.byte_count();
                let came = Came {
                    event,
                    bytes: &buffer[..size],
                };
                match waiting.hear(task, &came, net, out) {
                    Some(consumed) => return consumed,
                    None => {}
                }
            }
        }
    }
    Consumed::Spent
}
