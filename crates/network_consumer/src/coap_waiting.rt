//! A request was sent over CoAP, and its response, or the values of an observed property, are awaited.

ghost use Rattle.std.specs.Prelude.{◌≡◌, ◌≤◌, length, IfSome, None, IfOk, IfErr};
ghost use Rattle.coap_msg.specs.Blocks.{IsBlock};
ghost use Rattle.servient_outside.specs.Network.{NetShows};
ghost use Rattle.network_consumer.specs.Deeds.{put_in, sight, Shows, ShowsHappenings};
ghost use Rattle.network_consumer.specs.Answers.{CanBeJudged};
ghost use Rattle.network_consumer.specs.Waiting.{event_of};
ghost use Rattle.coap_client.specs.declared.fault.ClientFault.TheVariants.{NoRoom};
ghost use Rattle.coap_client.specs.Exchange.{SaysBlock};
ghost use Rattle.wot_consumer.specs.declared.chosen.Chosen.{Chosen as ChosenForm};
ghost use Rattle.network_consumer.specs.Asking.{AreBlocks, IsAskable};
ghost use Rattle.network_consumer.specs.Order.{IsFreeAfter, IsInOrder, MayBeSent};
ghost use Rattle.network_consumer.specs.Blockwise.{is_joined as is_joined_of};
ghost use Rattle.network_consumer.specs.CoapWaiting.{awaits_more as awaits_further, replied, AfterValue, AsksFurther, Cancels, DeliversNews, FallsDue, Follows, FollowsAnswer, FollowsValue, HearsByCoap, Meets, Sends};

use crate::answers::answer_message;
use crate::block_transfer::{BlockTransfer, NextStep, RequestAnswer};
use crate::blocks::Blocks;
use crate::coap_asking::method_code;
use crate::printing::close;
use crate::waiting::Came;
use crate::{ClientTask, Consumed, ConsumedOutcome};
use coap_client::{Ask, Client, ClientFault, Due, News};
use coap_msg::{CONTENT, Endpoint, GET, LONGEST_MESSAGE};
use servient_outside::{Net, Out, What};
use wot_consumer::Chosen;

/// The state of waiting for an answer.
#[derive(Drop)]
pub struct CoapWaiting {
    pub client: Client,
    /// The greatest moment so far, in milliseconds.
    pub moment: u64,
    /// The endpoint to which the request was sent.
    pub peer: Endpoint,
    /// The number of values that are still to come, where a property is observed.
    pub left: u32,
    /// The value that is handed in, and the part of the answer that came back so far.
    pub transfer: BlockTransfer,
}

impl CoapWaiting {
    /// Takes an event, does what it and the moment ask for, and says how the operation ends by that, or that it goes on.
    pub fn hear<N: Net, O: Out>(
        &mut self,
        task: &ClientTask<'_>,
        came: &Came<'_>,
        net: &mut N,
        out: &mut O,
    ) -> Option<Consumed>
        requires asked { CanBeJudged task.now.purpose }
        requires askable { IsAskable task.now.chosen.now }
        requires in_time { self.old.client.moment ≤ self.old.moment }
        requires in_order { IsInOrder task.now.chosen.now self.old }
        ensures hears { Shows (λ deeds. HearsByCoap task.now.purpose task.now.chosen.now self.old (event_of came.now) deeds result self.new)
            (sight (N.seen net.old) (O.seen out.old)) (sight (N.seen net.new) (O.seen out.new)) (put_in result) }
        ensures in_time { self.new.client.moment ≤ self.new.moment }
        ensures in_order { result ≡ None → IsInOrder task.now.chosen.now self.new }
    {
        self.moment = self.moment.max(came.event.moment);
        match self.meet(task, came, net, out) {
            Some(consumed) => Some(consumed),
            None => self.do_due(net),
        }
    }

    /// Does what an event asks for.
    fn meet<N: Net, O: Out>(
        &mut self,
        task: &ClientTask<'_>,
        came: &Came<'_>,
        net: &mut N,
        out: &mut O,
    ) -> Option<Consumed>
        requires asked { CanBeJudged task.now.purpose }
        requires askable { IsAskable task.now.chosen.now }
        requires in_time { self.old.client.moment ≤ self.old.moment }
        requires in_order { IsInOrder task.now.chosen.now self.old }
        ensures meets { Shows (λ deeds. Meets task.now.purpose task.now.chosen.now self.old (event_of came.now) deeds result self.new)
            (sight (N.seen net.old) (O.seen out.old)) (sight (N.seen net.new) (O.seen out.new)) (put_in result) }
        ensures in_time { self.new.client.moment ≤ self.new.moment }
        ensures in_order { result ≡ None → IsInOrder task.now.chosen.now self.new }
    {
        match came.event.what {
            What::Datagram(from, _) => {
                let news = self.deliver(from, came.bytes, net);
                self.follow(task, news, net, out)
            }
            What::Stop => Some(Consumed::Other(ConsumedOutcome::Stopped)),
            _ => None,
        }
    }

    /// Delivers a datagram to the client, sends its reply, and gives the news.
    fn deliver<'b, N: Net>(&mut self, from: Endpoint, bytes: &'b [u8], net: &mut N) -> News<'b>
        requires in_time { self.old.client.moment ≤ self.old.moment }
        ensures delivers { ShowsHappenings (λ happened. DeliversNews self.old from bytes.now happened result self.new)
            (N.seen net.old) (N.seen net.new) }
        ensures block { SaysBlock result }
        ensures in_time { self.new.client.moment ≤ self.new.moment }
        ensures in_order { (c : ChosenForm) → IsInOrder c self.old → IsInOrder c self.new }
        ensures free { (c : ChosenForm) → IsInOrder c self.old → IsFreeAfter result self.new.client }
    {
        // A room on the stack, so that a message takes no memory.
        let mut room = [0; LONGEST_MESSAGE];
        let delivered = self.client.deliver(self.moment, from, bytes, &mut room);
        send_reply(from, delivered.reply, &room, net);
        delivered.news
    }

    /// Does what news ask for.
    fn follow<N: Net, O: Out>(
        &mut self,
        task: &ClientTask<'_>,
        news: News<'_>,
        net: &mut N,
        out: &mut O,
    ) -> Option<Consumed>
        requires asked { CanBeJudged task.now.purpose }
        requires askable { IsAskable task.now.chosen.now }
        requires in_time { self.old.client.moment ≤ self.old.moment }
        requires block { SaysBlock news }
        requires in_order { IsInOrder task.now.chosen.now self.old }
        requires free { IsFreeAfter news self.old.client }
        ensures follows { Shows (λ deeds. Follows task.now.purpose task.now.chosen.now self.old news.entry deeds result self.new)
            (sight (N.seen net.old) (O.seen out.old)) (sight (N.seen net.new) (O.seen out.new)) (put_in result) }
        ensures in_time { self.new.client.moment ≤ self.new.moment }
        ensures in_order { result ≡ None → IsInOrder task.now.chosen.now self.new }
    {
        match news {
            News::Nothing => None,
            News::Old => None,
            News::Reset => Some(Consumed::Other(ConsumedOutcome::Reset)),
            News::Answered(code, block2, payload) => {
                let answer = RequestAnswer {
                    code,
                    block2,
                    payload,
                };
                self.follow_answer(task, &answer, net, out)
            }
            News::Value(payload) => self.follow_value(task, payload, net, out),
        }
    }

    /// Does what an answer asks for.
    fn follow_answer<N: Net, O: Out>(
        &mut self,
        task: &ClientTask<'_>,
        answer: &RequestAnswer<'_>,
        net: &mut N,
        out: &mut O,
    ) -> Option<Consumed>
        requires asked { CanBeJudged task.now.purpose }
        requires askable { IsAskable task.now.chosen.now }
        requires in_time { self.old.client.moment ≤ self.old.moment }
        requires block { IfSome answer.now.block2 IsBlock }
        requires in_order { IsInOrder task.now.chosen.now self.old }
        requires free { self.old.client.outstanding ≡ None }
        ensures follows { Shows (λ deeds. FollowsAnswer task.now.purpose task.now.chosen.now self.old answer.now.code answer.now.block2 answer.now.payload.now deeds result self.new)
            (sight (N.seen net.old) (O.seen out.old)) (sight (N.seen net.new) (O.seen out.new)) (put_in result) }
        ensures in_time { self.new.client.moment ≤ self.new.moment }
        ensures in_order { result ≡ None → IsInOrder task.now.chosen.now self.new }
    {
        let joins = is_joined(task.chosen);
        match self.transfer.take(joins, answer) {
            NextStep::Ask(blocks) => self.ask_further(task.chosen, blocks, net),
            NextStep::Judge => {
                let payload = self.transfer.whole(joins, answer.payload);
                Some(close(answer_message(task, answer.code, payload), out))
            }
            NextStep::Malformed => Some(Consumed::Other(ConsumedOutcome::Malformed)),
            NextStep::Long => Some(Consumed::Other(ConsumedOutcome::Long)),
        }
    }

    /// Asks further with these blocks, where the client may, and else ends.
    fn ask_further<N: Net>(
        &mut self,
        chosen: &Chosen,
        blocks: Blocks,
        net: &mut N,
    ) -> Option<Consumed>
        requires askable { IsAskable chosen.now }
        requires blocks { AreBlocks blocks }
        requires in_time { self.old.client.moment ≤ self.old.moment }
        requires may_be_sent { MayBeSent chosen.now self.old blocks }
        ensures asks { ShowsHappenings (λ happened. AsksFurther chosen.now self.old blocks happened result self.new)
            (N.seen net.old) (N.seen net.new) }
        ensures in_time { self.new.client.moment ≤ self.new.moment }
        ensures in_order { result ≡ None → IsInOrder chosen.now self.new }
    {
        match self.send(chosen, blocks, net) {
            Ok(()) => None,
            Err(_) => Some(Consumed::Other(ConsumedOutcome::Long)),
        }
    }

    /// Prints a value of what is observed, and goes on or ends.
    fn follow_value<N: Net, O: Out>(
        &mut self,
        task: &ClientTask<'_>,
        payload: &[u8],
        net: &mut N,
        out: &mut O,
    ) -> Option<Consumed>
        requires asked { CanBeJudged task.now.purpose }
        requires askable { IsAskable task.now.chosen.now }
        requires in_time { self.old.client.moment ≤ self.old.moment }
        requires in_order { IsInOrder task.now.chosen.now self.old }
        ensures follows { Shows (λ deeds. FollowsValue task.now.purpose task.now.chosen.now self.old payload.now deeds result self.new)
            (sight (N.seen net.old) (O.seen out.old)) (sight (N.seen net.new) (O.seen out.new)) (put_in result) }
        ensures in_time { self.new.client.moment ≤ self.new.moment }
        ensures in_order { result ≡ None → IsInOrder task.now.chosen.now self.new }
    {
        let consumed = close(answer_message(task, CONTENT, payload), out);
        self.after_value(task.chosen, consumed, net)
    }

    /// Goes on where further values are awaited, or else observes no longer and ends.
    fn after_value<N: Net>(
        &mut self,
        chosen: &Chosen,
        consumed: Consumed,
        net: &mut N,
    ) -> Option<Consumed>
        requires askable { IsAskable chosen.now }
        requires in_time { self.old.client.moment ≤ self.old.moment }
        requires in_order { IsInOrder chosen.now self.old }
        ensures ends { ShowsHappenings (λ happened. AfterValue chosen.now self.old consumed happened result self.new)
            (N.seen net.old) (N.seen net.new) }
        ensures in_time { self.new.client.moment ≤ self.new.moment }
        ensures in_order { result ≡ None → IsInOrder chosen.now self.new }
    {
        if awaits_more(self.left, consumed) {
            self.left -= 1;
            return None;
        }
        self.cancel(chosen, net);
        Some(consumed)
    }

    /// Asks the peer to send no further values, where that fits into a message. The answer isn't awaited.
    fn cancel<N: Net>(&mut self, chosen: &Chosen, net: &mut N)
        requires askable { IsAskable chosen.now }
        requires in_time { self.old.client.moment ≤ self.old.moment }
        ensures cancels { ShowsHappenings (λ happened. Cancels chosen.now self.old happened)
            (N.seen net.old) (N.seen net.new) }
        ensures in_time { self.new.client.moment ≤ self.new.moment }
    {
        let ask = Ask {
            code: GET,
            path: &chosen.path,
            observe: Some(false),
            format: None,
            block1: None,
            block2: None,
            payload: &[],
        };
        let mut room = [0; LONGEST_MESSAGE];
        match self.client.request(self.moment, self.peer, &ask, &mut room) {
            Ok(size) => net.datagram(self.peer, &room[..size]),
            Err(_) => {}
        }
    }

    /// Sends a request with these blocks, or says why the client refuses it.
    pub fn send<N: Net>(
        &mut self,
        chosen: &Chosen,
        blocks: Blocks,
        net: &mut N,
    ) -> Result<(), ClientFault>
        requires askable { IsAskable chosen.now }
        requires blocks { AreBlocks blocks }
        requires in_time { self.old.client.moment ≤ self.old.moment }
        requires may_be_sent { MayBeSent chosen.now self.old blocks }
        ensures sends { ShowsHappenings (λ happened. Sends chosen.now self.old blocks happened result self.new)
            (N.seen net.old) (N.seen net.new) }
        ensures in_time { self.new.client.moment ≤ self.new.moment }
        ensures in_order { IfOk result (λ _. IsInOrder chosen.now self.new) }
        ensures fault { IfErr result (λ f. f ≡ NoRoom) }
    {
        let ask = self.transfer.ask(chosen, blocks);
        let mut room = [0; LONGEST_MESSAGE];
        match self.client.request(self.moment, self.peer, &ask, &mut room) {
            Ok(size) => {
                net.datagram(self.peer, &room[..size]);
                self.transfer.note_asked(blocks);
                Ok(())
            }
            Err(fault) => Err(fault),
        }
    }

    /// Does what falls due at its moment.
    fn do_due<N: Net>(&mut self, net: &mut N) -> Option<Consumed>
        requires { self.old.client.moment ≤ self.old.moment }
        ensures due { ShowsHappenings (λ happened. FallsDue self.old happened result self.new)
            (N.seen net.old) (N.seen net.new) }
        ensures in_time { self.new.client.moment ≤ self.new.moment }
        ensures in_order { (c : ChosenForm) → IsInOrder c self.old → IsInOrder c self.new }
    {
        let mut room = [0; LONGEST_MESSAGE];
        match self.client.due(self.moment, &mut room) {
            Due::Nothing => None,
            Due::Send(size) => {
                net.datagram(self.peer, &room[..size]);
                None
            }
            Due::TimedOut => Some(Consumed::Silent),
        }
    }
}

/// Sends a reply of this size, where there is one, which is at the front of a room.
fn send_reply<N: Net>(to: Endpoint, size: Option<usize>, room: &[u8], net: &mut N)
    requires { IfSome size (λ n. n ≤ length room.now) }
    ensures { NetShows (N.seen net.old) (N.seen net.new) (replied to size room.now) }
{
    match size {
        Some(size) => net.datagram(to, &room[..size]),
        None => {}
    }
}

/// Whether the answers are joined: they were asked for by a GET, and nothing is observed.
fn is_joined(chosen: &Chosen) -> bool
    ensures { result ≡ is_joined_of chosen.now }
{
    method_code(chosen.verb) == GET && !chosen.observe
}

/// Further values are awaited after one by which the operation would end so, of this many that were still to come.
fn awaits_more(left: u32, consumed: Consumed) -> bool
    ensures { result ≡ awaits_further left consumed }
{
    match consumed {
        // Each end is listed, since with `_` the definition of the contract doesn't compute.
        Consumed::Done => 1 < left,
        Consumed::Other(_)
        | Consumed::Silent
        | Consumed::Failed
        | Consumed::Unprinted
        | Consumed::Spent
        | Consumed::NoMemory => false,
    }
}
