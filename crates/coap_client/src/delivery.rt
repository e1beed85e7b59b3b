//! The effect of a datagram on a client.

ghost use Rattle.std.specs.Prelude.{◌≡◌};
ghost use Rattle.coap_msg.specs.MessageOf.{message_of};
ghost use Rattle.coap_client.specs.Exchange.{IsNews, SaysBlock};

use crate::block2::block2_of;
use crate::meaning::Meaning;
use crate::observation::Latest;
use crate::state::State;
use crate::{Delivered, News};
use coap_msg::{Endpoint, LONGEST_MESSAGE, Message, decode, put_empty_reply, put_rejection};

impl State {
    ghost use Rattle.std.specs.Prelude.{◌≡◌};
    ghost use Rattle.coap_msg.specs.MessageOf.{message_of};
    ghost use Rattle.coap_client.specs.Exchange.{Delivers, IsNews, SaysBlock, after, registered, valued, answered, received};
    ghost use Rattle.coap_msg.specs.Empty.{empty_reply};
    ghost use Rattle.coap_msg.specs.Written.{IsReplied};
    ghost use Rattle.coap_client.specs.Answers.{takes, meaning};

    /// Takes bytes from an endpoint.
    pub fn deliver<'b>(
        &mut self,
        from: Endpoint,
        bytes: &'b [u8],
        out: &mut [u8; LONGEST_MESSAGE],
    ) -> Delivered<'b>
        ensures ok { Delivers self.old from bytes.now result out.old out.new self.new }
        ensures block { SaysBlock result.news }
    {
        match decode(bytes) {
            Ok(message) => self.receive(from, &message, out),
            Err(_fault) => Delivered {
                reply: put_rejection(bytes, out),
                news: News::Nothing,
            },
        }
    }

    /// Takes a message from an endpoint.
    fn receive<'b>(
        &mut self,
        from: Endpoint,
        message: &Message<'b>,
        out: &mut [u8; LONGEST_MESSAGE],
    ) -> Delivered<'b>
        ensures reply { IsReplied (empty_reply message.now.kind message.now.id (takes self.old from (message_of message.now)))
            result.reply out.old out.new }
        ensures news { IsNews (meaning self.old from (message_of message.now)) (message_of message.now) result.news }
        ensures block { SaysBlock result.news }
        ensures after { self.new ≡ after self.old from message.now.token.now (meaning self.old from (message_of message.now)) }
    {
        let taken = self.takes(from, message);
        let reply = put_empty_reply(message.kind, message.id, taken, out);
        let meaning = self.meaning(from, message);
        self.follow(meaning, from, message.token);
        Delivered {
            reply,
            news: news_of(meaning, message),
        }
    }

    /// Has the effect of a message of this meaning.
    fn follow(&mut self, meaning: Meaning, from: Endpoint, token: &[u8])
        ensures { self.new ≡ after self.old from token.now meaning }
    {
        match meaning {
            Meaning::Value(sequence) => self.note(sequence),
            Meaning::Old => self.close_registration(),
            Meaning::Response => self.end_answered(from, token),
            Meaning::Reset => self.end(),
            Meaning::Received => self.acknowledge(),
            Meaning::Foreign => {}
        }
    }

    /// Notes a value of the observed target.
    fn note(&mut self, sequence: u32)
        ensures { self.new ≡ valued self.old sequence }
    {
        self.close_registration();
        let moment = self.moment;
        if let Some(observation) = &mut self.observation {
            observation.latest = Some(Latest { sequence, moment });
        }
    }

    /// Ends the outstanding request if it is a registration: its observation lasts.
    fn close_registration(&mut self)
        ensures { self.new ≡ registered self.old }
    {
        if self.registers() {
            self.outstanding = None;
        }
    }

    /// Ends the request and the observation that a response belongs to.
    fn end_answered(&mut self, from: Endpoint, token: &[u8])
        ensures { self.new ≡ answered self.old from token.now }
    {
        if self.is_for_observation(from, token) {
            self.observation = None;
        }
        if self.is_for_request(from, token) {
            self.outstanding = None;
        }
    }

    /// Notes that the outstanding request was received.
    fn acknowledge(&mut self)
        ensures { self.new ≡ received self.old }
    {
        if let Some(request) = &mut self.outstanding {
            request.is_acknowledged = true;
        }
    }
}

/// The news of a message with this meaning.
fn news_of<'b>(meaning: Meaning, message: &Message<'b>) -> News<'b>
    ensures news { IsNews meaning (message_of message.now) result }
    ensures block { SaysBlock result }
{
    match meaning {
        Meaning::Value(_sequence) => News::Value(message.payload),
        Meaning::Old => News::Old,
        Meaning::Response => {
            News::Answered(message.code, block2_of(&message.options), message.payload)
        }
        Meaning::Reset => News::Reset,
        Meaning::Received | Meaning::Foreign => News::Nothing,
    }
}
