//! The meaning of a message to a client.

ghost use Rattle.std.specs.Prelude.{◌≡◌, ◌/◌, IsTrue, ◌↔◌};
ghost use Rattle.coap_msg.specs.MessageOf.{message_of};
ghost use Rattle.coap_client.specs.Answers.{is_response as is_response_seen, is_response_class, number_within, sequence_of};

use crate::block2::block2_in;
use crate::observation::Observation;
use crate::outstanding::Outstanding;
use crate::state::State;
use coap_msg::{
    CLIENT_ERROR, DETAILS, Endpoint, Message, OBSERVE, Options, SERVER_ERROR, SUCCESS, Type4,
    number_of,
};

/// The meaning of a message to a client. The first three are said of messages that are taken.
#[derive(Clone, Copy)]
pub enum Meaning {
    /// A value of the observed target, newer than those before it, with its sequence number.
    Value(u32),
    /// A value that isn't newer.
    Old,
    /// A response.
    Response,
    /// The outstanding request was reset.
    Reset,
    /// The outstanding request was received; its response is to come in a message of its own.
    Received,
    /// Nothing.
    Foreign,
}

impl State {
    ghost use Rattle.std.specs.Prelude.{◌≡◌};
    ghost use Rattle.coap_msg.specs.MessageOf.{message_of};
    ghost use Rattle.coap_client.specs.Answers.{takes, meaning, meaning_else, may_carry, is_for_request, is_for_observation, notified, meaning_taken};

    /// Whether a message is taken.
    pub fn takes(&self, from: Endpoint, message: &Message<'_>) -> bool
        ensures { result ≡ takes self.now from (message_of message.now) }
    {
        is_response(message)
            && self.may_carry(message.kind, message.id)
            && (self.is_for_request(from, message.token)
                || self.is_for_observation(from, message.token))
    }

    /// The meaning of a message.
    pub fn meaning(&self, from: Endpoint, message: &Message<'_>) -> Meaning
        ensures { result ≡ meaning self.now from (message_of message.now) }
    {
        if self.takes(from, message) {
            self.meaning_taken(self.notified(from, message))
        } else {
            self.meaning_else(from, message)
        }
    }

    /// Whether a message of this type and ID may carry a response. An acknowledgement needs the outstanding request's,
    /// so that a late one of a registration is no new value.
    fn may_carry(&self, kind: Type4, id: u16) -> bool
        ensures { result ≡ may_carry self.now.outstanding kind id }
    {
        match kind {
            Type4::Con | Type4::Non => true,
            Type4::Ack => match &self.outstanding {
                Some(request) => id == request.id,
                None => false,
            },
            Type4::Rst => false,
        }
    }

    /// Whether a message from this endpoint with this token belongs to the outstanding request.
    pub fn is_for_request(&self, from: Endpoint, token: &[u8]) -> bool
        ensures { result ≡ is_for_request self.now.outstanding from token.now }
    {
        match &self.outstanding {
            Some(request) => request.is_of(from, token),
            None => false,
        }
    }

    /// Whether a message from this endpoint with this token belongs to the observation.
    pub fn is_for_observation(&self, from: Endpoint, token: &[u8]) -> bool
        ensures { result ≡ is_for_observation self.now.observation from token.now }
    {
        match &self.observation {
            Some(observation) => observation.is_of(from, token),
            None => false,
        }
    }

    /// The sequence number of a message that is a notification.
    fn notified(&self, from: Endpoint, message: &Message<'_>) -> Option<u32>
        ensures { result ≡ notified self.now from (message_of message.now) }
    {
        if message.code / DETAILS == SUCCESS && self.is_for_observation(from, message.token) {
            sequence_of(&message.options)
        } else {
            None
        }
    }

    /// The meaning of a message that is taken, a notification with this sequence number or else a response.
    fn meaning_taken(&self, notified: Option<u32>) -> Meaning
        ensures { result ≡ meaning_taken self.now notified }
    {
        match notified {
            Some(sequence) => {
                if self.is_newer(sequence) {
                    Meaning::Value(sequence)
                } else {
                    Meaning::Old
                }
            }
            None => Meaning::Response,
        }
    }

    ghost use Rattle.coap_client.specs.Answers.{is_newer, latest_of};

    /// Whether a value with this sequence number that comes now is newer than the latest.
    fn is_newer(&self, sequence: u32) -> bool
        ensures { result ≡ is_newer (latest_of self.now.observation) self.now.moment sequence }
    {
        match &self.observation {
            Some(observation) => observation.is_newer(self.moment, sequence),
            None => true,
        }
    }

    ghost use Rattle.coap_client.specs.Answers.{is_from_server};

    /// The meaning of a message that isn't taken. A Reset counts with every code, because its type says enough.
    fn meaning_else(&self, from: Endpoint, message: &Message<'_>) -> Meaning
        ensures { result ≡ meaning_else self.now from (message_of message.now) message.now.kind }
    {
        match message.kind {
            Type4::Rst => {
                if self.is_from_server(from, message.id) {
                    Meaning::Reset
                } else {
                    Meaning::Foreign
                }
            }
            Type4::Ack => {
                if message.code == 0 && self.is_from_server(from, message.id) {
                    Meaning::Received
                } else {
                    Meaning::Foreign
                }
            }
            Type4::Con | Type4::Non => Meaning::Foreign,
        }
    }

    /// Whether an endpoint and an id are those of the outstanding request.
    fn is_from_server(&self, from: Endpoint, id: u16) -> bool
        ensures { result ≡ is_from_server self.now.outstanding from id }
    {
        match &self.outstanding {
            Some(request) => request.is_named(from, id),
            None => false,
        }
    }
}

/// Whether a message is a response: of one of their classes, and with a Block2 that can be read, if any, since that
/// option is critical (RFC 7252, section 5.4.1).
fn is_response(message: &Message<'_>) -> bool
    ensures { result ≡ is_response_seen (message_of message.now) }
{
    is_response_class(message.code / DETAILS) && block2_in(&message.options).is_some()
}

/// Whether messages of a class are responses (RFC 7252, section 5.9).
fn is_response_class(class: u8) -> bool
    ensures { result ≡ is_response_class class }
{
    class == SUCCESS || class == CLIENT_ERROR || class == SERVER_ERROR
}

/// The sequence number that the options say.
fn sequence_of(options: &Options<'_>) -> Option<u32>
    ensures { result ≡ sequence_of options.now }
{
    for (number, value) in options.iter() {
        if number == OBSERVE {
            return number_within(value);
        }
    }
    None
}

/// The most bytes of the value of Observe (RFC 7641, section 2).
const LONGEST_OBSERVE: usize = 3;

/// The number that at most three bytes say (RFC 7641, section 2).
fn number_within(value: &[u8]) -> Option<u32>
    ensures { result ≡ number_within value.now }
{
    if value.len() <= LONGEST_OBSERVE {
        Some(number_of(value))
    } else {
        None
    }
}
