//! Replies to requests: those of outcomes, of which some register or deregister an observer, and the server's own
//! refusals.

use crate::blocks::{BlockUse, Giving};
use crate::next::CoapNext;
use crate::observing::Effect;
use crate::options::text_format;
use crate::pending::PendingReply;
use crate::portion::{LONGEST_BODY, first_block, is_representation};
use crate::server::Server;
use crate::writing::put_word;
use coap_blocks::Whole;
use coap_msg::{BAD_OPTION, CONTENT, Code, Endpoint, LONGEST_MESSAGE, RequestType};
use coap_observe::Registered;
use itoa::Buffer;
use servient_base::put_bytes;
use thing_ops::Outcome;

/// Room for the payload that names a bad option, as `option 65535`.
const OPTION_PAYLOAD: usize = 16;

impl Server {
    ghost use Rattle.std.specs.Prelude.{◌≡◌, ◌≤◌, ◌<◌, ◌^◌, ◌/◌, ◌⊎◌, None, length, IfSome};
    ghost use Rattle.coap_msg.specs.Grammar.{spelling};
    ghost use Rattle.coap_exchange.specs.Table.{IsAwaited};
    ghost use Rattle.coap_msg.specs.declared.constants.TheConstants.{LONGEST_PAYLOAD};
    ghost use Rattle.thing_ops.specs.Outcomes.{HasCode, payload_of};
    ghost use Rattle.coap_bind.specs.Observing.{effect_of, Watches};
    ghost use Rattle.coap_bind.specs.Blocks.{IsUse, answer_reply, bodies_after};
    ghost use Rattle.coap_bind.specs.declared.blocks.BlockUse.TheVariants as blocks;
    ghost use Rattle.coap_bind.specs.Writing.{word_reply, observed, head_in, coap_reply};
    ghost use Rattle.coap_bind.specs.Server.{with_next_id, with_id_used, with_kept, with_observers, with_bodies};
    ghost use Rattle.coap_msg.specs.Written.{IsWritten};
    ghost use Rattle.coap_bind.specs.Telling.{RepliesAs, AnswersAs, HasRoom};
    ghost use Rattle.coap_bind.specs.Settling.{RefusesOption};

    /// Keeps the payload of an outcome for the requests for its later blocks, where it has any.
    pub fn keep_body(&mut self, pending: &PendingReply, outcome: &Outcome)
        requires { IsUse pending.now.blocks }
        ensures { self.new ≡ with_bodies (bodies_after pending.now.blocks pending.now.from outcome.now self.old.bodies) self.old }
    {
        match &pending.blocks {
            BlockUse::Whole => {}
            BlockUse::Gives(giving) => self.keep_body_under(pending.from, giving, outcome),
            BlockUse::Joined(_) => {}
        }
    }

    /// The same where it is given in blocks.
    fn keep_body_under(&mut self, from: Endpoint, giving: &Giving, outcome: &Outcome)
        requires { IsUse (blocks.Gives giving.now) }
        ensures { self.new ≡ with_bodies (bodies_after (blocks.Gives giving.now) from outcome.now self.old.bodies) self.old }
    {
        match kept_body(giving.szx, outcome) {
            Some(body) => self.bodies.put(from, &giving.path, &body, giving.moment),
            None => {}
        }
    }

    /// Has this effect on the observers, for the sender of a request, and gives the sequence number that the response
    /// says, if it says one.
    pub fn watch(&mut self, pending: &PendingReply, effect: Effect) -> Option<u32>
        ensures watches { Watches effect pending.now.from pending.now.token self.old.observers result self.new.observers }
        ensures same { self.new ≡ with_observers self.new.observers self.old }
    {
        let token = pending.token.as_bytes();
        match effect {
            Effect::Nothing => None,
            Effect::Cancels => {
                let _found = self.observers.cancel(pending.from, token);
                None
            }
            Effect::Registers(target) => {
                sequence_of(self.observers.register(pending.from, token, target))
            }
        }
    }

    /// Answers a request that was admitted with a diagnostic payload, and returns the number of bytes to send.
    pub fn refuse(
        &mut self,
        pending: &PendingReply,
        code: Code,
        word: &[u8],
        out: &mut [u8; LONGEST_MESSAGE],
    ) -> usize
        requires slot { IsAwaited pending.now.slot self.old.exchanges }
        requires code { (code / 32 ≡ 4) ⊎ (code / 32 ≡ 5) }
        requires word { length word.now ≤ 64 }
        ensures { RepliesAs (word_reply code word.now) pending.now result out.old out.new self.old self.new }
    {
        let size = put_word(code, word, pending, self.next_id, out);
        self.note_sent(pending, &out[..size]);
        size
    }

    /// Answers a request with a bad option, if it is answered.
    pub fn refuse_option(
        &mut self,
        pending: &PendingReply,
        number: u16,
        out: &mut [u8; LONGEST_MESSAGE],
    ) -> CoapNext<'static>
        requires slot { IsAwaited pending.now.slot self.old.exchanges }
        ensures { RefusesOption pending.now number result out.old out.new self.old self.new }
    {
        match pending.kind {
            RequestType::Confirmable => {
                let mut buffer = Buffer::new();
                // Bytes and not `format!`, since a refusal takes no memory.
                let mut word = [0u8; OPTION_PAYLOAD];
                let at = put_bytes(&mut word, 0, b"option ");
                let at = put_bytes(&mut word, at, buffer.format(number).as_bytes());
                CoapNext::Send(self.refuse(pending, BAD_OPTION, &word[..at], out))
            }
            RequestType::NonConfirmable => CoapNext::Nothing,
        }
    }

    /// Uses the next message ID.
    pub fn use_next_id(&mut self)
        ensures { self.new ≡ with_next_id self.old }
    {
        self.next_id = self.next_id.wrapping_add(1);
    }

    /// Notes that a reply was sent: it is kept, where its request was Confirmable, and has used the next message ID, where it
    /// was not.
    pub fn note_sent(&mut self, pending: &PendingReply, reply: &[u8])
        requires slot { IsAwaited pending.now.slot self.old.exchanges }
        requires length { length reply.now ≤ LONGEST_MESSAGE }
        ensures { self.new ≡ with_kept pending.now.kind pending.now.slot reply.now (with_id_used pending.now.kind self.old) }
    {
        match pending.kind {
            RequestType::Confirmable => self.exchanges.keep(pending.slot, reply),
            RequestType::NonConfirmable => self.use_next_id(),
        }
    }
}

ghost use Rattle.std.specs.Prelude.{◌≡◌, ◌≤◌, length, option_map, IfSome, Some, None, if◌then◌else◌};
ghost use Rattle.coap_blocks.specs.Bodies.{content_of, longest_body};
ghost use Rattle.coap_observe.specs.Watching.{sequence_of};
ghost use Rattle.coap_bind.specs.Blocks.{is_kept, outcome_content};
ghost use Rattle.thing_ops.specs.Outcomes.{payload_of};

/// The sequence number that the response to a registration says, if it says one.
fn sequence_of(registered: Registered) -> Option<u32>
    ensures { result ≡ sequence_of registered }
{
    match registered {
        Registered::New(sequence) => Some(sequence),
        Registered::Replaced(sequence) => Some(sequence),
        Registered::Full => None,
    }
}

/// The body of a response that is kept, where a block of this size was asked for, or none.
fn kept_body(szx: Option<u8>, outcome: &Outcome) -> Option<Whole<'_>>
    requires { IfSome szx (λ z. z ≤ 6) }
    ensures ok { option_map content_of result ≡ (if is_kept szx outcome.now then Some (outcome_content outcome.now) else None) }
    ensures length { IfSome result (λ w. length w.bytes.now ≤ longest_body) }
{
    if !is_representation(outcome) {
        return None;
    }
    match outcome.text() {
        Some(bytes) => {
            if first_block(szx).size() < bytes.len() && bytes.len() <= LONGEST_BODY {
                Some(whole_of(outcome, bytes))
            } else {
                None
            }
        }
        None => None,
    }
}

/// A response with the code 2.05, this payload and the version, those of its outcome.
fn whole_of<'a>(outcome: &Outcome, bytes: &'a [u8]) -> Whole<'a>
    requires { bytes.now ≡ payload_of outcome.now }
    ensures { content_of result ≡ outcome_content outcome.now }
{
    Whole {
        code: CONTENT,
        format: Some(text_format(outcome)),
        tag: outcome.version(),
        bytes,
    }
}
