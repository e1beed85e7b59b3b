//! The connections of a servient (RFC 9112): the messages of each stream are taken and answered, one after another, and
//! requests that wait are replied to.

ghost use Rattle.std.specs.Prelude.{◌≡◌, ◌≤◌, ◌<◌, ◌++◌, map, length, option_map, true, false, IfSome, IsSome};
ghost use Rattle.servient_base.specs.Moves.{Refines};
ghost use Rattle.thing_site.specs.Fits.{Fits};
ghost use Rattle.http_bind.specs.Replying.{fault_word};
ghost use Rattle.http_bind.specs.Slots.{left_at, longest_piece, longest_text, IsOwed, IsWaiting, HasRoom};
ghost use Rattle.servient_trace.specs.Trace.{Shows, outside};
ghost use Rattle.servient_outside.specs.Network.{NetShows, did};
ghost use Rattle.servient_core.specs.Machine.{HearsPiece, TakesEveryMessage, acts_of_reply};
ghost use Rattle.servient_core.specs.Serving.{StandsFor, IsReady};
ghost use Rattle.servient_core.specs.Keeping.{DoesMove, LeavesNoMore, OthersKeep, SendsToWait};
ghost use Rattle.servient_core.specs.Connections.{IsOn, TakesOne, SendsAnswer, SendsContinue, SendsRefusal, acts_of_answer};

use crate::Net;
use crate::layers::Layers;
use crate::performing::perform_by_http;
use http_bind::{HEAD_BYTES, HttpBind, HttpNext, HttpOut, NoMemory, ROOM, WORD_BYTES};
use http_wire::CONTINUE;
use std::alloc::Global;
use thing_handler::Handlers;
use thing_ops::Outcome;

/// Room for the parts of a message and for the reply to it, which is taken once and used for all, because one message
/// is handled at a time.
#[derive(Drop)]
pub struct Rooms {
    /// The query and the body of a message of HTTP, and the body of a request by CoAP that came in blocks.
    pub message: [u8; ROOM],
    /// The reply.
    pub reply: ReplyRoom,
}

/// Room for a reply.
#[derive(Drop)]
pub struct ReplyRoom {
    /// Its head.
    head: [u8; HEAD_BYTES],
    /// The word of an outcome or of a fault.
    word: [u8; WORD_BYTES],
}

impl Rooms {
    /// Takes the memory.
    pub fn new(alloc: Global) -> Result<Box<Rooms>, NoMemory> {
        let rooms = Rooms {
            message: [0; ROOM],
            reply: ReplyRoom {
                head: [0; HEAD_BYTES],
                word: [0; WORD_BYTES],
            },
        };
        Ok(Box::new(alloc, rooms)?)
    }
}

impl Layers {
    /// Bytes came on a connection: its messages that are whole now are taken, and each is answered before the next is.
    pub fn piece<N: Net, R: Handlers>(
        &mut self,
        net: &mut N,
        rack: &mut R,
        c: u32,
        piece: &[u8],
        rooms: &mut Rooms,
    )
        requires connection { c < 64 }
        requires piece { length piece.now ≤ longest_piece }
        requires ready { IsReady self.old }
        requires fits { Fits self.old.exposed.site (R.slots rack.old) }
        ensures { DoesMove (HearsPiece self.old.exposed.site c piece.now) self.old self.new
            (outside (N.seen net.old) (R.slots rack.old)) (outside (N.seen net.new) (R.slots rack.new)) }
    {
        self.http.bytes(c, piece, self.moment);
        self.take_all(net, rack, c, rooms);
    }

    /// Takes the messages of a connection that are whole, one after another. A loop, so that a piece with any number of
    /// them needs no recursion: each leaves less to take (`left_at`). One that closes its connection leaves nothing.
    fn take_all<N: Net, R: Handlers>(
        &mut self,
        net: &mut N,
        rack: &mut R,
        c: u32,
        rooms: &mut Rooms,
    )
        requires on { IsOn c self.old (R.slots rack.old) }
        ensures taken { Refines StandsFor Shows (TakesEveryMessage self.old.exposed.site c) self.old self.new
            (outside (N.seen net.old) (R.slots rack.old)) (outside (N.seen net.new) (R.slots rack.new)) }
        ensures on { IsOn c self.new (R.slots rack.new) }
        ensures site { self.new.exposed.site ≡ self.old.exposed.site }
        ensures left { OthersKeep c self.old.http self.new.http }
        ensures room { HasRoom c self.new.http }
    {
        while self.take(net, rack, c, rooms) {}
    }

    /// Takes the next message of a connection and handles it; false: none can be taken.
    fn take<N: Net, R: Handlers>(
        &mut self,
        net: &mut N,
        rack: &mut R,
        c: u32,
        rooms: &mut Rooms,
    ) -> bool
        requires on { IsOn c self.old (R.slots rack.old) }
        ensures takes { Refines StandsFor Shows (TakesOne result self.old.exposed.site c) self.old self.new
            (outside (N.seen net.old) (R.slots rack.old)) (outside (N.seen net.new) (R.slots rack.new)) }
        ensures on { IsOn c self.new (R.slots rack.new) }
        ensures site { self.new.exposed.site ≡ self.old.exposed.site }
        ensures left { OthersKeep c self.old.http self.new.http }
        ensures ends { result ≡ false → HasRoom c self.new.http }
        ensures less { result ≡ true → left_at c self.new.http < left_at c self.old.http }
    {
        match self.http.next(c, &mut rooms.message) {
            HttpNext::Idle => false,
            HttpNext::Continue => {
                rooms.reply.send_continue(&mut self.http, net, c);
                true
            }
            HttpNext::Refuse(status) => {
                rooms.reply.refuse(&mut self.http, net, c, status);
                true
            }
            HttpNext::Close => {
                net.close(c);
                true
            }
            HttpNext::Memory => {
                rooms
                    .reply
                    .answer(&mut self.http, net, c, self.moment, &Outcome::Memory);
                true
            }
            HttpNext::Ask(request) => {
                let outcome = perform_by_http(
                    &mut self.exposed,
                    &mut self.directory,
                    self.moment,
                    rack,
                    &request,
                );
                rooms
                    .reply
                    .answer(&mut self.http, net, c, self.moment, &outcome);
                self.deliver(net, &mut rooms.reply);
                true
            }
        }
    }
}

impl ReplyRoom {
    /// Answers the message that was taken last from a connection by this outcome: the reply is sent, or the request
    /// waits.
    fn answer<N: Net>(
        &mut self,
        http: &mut HttpBind,
        net: &mut N,
        c: u32,
        moment: u64,
        outcome: &Outcome,
    )
        requires connection { c < 64 }
        requires owed { IsOwed c http.old }
        ensures answered { SendsAnswer c outcome.now moment http.old http.new (N.seen net.old) (N.seen net.new) }
        ensures left { LeavesNoMore http.old http.new }
    {
        let out = http.answered(c, outcome, moment, &mut self.head, &mut self.word);
        if !out.waits {
            send(net, c, &out);
        }
    }

    /// Replies to a connection that waits, with a value or with none.
    pub fn wake<N: Net>(
        &mut self,
        http: &mut HttpBind,
        net: &mut N,
        c: u32,
        moment: u64,
        text: Option<&[u8]>,
    )
        requires waiting { IsWaiting c http.old }
        requires text { IfSome text (λ t. length t.now ≤ longest_text) }
        ensures replied { SendsToWait c (option_map (λ t. t.now) text.entry) moment http.old http.new (N.seen net.old) (N.seen net.new) }
        ensures left { LeavesNoMore http.old http.new }
        ensures fewer { length http.new.waits < length http.old.waits }
    {
        let out = http.woken(c, text, moment, &mut self.head);
        send(net, c, &out);
    }

    /// Sends the 100 reply, after which the connection stays open.
    fn send_continue<N: Net>(&mut self, http: &mut HttpBind, net: &mut N, c: u32)
        requires { c < 64 }
        ensures continued { SendsContinue c http.old http.new (N.seen net.old) (N.seen net.new) }
        ensures left { LeavesNoMore http.old http.new }
    {
        let out = http.refused(c, CONTINUE, &mut self.head, &mut self.word);
        send(net, c, &out);
    }

    /// Sends the reply to a fault, which closes the connection.
    fn refuse<N: Net>(&mut self, http: &mut HttpBind, net: &mut N, c: u32, status: u16)
        requires connection { c < 64 }
        requires status { IsSome (fault_word status) }
        ensures refused { SendsRefusal c status http.old http.new (N.seen net.old) (N.seen net.new) }
        ensures closed { left_at c http.new ≤ 0 }
        ensures left { LeavesNoMore http.old http.new }
    {
        let out = http.refused(c, status, &mut self.head, &mut self.word);
        send(net, c, &out);
    }
}

/// Sends a reply on a connection, and closes the connection afterwards where the reply says so.
#[tactic(auto, using(crate::proofs::ConnectionLaws::shows_closed, crate::proofs::ConnectionLaws::shows_kept))]
fn send<N: Net>(net: &mut N, c: u32, out: &HttpOut<'_>)
    ensures { NetShows (N.seen net.old) (N.seen net.new) (map did (acts_of_reply c (record { bytes = out.now.head.now ++ out.now.body.now; closes = out.now.close }))) }
{
    net.send(c, out.head, out.body);
    if out.close {
        net.close(c);
    }
}
