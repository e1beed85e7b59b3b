//! New values: connections that wait for one get it, and observers are to be notified. Event affordances are polled
//! here, because the emissions of each are delivered before the next is polled.

ghost use Rattle.std.specs.Prelude.{◌≡◌, []};
ghost use Rattle.servient_base.specs.Moves.{Each};
ghost use Rattle.thing_site.specs.Site.{events_of};
ghost use Rattle.thing_site.specs.Fits.{Fits};
ghost use Rattle.servient_trace.specs.Trace.{outside};
ghost use Rattle.servient_core.specs.Machine.{Delivers, PollsAndDelivers};
ghost use Rattle.servient_core.specs.Serving.{IsReady};
ghost use Rattle.servient_core.specs.Keeping.{DoesMove, DoesQuietly, LeavesNoMore, OnlyDelivers, PollsOne, AnswersWaits};

use crate::Net;
use crate::connections::ReplyRoom;
use crate::layers::Layers;
use thing_core::Round;
use thing_handler::Handlers;

impl Layers {
    /// Delivers the emissions, in order: to the connections that wait for their target, and to its observers.
    pub fn deliver<N: Net>(&mut self, net: &mut N, room: &mut ReplyRoom)
        ensures delivered { DoesQuietly (Each Delivers self.old.exposed.pending) self.old self.new (N.seen net.old) (N.seen net.new) }
        ensures pending { self.new.exposed.pending ≡ [] }
        ensures only { OnlyDelivers self.old self.new }
    {
        while let Some(target) = self.exposed.emitted() {
            self.deliver_one(net, target, room);
        }
    }

    /// Delivers the last value of a target, by both bindings.
    fn deliver_one<N: Net>(&mut self, net: &mut N, target: u32, room: &mut ReplyRoom)
        ensures delivered { DoesQuietly (Delivers target) self.old self.new (N.seen net.old) (N.seen net.new) }
        ensures exposed { self.new.exposed ≡ self.old.exposed }
        ensures only { OnlyDelivers self.old self.new }
    {
        self.answer_waits(net, target, room);
        self.coap.emit(target);
    }

    /// The connections that wait for a target get its last value, the oldest first.
    fn answer_waits<N: Net>(&mut self, net: &mut N, target: u32, room: &mut ReplyRoom)
        ensures answered { DoesQuietly (AnswersWaits target) self.old self.new (N.seen net.old) (N.seen net.new) }
        ensures rest { self.new ≡ record self.old { http = self.new.http } }
        ensures left { LeavesNoMore self.old.http self.new.http }
    {
        while let Some(c) = self.http.waiting(target) {
            let text = self.exposed.last(target);
            room.wake(&mut self.http, net, c, self.moment, text);
        }
    }

    /// Polls all event affordances, one after another.
    pub fn poll_all<N: Net, R: Handlers>(&mut self, net: &mut N, rack: &mut R, room: &mut ReplyRoom)
        requires ready { IsReady self.old }
        requires fits { Fits self.old.exposed.site (R.slots rack.old) }
        ensures { DoesMove (Each PollsAndDelivers (events_of self.old.exposed.site.things)) self.old self.new
            (outside (N.seen net.old) (R.slots rack.old)) (outside (N.seen net.new) (R.slots rack.new)) }
    {
        let mut round = Round::new();
        while self.poll_next(net, rack, room, &mut round) {}
    }

    /// Polls the next event affordance of a round, and delivers its emissions. Whether one was left.
    fn poll_next<N: Net, R: Handlers>(
        &mut self,
        net: &mut N,
        rack: &mut R,
        room: &mut ReplyRoom,
        round: &mut Round,
    ) -> bool
        requires ready { IsReady self.old }
        requires fits { Fits self.old.exposed.site (R.slots rack.old) }
        ensures polled { PollsOne round.new self.old self.new (outside (N.seen net.old) (R.slots rack.old))
            (outside (N.seen net.new) (R.slots rack.new)) result round.old }
        ensures ready { IsReady self.new }
        ensures site { self.new.exposed.site ≡ self.old.exposed.site }
        ensures fits { Fits self.new.exposed.site (R.slots rack.new) }
    {
        if !self.exposed.poll_next(rack, round) {
            return false;
        }
        self.deliver(net, room);
        true
    }
}
