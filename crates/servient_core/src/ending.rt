//! The end of each event: notifications go out, requests that waited too long are answered, and idle connections are
//! closed.

ghost use Rattle.std.specs.Prelude.{◌≡◌, ◌≤◌, ◌∷◌, []};
ghost use Rattle.coap_observe.specs.Watching.{IsSendable};
ghost use Rattle.servient_outside.specs.Network.{NetShows, did};
ghost use Rattle.servient_outside.specs.declared.net.Act.TheVariants as act;
ghost use Rattle.servient_core.specs.Machine.{SendsNotifications, EndsEvent, notification_bytes};
ghost use Rattle.servient_core.specs.Serving.{IsReady};
ghost use Rattle.servient_core.specs.Keeping.{DoesQuietly, LeavesNoMore, AnswersLateWaits, ClosesAllIdle};

use crate::Net;
use crate::connections::ReplyRoom;
use crate::layers::Layers;
use coap_msg::LONGEST_MESSAGE;
use coap_observe::Notice;

impl Layers {
    /// Does the last part of each event.
    pub fn end_event<N: Net>(&mut self, net: &mut N, room: &mut ReplyRoom)
        requires { IsReady self.old }
        ensures ends { DoesQuietly EndsEvent self.old self.new (N.seen net.old) (N.seen net.new) }
        ensures ready { IsReady self.new }
        ensures exposed { self.new.exposed ≡ self.old.exposed }
    {
        self.send_notifications(net);
        self.answer_late_waits(net, room);
        self.close_idle(net);
    }

    /// Sends the notifications that are due to observers.
    fn send_notifications<N: Net>(&mut self, net: &mut N)
        ensures sent { DoesQuietly SendsNotifications self.old self.new (N.seen net.old) (N.seen net.new) }
        ensures rest { self.new ≡ record self.old { coap = self.new.coap } }
        ensures exchanges { self.new.coap.exchanges ≡ self.old.coap.exchanges }
    {
        while let Some(notice) = self.coap.next_send(self.moment) {
            self.notify(net, &notice);
        }
    }

    /// Sends a notification, with the last value of its target.
    fn notify<N: Net>(&self, net: &mut N, notice: &Notice)
        requires { IsSendable notice.now }
        ensures { NetShows (N.seen net.old) (N.seen net.new) (did (act.Datagram notice.now.to (notification_bytes notice.now self.now.exposed.state)) ∷ []) }
    {
        // The room is on the stack, so that a notification takes no memory.
        let mut out = [0u8; LONGEST_MESSAGE];
        let value = match self.exposed.last(notice.target) {
            Some(value) => value,
            None => &[],
        };
        let size = self.coap.put_notice(notice, value, &mut out);
        net.datagram(notice.to, &out[..size]);
    }

    /// Tells the connections that waited too long that nothing came, the oldest first.
    fn answer_late_waits<N: Net>(&mut self, net: &mut N, room: &mut ReplyRoom)
        ensures answered { DoesQuietly AnswersLateWaits self.old self.new (N.seen net.old) (N.seen net.new) }
        ensures rest { self.new ≡ record self.old { http = self.new.http } }
        ensures left { LeavesNoMore self.old.http self.new.http }
    {
        while let Some(c) = self.http.late(self.moment) {
            room.wake(&mut self.http, net, c, self.moment, None);
        }
    }

    /// Closes the connections that are idle, the lowest first.
    fn close_idle<N: Net>(&mut self, net: &mut N)
        requires { IsReady self.old }
        ensures closed { DoesQuietly ClosesAllIdle self.old self.new (N.seen net.old) (N.seen net.new) }
        ensures ready { IsReady self.new }
        ensures exposed { self.new.exposed ≡ self.old.exposed }
    {
        while let Some(c) = self.http.idle(self.moment) {
            self.http.ended(c);
            net.close(c);
        }
    }
}
