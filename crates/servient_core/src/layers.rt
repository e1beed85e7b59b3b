//! The state of a servient, a part for each layer, and the moves that it makes.

ghost use Rattle.std.specs.Prelude.{◌≡◌, length};
ghost use Rattle.thing_site.specs.Fits.{Fits};
ghost use Rattle.servient_core.specs.Machine.{Follows, HearsDatagram};
ghost use Rattle.servient_outside.specs.Network.{byte_count, IsEvent};
ghost use Rattle.servient_core.specs.Serving.{IsReady};
ghost use Rattle.servient_core.specs.Keeping.{DoesMove};
ghost use Rattle.servient_trace.specs.Trace.{outside};

use crate::connections::Rooms;
use crate::performing::{observed_by, perform};
use crate::{Event, Net, What};
use coap_bind::{CoapBind, CoapNext};
use coap_msg::{Endpoint, LONGEST_DATAGRAM, LONGEST_MESSAGE};
use directory_requests::DirectoryServer;
use http_bind::HttpBind;
use thing_core::Exposed;
use thing_handler::Handlers;

/// The state of a servient in a run. `specs/Serving.antt` says which states of the machine it stands for.
#[derive(Drop)]
pub struct Layers {
    /// The greatest moment so far, in milliseconds.
    pub moment: u64,
    /// The Things, and the part of their state that isn't their devices'.
    pub exposed: Exposed,
    /// The directory.
    pub directory: DirectoryServer,
    /// The CoAP server with its exchanges and observers.
    pub coap: CoapBind,
    /// The connections of the HTTP server, with the requests that wait.
    pub http: HttpBind,
}

impl Layers {
    /// Makes the move of an event, at the machine's moment.
    pub fn follow<N: Net, R: Handlers>(
        &mut self,
        net: &mut N,
        rack: &mut R,
        event: &Event,
        bytes: &[u8],
        rooms: &mut Rooms,
    )
        requires ready { IsReady self.old }
        requires fits { Fits self.old.exposed.site (R.slots rack.old) }
        requires event { IsEvent event.now }
        requires bytes { length bytes.now ≡ byte_count event.now.what }
        ensures { DoesMove (Follows self.old.exposed.site event.now.what bytes.now) self.old self.new
            (outside (N.seen net.old) (R.slots rack.old)) (outside (N.seen net.new) (R.slots rack.new)) }
    {
        match event.what {
            What::Opened(c) => self.http.opened(c, self.moment),
            What::Bytes(c, _) => self.piece(net, rack, c, bytes, rooms),
            What::Ended(c) => self.http.ended(c),
            What::Datagram(from, _) => self.datagram(net, rack, from, bytes, rooms),
            What::Tick => self.poll_all(net, rack, &mut rooms.reply),
            What::Stop => {}
        }
    }

    /// Answers a datagram.
    pub fn datagram<N: Net, R: Handlers>(
        &mut self,
        net: &mut N,
        rack: &mut R,
        from: Endpoint,
        bytes: &[u8],
        rooms: &mut Rooms,
    )
        requires ready { IsReady self.old }
        requires fits { Fits self.old.exposed.site (R.slots rack.old) }
        ensures { DoesMove (HearsDatagram self.old.exposed.site from bytes.now) self.old self.new
            (outside (N.seen net.old) (R.slots rack.old)) (outside (N.seen net.new) (R.slots rack.new)) }
    {
        if bytes.len() > LONGEST_DATAGRAM {
            return;
        }
        // The room is on the stack, so that a reply takes no memory.
        let mut out = [0u8; LONGEST_MESSAGE];
        let room = &mut rooms.message;
        match self.coap.datagram(from, bytes, self.moment, &mut out, room) {
            CoapNext::Nothing => {}
            CoapNext::Send(size) => net.datagram(from, &out[..size]),
            CoapNext::Ask(ask, ticket) => {
                let outcome = perform(&mut self.exposed, rack, &ask.request);
                let target = observed_by(&self.exposed, &ask);
                let size = self.coap.answer(ticket, &outcome, target, &mut out);
                net.datagram(from, &out[..size]);
                self.deliver(net, &mut rooms.reply);
            }
        }
    }
}
