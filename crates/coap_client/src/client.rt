//! The CoAP client: asks, takes datagrams, and sends requests again when they are due.

ghost use Rattle.std.specs.Prelude.{IfOk};

use crate::ids::Ids;
use crate::state::State;
use crate::{Ask, ClientFault, Delivered, Due, NoMemory};
use coap_msg::{Endpoint, LONGEST_MESSAGE};
use std::alloc::Global;
use std::marker::Model;

/// The client's side of all its exchanges. Contracts see its contents (`State`, which specs/Exchange.antt explains).
///
/// Each call takes the moment at which it is made, in milliseconds, none of which is before the last one.
#[derive(Drop)]
pub struct Client {
    state: State,
}

impl Model for Client {
    ghost use Rattle.coap_client.specs.declared.state.State.{State};

    ghost Value = { State };

    ghost view = { λ c. c.state };
}

impl Client {
    ghost use Rattle.std.specs.Prelude.{◌≡◌, ◌≤◌, IfOk, IfErr, OnErr, is_some};
    ghost use Rattle.coap_client.specs.Asking.{MayAsk, asking_of};
    ghost use Rattle.coap_client.specs.Exchange.{IsNew, at_moment, Asks, IsRefused, Delivers, SaysBlock, ComesDue};

    /// A client whose first message has this ID, which is handed in, since this crate draws no numbers. All its memory
    /// is taken here.
    pub fn new(alloc: Global, first_id: u16) -> Result<Client, NoMemory>
        ensures { IfOk result (λ c. IsNew first_id c) }
    {
        let uses = Ids::new(alloc)?;
        Ok(Client {
            state: State {
                moment: 0,
                outstanding: None,
                observation: None,
                next_token: 0,
                next_id: first_id,
                uses,
            },
        })
    }

    /// Asks a server for something: the message to be sent to it is written to the beginning of `out`, and the number
    /// of its bytes returned.
    pub fn request(
        &mut self,
        now: u64,
        peer: Endpoint,
        ask: &Ask<'_>,
        out: &mut [u8; LONGEST_MESSAGE],
    ) -> Result<usize, ClientFault>
        requires now { self.old.moment ≤ now }
        requires ask { MayAsk (asking_of ask.now) }
        ensures ok { IfOk result (λ n. Asks (at_moment now self.old) peer (asking_of ask.now) n out.old out.new self.new) }
        ensures fault { IfErr result (λ f. IsRefused (at_moment now self.old) peer (asking_of ask.now) f) }
        ensures unchanged { OnErr result ((self.new ≡ at_moment now self.old) × (out.new ≡ out.old)) }
        ensures moment { self.new.moment ≡ now }
    {
        self.state.moment = now;
        self.state.ask(peer, ask, out)
    }

    /// Takes a datagram that came from an endpoint. Where there is a reply to it, that is written to the beginning of
    /// `out`, and goes to the same endpoint.
    pub fn deliver<'b>(
        &mut self,
        now: u64,
        from: Endpoint,
        bytes: &'b [u8],
        out: &mut [u8; LONGEST_MESSAGE],
    ) -> Delivered<'b>
        requires { self.old.moment ≤ now }
        ensures ok { Delivers (at_moment now self.old) from bytes.now result out.old out.new self.new }
        ensures block { SaysBlock result.news }
        ensures moment { self.new.moment ≡ now }
    {
        self.state.moment = now;
        self.state.deliver(from, bytes, out)
    }

    /// Sends the outstanding request again, or ends it, where that is due at a moment: a message to be sent again, to
    /// the peer of the request, is written to the beginning of `out`.
    pub fn due(&mut self, now: u64, out: &mut [u8; LONGEST_MESSAGE]) -> Due
        requires { self.old.moment ≤ now }
        ensures ok { ComesDue (at_moment now self.old) result out.old out.new self.new }
        ensures moment { self.new.moment ≡ now }
    {
        self.state.moment = now;
        self.state.due(out)
    }

    /// Whether a request is outstanding: it was sent, and nothing ended it yet.
    pub fn has_outstanding(&self) -> bool
        ensures { result ≡ is_some self.now.outstanding }
    {
        self.state.outstanding.is_some()
    }
}
