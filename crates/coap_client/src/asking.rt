//! The sending of a request, and its retransmissions.

ghost use Rattle.std.specs.Prelude.{◌≡◌};
ghost use Rattle.coap_client.specs.Names.{kept_token, token_after};
ghost use Rattle.coap_client.specs.Exchange.{is_registration};

use crate::ask::{Ask, put_ask};
use crate::observation::Observation;
use crate::outstanding::Outstanding;
use crate::state::State;
use crate::{ClientFault, Due};
use coap_msg::{BoundedBytes, Endpoint, LONGEST_MESSAGE, is_same_endpoint};
use servient_base::put_bytes;

impl State {
    ghost use Rattle.std.specs.Prelude.{◌≡◌, ◌≤◌, IfOk, IfErr, OnErr};
    ghost use Rattle.coap_client.specs.Asking.{MayAsk, asking_of};
    ghost use Rattle.coap_client.specs.Exchange.{Asks, IsRefused, ComesDue, ended, begun};

    /// Sends the request of an ask, or gives the fault for which it is refused.
    pub fn ask(
        &mut self,
        peer: Endpoint,
        ask: &Ask<'_>,
        out: &mut [u8; LONGEST_MESSAGE],
    ) -> Result<usize, ClientFault>
        requires { MayAsk (asking_of ask.now) }
        ensures ok { IfOk result (λ n. Asks self.old peer (asking_of ask.now) n out.old out.new self.new) }
        ensures fault { IfErr result (λ f. IsRefused self.old peer (asking_of ask.now) f) }
        ensures unchanged { OnErr result ((self.new ≡ self.old) × (out.new ≡ out.old)) }
    {
        if self.outstanding.is_some() {
            return Err(ClientFault::Busy);
        }
        // A match and not `let .. else`, since that says nothing of the case that fails.
        let id = match self.uses.free(self.next_id, self.moment) {
            Some(id) => id,
            None => return Err(ClientFault::IdsUsed),
        };
        let kept = kept_token(&self.observation, peer, ask.observe);
        let token = token_after(kept, self.next_token);
        let size = put_ask(ask, id, &token, out)?;
        let request = Outstanding {
            peer,
            id,
            token,
            first: self.moment,
            reached: 0,
            is_acknowledged: false,
            registers: is_registration(ask.observe),
            sent: BoundedBytes::of(&out[..size]),
        };
        self.begin(request, kept.is_some());
        Ok(size)
    }

    /// Holds a request that was sent, with a token that was kept or is the next one.
    fn begin(&mut self, request: Outstanding, kept: bool)
        ensures { self.new ≡ begun self.old request kept }
    {
        if request.registers {
            // Bound first, as the kit follows no array from a field into a literal.
            let token = request.token;
            self.observation = Some(Observation {
                peer: request.peer,
                token,
                latest: None,
            });
        }
        if !kept {
            self.next_token = self.next_token.wrapping_add(1);
        }
        self.next_id = request.id.wrapping_add(1);
        self.uses.use_now(request.id, self.moment);
        self.outstanding = Some(request);
    }

    /// Sends the outstanding request again, or ends it, where that is due now.
    pub fn due(&mut self, out: &mut [u8; LONGEST_MESSAGE]) -> Due
        ensures { ComesDue self.old result out.old out.new self.new }
    {
        match &mut self.outstanding {
            Some(request) => {
                let age = self.moment.saturating_sub(request.first);
                if request.deadline() <= age {
                    self.end();
                    return Due::TimedOut;
                }
                let reached = request.retransmissions_by(age);
                if reached <= request.reached {
                    return Due::Nothing;
                }
                request.reached = reached;
                Due::Send(put_bytes(out, 0, request.sent.as_bytes()))
            }
            None => Due::Nothing,
        }
    }

    /// Ends the outstanding request, without a response.
    pub fn end(&mut self)
        ensures { self.new ≡ ended self.old }
    {
        if self.registers() {
            self.observation = None;
        }
        self.outstanding = None;
    }

    ghost use Rattle.coap_client.specs.Exchange.{registers};

    /// Whether the outstanding request is a registration.
    pub fn registers(&self) -> bool
        ensures { result ≡ registers self.now.outstanding }
    {
        match &self.outstanding {
            Some(request) => request.registers,
            None => false,
        }
    }
}

/// The token of the observation, for a request to this server that ends it.
fn kept_token(
    observation: &Option<Observation>,
    peer: Endpoint,
    observe: Option<bool>,
) -> Option<[u8; 8]>
    ensures { result ≡ kept_token observation.now peer observe }
{
    match observation {
        Some(observation) => match observe {
            Some(false) => {
                if is_same_endpoint(peer, observation.peer) {
                    Some(observation.token)
                } else {
                    None
                }
            }
            Some(true) | None => None,
        },
        None => None,
    }
}

/// The token that was kept, or else the bytes of the next number.
fn token_after(kept: Option<[u8; 8]>, number: u64) -> [u8; 8]
    ensures { result ≡ token_after kept number }
{
    match kept {
        Some(token) => token,
        None => number.to_be_bytes(),
    }
}

/// Whether an ask is a registration.
fn is_registration(observe: Option<bool>) -> bool
    ensures { result ≡ is_registration observe }
{
    match observe {
        Some(register) => register,
        None => false,
    }
}
