//! The wish of a request for the observers, and the effect of its answer on them (RFC 7641).

ghost use Rattle.std.specs.Prelude.{◌≡◌};
ghost use Rattle.coap_bind.specs.Observing.{observing_of, may_notify, effect_of};
ghost use Rattle.coap_bind.specs.declared.observing.Observing.TheVariants as observing;

use coap_msg::{Code, GET, LONGEST_PAYLOAD};
use thing_ops::Outcome;

/// The wish of a request for the observers (RFC 7641, section 2).
#[derive(Clone, Copy, Debug, PartialEq, Eq)]
pub enum Observing {
    /// They are to stay as they are.
    Unchanged,
    /// Its sender is to be notified of its target.
    Registers,
    /// Its sender isn't to be notified any more.
    Deregisters,
}

/// The effect of the answer to a request on the observers.
#[derive(Clone, Copy, Debug, PartialEq, Eq)]
pub enum Effect {
    /// They stay as they are.
    Nothing,
    /// The observation with the endpoint and the token of the request is ended.
    Cancels,
    /// They observe this target.
    Registers(u32),
}

/// The wish for the observers of a request of this code and with this value of Observe.
pub fn observing_of(code: Code, observe: Option<u32>) -> Observing
    ensures { result ≡ observing_of code observe }
{
    if code != GET {
        return Observing::Unchanged;
    }
    match observe {
        None => Observing::Unchanged,
        Some(0) => Observing::Registers,
        Some(1) => Observing::Deregisters,
        Some(_) => Observing::Unchanged,
    }
}

/// The effect on the observers of the answer to a request that has this outcome and is for this target.
pub fn effect_of(observing: Observing, outcome: &Outcome, target: Option<u32>) -> Effect
    ensures { result ≡ effect_of observing outcome.now target }
{
    match observing {
        Observing::Unchanged => Effect::Nothing,
        Observing::Registers => registering(outcome, target),
        Observing::Deregisters => match outcome {
            // It wasn't acted on, since memory was out.
            Outcome::Memory => Effect::Nothing,
            _ => Effect::Cancels,
        },
    }
}

/// The same of a request that wants to register.
fn registering(outcome: &Outcome, target: Option<u32>) -> Effect
    ensures { result ≡ effect_of observing.Registers outcome.now target }
{
    match target {
        Some(target) => {
            if may_notify(outcome) {
                Effect::Registers(target)
            } else {
                Effect::Nothing
            }
        }
        None => Effect::Nothing,
    }
}

/// Whether the response to a request with this outcome may be a notification.
fn may_notify(outcome: &Outcome) -> bool
    ensures { result ≡ may_notify outcome.now }
{
    match outcome {
        Outcome::Content { text, .. } => text.len() <= LONGEST_PAYLOAD,
        Outcome::Empty => true,
        _ => false,
    }
}
