//! The endpoints that are given up (RFC 7641, section 4.5).

ghost use Rattle.std.specs.Prelude.{◌≡◌, ◌≤◌, None};
ghost use Rattle.coap_observe.specs.Places.{observers_in};
ghost use Rattle.coap_observe.specs.Unsent.{unsent};
ghost use Rattle.coap_observe.specs.Watching.{hopeless, is_from, without, GivesUp};

use crate::observer::SoughtObserver;
use crate::slots::ObserverSlots;
use coap_msg::Endpoint;

/// Removes all observers of each endpoint whose first due notification was sent again as often as it may be. The search
/// begins anew each time, since a removal changes the list.
pub fn give_up(slots: &mut ObserverSlots, now: u64)
    ensures gives_up { GivesUp now (observers_in slots.old) (observers_in slots.new) }
    ensures less { unsent now (observers_in slots.new) ≤ unsent now (observers_in slots.old) }
    ensures served { hopeless now (observers_in slots.new) ≡ None }
    ensures capacity { slots.new.capacity ≡ slots.old.capacity }
{
    while let Some(slot) = slots.due_slot(now) {
        match slots.observer(slot).endpoint_given_up() {
            Some(from) => remove_endpoint(slots, from),
            None => return,
        }
    }
}

/// All observers of an endpoint are removed.
fn remove_endpoint(slots: &mut ObserverSlots, from: Endpoint)
    ensures observers { observers_in slots.new ≡ without (is_from from) (observers_in slots.old) }
    ensures capacity { slots.new.capacity ≡ slots.old.capacity }
{
    while let Some(slot) = slots.wanted_slot(from, SoughtObserver::Any) {
        slots.remove(slot);
    }
}
