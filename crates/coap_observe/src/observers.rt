//! The observers, in the order in which they registered.

use crate::giving_up::give_up;
use crate::notice::{Notice, Registered};
use crate::observer::SoughtObserver;
use crate::slots::ObserverSlots;
use coap_msg::{Endpoint, LONGEST_TOKEN};
use servient_base::{NoMemory, Target};
use std::alloc::Global;
use std::marker::Model;

/// The observers of a server. Contracts see them in order of registration, and the number that there may be (`Watching`
/// of specs/Watching.antt). The code also keeps a moment before which nothing is to be sent, so that `next_send` looks
/// at them only from then on. 0 says that it must look.
#[derive(Drop)]
pub struct Watchers {
    slots: ObserverSlots,
    quiet_until: u64,
}

impl Model for Watchers {
    ghost use Rattle.coap_observe.specs.Watching.{Watching};

    ghost Value = { Watching };

    ghost use Rattle.coap_observe.specs.Watched.{watching_of, IsWatched};

    ghost view = { watching_of };

    ghost invariant = { IsWatched };
}

impl Watchers {
    ghost use Rattle.std.specs.Prelude.{◌≡◌, ◌≤◌, ◌<◌, ◌^◌, length, IfOk, IfSome};
    ghost use Rattle.std.specs.List.{list_any};
    ghost use Rattle.coap_observe.specs.Unsent.{unsent};
    ghost use Rattle.coap_observe.specs.Watching.{none_watch, Registers, sequence_of, is_pair, is_sent_as, without_pair, with_emission, with_acknowledgement, with_reset, Notifies, IsSendable};

    /// A list for at most `capacity` observers. All its memory is taken here.
    pub fn new(alloc: Global, capacity: u32) -> Result<Watchers, NoMemory>
        requires least { 1 ≤ capacity }
        requires most { capacity ≤ 1024 }
        ensures { IfOk result (λ w. w ≡ none_watch capacity) }
    {
        let slots = ObserverSlots::new(alloc, capacity)?;
        Ok(Watchers {
            slots,
            quiet_until: 0,
        })
    }

    /// Registers the observer of this endpoint and token for a target (RFC 7641, section 4.1).
    pub fn register(&mut self, from: Endpoint, token: &[u8], target: Target) -> Registered
        requires { length token.now ≤ LONGEST_TOKEN }
        ensures ok { Registers from token.now target self.old result self.new }
        ensures bound { IfSome (sequence_of result) (λ n. n < 2 ^ 24) }
    {
        match self.slots.pair_slot(from, token) {
            Some(slot) => {
                // Its notification is forgotten, so that others of its endpoint may now be sent to.
                self.quiet_until = 0;
                Registered::Replaced(register_again(&mut self.slots, slot, target))
            }
            None => {
                if self.slots.add(from, token, target) {
                    Registered::New(0)
                } else {
                    Registered::Full
                }
            }
        }
    }

    /// Ends the observation of this endpoint and token (RFC 7641, section 3.6), and says whether there was one.
    pub fn cancel(&mut self, from: Endpoint, token: &[u8]) -> bool
        ensures list { self.new ≡ without_pair from token.now self.old }
        ensures found { result ≡ list_any (is_pair from token.now) self.old.list }
    {
        match self.slots.pair_slot(from, token) {
            Some(slot) => {
                self.quiet_until = 0;
                self.slots.remove(slot);
                true
            }
            None => false,
        }
    }

    /// A target has a new value: its observers are to be notified.
    pub fn emit(&mut self, target: Target)
        ensures { self.new ≡ with_emission target self.old }
    {
        self.quiet_until = 0;
        self.slots.mark(target);
    }

    /// An endpoint acknowledged the message with this ID (RFC 7252, section 4.2). Says whether a notification to it had
    /// that ID and wasn't acknowledged.
    pub fn acked(&mut self, from: Endpoint, id: u16) -> bool
        ensures list { self.new ≡ with_acknowledgement from id self.old }
        ensures found { result ≡ list_any (is_sent_as from id) self.old.list }
    {
        match self.slots.wanted_slot(from, SoughtObserver::SentAs(id)) {
            Some(slot) => {
                self.slots.acknowledge(slot);
                // Nothing becomes due, and only to this endpoint something may now be sent.
                if self.slots.has_marked(from) {
                    self.quiet_until = 0;
                }
                true
            }
            None => false,
        }
    }

    /// An endpoint rejected the message with this ID, which ends the observation (RFC 7641, section 3.6). Says whether
    /// a notification to it had that ID and wasn't acknowledged.
    pub fn reset(&mut self, from: Endpoint, id: u16) -> bool
        ensures list { self.new ≡ with_reset from id self.old }
        ensures found { result ≡ list_any (is_sent_as from id) self.old.list }
    {
        match self.slots.wanted_slot(from, SoughtObserver::SentAs(id)) {
            Some(rejected) => {
                self.quiet_until = 0;
                self.slots.remove(rejected);
                true
            }
            None => false,
        }
    }

    /// Gives the notification to be sent now, one at most, after which less is to be sent. It has this message ID where
    /// it is no message that was sent before. A caller calls it until it returns None.
    pub fn next_send(&mut self, now: u64, id: u16) -> Option<Notice>
        ensures list { Notifies now id self.old.list result self.new.list }
        ensures capacity { self.new.capacity ≡ self.old.capacity }
        ensures bounds { IfSome result IsSendable }
        ensures less { IfSome result (λ n. unsent now self.new.list < unsent now self.old.list) }
    {
        if now < self.quiet_until {
            return None;
        }
        self.quiet_until = 0;
        give_up(&mut self.slots, now);
        match self.slots.due_slot(now) {
            Some(slot) => Some(self.slots.send_again(slot, now, id)),
            None => match self.slots.sendable_slot() {
                Some(free) => Some(self.slots.send_first(free, now, id)),
                None => {
                    self.quiet_until = self.slots.next_due();
                    None
                }
            },
        }
    }
}

ghost use Rattle.std.specs.Prelude.{◌≡◌, ◌<◌, ◌^◌};
ghost use Rattle.coap_observe.specs.Places.{Place, IsAt, IsUsed, with_change};
ghost use Rattle.coap_observe.specs.Watching.{next_sequence, replaced};

/// The observer in a slot registers anew, for this target; returns the sequence number that the response says. A
/// function of its own, so that a wrong body is refused by this contract.
fn register_again(slots: &mut ObserverSlots, slot: u32, target: Target) -> u32
    requires { IsUsed slot slots.old }
    ensures slots { slots.new ≡ with_change slot (replaced target) slots.old }
    ensures number { (p : Place) → IsAt slot p slots.old → result ≡ next_sequence p.observer.sequence }
    ensures bound { result < 2 ^ 24 }
{
    let sequence = slots.observer(slot).sequence_after();
    slots.replace(slot, target);
    sequence
}
