//! One observer as it is kept.

use crate::notice::Notice;
use crate::notification::Notification;
use crate::sequence::Sequence;
use coap_msg::{BoundedBytes, Endpoint, LONGEST_TOKEN, is_same_endpoint};
use servient_base::Target;

/// The observer of an endpoint that is looked for.
#[derive(Clone, Copy)]
pub enum SoughtObserver {
    /// Any.
    Any,
    /// One to which something was sent with this message ID that isn't acknowledged.
    SentAs(u16),
    /// One to which something was sent that isn't acknowledged.
    Unacknowledged,
    /// One whose target has a value that wasn't sent to it yet.
    Marked,
}

/// An observer of a target (RFC 7641, section 4.1).
#[derive(Drop)]
pub struct Observer {
    /// The endpoint from which it registered.
    pub from: Endpoint,
    /// The token of its registration.
    pub token: BoundedBytes<LONGEST_TOKEN>,
    /// The target that it observes.
    pub target: Target,
    /// The last sequence number that was sent to it.
    pub sequence: Sequence,
    /// Whether its target has a value that wasn't sent to it yet.
    pub is_marked: bool,
    /// The notification that was sent to it and isn't acknowledged.
    pub notification: Option<Notification>,
}

impl Observer {
    ghost use Rattle.std.specs.Prelude.{◌≡◌, ◌≤◌, ◌<◌, ◌^◌, ℕ, length, true, false, Some};
    ghost use Rattle.coap_observe.specs.Sending.{Sent};
    ghost use Rattle.coap_observe.specs.Places.{is_wanted, sent_once_more, IsSentOnceMore};
    ghost use Rattle.coap_observe.specs.Watching.{where_so, newcomer, replaced, marked, acknowledged, is_of_target, is_from, is_pair, is_sent_as, is_busy, is_due, is_given_up, given_up_endpoint, next_sequence, resent, renewed, notified, IsNotification, IsSendable};

    /// One that registers.
    pub fn new(from: Endpoint, token: &[u8], target: Target) -> Self
        requires { length token.now ≤ LONGEST_TOKEN }
        ensures { result ≡ newcomer from token.now target }
    {
        Observer {
            from,
            token: BoundedBytes::of(token),
            target,
            sequence: Sequence::first(),
            is_marked: false,
            notification: None,
        }
    }

    /// The sequence number after the last one.
    pub fn sequence_after(&self) -> u32
        ensures ok { result ≡ next_sequence self.now.sequence }
        ensures bound { result < 2 ^ 24 }
    {
        self.sequence.next().number()
    }

    /// It registers anew, for this target.
    pub fn replace(&mut self, target: Target)
        ensures { self.new ≡ replaced target self.old }
    {
        self.target = target;
        self.sequence = self.sequence.next();
        self.is_marked = false;
        self.notification = None;
    }

    /// It is to be notified, if it observes this target.
    pub fn mark_if(&mut self, target: Target)
        ensures { self.new ≡ where_so (is_of_target target) marked self.old }
    {
        if self.target == target {
            self.is_marked = true;
        }
    }

    /// Its notification is acknowledged.
    pub fn acknowledge(&mut self)
        ensures { self.new ≡ acknowledged self.old }
    {
        self.notification = None;
    }

    /// Its notification is sent again now, or a new message with this message ID in place of it, where its target has a
    /// newer value.
    pub fn send_again(&mut self, now: u64, id: u16) -> Notice
        requires { is_given_up self.old ≡ false }
        ensures state { self.new ≡ sent_once_more now id self.old }
        ensures waits { is_due now self.new ≡ false }
        ensures notice { IsSentOnceMore id self.old result }
        ensures bounds { IsSendable result }
    {
        if self.is_marked {
            let notice = self.notice(id, self.sequence_after(), true);
            self.renew(now, id);
            notice
        } else {
            let notice = self.notice(self.last_id(), self.sequence.number(), false);
            self.resend(now);
            notice
        }
    }

    /// The last value is sent to it now, with this message ID.
    pub fn send_first(&mut self, now: u64, id: u16) -> Notice
        ensures state { self.new ≡ notified now id self.old }
        ensures waits { is_due now self.new ≡ false }
        ensures notice { IsNotification self.old id (next_sequence self.old.sequence) true result }
        ensures bounds { IsSendable result }
    {
        let notice = self.notice(id, self.sequence_after(), true);
        self.notify(now, id);
        notice
    }

    /// The message ID of its notification; 0 where there is none.
    fn last_id(&self) -> u16
        ensures { (s : Sent) → self.now.notification ≡ Some s → result ≡ s.id }
    {
        match &self.notification {
            Some(notification) => notification.id(),
            None => 0,
        }
    }

    /// Its notification is sent again now, if there is one.
    fn resend(&mut self, now: u64)
        requires { is_given_up self.old ≡ false }
        ensures sent { self.new ≡ resent now self.old }
        ensures waits { is_due now self.new ≡ false }
    {
        self.notification = match &self.notification {
            Some(notification) => Some(notification.again(now, notification.id())),
            None => None,
        };
    }

    /// A new message with this message ID is sent now in place of its notification, if there is one.
    fn renew(&mut self, now: u64, id: u16)
        requires { is_given_up self.old ≡ false }
        ensures sent { self.new ≡ renewed now id self.old }
        ensures waits { is_due now self.new ≡ false }
    {
        self.sequence = self.sequence.next();
        self.is_marked = false;
        self.notification = match &self.notification {
            Some(notification) => Some(notification.again(now, id)),
            None => None,
        };
    }

    /// The last value is sent to it now, with this message ID.
    fn notify(&mut self, now: u64, id: u16)
        ensures sent { self.new ≡ notified now id self.old }
        ensures waits { is_due now self.new ≡ false }
    {
        self.sequence = self.sequence.next();
        self.is_marked = false;
        self.notification = Some(Notification::first(now, id));
    }

    /// The notification that a message to it carries. The token is copied, so that the loan of the observer ends.
    fn notice(&self, id: u16, sequence: u32, fresh: bool) -> Notice
        requires { sequence < 2 ^ 24 }
        ensures notice { IsNotification self.now id sequence fresh result }
        ensures bounds { IsSendable result }
    {
        let token = self.token.as_bytes();
        let mut room = [0u8; LONGEST_TOKEN];
        room[..token.len()].copy_from_slice(token);
        Notice {
            to: self.from,
            token: room,
            token_length: token.len(),
            target: self.target,
            id,
            sequence,
            fresh,
        }
    }

    /// Whether it is of this endpoint.
    pub fn is_from(&self, from: Endpoint) -> bool
        ensures { result ≡ is_from from self.now }
    {
        is_same_endpoint(from, self.from)
    }

    /// Whether it is the one of this endpoint and token.
    pub fn is_pair(&self, from: Endpoint, token: &[u8]) -> bool
        ensures { result ≡ is_pair from token.now self.now }
    {
        is_same_endpoint(from, self.from) && token == self.token.as_bytes()
    }

    /// Whether it is of this endpoint, and its notification with this message ID isn't acknowledged.
    pub fn is_sent_as(&self, from: Endpoint, id: u16) -> bool
        ensures { result ≡ is_sent_as from id self.now }
    {
        match &self.notification {
            Some(notification) => is_same_endpoint(from, self.from) && id == notification.id(),
            None => false,
        }
    }

    /// Whether it is of this endpoint, and its notification isn't acknowledged.
    pub fn is_busy(&self, from: Endpoint) -> bool
        ensures { result ≡ is_busy from self.now }
    {
        self.notification.is_some() && is_same_endpoint(from, self.from)
    }

    /// Whether it is of this endpoint, and wanted.
    pub fn is_wanted(&self, from: Endpoint, wanted: SoughtObserver) -> bool
        ensures { result ≡ is_wanted from wanted self.now }
    {
        match wanted {
            SoughtObserver::Any => self.is_from(from),
            SoughtObserver::SentAs(id) => self.is_sent_as(from, id),
            SoughtObserver::Unacknowledged => self.is_busy(from),
            SoughtObserver::Marked => self.is_from(from) && self.is_marked,
        }
    }

    /// Whether its notification is to be sent again, or given up.
    pub fn is_due(&self, now: u64) -> bool
        ensures { result ≡ is_due now self.now }
    {
        match &self.notification {
            Some(notification) => notification.is_due(now),
            None => false,
        }
    }

    /// A moment before which it isn't due.
    pub fn due_from(&self) -> u64
        ensures { (now : ℕ) → now < result → is_due now self.now ≡ false }
    {
        match &self.notification {
            Some(notification) => notification.due_from(),
            None => u64::MAX,
        }
    }

    /// Its endpoint, if its notification was sent again as often as it may be.
    pub fn endpoint_given_up(&self) -> Option<Endpoint>
        ensures { result ≡ given_up_endpoint self.now }
    {
        match &self.notification {
            Some(notification) => {
                if notification.is_exhausted() {
                    Some(self.from)
                } else {
                    None
                }
            }
            None => None,
        }
    }
}
