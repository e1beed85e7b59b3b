//! Observers as a plain list, which does the same as `Watchers` of `coap_observe`, by walks over all. It was the body
//! of that type before its slots were linked, and is here without its contract: its answers are compared, and prove
//! nothing.

ghost use Rattle.std.specs.Prelude.{◌≤◌, length};

use crate::observer::PlainObserver;
use coap_msg::{Endpoint, LONGEST_TOKEN};
use coap_observe::{Notice, Registered};
use std::alloc::{AllocError, Global};

/// The observers of a server, in order of registration.
#[derive(Drop)]
pub struct PlainObservers {
    capacity: u32,
    list: Vec<PlainObserver>,
}

impl PlainObservers {
    /// A list for at most `capacity` observers.
    pub fn new(alloc: Global, capacity: u32) -> Result<PlainObservers, AllocError> {
        let list = Vec::with_capacity(alloc, capacity as usize)?;
        Ok(PlainObservers { capacity, list })
    }

    /// Registers the observer of this endpoint and token for a target (RFC 7641, section 4.1).
    pub fn register(
        &mut self,
        from: Endpoint,
        token: &[u8],
        target: u32,
    ) -> Result<Registered, AllocError>
        requires { length token.now ≤ LONGEST_TOKEN }
    {
        if let Some(observer) = self
            .list
            .iter_mut()
            .find(|observer| observer.is_pair(from, token))
        {
            observer.replace(target);
            return Ok(Registered::Replaced(observer.sequence));
        }
        if self.list.len() >= self.capacity as usize {
            return Ok(Registered::Full);
        }
        self.list.push(PlainObserver::new(from, token, target))?;
        Ok(Registered::New(0))
    }

    /// Ends the observation of this endpoint and token, and says whether there was one.
    pub fn cancel(&mut self, from: Endpoint, token: &[u8]) -> bool {
        let found = self
            .list
            .iter()
            .any(|observer| observer.is_pair(from, token));
        self.list.retain(|observer| !observer.is_pair(from, token));
        found
    }

    /// A target has a new value.
    pub fn emit(&mut self, target: u32) {
        for observer in self.list.iter_mut() {
            if observer.target == target {
                observer.is_marked = true;
            }
        }
    }

    /// An endpoint acknowledged the message with this ID. Says whether a notification had it.
    pub fn acked(&mut self, from: Endpoint, id: u16) -> bool {
        let mut found = false;
        for observer in self.list.iter_mut() {
            if observer.is_sent_as(from, id) {
                observer.sent = None;
                found = true;
            }
        }
        found
    }

    /// An endpoint rejected the message with this ID. Says whether a notification had it.
    pub fn reset(&mut self, from: Endpoint, id: u16) -> bool {
        let found = self
            .list
            .iter()
            .any(|observer| observer.is_sent_as(from, id));
        self.list.retain(|observer| !observer.is_sent_as(from, id));
        found
    }

    /// The notification to be sent now.
    pub fn next_send(&mut self, now: u64, id: u16) -> Option<Notice> {
        self.give_up(now);
        match first_due(self.list.as_slice(), now) {
            Some(index) => send_again(self.list.as_mut_slice(), index, now, id),
            None => send_first(self.list.as_mut_slice(), now, id),
        }
    }

    /// Removes the observers of each endpoint whose first due notification was sent again as often as it may be.
    fn give_up(&mut self, now: u64) {
        for _turn in 0..self.list.len() {
            match given_up(self.list.as_slice(), now) {
                Some(from) => self.list.retain(|observer| !observer.is_from(from)),
                None => return,
            }
        }
    }
}

/// The place of the first observer whose notification is due.
fn first_due(list: &[PlainObserver], now: u64) -> Option<usize> {
    list.iter().position(|observer| observer.is_due(now))
}

/// The endpoint of that observer, if it is given up.
fn given_up(list: &[PlainObserver], now: u64) -> Option<Endpoint> {
    match list.iter().find(|observer| observer.is_due(now)) {
        Some(observer) => {
            if observer.is_exhausted() {
                Some(observer.from)
            } else {
                None
            }
        }
        None => None,
    }
}

/// Whether a notification to an endpoint isn't acknowledged.
fn is_busy(list: &[PlainObserver], from: Endpoint) -> bool {
    list.iter().any(|observer| observer.is_busy(from))
}

/// Sends the notification of the observer at a place again.
fn send_again(list: &mut [PlainObserver], index: usize, now: u64, id: u16) -> Option<Notice> {
    let observer = list.get_mut(index)?;
    let sent = observer.sent?;
    Some(observer.send_again(sent, now, id))
}

/// Sends to the first observer that has a value to be sent and whose endpoint acknowledged all.
fn send_first(list: &mut [PlainObserver], now: u64, id: u16) -> Option<Notice> {
    let index = first_free(list)?;
    let observer = list.get_mut(index)?;
    Some(observer.send_first(now, id))
}

/// The place of that observer.
fn first_free(list: &[PlainObserver]) -> Option<usize> {
    list.iter().position(|observer| observer.is_marked && !is_busy(list, observer.from))
}
