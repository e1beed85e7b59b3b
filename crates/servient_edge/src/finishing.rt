//! The last writes, once a run is over.

use crate::moments::Moments;
use crate::sockets::Sockets;
use servient_system::System;

// For how many milliseconds it is written, and how often a millisecond passes at most.
const LIMIT: u64 = 2000;

/// Writes what is kept for connections until nothing is, for two seconds at most.
pub fn write_kept<S: System>(system: &mut S, moments: &mut Moments, sockets: &mut Sockets) {
    if moments.read(system).is_err() {
        return;
    }
    let end = moments.last().saturating_add(LIMIT);
    for _ in 0..LIMIT {
        let moment = moments.last();
        if moment >= end || !sockets.flush(system, moment) || sockets.pause(system).is_err() {
            return;
        }
        if moments.read(system).is_err() {
            return;
        }
    }
}
